// The words of the command line: commands, options and the number of a budget.
ghost use Rattle.std.specs.Prelude.{◌≡◌};
ghost use Rattle.numbers.specs.Answers.{option_of};
ghost use Rattle.desk.specs.Words.{command_of, choice_of, count_of};

use numbers::line::read_digits;

#[derive(Clone, Copy, PartialEq, Eq)]
pub enum Command {
    Run,
    Walk,
    Compile,
    Check,
    Both,
    Numbers,
    Help,
    Unknown,
}

// What the first word asks for.
#[tactic(auto, unfolding(crate::specs::Words::command_of, crate::specs::Words::spelled, numbers::specs::Bytes::bytes))]
pub fn command_of(word: &[u8]) -> Command
    ensures { result ≡ command_of word.now }
{
    if word == b"run".as_slice() {
        Command::Run
    } else if word == b"walk".as_slice() {
        Command::Walk
    } else if word == b"compile".as_slice() {
        Command::Compile
    } else if word == b"check".as_slice() {
        Command::Check
    } else if word == b"both".as_slice() {
        Command::Both
    } else if word == b"numbers".as_slice() {
        Command::Numbers
    } else if word == b"--help".as_slice() {
        Command::Help
    } else {
        Command::Unknown
    }
}

#[derive(Clone, Copy, PartialEq, Eq)]
pub enum Choice {
    Help,
    Steps,
    Budget,
    Sheet,
    Unknown,
}

// What a later word is: an option, or the name of a sheet.
#[tactic(auto, unfolding(crate::specs::Words::choice_of, crate::specs::Words::named, crate::specs::Words::spelled, numbers::specs::Bytes::bytes))]
pub fn choice_of(word: &[u8]) -> Choice
    ensures { result ≡ choice_of word.now }
{
    if word == b"--help".as_slice() {
        Choice::Help
    } else if word == b"--steps".as_slice() {
        Choice::Steps
    } else if word == b"--budget".as_slice() {
        Choice::Budget
    } else if word.starts_with(b"--") {
        Choice::Unknown
    } else {
        Choice::Sheet
    }
}

// The greatest number.
const MOST: u64 = u32::MAX as u64;

// The number that a word means: digits alone, up to 4,294,967,295.
pub fn count_of(word: &[u8]) -> Option<u32>
    ensures { option_of result ≡ count_of word.now }
{
    let n = read_digits(word, MOST)?;
    Some(n as u32)
}

// What the words behind the command ask for.
#[derive(Clone, Copy)]
pub struct Asked {
    pub help: bool,
    pub steps: bool,
    pub budget: u32,
    // the place of the sheet's name among the words
    pub sheet: Option<usize>,
    // the next word is the budget's number
    pub wants: bool,
}

// Why a word cannot be taken.
#[derive(Clone, Copy, PartialEq, Eq)]
pub enum Misused {
    // the budget's number is no number
    NoNumber,
    // it cannot stand here
    Unknown,
}

// Steps without --budget: a sheet that goes round for ever ends within a second.
pub const BUDGET: u32 = 10_000_000;

impl Asked {
    pub fn new() -> Self {
        Asked {
            help: false,
            steps: false,
            budget: BUDGET,
            sheet: None,
            wants: false,
        }
    }

    // Takes the word at a place.
    pub fn take(&mut self, at: usize, word: &[u8]) -> Result<(), Misused> {
        if self.wants {
            self.budget = count_of(word).ok_or(Misused::NoNumber)?;
            self.wants = false;
            return Ok(());
        }
        match choice_of(word) {
            Choice::Help => self.help = true,
            Choice::Steps => self.steps = true,
            Choice::Budget => self.wants = true,
            Choice::Sheet if self.sheet.is_none() => self.sheet = Some(at),
            Choice::Sheet | Choice::Unknown => return Err(Misused::Unknown),
        }
        Ok(())
    }
}
