// The program `loopgarret`: compiles, runs and walks rule sheets. The script of the same name at the repository's root
// starts it.
//
// It ends with one of four statuses: 0 done, 1 a refused sheet, 2 a refused run, 3 bad usage, an unreadable file or a
// failed write.
#![tactic(auto)]

mod calls;
mod ending;
mod help;
mod say;
mod session;
mod sheet;

use desk::words::{Asked, Command, Misused, command_of};
use std::env::FillError;
use std::process::ExitCode;
use std::rt::Env;

// The words from the second on; where one cannot be taken, that is said, and the status is the error.
fn read_words(rt: &HostRuntime) -> Result<Asked, u8> {
    let mut asked = Asked::new();
    for i in 2..usize::MAX {
        let mut word = io::buffer();
        match rt.arg(i, &mut word) {
            Ok(n) => take_word(rt, &mut asked, i, &word[..n])?,
            Err(FillError::NotPresent) => break,
            Err(FillError::TooLong) => return Err(say::too_long(rt)),
        }
    }
    if asked.wants {
        return Err(say::no_number(rt));
    }
    Ok(asked)
}

// One word; what cannot be taken is named.
fn take_word(rt: &HostRuntime, asked: &mut Asked, i: usize, word: &[u8]) -> Result<(), u8> {
    match asked.take(i, word) {
        Ok(()) => Ok(()),
        Err(Misused::NoNumber) => Err(say::no_number(rt)),
        Err(Misused::Unknown) => Err(say::not_understood(rt, word)),
    }
}

// What a command does with the words behind it.
fn obey(rt: &HostRuntime, command: Command) -> u8 {
    let asked = match read_words(rt) {
        Ok(asked) => asked,
        Err(status) => return status,
    };
    if asked.help {
        return help::of(rt, command);
    }
    match (command, asked.sheet) {
        (Command::Numbers, None) => say::table(rt),
        (Command::Numbers, Some(_)) => say::sheet_too_many(rt),
        (_, None) => say::no_sheet(rt),
        (_, Some(place)) => {
            let mut name = io::buffer();
            let n = rt.arg(place, &mut name).unwrap_or(0);
            sheet::open(rt, command, asked, &name[..n])
        }
    }
}

// What the first word asks for.
fn start(rt: &HostRuntime) -> u8 {
    let mut word = io::buffer();
    let Ok(n) = rt.arg(1, &mut word) else {
        return help::wanted(rt);
    };
    let command = command_of(&word[..n]);
    match command {
        Command::Help => help::all(rt),
        Command::Unknown => say::no_command(rt, &word[..n]),
        _ => obey(rt, command),
    }
}

fn main(rt: HostRuntime) -> ExitCode {
    ExitCode::from(start(&rt))
}
