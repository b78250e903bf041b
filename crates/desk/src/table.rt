// The table of numbers, the message of a refusal, and the status that the program ends with.
ghost use Rattle.std.specs.Prelude.{◌≡◌, length};
ghost use Rattle.desk.specs.Page.{Put, SameRoom};
ghost use Rattle.desk.specs.Table.{meaning_of, row, refusal, status_of};

use crate::page::Page;
use numbers::refusal::Refusal;

// The greatest number.
const LAST: u8 = Refusal::ProcedureInTree as u8;

// The first and the last number of a refused run.
const BUDGET_SPENT: u8 = Refusal::BudgetSpent as u8;

const OUTPUT_FULL: u8 = Refusal::OutputFull as u8;

// What a number means; nothing where it means nothing.
#[tactic(auto, unfolding(crate::specs::Table::meaning_of, crate::specs::Table::line_at, crate::specs::Table::line_span, crate::specs::Table::after_line, crate::specs::Table::lines, crate::specs::Table::meanings, numbers::specs::Bytes::bytes))]
pub fn meaning_of(number: u8) -> &'static [u8]
    ensures { result.now ≡ meaning_of number }
{
    match number {
        0 => b"done",
        1 => b"the source is over 32,768 bytes",
        2 => b"a byte of 128 or more stands in the source",
        3 => b"a bad token",
        4 => b"a literal above 9223372036854775807",
        5 => b"a required token is not there, or the text ends",
        6 => b"the main body failed quietly",
        7 => b"a 65th construct opens at once",
        8 => b"an 8,193rd token",
        9 => b"a name is already in this scope",
        10 => b"a name is not found",
        11 => b"a name is of the wrong kind",
        12 => b"the wrong number of arguments",
        13 => b"a variable or procedure that is found has a level above the current one",
        14 => b"a 513th symbol row",
        15 => b"a 4,097th instruction",
        16 => b"the budget was spent before the program halted",
        17 => b"a cell outside 0..4095, or a top outside 0..4096",
        18 => b"a jump, call or return to outside the code, or a fetch past its end",
        19 => b"a result outside i64, also of negating or dividing the least value by -1",
        20 => b"a division by zero",
        21 => b"NIL, or an OPR number outside 0..16",
        22 => b"the next entry is bad or missing",
        23 => b"the output of this step does not fit",
        24 => b"the lent room is too small",
        25 => b"the sheet has a procedure, and only run takes those",
        _ => b"",
    }
}

impl Page<'_> {
    // Puts what a number means.
    pub fn put_meaning(&mut self, number: u8)
        ensures { Put (meaning_of number) self.old self.new }
    {
        self.put(meaning_of(number));
    }

    // Puts a line of the table: a number and what it means.
    fn put_row(&mut self, number: u8)
        ensures { Put (row number) self.old self.new }
    {
        self.put_count(u64::from(number));
        self.put(b"  ");
        self.put_meaning(number);
        self.put(b"\n");
    }

    // Puts the table of all numbers.
    pub fn put_table(&mut self)
        ensures { SameRoom self.old self.new }
    {
        for number in 0..=LAST {
            self.put_row(number);
        }
    }

    // Puts the message of a refusal: the sheet's name first, the number, and what it means.
    pub fn put_refusal(&mut self, name: &[u8], number: u8)
        ensures { Put (refusal name.now number) self.old self.new }
    {
        self.put(name);
        self.put(b": refused with ");
        self.put_count(u64::from(number));
        self.put(b": ");
        self.put_meaning(number);
        self.put(b"\n");
    }
}

// The status for a number: 0 done, 2 a refused run, 1 a refused sheet.
#[tactic(auto, unfolding(crate::specs::Table::status_of))]
pub fn status_of(number: u8) -> u8
    ensures { result ≡ status_of number }
{
    match number {
        0 => 0,
        BUDGET_SPENT..=OUTPUT_FULL => 2,
        _ => 1,
    }
}
