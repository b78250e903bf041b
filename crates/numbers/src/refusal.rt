// The refusals, each with the number that the panel shows for it.
ghost use Rattle.std.specs.Prelude.{◌≡◌};
ghost use Rattle.numbers.specs.Refusals.{number_of};

// What a sheet, a run or a walk is refused for, in the panel's order from 1 on; 0 is done.
#[derive(Clone, Copy, PartialEq, Eq)]
pub enum Refusal {
    // source over 32,768 bytes
    SourceTooLong = 1,
    // a source byte of 128 or more, anywhere
    SourceNotAscii,
    // a bad token is looked at
    BadToken,
    // a literal above 9223372036854775807 is looked at
    LiteralTooBig,
    // a required token is not there, or the text ends
    TokenMissing,
    // the main body failed quietly
    BodyFailedQuietly,
    // a 65th construct opens at once
    TooManyOpen,
    // an 8,193rd token is looked at
    TooManyTokens,
    // name already in this scope
    NameTaken,
    // name not found
    NameNotFound,
    // name of the wrong kind
    WrongKind,
    // wrong number of arguments
    WrongArguments,
    // variable or procedure found has a level above the current one
    LevelAbove,
    // a 513th symbol row
    TooManyRows,
    // a 4,097th instruction; or run is given more than 4,096
    TooManyInstructions,
    // budget spent before the program halted
    BudgetSpent,
    // a cell outside 0..4095, or a top outside 0..4096
    CellOutside,
    // a jump, call or return to outside the list, or fetch past its end
    PlaceOutside,
    // a result outside i64, also negating or dividing the least value by -1
    ResultOutside,
    // division by zero
    DivisionByZero,
    // NIL, or an OPR number outside 0..16
    NotAnOperation,
    // next input line bad or missing
    BadEntry,
    // this step's output doesn't fit
    OutputFull,
    // lent room too small
    RoomTooSmall,
    // walk, and the tree holds a procedure
    ProcedureInTree,
}

impl Refusal {
    // The number that the panel shows.
    pub fn number(self) -> u8
        ensures { result ≡ number_of self }
    {
        self as u8
    }
}
