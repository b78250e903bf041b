// The counted run: quiet steps until one talks, its exchange, and on, until the program ends or the budget is spent.
ghost use Rattle.std.specs.Prelude.{◌≡◌, ℕ, length};
ghost use Rattle.numbers.specs.Limits.{max_cells};
ghost use Rattle.numbers.specs.Refusals.{number_of};
ghost use Rattle.pcode.specs.Code.{instrs_in};
ghost use Rattle.pcode.specs.Coded.{lent};
ghost use Rattle.machine.specs.Outcome.{run_outcome};
ghost use Rattle.machine.specs.Frames.{Sound};
ghost use Rattle.machine.specs.Steps.{Listed};
ghost use Rattle.machine.specs.Runs.{Paused, Counted, number_at, outcome_of};

use crate::frames::{Cells, Frame};
use crate::step::step;
use crate::steps::Does;
use crate::talk::{Talk, Tape, exchange};
use numbers::limits::{CELLS, MAX_CODE};
use numbers::refusal::Refusal;
use pcode::Code;

// The number of the panel for a program that halted.
const DONE: u8 = 0;

// Number, output length, lines taken, steps completed.
#[repr(C)]
#[derive(Clone, Copy)]
pub struct Ended {
    pub number: u8,
    pub out_len: usize,
    pub lines: usize,
    pub steps: u32,
}

// Quiet steps came to one that talks: the frame there, the budget that is left after it, and what it exchanges. Or the run
// ended: how, the frame, and the budget that is left.
#[derive(Clone, Copy)]
pub enum Pause {
    Talks(Frame, u32, Talk),
    Ends(Result<(), Refusal>, Frame, u32),
}

fn quiet(code: Code<'_>, places: usize, cells: &mut Cells, budget: u32, start: Frame) -> Pause
    requires { Listed (lent code) places × Sound start }
    ensures { (room : ℕ) → Paused (instrs_in (lent code.entry)) room budget start cells.old result cells.new }
{
    let mut f = start;
    let mut left = budget;
    while 0 < left {
        match step(code, places, cells, f) {
            Ok(Does::Next(g)) => f = g,
            Ok(Does::Halt(g)) => return Pause::Ends(Ok(()), g, left - 1),
            Ok(Does::Write(z)) => return Pause::Talks(f, left - 1, Talk::Write(z)),
            Ok(Does::NewLine) => return Pause::Talks(f, left - 1, Talk::NewLine),
            Ok(Does::Read(i)) => return Pause::Talks(f, left - 1, Talk::Read(i)),
            Err(refusal) => return Pause::Ends(Err(refusal), f, left),
        }
        left = left - 1;
    }
    Pause::Ends(Err(Refusal::BudgetSpent), f, 0)
}

// The number of an end.
fn number(how: Result<(), Refusal>) -> u8
    ensures { result ≡ number_at how }
{
    match how {
        Ok(()) => DONE,
        Err(refusal) => refusal.number(),
    }
}

fn counted(
    code: Code<'_>,
    places: usize,
    input: &[u8],
    budget: u32,
    out: &mut [u8],
    cells: &mut Cells,
) -> Ended
    requires { Listed (lent code) places }
    ensures counted { Counted (instrs_in (lent code.entry)) input.now budget out.old cells.old result out.new cells.new }
    ensures long { length cells.new ≡ max_cells }
{
    let start = Frame {
        pc: 0,
        base: 0,
        top: 0,
    };
    let mut t = Tape {
        at: 0,
        out: 0,
        lines: 0,
    };
    let mut p = quiet(code, places, cells, budget, start);
    loop {
        match p {
            Pause::Ends(how, _, left) => {
                return Ended {
                    number: number(how),
                    out_len: t.out,
                    lines: t.lines,
                    steps: budget - left,
                };
            }
            Pause::Talks(f, left, w) => match exchange(w, cells, input, out, f, t) {
                Ok((g, u)) => {
                    t = u;
                    p = quiet(code, places, cells, left, g);
                }
                Err(refusal) => {
                    return Ended {
                        number: refusal.number(),
                        out_len: t.out,
                        lines: t.lines,
                        steps: budget - left - 1,
                    };
                }
            },
        }
    }
}

// A run that was not begun.
fn refused(refusal: Refusal) -> Ended
    ensures { (result.number ≡ number_of refusal) × (result.out_len ≡ 0) × (result.lines ≡ 0) × (result.steps ≡ 0) }
{
    Ended {
        number: refusal.number(),
        out_len: 0,
        lines: 0,
        steps: 0,
    }
}

// Runs a code list from its first place, with so many steps at most.
pub fn run(
    kinds: &[i8],
    levels: &[u16],
    operands: &[i64],
    input: &[u8],
    budget: u32,
    out: &mut [u8],
    cells: &mut [i64],
) -> Ended
    ensures { outcome_of result out.new cells.new ≡ run_outcome (record { kinds = kinds.now; levels = levels.now; operands = operands.now }) input.now budget out.old cells.old }
{
    let Some(cells) = cells.first_chunk_mut::<CELLS>() else {
        return refused(Refusal::RoomTooSmall);
    };
    cells.fill(0);
    let code = Code {
        kinds,
        levels,
        operands,
    };
    let places = code.len();
    if MAX_CODE < places {
        return refused(Refusal::TooManyInstructions);
    }
    counted(code, places, input, budget, out, cells)
}
