// What a step exchanges with the outside: numbers and newlines to the output, the prompt and a line of the input. Each is
// made whole or not at all.
ghost use Rattle.std.specs.Prelude.{◌≡◌, List, ℕ, ◌+◌, ◌^◌, ◌<◌, ℤ};
ghost use Rattle.numbers.specs.Limits.{max_cells};
ghost use Rattle.machine.specs.Frames.{Steady};
ghost use Rattle.machine.specs.Talks.{wrote_to, took_to, Within, Ready, Spoke};

use crate::frames::{Cells, Frame};
use numbers::line::next_entry;
use numbers::refusal::Refusal;
use numbers::screen::{put_newline, put_number, put_prompt};

// What is exchanged: a number to write, a newline, or a line to read into a cell.
#[derive(Clone, Copy)]
pub enum Talk {
    Write(i64),
    NewLine,
    Read(usize),
}

// Where the input goes on, how much output there is, lines taken.
#[derive(Clone, Copy)]
pub struct Tape {
    pub at: usize,
    pub out: usize,
    pub lines: usize,
}

impl Tape {
    // With more output.
    fn wrote(mut self, out: usize) -> Tape
        ensures { result ≡ wrote_to self out }
    {
        self.out = out;
        self
    }

    // With more output and a line taken.
    fn took(self, at: usize, out: usize) -> Tape
        requires { self.lines < 2 ^ 32 }
        ensures { result ≡ took_to self at out }
    {
        Tape {
            at: at,
            out: out,
            lines: self.lines + 1,
        }
    }
}

fn write(out: &mut [u8], z: i64, f: Frame, t: Tape) -> Result<(Frame, Tape), Refusal>
    requires { Steady f × Within t out.old }
    ensures { (input : List ℕ) (cells : List ℤ) → Spoke input (Talk.Write z) f t cells out.old result cells out.new }
{
    let end = put_number(out, t.out, z)?;
    Ok((f.onward(f.top), t.wrote(end)))
}

fn newline(out: &mut [u8], f: Frame, t: Tape) -> Result<(Frame, Tape), Refusal>
    requires { Steady f × Within t out.old }
    ensures { (input : List ℕ) (cells : List ℤ) → Spoke input Talk.NewLine f t cells out.old result cells out.new }
{
    let end = put_newline(out, t.out)?;
    Ok((f.onward(f.top), t.wrote(end)))
}

// The entry is judged before the prompt is put, and both before the cell is written.
fn read(
    cells: &mut Cells,
    input: &[u8],
    out: &mut [u8],
    i: usize,
    f: Frame,
    t: Tape,
) -> Result<(Frame, Tape), Refusal>
    requires { Steady f × Within t out.old × (i < max_cells) × (f.top < max_cells) × (t.lines < 2 ^ 32) }
    ensures { Spoke input.now (Talk.Read i) f t cells.old out.old result cells.new out.new }
{
    let (z, next) = next_entry(input, t.at)?;
    let end = put_prompt(out, t.out)?;
    cells[i] = z;
    Ok((f.onward(f.top + 1), t.took(next, end)))
}

pub fn exchange(
    w: Talk,
    cells: &mut Cells,
    input: &[u8],
    out: &mut [u8],
    f: Frame,
    t: Tape,
) -> Result<(Frame, Tape), Refusal>
    requires { Steady f × Within t out.old × Ready w f × (t.lines < 2 ^ 32) }
    ensures { Spoke input.now w f t cells.old out.old result cells.new out.new }
{
    match w {
        Talk::Write(z) => write(out, z, f, t),
        Talk::NewLine => newline(out, f, t),
        Talk::Read(i) => read(cells, input, out, i, f, t),
    }
}
