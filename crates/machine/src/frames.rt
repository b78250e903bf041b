// The frame, which is where the machine stands, and the cells that a base, a level and an operand name.
ghost use Rattle.std.specs.Prelude.{◌≡◌, ◌<◌, pos};
ghost use Rattle.numbers.specs.Limits.{max_code};
ghost use Rattle.machine.specs.Machine.{up};
ghost use Rattle.machine.specs.Frames.{from_by, there_by, onward, jumped, framed, Below, Free, Names, Reaches};

use numbers::limits::CELLS;
use numbers::refusal::Refusal;

// The cells that the machine works on.
pub type Cells = [i64; CELLS];

// Place of the next instruction, base, top.
#[derive(Clone, Copy)]
pub struct Frame {
    pub pc: usize,
    pub base: i64,
    pub top: usize,
}

impl Frame {
    // On to the next instruction, with another top.
    pub fn onward(mut self, top: usize) -> Frame
        requires { self.pc < max_code }
        ensures { result ≡ onward self top }
    {
        self.pc = self.pc + 1;
        self.top = top;
        self
    }

    // To another place.
    pub fn jumped(mut self, to: usize) -> Frame
        ensures { result ≡ jumped self to }
    {
        self.pc = to;
        self
    }

    // With another base and another top.
    pub fn framed(mut self, base: i64, top: usize) -> Frame
        ensures { result ≡ framed self base top }
    {
        self.base = base;
        self.top = top;
        self
    }

    // The cell below the top.
    pub fn last(self) -> Result<usize, Refusal>
        ensures { Below self.top result }
    {
        if self.top == 0 {
            return Err(Refusal::CellOutside);
        }
        Ok(self.top - 1)
    }

    // The cell that a push writes.
    pub fn free(self) -> Result<usize, Refusal>
        ensures { Free self.top result }
    {
        if CELLS <= self.top {
            return Err(Refusal::CellOutside);
        }
        Ok(self.top)
    }
}

// The cell a places above a base.
pub fn from(base: i64, a: i64) -> Result<usize, Refusal>
    ensures { Names result (from_by base a) }
{
    if base < 0 || a < 0 {
        return Err(Refusal::CellOutside);
    }
    let i = base as usize + a as usize;
    if CELLS <= i {
        return Err(Refusal::CellOutside);
    }
    Ok(i)
}

// The base so many levels up, by the static links.
pub fn up(cells: &Cells, level: u16, base: i64) -> Result<i64, Refusal>
    ensures { Reaches result (up cells.now level base) }
{
    let mut reached = base;
    for _ in 0..level {
        reached = cells[from(reached, 1)?];
    }
    Ok(reached)
}

// The cell of a level and an operand.
pub fn there(cells: &Cells, level: u16, a: i64, base: i64) -> Result<usize, Refusal>
    ensures { Names result (there_by cells.now level a base) }
{
    from(up(cells, level, base)?, a)
}
