// Instructions that move values: LIT, LOD, STO, STA and INT. Each judges before it writes.
ghost use Rattle.std.specs.Prelude.{List, ℕ, ℤ};
ghost use Rattle.pcode.specs.Code.{Instr, LOD, STO, STA, INT};
ghost use Rattle.machine.specs.Machine.{pushed, perform};
ghost use Rattle.machine.specs.Frames.{Steady};
ghost use Rattle.machine.specs.Steps.{Did};

use crate::frames::{Cells, Frame, from, there};
use crate::steps::Does;
use numbers::limits::CELLS;
use numbers::refusal::Refusal;

// A value is pushed: also LIT.
pub fn push(cells: &mut Cells, z: i64, f: Frame) -> Result<Does, Refusal>
    requires { Steady f }
    ensures { (code : List Instr) (room : ℕ) → Did code room (pushed z) f cells.old result cells.new }
{
    let i = f.free()?;
    cells[i] = z;
    Ok(Does::Next(f.onward(i + 1)))
}

pub fn lod(cells: &mut Cells, level: u16, a: i64, f: Frame) -> Result<Does, Refusal>
    requires { Steady f }
    ensures { (code : List Instr) (room : ℕ) → Did code room (perform code room LOD level a) f cells.old result cells.new }
{
    let i = there(cells, level, a, f.base)?;
    let z = cells[i];
    push(cells, z, f)
}

pub fn sto(cells: &mut Cells, level: u16, a: i64, f: Frame) -> Result<Does, Refusal>
    requires { Steady f }
    ensures { (code : List Instr) (room : ℕ) → Did code room (perform code room STO level a) f cells.old result cells.new }
{
    let last = f.last()?;
    let i = there(cells, level, a, f.base)?;
    cells[i] = cells[last];
    Ok(Does::Next(f.onward(last)))
}

// The level is an offset below the top.
pub fn sta(cells: &mut Cells, level: u16, a: i64, f: Frame) -> Result<Does, Refusal>
    requires { Steady f }
    ensures { (code : List Instr) (room : ℕ) → Did code room (perform code room STA level a) f cells.old result cells.new }
{
    let top = f.top;
    let offset = usize::from(level);
    if top < offset || CELLS <= top - offset {
        return Err(Refusal::CellOutside);
    }
    let i = from(top as i64, a)?;
    cells[i] = cells[top - offset];
    Ok(Does::Next(f.onward(top)))
}

pub fn int(a: i64, f: Frame) -> Result<Does, Refusal>
    requires { Steady f }
    ensures { (code : List Instr) (room : ℕ) (cells : List ℤ) → Did code room (perform code room INT 0 a) f cells result cells }
{
    if a < 0 {
        return Err(Refusal::CellOutside);
    }
    let top = f.top + a as usize;
    if CELLS < top {
        return Err(Refusal::CellOutside);
    }
    Ok(Does::Next(f.onward(top)))
}
