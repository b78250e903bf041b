// One step: the instruction at the frame's place is fetched, judged and done, as far as it does not talk to the outside.
ghost use Rattle.std.specs.Prelude.{List, ℕ};
ghost use Rattle.pcode.specs.Code.{Instr, instrs_in};
ghost use Rattle.pcode.specs.Coded.{lent};
ghost use Rattle.machine.specs.Machine.{perform, step};
ghost use Rattle.machine.specs.Frames.{Sound, Steady};
ghost use Rattle.machine.specs.Steps.{Did, Listed};

use crate::frames::{Cells, Frame, there};
use crate::jumps::{cal, goto, jpc};
use crate::opr::{opr, write};
use crate::stack::{int, lod, push, sta, sto};
use crate::steps::Does;
use numbers::refusal::Refusal;
use pcode::{Code, Kind};

// RED: a line is to be read into the cell of a level and an operand.
fn red(cells: &Cells, level: u16, a: i64, f: Frame) -> Result<Does, Refusal>
    requires { Steady f }
    ensures { (code : List Instr) (room : ℕ) → Did code room (perform code room Rattle.pcode.specs.Code.RED level a) f cells.now result cells.now }
{
    let i = there(cells, level, a, f.base)?;
    f.free()?;
    Ok(Does::Read(i))
}

pub fn step(code: Code<'_>, places: usize, cells: &mut Cells, f: Frame) -> Result<Does, Refusal>
    requires { Listed (lent code) places × Sound f }
    ensures { (room : ℕ) → let list = instrs_in (lent code.entry) in Did list room (step list room) f cells.old result cells.new }
{
    let pc = f.pc;
    if places <= pc {
        return Err(Refusal::PlaceOutside);
    }
    let Some(kind) = Kind::of(code.kinds[pc]) else {
        return Err(Refusal::NotAnOperation);
    };
    let a = code.operands[pc];
    match kind {
        Kind::Nil => Err(Refusal::NotAnOperation),
        Kind::Lit => push(cells, a, f),
        Kind::Opr => opr(cells, places, a, f),
        Kind::Lod => lod(cells, code.levels[pc], a, f),
        Kind::Sto => sto(cells, code.levels[pc], a, f),
        Kind::Sta => sta(cells, code.levels[pc], a, f),
        Kind::Cal => cal(cells, places, code.levels[pc], a, f),
        Kind::Int => int(a, f),
        Kind::Jmp => goto(places, a, f),
        Kind::Jpc => jpc(cells, places, a, f),
        Kind::Red => red(cells, code.levels[pc], a, f),
        Kind::Wrt => write(cells, f),
    }
}
