// Instructions that change the place: JMP, JPC, CAL and the return. "A jump, call or return to place 0 halts".
ghost use Rattle.std.specs.Prelude.{◌≡◌, List, ℕ, ◌<◌, ◌≤◌, pos, length, set};
ghost use Rattle.pcode.specs.Code.{Instr};
ghost use Rattle.machine.specs.Machine.{up, testing, calling, returning};
ghost use Rattle.machine.specs.Frames.{links_end, Steady, Reaches};
ghost use Rattle.machine.specs.Steps.{Did, Inside, went, linked};

use crate::frames::{Cells, Frame, from, up};
use crate::steps::Does;
use numbers::limits::{CELLS, LINKS};
use numbers::refusal::Refusal;

// The place of a target within the list.
fn target(places: usize, a: i64) -> Result<usize, Refusal>
    ensures { Inside places a result }
{
    if a < 0 {
        return Err(Refusal::PlaceOutside);
    }
    let to = a as usize;
    if places <= to {
        return Err(Refusal::PlaceOutside);
    }
    Ok(to)
}

// To a target within the list. The halt is asked for first: docs/PERFORMANCE.md.
pub fn goto(places: usize, a: i64, f: Frame) -> Result<Does, Refusal>
    ensures { result ≡ went places a f }
{
    if a == 0 && 0 < places {
        return Ok(Does::Halt(f));
    }
    let to = target(places, a)?;
    Ok(Does::Next(f.jumped(to)))
}

// JPC: on where the value on top is not 0. The value stays there.
pub fn jpc(cells: &Cells, places: usize, a: i64, f: Frame) -> Result<Does, Refusal>
    requires { Steady f }
    ensures { (code : List Instr) (room : ℕ) → length code ≡ places → Did code room (testing code room a) f cells.now result cells.now }
{
    let last = f.last()?;
    if cells[last] == 0 {
        return goto(places, a, f);
    }
    Ok(Does::Next(f.onward(f.top)))
}

// The static base of a call: found as if the first link were written, and the cells are as before.
fn outer_base(cells: &mut Cells, level: u16, top: usize, base: i64) -> Result<i64, Refusal>
    requires { top < links_end }
    ensures { Reaches result (up (set cells.old top base) level base) × (cells.new ≡ cells.old) }
{
    let old = cells[top];
    cells[top] = base;
    let outer = up(cells, level, base);
    cells[top] = old;
    outer
}

// The links of a call: old base, static base, return place.
fn link(cells: &mut Cells, top: usize, base: i64, outer: i64, back: usize)
    requires { (top < links_end) × (back < 4097) }
    ensures { cells.new ≡ linked cells.old top base outer (pos back) }
{
    cells[top] = base;
    cells[top + 1] = outer;
    cells[top + 2] = back as i64;
}

// CAL: the target is judged before a link is written.
pub fn cal(cells: &mut Cells, places: usize, level: u16, a: i64, f: Frame) -> Result<Does, Refusal>
    requires { Steady f }
    ensures { (code : List Instr) (room : ℕ) → length code ≡ places → Did code room (calling code room level a) f cells.old result cells.new }
{
    let top = f.top;
    if CELLS < top + LINKS {
        return Err(Refusal::CellOutside);
    }
    let outer = outer_base(cells, level, top, f.base)?;
    target(places, a)?;
    link(cells, top, f.base, outer, f.pc + 1);
    goto(places, a, f.framed(top as i64, top))
}

// OPR 0: "a return leaves the arguments".
pub fn back(cells: &Cells, places: usize, f: Frame) -> Result<Does, Refusal>
    requires { Steady f }
    ensures { (code : List Instr) (room : ℕ) → length code ≡ places → Did code room (returning code room) f cells.now result cells.now }
{
    let place = from(f.base, 2)?;
    let top = from(f.base, 0)?;
    goto(places, cells[place], f.framed(cells[top], top))
}
