// OPR and its seventeen operators.
ghost use Rattle.std.specs.Prelude.{◌≡◌, List, ℕ, ℤ, ◌-◌, length};
ghost use Rattle.numbers.specs.Arithmetic.{Val, val, flag, oddness, compared, equal, unequal, less, at_least, greater, at_most};
ghost use Rattle.numbers.specs.Answers.{val_of};
ghost use Rattle.pcode.specs.Operators.{read};
ghost use Rattle.pcode.specs.Code.{Instr, OPR};
ghost use Rattle.machine.specs.Machine.{held, unary, binary, writing, operate, perform};
ghost use Rattle.machine.specs.Frames.{Steady};
ghost use Rattle.machine.specs.Steps.{Did};

use crate::frames::{Cells, Frame};
use crate::jumps::back;
use crate::steps::Does;
use numbers::arithmetic;
use numbers::arithmetic::{Compare, flag_of};
use numbers::refusal::Refusal;
use pcode::Operator;

// The value of a comparison.
fn flagged(holds: bool) -> Result<i64, Refusal>
    ensures { val_of result ≡ val (flag holds) }
{
    Ok(flag_of(holds))
}

// An operator on the value on top, whose value takes its place.
fn unary<O: FnOnce(i64) -> Result<i64, Refusal>>(
    cells: &mut Cells,
    f: Frame,
    operate: O,
) -> Result<Does, Refusal>
    requires { Steady f × O.IsAlwaysCallable operate }
    ensures { (code : List Instr) (room : ℕ) (g : ℤ → Val) → ((r : _) → O.post operate (held cells.old (f.top - 1)) r → val_of r ≡ g (held cells.old (f.top - 1))) → Did code room (unary g) f cells.old result cells.new }
{
    let i = f.last()?;
    cells[i] = operate(cells[i])?;
    Ok(Does::Next(f.onward(f.top)))
}

// An operator on the two values on top, whose value takes the place of both.
fn binary<O: FnOnce(i64, i64) -> Result<i64, Refusal>>(
    cells: &mut Cells,
    f: Frame,
    operate: O,
) -> Result<Does, Refusal>
    requires { Steady f × O.IsAlwaysCallable operate }
    ensures { (code : List Instr) (room : ℕ) (g : ℤ → ℤ → Val) → ((r : _) → O.post operate (held cells.old (f.top - 2)) (held cells.old (f.top - 1)) r → val_of r ≡ g (held cells.old (f.top - 2)) (held cells.old (f.top - 1))) → Did code room (binary g) f cells.old result cells.new }
{
    if f.top < 2 {
        return Err(Refusal::CellOutside);
    }
    let i = f.top - 2;
    cells[i] = operate(cells[i], cells[i + 1])?;
    Ok(Does::Next(f.onward(i + 1)))
}

// The value on top is to be written: also WRT.
pub fn write(cells: &Cells, f: Frame) -> Result<Does, Refusal>
    requires { Steady f }
    ensures { (code : List Instr) (room : ℕ) → Did code room (writing code room) f cells.now result cells.now }
{
    let i = f.last()?;
    Ok(Does::Write(cells[i]))
}

// A line is to be read into the cell that a push writes.
fn read(f: Frame) -> Result<Does, Refusal>
    requires { Steady f }
    ensures { (code : List Instr) (room : ℕ) (cells : List ℤ) → Did code room (operate code room read) f cells result cells }
{
    let i = f.free()?;
    Ok(Does::Read(i))
}

pub fn opr(cells: &mut Cells, places: usize, a: i64, f: Frame) -> Result<Does, Refusal>
    requires { Steady f }
    ensures { (code : List Instr) (room : ℕ) → length code ≡ places → Did code room (perform code room OPR 0 a) f cells.old result cells.new }
{
    let Some(operator) = Operator::of(a) else {
        return Err(Refusal::NotAnOperation);
    };
    match operator {
        Operator::Return => back(cells, places, f),
        Operator::Negate => unary(cells, f, arithmetic::negate),
        Operator::Add => binary(cells, f, arithmetic::add),
        Operator::Sub => binary(cells, f, arithmetic::sub),
        Operator::Mul => binary(cells, f, arithmetic::mul),
        Operator::Div => binary(cells, f, arithmetic::div),
        Operator::Odd => unary(
            cells,
            f,
            |x|
                ensures { val_of result ≡ oddness x }
            { Ok(arithmetic::remainder(x)) },
        ),
        Operator::Idle => Ok(Does::Next(f.onward(f.top))),
        Operator::Equal => binary(
            cells,
            f,
            |x, y|
                ensures { val_of result ≡ compared equal x y }
            { flagged(Compare::Equal.holds(x, y)) },
        ),
        Operator::Unequal => binary(
            cells,
            f,
            |x, y|
                ensures { val_of result ≡ compared unequal x y }
            { flagged(Compare::Unequal.holds(x, y)) },
        ),
        Operator::Less => binary(
            cells,
            f,
            |x, y|
                ensures { val_of result ≡ compared less x y }
            { flagged(Compare::Less.holds(x, y)) },
        ),
        Operator::AtLeast => binary(
            cells,
            f,
            |x, y|
                ensures { val_of result ≡ compared at_least x y }
            { flagged(Compare::AtLeast.holds(x, y)) },
        ),
        Operator::Greater => binary(
            cells,
            f,
            |x, y|
                ensures { val_of result ≡ compared greater x y }
            { flagged(Compare::Greater.holds(x, y)) },
        ),
        Operator::AtMost => binary(
            cells,
            f,
            |x, y|
                ensures { val_of result ≡ compared at_most x y }
            { flagged(Compare::AtMost.holds(x, y)) },
        ),
        Operator::Write => write(cells, f),
        Operator::NewLine => Ok(Does::NewLine),
        Operator::Read => read(f),
    }
}
