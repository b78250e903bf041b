// Expressions and conditions: operands before their operator, left before right, one step for each.
ghost use Rattle.std.specs.Prelude.{◌≡◌, List, ◌+◌, ◌-◌, ◌*◌, ◌≤◌, ◌<◌, ℤ, pos, length, get_or};
ghost use Rattle.numbers.specs.Limits.{greatest};
ghost use Rattle.numbers.specs.Stack.{links};
ghost use Rattle.numbers.specs.Arithmetic.{Arith as Operator, Compare as Comparison};
ghost use Rattle.numbers.specs.Answers.{val_of, arith_of, compare_of};
ghost use Rattle.tree.specs.Tree.{Exp, Cond};
ghost use Rattle.tree.specs.Layout.{chain_kind, node_no};
ghost use Rattle.tree.specs.Nodes.{arith_no, compare_no};
ghost use Rattle.tree.specs.Standing.{ExpAt, HasExp, CondAt, HasCond};
ghost use Rattle.symbols.specs.Symbols.{main_scope, find};
ghost use Rattle.symbols.specs.Table.{part};
ghost use Rattle.walk.specs.Walk.{State, push, result as ended, value_in, walk_exp, walk_cond};
ghost use Rattle.walk.specs.Meets.{Known, rows_of, Cells, Shows, Gives, ExpGives, neg_walk, link_walk, rel_walk};

use numbers::arithmetic;
use numbers::arithmetic::{Arith, Compare};
use numbers::limits::{CELLS, LINKS};
use numbers::refusal::Refusal;
use tree::Kind;

// What the high half of a value counts.
const HALF: u64 = 4294967296;

// What a walk reads: the text, its tree, and the table's rows that are used; and how many variables there are.
#[derive(Clone, Copy)]
pub struct Env<'a> {
    pub text: &'a [u8],
    pub tree: &'a [u32],
    pub table: &'a [u32],
    pub used: usize,
    pub vars: usize,
}

// The budget that is left, and the top that the machine would have.
#[derive(Clone, Copy)]
pub struct Clock {
    pub left: u32,
    pub top: usize,
}

// One step that pushes a value: 16, then 17.
pub fn push(z: i64, clock: &mut Clock) -> Result<i64, Refusal>
    ensures { (w : State) → w.top ≡ clock.old.top → Gives (clock.old.top + 1) clock.old w (push z clock.old.left w) clock.new result }
{
    if clock.left == 0 {
        return Err(Refusal::BudgetSpent);
    }
    if clock.top >= CELLS {
        return Err(Refusal::CellOutside);
    }
    clock.left -= 1;
    clock.top += 1;
    Ok(z)
}

// One step of an operator, after which the top is `top`: 16, then the operator's own refusal.
fn settle(answer: Result<i64, Refusal>, top: usize, clock: &mut Clock) -> Result<i64, Refusal>
    ensures { (w : State) → w.top ≡ clock.old.top → Gives top clock.old w (ended top (val_of answer) clock.old.left w) clock.new result }
{
    if clock.left == 0 {
        return Err(Refusal::BudgetSpent);
    }
    let z = answer?;
    clock.left -= 1;
    clock.top = top;
    Ok(z)
}

// A constant's value by its halves.
fn whole(low: u32, high: u32) -> i64
    requires { low + 4294967296 * high ≤ greatest }
    ensures { result ≡ pos (low + 4294967296 * high) }
{
    (low as u64 + HALF * high as u64) as i64
}

// The place of a row's variable.
pub fn place_of(address: u32) -> usize
    ensures { result ≡ address - links }
{
    (address as usize).saturating_sub(LINKS)
}

// The value of the variable in a place, 0 where there is none.
fn variable(vars: &[i64], count: usize, place: usize) -> i64
    requires { count ≤ length vars.now }
    ensures { (vs : List ℤ) → Cells vars.now count vs → result ≡ get_or vs place (pos 0) }
{
    if place < count { vars[place] } else { 0 }
}

// A name's value: a constant's, or a variable's.
fn value_of(env: &Env<'_>, vars: &[i64], at: u32, len: u32) -> i64
    requires known { Known env.now vars.now }
    requires len_in_bounds { at + len ≤ length env.now.text.now }
    ensures { (vs : List ℤ) → Cells vars.now env.now.vars vs → result ≡ value_in (find (rows_of env.now) (part env.now.text.now at len) main_scope) vs }
{
    let Some(row) = symbols::find(env.text, env.table, env.used, at, len) else {
        return 0;
    };
    let symbol = symbols::read_row(env.table, row);
    match symbol.kind {
        symbols::Kind::Constant => whole(symbol.low, symbol.high),
        symbols::Kind::Variable => variable(vars, env.vars, place_of(symbol.address)),
        symbols::Kind::Procedure => 0,
    }
}

// An operator by its number in the tree.
fn operator(op: u32) -> Arith
    ensures { (o : Operator) → op ≡ arith_no o → arith_of result ≡ o }
{
    match op {
        1 => Arith::Add,
        2 => Arith::Sub,
        3 => Arith::Mul,
        _ => Arith::Div,
    }
}

// A comparison by its number in the tree.
fn comparison(op: u32) -> Compare
    ensures { (o : Comparison) → op ≡ compare_no o → compare_of result ≡ o }
{
    match op {
        1 => Compare::Equal,
        2 => Compare::Unequal,
        3 => Compare::Less,
        4 => Compare::AtLeast,
        5 => Compare::Greater,
        _ => Compare::AtMost,
    }
}

// The expression at i; one that is none of the others stands in brackets.
#[cycle(chain_exp_linked_negated)]
pub fn exp(env: &Env<'_>, i: usize, vars: &[i64], clock: &mut Clock) -> Result<i64, Refusal>
    requires known { Known env.now vars.now }
    requires has_exp { HasExp env.now.text.now env.now.tree.now i }
    ensures { ExpGives env.now i (walk_exp (rows_of env.now)) vars.now clock.old clock.new result }
{
    match tree::kind_at(env.tree, i) {
        Kind::Chain => chain(env, i, vars, clock),
        Kind::Name => push(value_of(env, vars, env.tree[i + 2], env.tree[i + 3]), clock),
        Kind::Number => push(tree::value_at(env.tree, i), clock),
        Kind::Neg => negated(env, i + 4, vars, clock),
        _ => exp(env, i + 4, vars, clock),
    }
}

// The expression at i, and a leading minus on it.
#[cycle(chain_exp_linked_negated)]
fn negated(env: &Env<'_>, i: usize, vars: &[i64], clock: &mut Clock) -> Result<i64, Refusal>
    requires known { Known env.now vars.now }
    requires has_exp { HasExp env.now.text.now env.now.tree.now i }
    ensures { ExpGives env.now i (neg_walk (rows_of env.now)) vars.now clock.old clock.new result }
{
    let z = exp(env, i, vars, clock)?;
    settle(arithmetic::negate(z), clock.top, clock)
}

// The operand at j, and its operator on it and what came before.
#[cycle(chain_exp_linked_negated)]
fn linked(env: &Env<'_>, j: usize, x: i64, vars: &[i64], clock: &mut Clock) -> Result<i64, Refusal>
    requires known { Known env.now vars.now }
    requires has_exp { HasExp env.now.text.now env.now.tree.now j }
    ensures { (o : Operator) (t : Exp) → get_or env.now.tree.now (j + 1) 0 ≡ arith_no o → ExpAt env.now.text.now env.now.tree.now j t → (w : State) → Shows vars.now env.now clock.old w → Gives clock.old.top clock.old w (link_walk (rows_of env.now) o x t clock.old.left w) clock.new result }
{
    let y = exp(env, j, vars, clock)?;
    let answer = operator(env.tree[j + 1]).apply(x, y);
    settle(answer, clock.top - 1, clock)
}

// A first operand, and each further one with its operator.
#[cycle(chain_exp_linked_negated)]
fn chain(env: &Env<'_>, i: usize, vars: &[i64], clock: &mut Clock) -> Result<i64, Refusal>
    requires known { Known env.now vars.now }
    requires has_exp { HasExp env.now.text.now env.now.tree.now i }
    requires has_kind { get_or env.now.tree.now i 0 ≡ node_no chain_kind }
    ensures { ExpGives env.now i (walk_exp (rows_of env.now)) vars.now clock.old clock.new result }
{
    let count = tree::number_at(env.tree, i + 2);
    let mut x = exp(env, i + 4, vars, clock)?;
    let mut j = tree::after(env.tree, i + 4);
    for _ in 1..count {
        x = linked(env, j, x, vars, clock)?;
        j = tree::after(env.tree, j);
    }
    Ok(x)
}

// The condition at i.
pub fn cond(env: &Env<'_>, i: usize, vars: &[i64], clock: &mut Clock) -> Result<i64, Refusal>
    requires known { Known env.now vars.now }
    requires has_cond { HasCond env.now.text.now env.now.tree.now i }
    ensures { (t : Cond) → CondAt env.now.text.now env.now.tree.now i t → (w : State) → Shows vars.now env.now clock.old w → Gives (clock.old.top + 1) clock.old w (walk_cond (rows_of env.now) t clock.old.left w) clock.new result }
{
    let x = exp(env, i + 4, vars, clock)?;
    match tree::kind_at(env.tree, i) {
        Kind::Odd => settle(Ok(arithmetic::remainder(x)), clock.top, clock),
        _ => {
            let other = tree::after(env.tree, i + 4);
            related(env, other, comparison(env.tree[i + 1]), x, vars, clock)
        }
    }
}

// The second side of a comparison, at i, and the comparison.
fn related(
    env: &Env<'_>,
    i: usize,
    op: Compare,
    x: i64,
    vars: &[i64],
    clock: &mut Clock,
) -> Result<i64, Refusal>
    requires known { Known env.now vars.now }
    requires has_exp { HasExp env.now.text.now env.now.tree.now i }
    ensures { (t : Exp) → ExpAt env.now.text.now env.now.tree.now i t → (w : State) → Shows vars.now env.now clock.old w → Gives clock.old.top clock.old w (rel_walk (rows_of env.now) (compare_of op) x t clock.old.left w) clock.new result }
{
    let y = exp(env, i, vars, clock)?;
    let flag = arithmetic::flag_of(op.holds(x, y));
    settle(Ok(flag), clock.top - 1, clock)
}
