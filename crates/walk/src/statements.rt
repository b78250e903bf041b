// Statements by their kinds: conditions that are tested, laps of a `while`, and the members of a body.
ghost use Rattle.std.specs.Prelude.{◌≡◌, List, ℕ, ℤ, get_or};
ghost use Rattle.tree.specs.Tree.{Cond};
ghost use Rattle.tree.specs.Layout.{if_kind, while_kind, body_kind, node_no};
ghost use Rattle.tree.specs.Standing.{CondAt, HasCond, HasStmt};
ghost use Rattle.walk.specs.Walk.{State, walk_stmt};
ghost use Rattle.walk.specs.Meets.{Rows, Known, rows_of};
ghost use Rattle.walk.specs.Holds.{Holds, HasState, StmtEnds};
ghost use Rattle.walk.specs.Tests.{test_walk, part_walk, Tests};

use crate::expressions;
use crate::expressions::Env;
use crate::progress::{Progress, tick};
use crate::reading::reads;
use crate::storing::assign;
use crate::writing::writes;
use numbers::refusal::Refusal;
use tree::Kind;

// Whether the condition at i holds, and one step for its test.
fn test(env: &Env<'_>, i: usize, progress: &mut Progress, vars: &[i64]) -> Result<bool, Refusal>
    requires known { Known env.now vars.now }
    requires has_cond { HasCond env.now.text.now env.now.tree.now i }
    ensures { (t : Cond) → CondAt env.now.text.now env.now.tree.now i t → (input : List ℕ) (lv : List ℤ) (lo out : List ℕ) (w : State) → Holds env.now input lv lo vars.now out progress.old w → Tests env.now input lv lo vars.now out progress.old (test_walk (rows_of env.now) t progress.old.clock.left w) progress.new result }
{
    let z = expressions::cond(env, i, vars, &mut progress.clock)?;
    tick(progress, progress.clock.top)?;
    Ok(z != 0)
}

// The `then` part at i, and one step after it; or a lap's statement, and one step back.
#[cycle(body_conditional_looped_part_statement)]
pub fn part(
    env: &Env<'_>,
    i: usize,
    input: &[u8],
    progress: &mut Progress,
    vars: &mut [i64],
    out: &mut [u8],
) -> Result<(), Refusal>
    requires rows { Rows env.now }
    requires has_stmt { HasStmt env.now.text.now env.now.tree.now i }
    requires has_state { HasState env.now input.now vars.old out.old progress.old }
    ensures { StmtEnds env.now i (part_walk (rows_of env.now)) input.now vars.old vars.new out.old out.new progress.old progress.new result }
{
    statement(env, i, input, progress, vars, out)?;
    tick(progress, progress.clock.top)
}

// The `if` at i.
#[cycle(body_conditional_looped_part_statement)]
fn conditional(
    env: &Env<'_>,
    i: usize,
    input: &[u8],
    progress: &mut Progress,
    vars: &mut [i64],
    out: &mut [u8],
) -> Result<(), Refusal>
    requires rows { Rows env.now }
    requires has_stmt { HasStmt env.now.text.now env.now.tree.now i }
    requires has_kind { get_or env.now.tree.now i 0 ≡ node_no if_kind }
    requires has_state { HasState env.now input.now vars.old out.old progress.old }
    ensures { StmtEnds env.now i (walk_stmt (rows_of env.now)) input.now vars.old vars.new out.old out.new progress.old progress.new result }
{
    let holds = test(env, i + 4, progress, vars)?;
    let inner = tree::after(env.tree, i + 4);
    if holds {
        return part(env, inner, input, progress, vars, out);
    }
    if tree::number_at(env.tree, i + 2) < 3 {
        return Ok(());
    }
    let other = tree::after(env.tree, inner);
    statement(env, other, input, progress, vars, out)
}

// The `while` at i. Each test takes a step, so that the budget that is left falls.
#[cycle(body_conditional_looped_part_statement)]
fn looped(
    env: &Env<'_>,
    i: usize,
    input: &[u8],
    progress: &mut Progress,
    vars: &mut [i64],
    out: &mut [u8],
) -> Result<(), Refusal>
    requires rows { Rows env.now }
    requires has_stmt { HasStmt env.now.text.now env.now.tree.now i }
    requires has_kind { get_or env.now.tree.now i 0 ≡ node_no while_kind }
    requires has_state { HasState env.now input.now vars.old out.old progress.old }
    ensures { StmtEnds env.now i (walk_stmt (rows_of env.now)) input.now vars.old vars.new out.old out.new progress.old progress.new result }
{
    let inner = tree::after(env.tree, i + 4);
    while test(env, i + 4, progress, vars)? {
        part(env, inner, input, progress, vars, out)?;
    }
    Ok(())
}

// The members of the body at i.
#[cycle(body_conditional_looped_part_statement)]
pub fn body(
    env: &Env<'_>,
    i: usize,
    input: &[u8],
    progress: &mut Progress,
    vars: &mut [i64],
    out: &mut [u8],
) -> Result<(), Refusal>
    requires rows { Rows env.now }
    requires has_stmt { HasStmt env.now.text.now env.now.tree.now i }
    requires has_kind { get_or env.now.tree.now i 0 ≡ node_no body_kind }
    requires has_state { HasState env.now input.now vars.old out.old progress.old }
    ensures { StmtEnds env.now i (walk_stmt (rows_of env.now)) input.now vars.old vars.new out.old out.new progress.old progress.new result }
{
    let count = tree::number_at(env.tree, i + 2);
    let mut j = i + 4;
    for _ in 0..count {
        statement(env, j, input, progress, vars, out)?;
        j = tree::after(env.tree, j);
    }
    Ok(())
}

// The statement at i. A call is never met: without a procedure the translator refuses it.
#[cycle(body_conditional_looped_part_statement)]
fn statement(
    env: &Env<'_>,
    i: usize,
    input: &[u8],
    progress: &mut Progress,
    vars: &mut [i64],
    out: &mut [u8],
) -> Result<(), Refusal>
    requires rows { Rows env.now }
    requires has_stmt { HasStmt env.now.text.now env.now.tree.now i }
    requires has_state { HasState env.now input.now vars.old out.old progress.old }
    ensures { StmtEnds env.now i (walk_stmt (rows_of env.now)) input.now vars.old vars.new out.old out.new progress.old progress.new result }
{
    match tree::kind_at(env.tree, i) {
        Kind::Assign => assign(env, i, progress, vars),
        Kind::If => conditional(env, i, input, progress, vars, out),
        Kind::While => looped(env, i, input, progress, vars, out),
        Kind::Body => body(env, i, input, progress, vars, out),
        Kind::Read => reads(env, i, input, progress, vars, out),
        Kind::Write => writes(env, i, progress, vars, out),
        _ => Ok(()),
    }
}
