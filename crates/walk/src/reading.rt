// `read`: a line of the input for each name.
ghost use Rattle.std.specs.Prelude.{◌≡◌, List, ℕ, ◌+◌, ◌≤◌, ◌<◌, ℤ, length, get_or};
ghost use Rattle.lexer.specs.Tokens.{Name};
ghost use Rattle.tree.specs.Layout.{read_kind, node_no};
ghost use Rattle.tree.specs.Standing.{NameAt, HasName, HasStmt};
ghost use Rattle.walk.specs.Walk.{State, walk_stmt};
ghost use Rattle.walk.specs.Meets.{Rows, rows_of};
ghost use Rattle.walk.specs.Holds.{Holds, HasState, Ends, StmtEnds, Enters, read_walk};

use crate::expressions::Env;
use crate::progress::Progress;
use crate::storing::store;
use numbers::limits::CELLS;
use numbers::refusal::Refusal;
use numbers::{line, screen};

// One step that reads a line: 16, 17 where there is no cell, 22, then 23 for the prompt.
fn read_line(input: &[u8], progress: &mut Progress, out: &mut [u8]) -> Result<i64, Refusal>
    requires { progress.old.lines + progress.old.clock.left < 4294967296 }
    ensures { Enters input.now out.old out.new progress.old progress.new result }
{
    if progress.clock.left == 0 {
        return Err(Refusal::BudgetSpent);
    }
    if progress.clock.top >= CELLS {
        return Err(Refusal::CellOutside);
    }
    let (z, next) = line::next_entry(input, progress.at)?;
    progress.written = screen::put_prompt(out, progress.written)?;
    progress.at = next;
    progress.lines += 1;
    progress.clock.left -= 1;
    progress.clock.top += 1;
    Ok(z)
}

// One name of a `read`.
pub fn read_one(
    env: &Env<'_>,
    i: usize,
    input: &[u8],
    progress: &mut Progress,
    vars: &mut [i64],
    out: &mut [u8],
) -> Result<(), Refusal>
    requires rows { Rows env.now }
    requires has_name { HasName env.now.text.now env.now.tree.now i }
    requires vars_in_bounds { env.now.vars ≤ length vars.old }
    requires left_bound { progress.old.lines + progress.old.clock.left < 4294967296 }
    ensures { (n : Name) → NameAt env.now.text.now env.now.tree.now i n → (lv : List ℤ) (lo : List ℕ) (w : State) → Holds env.now input.now lv lo vars.old out.old progress.old w → Ends env.now input.now lv lo vars.new out.new progress.old (read_walk (rows_of env.now) (length lo) n progress.old.clock.left w) progress.new result }
{
    let z = read_line(input, progress, out)?;
    store(env, i, z, progress, vars)
}

// The names of the `read` at i.
pub fn reads(
    env: &Env<'_>,
    i: usize,
    input: &[u8],
    progress: &mut Progress,
    vars: &mut [i64],
    out: &mut [u8],
) -> Result<(), Refusal>
    requires rows { Rows env.now }
    requires has_stmt { HasStmt env.now.text.now env.now.tree.now i }
    requires has_kind { get_or env.now.tree.now i 0 ≡ node_no read_kind }
    requires has_state { HasState env.now input.now vars.old out.old progress.old }
    ensures { StmtEnds env.now i (walk_stmt (rows_of env.now)) input.now vars.old vars.new out.old out.new progress.old progress.new result }
{
    let count = tree::number_at(env.tree, i + 2);
    let mut j = i + 4;
    for _ in 0..count {
        read_one(env, j, input, progress, vars, out)?;
        j = tree::after(env.tree, j);
    }
    Ok(())
}
