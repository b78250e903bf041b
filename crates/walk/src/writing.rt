// `write`: each number, and then the line.
ghost use Rattle.std.specs.Prelude.{◌≡◌, List, ℕ, ℤ, length, get_or};
ghost use Rattle.numbers.specs.Screen.{newline};
ghost use Rattle.numbers.specs.Answers.{Puts};
ghost use Rattle.tree.specs.Tree.{Exp, Stmt};
ghost use Rattle.tree.specs.Layout.{write_kind, node_no};
ghost use Rattle.tree.specs.Standing.{ExpAt, HasExp, StmtAt, HasStmt};
ghost use Rattle.walk.specs.Walk.{State, walk_stmt};
ghost use Rattle.walk.specs.Meets.{Known, rows_of};
ghost use Rattle.walk.specs.Holds.{Holds, Ends, Writes, write_walk};

use crate::expressions;
use crate::expressions::Env;
use crate::progress::{Progress, tick};
use numbers::refusal::Refusal;
use numbers::screen;

// One step that wrote its bytes, up to `end`, or could not: 23. The budget is not spent.
fn wrote(end: Result<usize, Refusal>, progress: &mut Progress) -> Result<(), Refusal>
    requires { progress.old.clock.left ≡ 0 → ⊥ }
    ensures { (bs before after : List ℕ) → Puts bs progress.old.written before after end → Writes bs before after progress.old progress.new result }
{
    progress.written = end?;
    tick(progress, progress.clock.top)
}

// The newline of a `write`.
pub fn write_line(progress: &mut Progress, out: &mut [u8]) -> Result<(), Refusal>
    ensures { Writes newline out.old out.new progress.old progress.new result }
{
    if progress.clock.left == 0 {
        return Err(Refusal::BudgetSpent);
    }
    wrote(screen::put_newline(out, progress.written), progress)
}

// One expression of a `write`.
pub fn write_one(
    env: &Env<'_>,
    i: usize,
    progress: &mut Progress,
    vars: &[i64],
    out: &mut [u8],
) -> Result<(), Refusal>
    requires known { Known env.now vars.now }
    requires has_exp { HasExp env.now.text.now env.now.tree.now i }
    ensures { (t : Exp) → ExpAt env.now.text.now env.now.tree.now i t → (input : List ℕ) (lv : List ℤ) (lo : List ℕ) (w : State) → Holds env.now input lv lo vars.now out.old progress.old w → Ends env.now input lv lo vars.now out.new progress.old (write_walk (rows_of env.now) (length lo) t progress.old.clock.left w) progress.new result }
{
    let z = expressions::exp(env, i, vars, &mut progress.clock)?;
    if progress.clock.left == 0 {
        return Err(Refusal::BudgetSpent);
    }
    wrote(screen::put_number(out, progress.written, z), progress)
}

// The expressions of the `write` at i, and the newline.
pub fn writes(
    env: &Env<'_>,
    i: usize,
    progress: &mut Progress,
    vars: &[i64],
    out: &mut [u8],
) -> Result<(), Refusal>
    requires known { Known env.now vars.now }
    requires has_stmt { HasStmt env.now.text.now env.now.tree.now i }
    requires has_kind { get_or env.now.tree.now i 0 ≡ node_no write_kind }
    ensures { (t : Stmt) → StmtAt env.now.text.now env.now.tree.now i t → (input : List ℕ) (lv : List ℤ) (lo : List ℕ) (w : State) → Holds env.now input lv lo vars.now out.old progress.old w → Ends env.now input lv lo vars.now out.new progress.old (walk_stmt (rows_of env.now) (length lo) t progress.old.clock.left w) progress.new result }
{
    let count = tree::number_at(env.tree, i + 2);
    let mut j = i + 4;
    for _ in 0..count {
        write_one(env, j, progress, vars, out)?;
        j = tree::after(env.tree, j);
    }
    write_line(progress, out)
}
