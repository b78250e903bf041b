// Assignments: a value goes to the variable that a name finds.
ghost use Rattle.std.specs.Prelude.{◌≡◌, List, ℕ, ◌+◌, ◌≤◌, ℤ, length, set, get_or};
ghost use Rattle.numbers.specs.Lent.{onto};
ghost use Rattle.lexer.specs.Tokens.{Name};
ghost use Rattle.tree.specs.Tree.{Stmt};
ghost use Rattle.tree.specs.Layout.{assign_kind, node_no};
ghost use Rattle.tree.specs.Standing.{NameAt, HasName, StmtAt, HasStmt};
ghost use Rattle.symbols.specs.Symbols.{main_scope, find};
ghost use Rattle.symbols.specs.Table.{part};
ghost use Rattle.walk.specs.Walk.{State, place_in, store, walk_stmt};
ghost use Rattle.walk.specs.Meets.{Rows, rows_of};
ghost use Rattle.walk.specs.Holds.{Holds, Ends};

use crate::expressions;
use crate::expressions::Env;
use crate::progress::{Progress, tick};
use numbers::refusal::Refusal;

// The place of the variable that a name finds.
fn place(env: &Env<'_>, at: u32, len: u32) -> usize
    requires rows { Rows env.now }
    requires len_in_bounds { at + len ≤ length env.now.text.now }
    ensures { result ≡ place_in (find (rows_of env.now) (part env.now.text.now at len) main_scope) }
{
    let Some(row) = symbols::find(env.text, env.table, env.used, at, len) else {
        return 0;
    };
    expressions::place_of(symbols::read_row(env.table, row).address)
}

// Puts a value into a variable's place, where there is one.
fn put_variable(vars: &mut [i64], count: usize, place: usize, z: i64)
    requires { count ≤ length vars.old }
    ensures { (lent vs : List ℤ) → vars.old ≡ onto lent vs → length vs ≡ count → vars.new ≡ onto lent (set vs place z) }
{
    if place < count {
        vars[place] = z;
    }
}

// One step: the value on top goes to the variable whose name stands at i.
pub fn store(
    env: &Env<'_>,
    i: usize,
    z: i64,
    progress: &mut Progress,
    vars: &mut [i64],
) -> Result<(), Refusal>
    requires rows { Rows env.now }
    requires has_name { HasName env.now.text.now env.now.tree.now i }
    requires vars_in_bounds { env.now.vars ≤ length vars.old }
    requires le_top { 1 ≤ progress.old.clock.top }
    ensures { (n : Name) → NameAt env.now.text.now env.now.tree.now i n → (input : List ℕ) (lv : List ℤ) (lo out : List ℕ) (w : State) → Holds env.now input lv lo vars.old out progress.old w → Ends env.now input lv lo vars.new out progress.old (store (rows_of env.now) n z progress.old.clock.left w) progress.new result }
{
    tick(progress, progress.clock.top - 1)?;
    let k = place(env, env.tree[i + 2], env.tree[i + 3]);
    put_variable(vars, env.vars, k, z);
    Ok(())
}

// name `:=` expression
pub fn assign(
    env: &Env<'_>,
    i: usize,
    progress: &mut Progress,
    vars: &mut [i64],
) -> Result<(), Refusal>
    requires rows { Rows env.now }
    requires has_stmt { HasStmt env.now.text.now env.now.tree.now i }
    requires has_kind { get_or env.now.tree.now i 0 ≡ node_no assign_kind }
    requires vars_in_bounds { env.now.vars ≤ length vars.old }
    ensures { (t : Stmt) → StmtAt env.now.text.now env.now.tree.now i t → (room : ℕ) (input : List ℕ) (lv : List ℤ) (lo out : List ℕ) (w : State) → Holds env.now input lv lo vars.old out progress.old w → Ends env.now input lv lo vars.new out progress.old (walk_stmt (rows_of env.now) room t progress.old.clock.left w) progress.new result }
{
    let z = expressions::exp(env, i + 8, vars, &mut progress.clock)?;
    store(env, i + 4, z, progress, vars)
}
