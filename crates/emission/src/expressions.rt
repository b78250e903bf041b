// Expressions and conditions: operands and then their operator, left before right.
ghost use Rattle.std.specs.Prelude.{◌≡◌, ◌+◌, ◌≤◌, length, get_or};
ghost use Rattle.numbers.specs.Arithmetic.{Arith, Compare};
ghost use Rattle.tree.specs.Tree.{Exp, Cond};
ghost use Rattle.tree.specs.Layout.{chain_kind, node_no};
ghost use Rattle.tree.specs.Nodes.{arith_no, compare_no};
ghost use Rattle.tree.specs.Standing.{ExpAt, HasExp, CondAt, HasCond};
ghost use Rattle.pcode.specs.Operators.{arithmetic, comparison};
ghost use Rattle.pcode.specs.Coded.{oper};
ghost use Rattle.symbols.specs.Symbols.{find};
ghost use Rattle.symbols.specs.Table.{part};
ghost use Rattle.emission.specs.Pieces.{◌⨾◌, emit_oper};
ghost use Rattle.emission.specs.Statements.{used, exp_code, cond_code};
ghost use Rattle.emission.specs.Draft.{Emits};
ghost use Rattle.emission.specs.Meets.{here_of, Known, Ready, Looks};

use crate::{Env, emit_oper, emit_wide, reach};
use numbers::refusal::Refusal;
use pcode::{Kind, Operator};
use symbols::Symbol;
use tree::HEADER;

// Looks a name up.
pub fn lookup(env: &Env<'_>, at: u32, len: u32) -> Option<Symbol>
    requires known { Known env.now }
    requires len_in_bounds { at + len ≤ length env.now.text.now }
    ensures { Looks env.now (find (here_of env.now).rows (part env.now.text.now at len) (here_of env.now).scope) result }
{
    let k = symbols::find(env.text, env.table, env.used, at, len)?;
    Some(symbols::read_row(env.table, k))
}

// A name in an expression.
fn name(env: &Env<'_>, at: u32, len: u32, draft: &mut [u32], n: usize) -> Result<usize, Refusal>
    requires ready { Ready env.now draft.old n }
    requires len_in_bounds { at + len ≤ length env.now.text.now }
    ensures { Emits (used (here_of env.now) (find (here_of env.now).rows (part env.now.text.now at len) (here_of env.now).scope) n) n draft.old draft.new result }
{
    let y = lookup(env, at, len).ok_or(Refusal::NameNotFound)?;
    match y.kind {
        symbols::Kind::Constant => emit_wide(draft, n, Kind::Lit, 0, y.low, y.high),
        symbols::Kind::Variable => reach(draft, n, Kind::Lod, env.level, y.level, y.address, 0),
        symbols::Kind::Procedure => Err(Refusal::WrongKind),
    }
}

// The expression at i; one that is none of the others stands in brackets.
#[cycle(chain_exp_operated)]
pub fn exp(env: &Env<'_>, i: usize, draft: &mut [u32], n: usize) -> Result<usize, Refusal>
    requires ready { Ready env.now draft.old n }
    requires has_exp { HasExp env.now.text.now env.now.tree.now i }
    ensures { (t : Exp) → ExpAt env.now.text.now env.now.tree.now i t → Emits (exp_code (here_of env.now) t n) n draft.old draft.new result }
{
    match tree::kind_at(env.tree, i) {
        tree::Kind::Chain => chain(env, i, draft, n),
        tree::Kind::Name => name(env, env.tree[i + 2], env.tree[i + 3], draft, n),
        tree::Kind::Number => emit_wide(draft, n, Kind::Lit, 0, env.tree[i + 2], env.tree[i + 3]),
        tree::Kind::Neg => operated(env, i + HEADER, Operator::Negate, draft, n),
        _ => exp(env, i + HEADER, draft, n),
    }
}

// The expression at i, and an operator after it.
#[cycle(chain_exp_operated)]
pub fn operated(
    env: &Env<'_>,
    i: usize,
    op: Operator,
    draft: &mut [u32],
    n: usize,
) -> Result<usize, Refusal>
    requires ready { Ready env.now draft.old n }
    requires has_exp { HasExp env.now.text.now env.now.tree.now i }
    ensures { (t : Exp) → ExpAt env.now.text.now env.now.tree.now i t → Emits ((exp_code (here_of env.now) t ⨾ emit_oper (oper op)) n) n draft.old draft.new result }
{
    let m = exp(env, i, draft, n)?;
    emit_oper(draft, m, op)
}

// The operator of a chain's member, by its number in the tree.
fn arithmetic(op: u32) -> Operator
    ensures { (o : Arith) → op ≡ arith_no o → oper result ≡ arithmetic o }
{
    match op {
        1 => Operator::Add,
        2 => Operator::Sub,
        3 => Operator::Mul,
        _ => Operator::Div,
    }
}

// A first operand, and each further one with its operator after it.
#[cycle(chain_exp_operated)]
fn chain(env: &Env<'_>, i: usize, draft: &mut [u32], n: usize) -> Result<usize, Refusal>
    requires ready { Ready env.now draft.old n }
    requires has_exp { HasExp env.now.text.now env.now.tree.now i }
    requires has_kind { get_or env.now.tree.now i 0 ≡ node_no chain_kind }
    ensures { (t : Exp) → ExpAt env.now.text.now env.now.tree.now i t → Emits (exp_code (here_of env.now) t n) n draft.old draft.new result }
{
    let mut m = exp(env, i + HEADER, draft, n)?;
    let mut j = tree::after(env.tree, i + HEADER);
    for _ in 1..env.tree[i + 2] {
        m = operated(env, j, arithmetic(env.tree[j + 1]), draft, m)?;
        j = tree::after(env.tree, j);
    }
    Ok(m)
}

// A comparison's operator, by its number in the tree.
fn comparison(op: u32) -> Operator
    ensures { (o : Compare) → op ≡ compare_no o → oper result ≡ comparison o }
{
    match op {
        1 => Operator::Equal,
        2 => Operator::Unequal,
        3 => Operator::Less,
        4 => Operator::AtLeast,
        5 => Operator::Greater,
        _ => Operator::AtMost,
    }
}

// A condition.
pub fn l_exp(env: &Env<'_>, i: usize, draft: &mut [u32], n: usize) -> Result<usize, Refusal>
    requires ready { Ready env.now draft.old n }
    requires has_cond { HasCond env.now.text.now env.now.tree.now i }
    ensures { (t : Cond) → CondAt env.now.text.now env.now.tree.now i t → Emits (cond_code (here_of env.now) t n) n draft.old draft.new result }
{
    match tree::kind_at(env.tree, i) {
        tree::Kind::Odd => operated(env, i + HEADER, Operator::Odd, draft, n),
        _ => {
            let m = exp(env, i + HEADER, draft, n)?;
            let second = tree::after(env.tree, i + HEADER);
            operated(env, second, comparison(env.tree[i + 1]), draft, m)
        }
    }
}
