// Statements, each by the kind of its node.
ghost use Rattle.std.specs.Prelude.{◌≡◌, List, get_or};
ghost use Rattle.lexer.specs.Tokens.{Name};
ghost use Rattle.tree.specs.Tree.{Exp, Cond, Stmt, call};
ghost use Rattle.tree.specs.Layout.{assign_kind, if_kind, while_kind, call_kind, body_kind, read_kind, write_kind, node_no};
ghost use Rattle.tree.specs.Standing.{NameAt, HasName, StmtAt, HasStmt, GuardAt, HasGuard};
ghost use Rattle.pcode.specs.Code;
ghost use Rattle.pcode.specs.Operators.{read};
ghost use Rattle.emission.specs.Pieces.{◌⨾◌, emit_oper, jump_over};
ghost use Rattle.emission.specs.Statements.{row_for, storing, args_code, cond_code, stmt_code};
ghost use Rattle.emission.specs.Draft.{Emits};
ghost use Rattle.emission.specs.Meets.{here_of, Known, Ready};
ghost use Rattle.emission.specs.Sought.{Sought, Stored, Called};

use crate::expressions::{exp, l_exp, lookup, operated};
use crate::{Env, emit, emit_oper, fix, reach};
use numbers::refusal::Refusal;
use pcode::{Kind, Operator};
use symbols::Symbol;
use tree::HEADER;

// The row that the name at i finds.
fn named(env: &Env<'_>, i: usize) -> Result<Symbol, Refusal>
    requires known { Known env.now }
    requires has_name { HasName env.now.text.now env.now.tree.now i }
    ensures { (t : Name) → NameAt env.now.text.now env.now.tree.now i t → Sought env.now (row_for (here_of env.now) t) result }
{
    lookup(env, env.tree[i + 2], env.tree[i + 3]).ok_or(Refusal::NameNotFound)
}

// The variable whose name stands at i.
fn variable(env: &Env<'_>, i: usize) -> Result<Symbol, Refusal>
    requires known { Known env.now }
    requires has_name { HasName env.now.text.now env.now.tree.now i }
    ensures { (t : Name) → NameAt env.now.text.now env.now.tree.now i t → Stored env.now (row_for (here_of env.now) t) result }
{
    let y = named(env, i)?;
    match y.kind {
        symbols::Kind::Variable => Ok(y),
        _ => Err(Refusal::WrongKind),
    }
}

// name := expression.
fn assign(env: &Env<'_>, i: usize, draft: &mut [u32], n: usize) -> Result<usize, Refusal>
    requires ready { Ready env.now draft.old n }
    requires has_stmt { HasStmt env.now.text.now env.now.tree.now i }
    requires has_kind { get_or env.now.tree.now i 0 ≡ node_no assign_kind }
    ensures { (t : Stmt) → StmtAt env.now.text.now env.now.tree.now i t → Emits (stmt_code (here_of env.now) t n) n draft.old draft.new result }
{
    let y = variable(env, i + HEADER)?;
    let m = exp(env, i + 2 * HEADER, draft, n)?;
    reach(draft, m, Kind::Sto, env.level, y.level, y.address, 0)
}

// One name that is read.
fn read_one(env: &Env<'_>, i: usize, draft: &mut [u32], n: usize) -> Result<usize, Refusal>
    requires ready { Ready env.now draft.old n }
    requires has_name { HasName env.now.text.now env.now.tree.now i }
    ensures { (t : Name) → NameAt env.now.text.now env.now.tree.now i t → Emits (storing (here_of env.now) (emit_oper read) (row_for (here_of env.now) t) n) n draft.old draft.new result }
{
    let y = variable(env, i)?;
    let m = emit_oper(draft, n, Operator::Read)?;
    reach(draft, m, Kind::Sto, env.level, y.level, y.address, 0)
}

// read(..).
fn read(env: &Env<'_>, i: usize, draft: &mut [u32], n: usize) -> Result<usize, Refusal>
    requires ready { Ready env.now draft.old n }
    requires has_stmt { HasStmt env.now.text.now env.now.tree.now i }
    requires has_kind { get_or env.now.tree.now i 0 ≡ node_no read_kind }
    ensures { (t : Stmt) → StmtAt env.now.text.now env.now.tree.now i t → Emits (stmt_code (here_of env.now) t n) n draft.old draft.new result }
{
    let mut j = i + HEADER;
    let mut m = n;
    for _ in 0..env.tree[i + 2] {
        m = read_one(env, j, draft, m)?;
        j = tree::after(env.tree, j);
    }
    Ok(m)
}

// write(..).
fn write(env: &Env<'_>, i: usize, draft: &mut [u32], n: usize) -> Result<usize, Refusal>
    requires ready { Ready env.now draft.old n }
    requires has_stmt { HasStmt env.now.text.now env.now.tree.now i }
    requires has_kind { get_or env.now.tree.now i 0 ≡ node_no write_kind }
    ensures { (t : Stmt) → StmtAt env.now.text.now env.now.tree.now i t → Emits (stmt_code (here_of env.now) t n) n draft.old draft.new result }
{
    let mut j = i + HEADER;
    let mut m = n;
    for _ in 0..env.tree[i + 2] {
        m = operated(env, j, Operator::Write, draft, m)?;
        j = tree::after(env.tree, j);
    }
    emit_oper(draft, m, Operator::NewLine)
}

// The procedure that the call at i names, which takes as many arguments as it has.
fn procedure(env: &Env<'_>, i: usize) -> Result<Symbol, Refusal>
    requires known { Known env.now }
    requires has_stmt { HasStmt env.now.text.now env.now.tree.now i }
    requires has_kind { get_or env.now.tree.now i 0 ≡ node_no call_kind }
    ensures { (f : Name) (es : List Exp) → StmtAt env.now.text.now env.now.tree.now i (call f es) → Called env.now (row_for (here_of env.now) f) es result }
{
    let y = named(env, i + HEADER)?;
    match y.kind {
        symbols::Kind::Procedure if env.tree[i + 2] - 1 == y.size => Ok(y),
        symbols::Kind::Procedure => Err(Refusal::WrongArguments),
        _ => Err(Refusal::WrongKind),
    }
}

// The arguments of the call at i.
fn args(env: &Env<'_>, i: usize, draft: &mut [u32], n: usize) -> Result<usize, Refusal>
    requires ready { Ready env.now draft.old n }
    requires has_stmt { HasStmt env.now.text.now env.now.tree.now i }
    requires has_kind { get_or env.now.tree.now i 0 ≡ node_no call_kind }
    ensures { (f : Name) (es : List Exp) → StmtAt env.now.text.now env.now.tree.now i (call f es) → Emits (args_code (here_of env.now) es n) n draft.old draft.new result }
{
    let mut j = i + 2 * HEADER;
    let mut m = n;
    for _ in 1..env.tree[i + 2] {
        m = exp(env, j, draft, m)?;
        j = tree::after(env.tree, j);
    }
    Ok(m)
}

// call name(..).
fn call(env: &Env<'_>, i: usize, draft: &mut [u32], n: usize) -> Result<usize, Refusal>
    requires ready { Ready env.now draft.old n }
    requires has_stmt { HasStmt env.now.text.now env.now.tree.now i }
    requires has_kind { get_or env.now.tree.now i 0 ≡ node_no call_kind }
    ensures { (t : Stmt) → StmtAt env.now.text.now env.now.tree.now i t → Emits (stmt_code (here_of env.now) t n) n draft.old draft.new result }
{
    let y = procedure(env, i)?;
    let m = args(env, i, draft, n)?;
    reach(draft, m, Kind::Cal, env.level, y.level, y.low, y.high)
}

// A condition, JPC past the statement and one place more, and the statement.
#[cycle(body_conditional_guarded_looped_statement)]
fn guarded(env: &Env<'_>, i: usize, draft: &mut [u32], n: usize) -> Result<usize, Refusal>
    requires ready { Ready env.now draft.old n }
    requires has_guard { HasGuard env.now.text.now env.now.tree.now i }
    ensures { (c : Cond) (t : Stmt) → GuardAt env.now.text.now env.now.tree.now i c t → Emits ((cond_code (here_of env.now) c ⨾ jump_over Code.JPC 1 (stmt_code (here_of env.now) t)) n) n draft.old draft.new result }
{
    let p = l_exp(env, i + HEADER, draft, n)?;
    let m = emit(draft, p, Kind::Jpc, 0, 0)?;
    let q = statement(env, tree::after(env.tree, i + HEADER), draft, m)?;
    fix(draft, p, q + 1);
    Ok(q)
}

// if .. then .. else ..
#[cycle(body_conditional_guarded_looped_statement)]
fn conditional(env: &Env<'_>, i: usize, draft: &mut [u32], n: usize) -> Result<usize, Refusal>
    requires ready { Ready env.now draft.old n }
    requires has_stmt { HasStmt env.now.text.now env.now.tree.now i }
    requires has_kind { get_or env.now.tree.now i 0 ≡ node_no if_kind }
    ensures { (t : Stmt) → StmtAt env.now.text.now env.now.tree.now i t → Emits (stmt_code (here_of env.now) t n) n draft.old draft.new result }
{
    let p = guarded(env, i, draft, n)?;
    let m = emit(draft, p, Kind::Jmp, 0, 0)?;
    if env.tree[i + 2] < 3 {
        fix(draft, p, m);
        return Ok(m);
    }
    let other = tree::after(env.tree, tree::after(env.tree, i + HEADER));
    let q = statement(env, other, draft, m)?;
    fix(draft, p, q);
    Ok(q)
}

// while .. do ..
#[cycle(body_conditional_guarded_looped_statement)]
fn looped(env: &Env<'_>, i: usize, draft: &mut [u32], n: usize) -> Result<usize, Refusal>
    requires ready { Ready env.now draft.old n }
    requires has_stmt { HasStmt env.now.text.now env.now.tree.now i }
    requires has_kind { get_or env.now.tree.now i 0 ≡ node_no while_kind }
    ensures { (t : Stmt) → StmtAt env.now.text.now env.now.tree.now i t → Emits (stmt_code (here_of env.now) t n) n draft.old draft.new result }
{
    let p = guarded(env, i, draft, n)?;
    emit(draft, p, Kind::Jmp, 0, n as u32)
}

// begin .. end
#[cycle(body_conditional_guarded_looped_statement)]
pub fn body(env: &Env<'_>, i: usize, draft: &mut [u32], n: usize) -> Result<usize, Refusal>
    requires ready { Ready env.now draft.old n }
    requires has_stmt { HasStmt env.now.text.now env.now.tree.now i }
    requires has_kind { get_or env.now.tree.now i 0 ≡ node_no body_kind }
    ensures { (t : Stmt) → StmtAt env.now.text.now env.now.tree.now i t → Emits (stmt_code (here_of env.now) t n) n draft.old draft.new result }
{
    let mut j = i + HEADER;
    let mut m = n;
    for _ in 0..env.tree[i + 2] {
        m = statement(env, j, draft, m)?;
        j = tree::after(env.tree, j);
    }
    Ok(m)
}

// The statement at i.
#[cycle(body_conditional_guarded_looped_statement)]
fn statement(env: &Env<'_>, i: usize, draft: &mut [u32], n: usize) -> Result<usize, Refusal>
    requires ready { Ready env.now draft.old n }
    requires has_stmt { HasStmt env.now.text.now env.now.tree.now i }
    ensures { (t : Stmt) → StmtAt env.now.text.now env.now.tree.now i t → Emits (stmt_code (here_of env.now) t n) n draft.old draft.new result }
{
    match tree::kind_at(env.tree, i) {
        tree::Kind::Assign => assign(env, i, draft, n),
        tree::Kind::If => conditional(env, i, draft, n),
        tree::Kind::While => looped(env, i, draft, n),
        tree::Kind::Call => call(env, i, draft, n),
        tree::Kind::Body => body(env, i, draft, n),
        tree::Kind::Read => read(env, i, draft, n),
        _ => write(env, i, draft, n),
    }
}
