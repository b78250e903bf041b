// Blocks and procedures: rows and code together.
ghost use Rattle.std.specs.Prelude.{◌≡◌, List, ◌+◌, ◌≤◌, length};
ghost use Rattle.numbers.specs.Limits.{max_code, draft_places};
ghost use Rattle.lexer.specs.Tokens.{Name};
ghost use Rattle.tree.specs.Tree.{Const, Stmts, Procs};
ghost use Rattle.symbols.specs.Table.{rows_in, scope_at};
ghost use Rattle.translator.specs.Translate.{stas, body_code, procs_code};
ghost use Rattle.emission.specs.Draft.{Emits};
ghost use Rattle.emission.specs.Meets.{here_of, Ready};
ghost use Rattle.translator.specs.Blocks.{inside_code, end_code, Start, Means, ProcsAt, HasProcs, InsideAt, HasInside, BodyAt, HasBody};

use crate::Source;
use crate::declarations::{Frame, const_decl, heading, names_decl};
use emission::statements::body;
use emission::{Env, emit, emit_oper, fix};
use numbers::limits::LINKS;
use numbers::refusal::Refusal;
use pcode::{Kind, Operator};
use tree::HEADER;

// How far the translation of a block has come: its frame, the rows there are, and the next place of the code.
#[derive(Clone, Copy)]
pub struct Place {
    pub frame: Frame,
    pub used: usize,
    pub n: usize,
}

// For each of `count` arguments, the last of which is on top, STA to its address.
fn stas(draft: &mut [u32], n: usize, count: u32) -> Result<usize, Refusal>
    requires draft_places_in_bounds { draft_places ≤ length draft.old }
    requires n_le_max_code { (n ≤ max_code) × (count ≤ max_code) }
    ensures { Emits (stas count 1 count n) n draft.old draft.new result }
{
    let mut m = n;
    for i in 1..=count {
        m = emit(draft, m, Kind::Sta, i, LINKS as u32 + count - i)?;
    }
    Ok(m)
}

// INT, the body at i, and the return.
pub fn finish(
    env: &Env<'_>,
    i: usize,
    address: u32,
    draft: &mut [u32],
    n: usize,
) -> Result<usize, Refusal>
    requires ready { Ready env.now draft.old n }
    requires has_body { HasBody env.now.text.now env.now.tree.now i }
    ensures { (b : Stmts) → BodyAt env.now.text.now env.now.tree.now i b → Emits (body_code (here_of env.now) address b n) n draft.old draft.new result }
{
    let m = emit(draft, n, Kind::Int, 0, address)?;
    let q = body(env, i, draft, m)?;
    emit_oper(draft, q, Operator::Return)
}

// The end of a block with `count` arguments, whose body stands at i.
fn ending(
    env: &Env<'_>,
    i: usize,
    address: u32,
    count: u32,
    draft: &mut [u32],
    n: usize,
) -> Result<usize, Refusal>
    requires ready { Ready env.now draft.old n }
    requires has_body { HasBody env.now.text.now env.now.tree.now i }
    requires count_le_max_code { count ≤ max_code }
    ensures { (b : Stmts) → BodyAt env.now.text.now env.now.tree.now i b → Emits (end_code (here_of env.now) address count b n) n draft.old draft.new result }
{
    let m = stas(draft, n, count)?;
    finish(env, i, address, draft, m)
}

// What is declared in a block: the constants of the list at i, the variables of the list after it, and the procedures
// after that.
#[cycle(inside_procedures)]
pub fn inside(
    source: &Source<'_>,
    i: usize,
    table: &mut [u32],
    draft: &mut [u32],
    p: Place,
) -> Result<Place, Refusal>
    requires start { Start source.now.text.now table.old draft.old p }
    requires has_inside { HasInside source.now.text.now source.now.tree.now i }
    ensures { (cs : List Const) (vs : List Name) (ps : Procs) → InsideAt source.now.text.now source.now.tree.now i cs vs ps → Means (inside_code cs vs ps p.frame.level (scope_at source.now.text.now table.old p.frame.scope) p.frame.address (rows_in source.now.text.now table.old p.used) p.n) source.now.text.now table.old p.used draft.old p.n table.new draft.new result }
{
    let vars = tree::after(source.tree, i);
    let procs = tree::after(source.tree, vars);
    let u = const_decl(source, i, table, p.used, p.frame)?;
    let used = names_decl(source, vars, table, u, p.frame, true)?;
    let frame = Frame {
        address: p.frame.address + source.tree[vars + 2],
        ..p.frame
    };
    procedures(
        source,
        procs,
        table,
        draft,
        Place {
            frame,
            used,
            n: p.n,
        },
    )
}

// The procedures at i: one with those inside it, and those after it.
#[cycle(inside_procedures)]
fn procedures(
    source: &Source<'_>,
    i: usize,
    table: &mut [u32],
    draft: &mut [u32],
    p: Place,
) -> Result<Place, Refusal>
    requires start { Start source.now.text.now table.old draft.old p }
    requires has_procs { HasProcs source.now.text.now source.now.tree.now i }
    ensures { (t : Procs) → ProcsAt source.now.text.now source.now.tree.now i t → Means (procs_code t p.frame.level (scope_at source.now.text.now table.old p.frame.scope) p.frame.address (rows_in source.now.text.now table.old p.used) p.n) source.now.text.now table.old p.used draft.old p.n table.new draft.new result }
{
    if let tree::Kind::NoProcedures = tree::kind_at(source.tree, i) {
        return Ok(p);
    }
    let u = heading(source, i, table, p.used, p.frame)?;
    let m = emit(draft, p.n, Kind::Jmp, 0, 0)?;
    let count = source.tree[i + 10];
    let scope = p.used as u32 + 1;
    let level = p.frame.level + 1;
    let frame = Frame {
        scope,
        level,
        address: LINKS as u32 + count,
    };
    let consts = tree::after(source.tree, i + 2 * HEADER);
    let place = Place {
        frame,
        used: u,
        n: m,
    };
    let q = inside(source, consts, table, draft, place)?;
    symbols::set_entry(table, p.used, q.n as u32);
    symbols::scopes::see(table, q.used, scope);
    fix(draft, p.n, q.n + count as usize);
    let vars = tree::after(source.tree, consts);
    let main = tree::after(source.tree, tree::after(source.tree, vars));
    let env = Env {
        text: source.text,
        tree: source.tree,
        table,
        used: q.used,
        scope,
        level,
    };
    let z = ending(&env, main, q.frame.address, count, draft, q.n)?;
    let frame = Frame {
        address: p.frame.address + 1,
        ..p.frame
    };
    let later = Place {
        frame,
        used: q.used,
        n: z,
    };
    procedures(source, tree::after(source.tree, main), table, draft, later)
}
