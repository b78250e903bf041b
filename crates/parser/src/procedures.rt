// Procedures and blocks.
ghost use Rattle.std.specs.Prelude.{◌+◌, ◌*◌};
ghost use Rattle.lexer.specs.Stands.{left};
ghost use Rattle.tree.specs.Nodes.{procs_node, block_node};
ghost use Rattle.grammar.specs.Grammar.{proc_of, inner_of, later_of, program};
ghost use Rattle.parser.specs.Answer.{node_of, try_of};
ghost use Rattle.parser.specs.Parts.{only};
ghost use Rattle.parser.specs.Blocks.{head, head_nodes, front, front_nodes, block};
ghost use Rattle.parser.specs.Meets.{Room, Reads, Tries};

use crate::declarations::{parse_args, parse_decls};
use crate::lists::parse_id;
use crate::nodes::seal;
use crate::see::{see, want};
use crate::statements::parse_body;
use lexer::{Cursor, Token};
use numbers::limits::MAX_OPEN;
use numbers::refusal::Refusal;
use tree::Kind;

// `procedure` name `(` [names] `)` `;`: two nodes. It stays a call, so that what it holds is off the stack while the
// procedure is open.
#[inline(never)]
pub fn parse_proc_head(
    text: &[u8],
    tree: &mut [u32],
    used: usize,
    cur: Cursor,
) -> Result<(usize, Cursor), Refusal>
    requires { Room text.now tree.old used 0 cur }
    ensures { Reads head_nodes text.now tree.old used tree.new (λ n. head text.now n) (8 * left cur) 40 0 cur (node_of result) }
{
    let c = want(text, cur, Token::Procedure)?;
    let (named, d) = parse_id(text, tree, used, c)?;
    let e = want(text, d, Token::ParL)?;
    let (end, f) = parse_args(text, tree, named, e)?;
    let g = want(text, f, Token::Semicolon)?;
    Ok((end, g))
}

// `procedure` name `(` [names] `)` `;` block {`;` procedure}: the test for one construct too many comes first. After a
// body that yields nothing the later procedures are still read, and the whole is nothing.
#[cycle(parse_block_head_parse_inner_parse_later_parse_proc)]
pub fn parse_proc(
    text: &[u8],
    tree: &mut [u32],
    used: usize,
    depth: usize,
    cur: Cursor,
) -> Result<(Option<usize>, Cursor), Refusal>
    requires { Room text.now tree.old used 4 cur }
    ensures { Tries (λ p. only (procs_node p)) text.now tree.old used tree.new (λ n. proc_of text.now n depth) (8 * left cur + 1) 0 0 cur (try_of result) }
{
    if MAX_OPEN <= depth {
        return Err(Refusal::TooManyOpen);
    }
    let (headed, c) = parse_proc_head(text, tree, used + tree::HEADER, cur)?;
    let (declared, d) = parse_block_head(text, tree, headed, depth + 1, c)?;
    let (body, e) = parse_body(text, tree, declared, depth + 1, d)?;
    let Some(made) = body else {
        let (_, f) = parse_later(text, tree, declared, depth + 1, e)?;
        return Ok((None, f));
    };
    let (later, g) = parse_later(text, tree, made, depth + 1, e)?;
    let Some(end) = later else {
        return Ok((None, g));
    };
    seal(tree, used, Kind::Procedure, 0, 7, end);
    Ok((Some(end), g))
}

// {`;` procedure}: a later one is read inside the one before
#[cycle(parse_block_head_parse_inner_parse_later_parse_proc)]
pub fn parse_later(
    text: &[u8],
    tree: &mut [u32],
    used: usize,
    depth: usize,
    cur: Cursor,
) -> Result<(Option<usize>, Cursor), Refusal>
    requires { Room text.now tree.old used 4 cur }
    ensures { Tries (λ p. only (procs_node p)) text.now tree.old used tree.new (λ n. later_of text.now n depth) (8 * left cur + 1) 0 4 cur (try_of result) }
{
    let c = see(text, cur)?;
    match c.token {
        Token::Semicolon => parse_proc(text, tree, used, depth, c.take()),
        _ => Ok((Some(tree::push(tree, used, Kind::NoProcedures, 0, 0, 0)), c)),
    }
}

// The constants, the variables and the procedure of a block: three nodes.
#[cycle(parse_block_head_parse_inner_parse_later_parse_proc)]
pub fn parse_block_head(
    text: &[u8],
    tree: &mut [u32],
    used: usize,
    depth: usize,
    cur: Cursor,
) -> Result<(usize, Cursor), Refusal>
    requires { Room text.now tree.old used 12 cur }
    ensures { Reads front_nodes text.now tree.old used tree.new (λ n. front text.now n depth) (8 * left cur + 2) 0 12 cur (node_of result) }
{
    let (end, c) = parse_decls(text, tree, used, cur)?;
    parse_inner(text, tree, end, depth, c)
}

// A block's [procedure]: the `procedure` is looked at before it opens
#[cycle(parse_block_head_parse_inner_parse_later_parse_proc)]
pub fn parse_inner(
    text: &[u8],
    tree: &mut [u32],
    used: usize,
    depth: usize,
    cur: Cursor,
) -> Result<(usize, Cursor), Refusal>
    requires { Room text.now tree.old used 4 cur }
    ensures { Reads (λ p. only (procs_node p)) text.now tree.old used tree.new (λ n. inner_of text.now n depth) (8 * left cur + 2) 0 4 cur (node_of result) }
{
    let c = see(text, cur)?;
    let Token::Procedure = c.token else {
        return Ok((tree::push(tree, used, Kind::NoProcedures, 0, 0, 0), c));
    };
    let (procedures, d) = parse_proc(text, tree, used, depth, c)?;
    match procedures {
        Some(end) => Ok((end, d)),
        None => Ok((tree::push(tree, used, Kind::NoProcedures, 0, 0, 0), d)),
    }
}

// The main block, at `used`.
pub fn parse_block(
    text: &[u8],
    tree: &mut [u32],
    used: usize,
    cur: Cursor,
) -> Result<(Option<usize>, Cursor), Refusal>
    requires { Room text.now tree.old used 20 cur }
    ensures { Tries (λ b. only (block_node b)) text.now tree.old used tree.new (λ n. block text.now n) (8 * left cur + 2) 0 16 cur (try_of result) }
{
    let (declared, c) = parse_block_head(text, tree, used + tree::HEADER, 0, cur)?;
    let (body, d) = parse_body(text, tree, declared, 0, c)?;
    let Some(end) = body else {
        return Ok((None, d));
    };
    seal(tree, used, Kind::Block, 0, 4, end);
    Ok((Some(end), d))
}

// `program` name `;` block, from the first place on: the name is no part of the tree
pub fn parse_program(
    text: &[u8],
    tree: &mut [u32],
    cur: Cursor,
) -> Result<(Option<usize>, Cursor), Refusal>
    requires { Room text.now tree.old 0 20 cur }
    ensures { Tries (λ b. only (block_node b)) text.now tree.old 0 tree.new (λ n. program text.now n) (8 * left cur) 0 16 cur (try_of result) }
{
    let c = want(text, cur, Token::Program)?;
    let (_, d) = parse_id(text, tree, 0, c)?;
    let e = want(text, d, Token::Semicolon)?;
    parse_block(text, tree, 0, e)
}
