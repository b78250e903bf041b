// Statements that hold no statement, each after its first token. `depth` counts the statement itself.
ghost use Rattle.std.specs.Prelude.{◌+◌, ◌*◌, ◌≤◌, length};
ghost use Rattle.lexer.specs.Meaning.{name_at};
ghost use Rattle.lexer.specs.Stands.{left};
ghost use Rattle.parser.specs.Answer.{try_of};
ghost use Rattle.parser.specs.Pieces.{statement, assigned, called, reading, writing};
ghost use Rattle.parser.specs.Meets.{Room, Tries};

use crate::arguments::parse_exps;
use crate::expressions::parse_exp;
use crate::lists::{parse_id, parse_ids};
use crate::nodes::seal;
use crate::see::{see, want};
use lexer::{Cursor, Token};
use numbers::refusal::Refusal;
use tree::Kind;

// `:=` exp, after the name
pub fn parse_assign(
    text: &[u8],
    tree: &mut [u32],
    used: usize,
    depth: usize,
    at: usize,
    len: usize,
    cur: Cursor,
) -> Result<(Option<usize>, Cursor), Refusal>
    requires room { Room text.now tree.old used 16 cur }
    requires len_in_bounds { at + len ≤ length text.now }
    ensures { Tries statement text.now tree.old used tree.new (λ n. assigned text.now (name_at text.now at len) n depth) (8 * left cur + 3) 4 0 cur (try_of result) }
{
    let c = want(text, cur, Token::EqSign)?;
    let named = tree::push_name(tree, used + tree::HEADER, 0, at, len);
    let (end, d) = parse_exp(text, tree, named, depth, c)?;
    seal(tree, used, Kind::Assign, 0, 2, end);
    Ok((Some(end), d))
}

// name `(` [exps] `)`, after `call`
pub fn parse_call(
    text: &[u8],
    tree: &mut [u32],
    used: usize,
    depth: usize,
    cur: Cursor,
) -> Result<(Option<usize>, Cursor), Refusal>
    requires { Room text.now tree.old used 16 cur }
    ensures { Tries statement text.now tree.old used tree.new (λ n. called text.now n depth) (8 * left cur + 3) 8 0 cur (try_of result) }
{
    let (named, c) = parse_id(text, tree, used + tree::HEADER, cur)?;
    let d = want(text, c, Token::ParL)?;
    let e = see(text, d)?;
    if let Token::ParR = e.token {
        seal(tree, used, Kind::Call, 0, 1, named);
        return Ok((Some(named), e.take()));
    }
    let (end, f) = parse_exps(text, tree, used, Kind::Call, 1, named, depth, e)?;
    Ok((Some(end), f))
}

// `(` names `)`, after `read`
pub fn parse_read(
    text: &[u8],
    tree: &mut [u32],
    used: usize,
    depth: usize,
    cur: Cursor,
) -> Result<(Option<usize>, Cursor), Refusal>
    requires { Room text.now tree.old used 16 cur }
    ensures { Tries statement text.now tree.old used tree.new (λ n. reading text.now n depth) (8 * left cur + 3) 8 0 cur (try_of result) }
{
    let c = want(text, cur, Token::ParL)?;
    let (end, d) = parse_ids(text, tree, used, Kind::Read, Token::ParR, c)?;
    Ok((Some(end), d))
}

// `(` exps `)`, after `write`
pub fn parse_write(
    text: &[u8],
    tree: &mut [u32],
    used: usize,
    depth: usize,
    cur: Cursor,
) -> Result<(Option<usize>, Cursor), Refusal>
    requires { Room text.now tree.old used 16 cur }
    ensures { Tries statement text.now tree.old used tree.new (λ n. writing text.now n depth) (8 * left cur + 3) 8 0 cur (try_of result) }
{
    let c = want(text, cur, Token::ParL)?;
    let start = used + tree::HEADER;
    let (end, d) = parse_exps(text, tree, used, Kind::Write, 0, start, depth, c)?;
    Ok((Some(end), d))
}
