// Statements and bodies, with the quiet failure of 01. `depth` counts the statement itself once it is entered.
ghost use Rattle.std.specs.Prelude.{◌+◌, ◌*◌};
ghost use Rattle.lexer.specs.Stands.{left};
ghost use Rattle.grammar.specs.Grammar.{stmt, body_of, stmts};
ghost use Rattle.parser.specs.Answer.{try_of, quiet_of};
ghost use Rattle.parser.specs.Pieces.{statement, body, looped, conditional, else_part, quiet_rest, Quiets};
ghost use Rattle.parser.specs.Meets.{Room, Tries};

use crate::conditions::parse_l_exp;
use crate::nodes::seal;
use crate::see::{see, want};
use crate::simple::{parse_assign, parse_call, parse_read, parse_write};
use lexer::{Cursor, Token};
use numbers::limits::MAX_OPEN;
use numbers::refusal::Refusal;
use tree::Kind;

// A statement place: the test for one construct too many comes before the token is judged, and a token that starts no
// statement yields nothing.
#[cycle(parse_body_parse_else_part_parse_if_parse_statement_parse_statements_parse_while_read_on)]
pub fn parse_statement(
    text: &[u8],
    tree: &mut [u32],
    used: usize,
    depth: usize,
    cur: Cursor,
) -> Result<(Option<usize>, Cursor), Refusal>
    requires { Room text.now tree.old used 4 cur }
    ensures { Tries statement text.now tree.old used tree.new (λ n. stmt text.now n depth) (8 * left cur + 3) 8 0 cur (try_of result) }
{
    if MAX_OPEN <= depth {
        return Err(Refusal::TooManyOpen);
    }
    let c = see(text, cur)?;
    match c.token {
        Token::Identifier(at, n) => parse_assign(text, tree, used, depth + 1, at, n, c.take()),
        Token::If => parse_if(text, tree, used, depth + 1, c.take()),
        Token::While => parse_while(text, tree, used, depth + 1, c.take()),
        Token::Call => parse_call(text, tree, used, depth + 1, c.take()),
        Token::Begin => parse_body(text, tree, used, depth + 1, c),
        Token::Read => parse_read(text, tree, used, depth + 1, c.take()),
        Token::Write => parse_write(text, tree, used, depth + 1, c.take()),
        _ => Ok((None, c)),
    }
}

// cond `do` st, after `while`
#[cycle(parse_body_parse_else_part_parse_if_parse_statement_parse_statements_parse_while_read_on)]
pub fn parse_while(
    text: &[u8],
    tree: &mut [u32],
    used: usize,
    depth: usize,
    cur: Cursor,
) -> Result<(Option<usize>, Cursor), Refusal>
    requires { Room text.now tree.old used 16 cur }
    ensures { Tries statement text.now tree.old used tree.new (λ n. looped text.now n depth) (8 * left cur + 3) 8 0 cur (try_of result) }
{
    let (tested, c) = parse_l_exp(text, tree, used + tree::HEADER, depth, cur)?;
    let d = want(text, c, Token::Do)?;
    let (repeated, e) = parse_statement(text, tree, tested, depth, d)?;
    let Some(end) = repeated else {
        return Ok((None, e));
    };
    seal(tree, used, Kind::While, 0, 2, end);
    Ok((Some(end), e))
}

// cond `then` st [`else` st], after `if`: the else part is read whatever the then part yields. Nothing in the then part
// makes the whole nothing; nothing in the else part is absorbed.
#[cycle(parse_body_parse_else_part_parse_if_parse_statement_parse_statements_parse_while_read_on)]
pub fn parse_if(
    text: &[u8],
    tree: &mut [u32],
    used: usize,
    depth: usize,
    cur: Cursor,
) -> Result<(Option<usize>, Cursor), Refusal>
    requires { Room text.now tree.old used 16 cur }
    ensures { Tries statement text.now tree.old used tree.new (λ n. conditional text.now n depth) (8 * left cur + 3) 8 0 cur (try_of result) }
{
    let (tested, c) = parse_l_exp(text, tree, used + tree::HEADER, depth, cur)?;
    let d = want(text, c, Token::Then)?;
    let (then_part, e) = parse_statement(text, tree, tested, depth, d)?;
    let Some(done) = then_part else {
        let (_, f) = parse_else_part(text, tree, tested, depth, e)?;
        return Ok((None, f));
    };
    let (else_part, g) = parse_else_part(text, tree, done, depth, e)?;
    match else_part {
        Some(end) => {
            seal(tree, used, Kind::If, 0, 3, end);
            Ok((Some(end), g))
        }
        None => {
            seal(tree, used, Kind::If, 0, 2, done);
            Ok((Some(done), g))
        }
    }
}

// [`else` st]: where it is not there, nothing
#[cycle(parse_body_parse_else_part_parse_if_parse_statement_parse_statements_parse_while_read_on)]
pub fn parse_else_part(
    text: &[u8],
    tree: &mut [u32],
    used: usize,
    depth: usize,
    cur: Cursor,
) -> Result<(Option<usize>, Cursor), Refusal>
    requires { Room text.now tree.old used 0 cur }
    ensures { Tries statement text.now tree.old used tree.new (λ n. else_part text.now n depth) (8 * left cur + 3) 8 0 cur (try_of result) }
{
    let c = see(text, cur)?;
    let Token::Else = c.token else {
        return Ok((None, c));
    };
    parse_statement(text, tree, used, depth, c.take())
}

// `begin` statement {`;` statement} `end`; with a member that yields nothing the `end` is left unread
#[cycle(parse_body_parse_else_part_parse_if_parse_statement_parse_statements_parse_while_read_on)]
pub fn parse_body(
    text: &[u8],
    tree: &mut [u32],
    used: usize,
    depth: usize,
    cur: Cursor,
) -> Result<(Option<usize>, Cursor), Refusal>
    requires { Room text.now tree.old used 4 cur }
    ensures { Tries body text.now tree.old used tree.new (λ n. body_of text.now n depth) (8 * left cur + 1) 8 0 cur (try_of result) }
{
    let c = want(text, cur, Token::Begin)?;
    let (members, d) = parse_statements(text, tree, used, depth, c)?;
    let Some(end) = members else {
        return Ok((None, d));
    };
    let e = want(text, d, Token::End)?;
    Ok((Some(end), e))
}

// statement {`;` statement}: the body's node, at `used`
#[cycle(parse_body_parse_else_part_parse_if_parse_statement_parse_statements_parse_while_read_on)]
pub fn parse_statements(
    text: &[u8],
    tree: &mut [u32],
    used: usize,
    depth: usize,
    cur: Cursor,
) -> Result<(Option<usize>, Cursor), Refusal>
    requires { Room text.now tree.old used 8 cur }
    ensures { Tries body text.now tree.old used tree.new (λ n. stmts text.now n depth) (8 * left cur + 4) 0 0 cur (try_of result) }
{
    let mut end = used + tree::HEADER;
    let mut count = 0;
    let mut c = cur;
    loop {
        let (member, d) = parse_statement(text, tree, end, depth, c)?;
        let Some(e) = member else {
            let g = read_on(text, tree, end, depth, d)?;
            return Ok((None, g));
        };
        end = e;
        count += 1;
        let f = see(text, d)?;
        let Token::Semicolon = f.token else {
            seal(tree, used, Kind::Body, 0, count, end);
            return Ok((Some(end), f));
        };
        c = f.take();
    }
}

// {`;` statement} after a member that yields nothing: the list is read on, and the whole is nothing. It answers the
// cursor after the list.
#[cycle(parse_body_parse_else_part_parse_if_parse_statement_parse_statements_parse_while_read_on)]
pub fn read_on(
    text: &[u8],
    tree: &mut [u32],
    used: usize,
    depth: usize,
    cur: Cursor,
) -> Result<Cursor, Refusal>
    requires { Room text.now tree.old used 0 cur }
    ensures { Quiets text.now tree.old used tree.new (λ n. quiet_rest text.now n depth) (8 * left cur + 1) cur (quiet_of result) }
{
    let mut c = cur;
    loop {
        let d = see(text, c)?;
        let Token::Semicolon = d.token else {
            return Ok(d);
        };
        let (_, e) = parse_statement(text, tree, used, depth, d.take())?;
        c = e;
    }
}
