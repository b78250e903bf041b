// Conditions.
ghost use Rattle.std.specs.Prelude.{◌+◌, ◌*◌};
ghost use Rattle.lexer.specs.Stands.{left};
ghost use Rattle.grammar.specs.Grammar.{cond};
ghost use Rattle.parser.specs.Parts.{condition, odds, compared, Compares};
ghost use Rattle.parser.specs.Answer.{node_of};
ghost use Rattle.parser.specs.Meets.{Room, Reads};

use crate::expressions::parse_exp;
use crate::nodes::{FIRST, compared, seal};
use crate::see::see;
use lexer::{Cursor, Token};
use numbers::arithmetic::Compare;
use numbers::refusal::Refusal;
use tree::Kind;

// The comparison that a token stands for.
fn comparison(t: Token) -> Option<Compare>
    ensures { Compares t result }
{
    match t {
        Token::Eq => Some(Compare::Equal),
        Token::Ne => Some(Compare::Unequal),
        Token::Lt => Some(Compare::Less),
        Token::Ge => Some(Compare::AtLeast),
        Token::Gt => Some(Compare::Greater),
        Token::Le => Some(Compare::AtMost),
        _ => None,
    }
}

// `odd` exp, or exp sign exp
pub fn parse_l_exp(
    text: &[u8],
    tree: &mut [u32],
    used: usize,
    depth: usize,
    cur: Cursor,
) -> Result<(usize, Cursor), Refusal>
    requires { Room text.now tree.old used 12 cur }
    ensures { Reads condition text.now tree.old used tree.new (λ n. cond text.now n depth) (8 * left cur + 3) 8 0 cur (node_of result) }
{
    let c = see(text, cur)?;
    match c.token {
        Token::Odd => parse_odd(text, tree, used, depth, c.take()),
        _ => parse_comparison(text, tree, used, depth, c),
    }
}

// exp, after `odd`
fn parse_odd(
    text: &[u8],
    tree: &mut [u32],
    used: usize,
    depth: usize,
    cur: Cursor,
) -> Result<(usize, Cursor), Refusal>
    requires { Room text.now tree.old used 12 cur }
    ensures { Reads condition text.now tree.old used tree.new (λ n. odds text.now n depth) (8 * left cur + 3) 0 4 cur (node_of result) }
{
    let (end, c) = parse_exp(text, tree, used + tree::HEADER, depth, cur)?;
    seal(tree, used, Kind::Odd, FIRST, 1, end);
    Ok((end, c))
}

// exp sign exp
fn parse_comparison(
    text: &[u8],
    tree: &mut [u32],
    used: usize,
    depth: usize,
    cur: Cursor,
) -> Result<(usize, Cursor), Refusal>
    requires { Room text.now tree.old used 12 cur }
    ensures { Reads condition text.now tree.old used tree.new (λ n. compared text.now n depth) (8 * left cur + 3) 8 0 cur (node_of result) }
{
    let (first, c) = parse_exp(text, tree, used + tree::HEADER, depth, cur)?;
    let d = see(text, c)?;
    let sign = comparison(d.token).ok_or(Refusal::TokenMissing)?;
    let (end, e) = parse_exp(text, tree, first, depth, d.take())?;
    seal(tree, used, Kind::Comparison, compared(sign), 2, end);
    Ok((end, e))
}
