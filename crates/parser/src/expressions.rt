// Expressions, terms and factors. `used` is where the node goes, `op` how it joins what stands before it, `depth` how many constructs are open.
ghost use Rattle.std.specs.Prelude.{◌+◌, ◌*◌};
ghost use Rattle.numbers.specs.Arithmetic.{add, sub, mul, div};
ghost use Rattle.lexer.specs.Marks.{plus_sign, minus_sign, times_sign, divide_sign};
ghost use Rattle.lexer.specs.Stands.{left};
ghost use Rattle.grammar.specs.Grammar.{exp, term, factor};
ghost use Rattle.parser.specs.Parts.{operand, negated, signed, bracketed};
ghost use Rattle.parser.specs.Answer.{node_of};
ghost use Rattle.parser.specs.Meets.{Room, Reads};
ghost use Rattle.parser.specs.See.{Joins};

use crate::nodes::{FIRST, joined, seal};
use crate::see::{see, want};
use lexer::{Cursor, Token};
use numbers::arithmetic::Arith;
use numbers::limits::MAX_OPEN;
use numbers::refusal::Refusal;
use tree::Kind;

// How the term after a sign joins what stands before it.
fn sum_op(t: Token) -> Option<Arith>
    ensures { Joins plus_sign add minus_sign sub t result }
{
    match t {
        Token::Add => Some(Arith::Add),
        Token::Sub => Some(Arith::Sub),
        _ => None,
    }
}

// How the factor after a sign joins what stands before it.
fn product_op(t: Token) -> Option<Arith>
    ensures { Joins times_sign mul divide_sign div t result }
{
    match t {
        Token::Mul => Some(Arith::Mul),
        Token::Div => Some(Arith::Div),
        _ => None,
    }
}

// [+ or -] term {+ or - term}
#[cycle(parse_brackets_parse_exp_parse_factor_parse_negated_parse_signed_parse_term)]
pub fn parse_exp(
    text: &[u8],
    tree: &mut [u32],
    used: usize,
    depth: usize,
    cur: Cursor,
) -> Result<(usize, Cursor), Refusal>
    requires { Room text.now tree.old used 8 cur }
    ensures { Reads (operand 0) text.now tree.old used tree.new (λ n. exp text.now n depth) (8 * left cur + 3) 0 0 cur (node_of result) }
{
    let (mut end, mut c) = parse_signed(text, tree, used + tree::HEADER, depth, cur)?;
    let mut count = 1;
    loop {
        let d = see(text, c)?;
        let Some(sign) = sum_op(d.token) else {
            seal(tree, used, Kind::Chain, FIRST, count, end);
            return Ok((end, d));
        };
        let (e, f) = parse_term(text, tree, end, joined(sign), depth, d.take())?;
        end = e;
        count += 1;
        c = f;
    }
}

// [+ or -] term
#[cycle(parse_brackets_parse_exp_parse_factor_parse_negated_parse_signed_parse_term)]
pub fn parse_signed(
    text: &[u8],
    tree: &mut [u32],
    used: usize,
    depth: usize,
    cur: Cursor,
) -> Result<(usize, Cursor), Refusal>
    requires { Room text.now tree.old used 4 cur }
    ensures { Reads (operand 0) text.now tree.old used tree.new (λ n. signed text.now n depth) (8 * left cur + 2) 4 0 cur (node_of result) }
{
    let c = see(text, cur)?;
    match c.token {
        Token::Add => parse_term(text, tree, used, FIRST, depth, c.take()),
        Token::Sub => parse_negated(text, tree, used, depth, c.take()),
        _ => parse_term(text, tree, used, FIRST, depth, c),
    }
}

// The first term after a leading minus, which negates it whole.
#[cycle(parse_brackets_parse_exp_parse_factor_parse_negated_parse_signed_parse_term)]
pub fn parse_negated(
    text: &[u8],
    tree: &mut [u32],
    used: usize,
    depth: usize,
    cur: Cursor,
) -> Result<(usize, Cursor), Refusal>
    requires { Room text.now tree.old used 8 cur }
    ensures { Reads (operand 0) text.now tree.old used tree.new (λ n. negated text.now n depth) (8 * left cur + 2) 0 0 cur (node_of result) }
{
    let (end, c) = parse_term(text, tree, used + tree::HEADER, FIRST, depth, cur)?;
    seal(tree, used, Kind::Neg, FIRST, 1, end);
    Ok((end, c))
}

// factor {* or / factor}
#[cycle(parse_brackets_parse_exp_parse_factor_parse_negated_parse_signed_parse_term)]
pub fn parse_term(
    text: &[u8],
    tree: &mut [u32],
    used: usize,
    op: u32,
    depth: usize,
    cur: Cursor,
) -> Result<(usize, Cursor), Refusal>
    requires { Room text.now tree.old used 4 cur }
    ensures { Reads (operand op) text.now tree.old used tree.new (λ n. term text.now n depth) (8 * left cur + 2) 4 0 cur (node_of result) }
{
    let (mut end, mut c) = parse_factor(text, tree, used + tree::HEADER, FIRST, depth, cur)?;
    let mut count = 1;
    loop {
        let d = see(text, c)?;
        let Some(sign) = product_op(d.token) else {
            seal(tree, used, Kind::Chain, op, count, end);
            return Ok((end, d));
        };
        let (e, f) = parse_factor(text, tree, end, joined(sign), depth, d.take())?;
        end = e;
        count += 1;
        c = f;
    }
}

// name, number, or `(` exp `)`; the `(` is looked at before it opens
#[cycle(parse_brackets_parse_exp_parse_factor_parse_negated_parse_signed_parse_term)]
pub fn parse_factor(
    text: &[u8],
    tree: &mut [u32],
    used: usize,
    op: u32,
    depth: usize,
    cur: Cursor,
) -> Result<(usize, Cursor), Refusal>
    requires { Room text.now tree.old used 0 cur }
    ensures { Reads (operand op) text.now tree.old used tree.new (λ n. factor text.now n depth) (8 * left cur + 1) 8 0 cur (node_of result) }
{
    let c = see(text, cur)?;
    match c.token {
        Token::Identifier(at, n) => Ok((tree::push_name(tree, used, op, at, n), c.take())),
        Token::Integer(v) => Ok((tree::push_number(tree, used, op, v as i64), c.take())),
        Token::ParL => {
            if depth < MAX_OPEN {
                parse_brackets(text, tree, used, op, depth + 1, c.take())
            } else {
                Err(Refusal::TooManyOpen)
            }
        }
        _ => Err(Refusal::TokenMissing),
    }
}

// exp `)`, after the `(`
#[cycle(parse_brackets_parse_exp_parse_factor_parse_negated_parse_signed_parse_term)]
pub fn parse_brackets(
    text: &[u8],
    tree: &mut [u32],
    used: usize,
    op: u32,
    depth: usize,
    cur: Cursor,
) -> Result<(usize, Cursor), Refusal>
    requires { Room text.now tree.old used 12 cur }
    ensures { Reads (operand op) text.now tree.old used tree.new (λ n. bracketed text.now n depth) (8 * left cur + 3) 8 0 cur (node_of result) }
{
    let (end, c) = parse_exp(text, tree, used + tree::HEADER, depth, cur)?;
    let d = want(text, c, Token::ParR)?;
    seal(tree, used, Kind::Brackets, op, 1, end);
    Ok((end, d))
}
