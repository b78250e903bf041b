// Literals.
ghost use Rattle.std.specs.Prelude.{◌≡◌, true, drop};
ghost use Rattle.numbers.specs.Bytes.{is_digit};
ghost use Rattle.lexer.specs.Tokens.{number_at};
ghost use Rattle.lexer.specs.Meaning.{Shows};
ghost use Rattle.lexer.specs.Spelling.{with_digit, literal_of};

use crate::token::{Lexed, Token};
use numbers::bytes::is_digit;

// The greatest value that a digit more does not always bring above the greatest literal.
const GREATEST_BEFORE: usize = i64::MAX as usize / 10;

// What stands for every value above the greatest literal.
const ABOVE: usize = i64::MAX as usize + 1;

// The value with one more digit. It is compared, where a saturating product would be tested as well: docs/PERFORMANCE.md.
fn with_digit(v: usize, b: u8) -> usize
    requires { is_digit b ≡ true }
    ensures { result ≡ with_digit v b }
{
    if v <= GREATEST_BEFORE {
        v * 10 + (b - b'0') as usize
    } else {
        ABOVE
    }
}

// The literal of that value.
fn literal(v: usize) -> Token
    ensures { result ≡ literal_of v }
{
    if v <= i64::MAX as usize {
        Token::Integer(v)
    } else {
        Token::TooBig
    }
}

// The literal that starts at i.
pub fn integer(text: &[u8], i: usize) -> Lexed
    ensures { Shows text.now result (number_at i (drop i text.now)) }
{
    let mut v = 0_usize;
    for e in i..text.len() {
        let b = text[e];
        if !is_digit(b) {
            return Lexed {
                token: literal(v),
                next: e,
            };
        }
        v = with_digit(v, b);
    }
    Lexed {
        token: literal(v),
        next: i.max(text.len()),
    }
}
