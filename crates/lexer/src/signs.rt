// Signs.
ghost use Rattle.std.specs.Prelude.{◌≡◌, [], ◌∷◌, ◌+◌, ◌<◌, ◌^◌};
ghost use Rattle.lexer.specs.Marks.{singles};
ghost use Rattle.lexer.specs.Spelling.{named, sign_of};

use crate::token::{Lexed, Token};

// The sign of one byte; every other byte is bad.
fn single(b: u8) -> Token
    ensures { result ≡ named (b ∷ []) singles Token.LexicalError }
{
    match b {
        b'+' => Token::Add,
        b'-' => Token::Sub,
        b'*' => Token::Mul,
        b'/' => Token::Div,
        b'(' => Token::ParL,
        b')' => Token::ParR,
        b'=' => Token::Eq,
        b';' => Token::Semicolon,
        b',' => Token::Comma,
        b'<' => Token::Lt,
        b'>' => Token::Gt,
        _ => Token::LexicalError,
    }
}

// The sign at i, where the byte is b and the next is d: one of two bytes, or else one of one. That of one is found first,
// by a table, and the next byte is asked for before this one, since few signs are of two.
pub fn sign(i: usize, b: u8, d: u8) -> Lexed
    requires { i + 2 < 2 ^ 64 }
    ensures { result ≡ sign_of i b d }
{
    let one = Lexed {
        token: single(b),
        next: i + 1,
    };
    let token = match (d, b) {
        (b'=', b'<') => Token::Le,
        (b'=', b'>') => Token::Ge,
        (b'=', b':') => Token::EqSign,
        (b'>', b'<') => Token::Ne,
        _ => return one,
    };
    Lexed { token, next: i + 2 }
}
