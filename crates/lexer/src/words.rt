// Words: the keywords and the names.
ghost use Rattle.std.specs.Prelude.{◌≡◌, ◌<◌, length, drop};
ghost use Rattle.numbers.specs.Bytes.{eq_list};
ghost use Rattle.lexer.specs.Marks.{keywords};
ghost use Rattle.lexer.specs.Tokens.{word_at};
ghost use Rattle.lexer.specs.Meaning.{Shows};
ghost use Rattle.lexer.specs.Spelling.{named};

use crate::bytes::{byte_at, past};
use crate::token::{Lexed, Token};
use numbers::bytes::is_word_byte;

// Whether two lists of bytes are the same. With a short list that is known this is compared in place, where `==` of slices
// would be a call.
fn same(a: &[u8], b: &[u8]) -> bool
    ensures { result ≡ eq_list a.now b.now }
{
    if a.len() != b.len() {
        return false;
    }
    for i in 0..a.len() {
        if a[i] != b[i] {
            return false;
        }
    }
    true
}

// The keyword that is spelt so, or else the name.
fn keyword(w: &[u8], name: Token) -> Token
    ensures { result ≡ named w.now keywords name }
{
    if same(w, b"if") {
        Token::If
    } else if same(w, b"then") {
        Token::Then
    } else if same(w, b"else") {
        Token::Else
    } else if same(w, b"while") {
        Token::While
    } else if same(w, b"do") {
        Token::Do
    } else if same(w, b"const") {
        Token::Const
    } else if same(w, b"var") {
        Token::Var
    } else if same(w, b"procedure") {
        Token::Procedure
    } else if same(w, b"program") {
        Token::Program
    } else if same(w, b"begin") {
        Token::Begin
    } else if same(w, b"end") {
        Token::End
    } else if same(w, b"call") {
        Token::Call
    } else if same(w, b"read") {
        Token::Read
    } else if same(w, b"write") {
        Token::Write
    } else if same(w, b"odd") {
        Token::Odd
    } else {
        name
    }
}

// The word that starts at i; one followed at once by `_` is bad.
pub fn word(text: &[u8], i: usize) -> Lexed
    requires { i < length text.now }
    ensures { Shows text.now result (word_at i (drop i text.now)) }
{
    let e = past(text, i, is_word_byte);
    if byte_at(text, e) == b'_' {
        return Lexed {
            token: Token::LexicalError,
            next: e,
        };
    }
    let w = &text[i..e];
    Lexed {
        token: keyword(w, Token::Identifier(i, e - i)),
        next: e,
    }
}
