// Looking at a token, and requiring one. Both are put where they are called.
ghost use Rattle.std.specs.Prelude.{◌≡◌};
ghost use Rattle.lexer.specs.Marks.{Mark};
ghost use Rattle.lexer.specs.Spelling.{token_of};
ghost use Rattle.parser.specs.See.{Sees, Wants};

use lexer::{Cursor, Token};
use numbers::refusal::Refusal;

// Looks at the token at the cursor.
#[inline(always)]
pub fn see(text: &[u8], cur: Cursor) -> Result<Cursor, Refusal>
    ensures { Sees text.now cur result }
{
    let c = cur.look(text);
    match c.token {
        Token::LexicalError => Err(Refusal::BadToken),
        Token::TooBig => Err(Refusal::LiteralTooBig),
        Token::TooMany => Err(Refusal::TooManyTokens),
        Token::EndOfText => Err(Refusal::TokenMissing),
        _ => Ok(c),
    }
}

// A mark that has to be there: taken, or refused.
#[inline]
pub fn want(text: &[u8], cur: Cursor, mark: Token) -> Result<Cursor, Refusal>
    ensures { (k : Mark) → mark ≡ token_of k → Wants text.now k cur result }
{
    let c = see(text, cur)?;
    if c.token.is(mark) {
        Ok(c.take())
    } else {
        Err(Refusal::TokenMissing)
    }
}
