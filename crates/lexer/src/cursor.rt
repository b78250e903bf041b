// The cursor: a position, one token and a flag, and how many tokens were looked at.
ghost use Rattle.std.specs.Prelude.{◌≡◌};
ghost use Rattle.lexer.specs.Stands.{Beyond, Looks, start, taken};

use crate::next_token;
use crate::token::Token;

// How many tokens may be looked at.
const MAX_TOKENS: usize = 8192;

#[derive(Clone, Copy)]
pub struct Cursor {
    // The token that is held, once it was looked at.
    pub token: Token,
    // Where the next token is looked for: past the token that is held.
    pub at: usize,
    // How many tokens were looked at.
    pub count: usize,
    // Whether the token was looked at.
    pub looked: bool,
}

// What is looked at past the last token that may be: the end of the text is still that.
fn beyond(token: Token) -> Token
    ensures { Beyond token result }
{
    match token {
        Token::EndOfText => token,
        _ => Token::TooMany,
    }
}

impl Cursor {
    pub fn new() -> Self
        ensures { result ≡ start }
    {
        Cursor {
            token: Token::EndOfText,
            at: 0,
            count: 0,
            looked: false,
        }
    }

    // The cursor with its token looked at.
    #[inline]
    pub fn look(self, text: &[u8]) -> Cursor
        ensures { Looks text.now self result }
    {
        if self.looked {
            return self;
        }
        let lexed = next_token(text, self.at);
        if self.count < MAX_TOKENS {
            Cursor {
                token: lexed.token,
                at: lexed.next,
                count: self.count + 1,
                looked: true,
            }
        } else {
            Cursor {
                token: beyond(lexed.token),
                at: lexed.next,
                count: self.count,
                looked: true,
            }
        }
    }

    // The cursor past its token.
    pub fn take(self) -> Cursor
        ensures { result ≡ taken self }
    {
        Cursor {
            token: Token::EndOfText,
            at: self.at,
            count: self.count,
            looked: false,
        }
    }
}
