// The tokens, in the order of the Rust.
ghost use Rattle.std.specs.Prelude.{◌≡◌, eqb};
ghost use Rattle.lexer.specs.Kinds.{kind_of};

#[derive(Clone, Copy)]
pub enum Token {
    If,
    Then,
    Else,
    While,
    Do,
    Const,
    Var,
    Procedure,
    Program,
    Begin,
    End,
    Call,
    Read,
    Write,
    Odd,
    Add,
    Sub,
    Mul,
    Div,
    Eq,
    Lt,
    Gt,
    Le,
    Ge,
    Ne,
    EqSign,
    ParL,
    ParR,
    Semicolon,
    Comma,
    // A name: its offset and its length.
    Identifier(usize, usize),
    // A literal: its value.
    Integer(usize),
    LexicalError,
    // A literal above the greatest i64.
    TooBig,
    // A token past the last that may be looked at.
    TooMany,
    EndOfText,
}

impl Token {
    // The place of its variant in that order.
    fn kind(self) -> u8
        ensures { result ≡ kind_of self }
    {
        match self {
            Token::If => 0,
            Token::Then => 1,
            Token::Else => 2,
            Token::While => 3,
            Token::Do => 4,
            Token::Const => 5,
            Token::Var => 6,
            Token::Procedure => 7,
            Token::Program => 8,
            Token::Begin => 9,
            Token::End => 10,
            Token::Call => 11,
            Token::Read => 12,
            Token::Write => 13,
            Token::Odd => 14,
            Token::Add => 15,
            Token::Sub => 16,
            Token::Mul => 17,
            Token::Div => 18,
            Token::Eq => 19,
            Token::Lt => 20,
            Token::Gt => 21,
            Token::Le => 22,
            Token::Ge => 23,
            Token::Ne => 24,
            Token::EqSign => 25,
            Token::ParL => 26,
            Token::ParR => 27,
            Token::Semicolon => 28,
            Token::Comma => 29,
            Token::Identifier(_, _) => 30,
            Token::Integer(_) => 31,
            Token::LexicalError => 32,
            Token::TooBig => 33,
            Token::TooMany => 34,
            Token::EndOfText => 35,
        }
    }

    // Whether it is of the other's kind: of a mark, whether it is that mark.
    #[inline]
    pub fn is(self, other: Token) -> bool
        ensures { result ≡ eqb (kind_of self) (kind_of other) }
    {
        self.kind() == other.kind()
    }
}

// A token, and where the next is looked for.
#[derive(Clone, Copy)]
pub struct Lexed {
    pub token: Token,
    pub next: usize,
}
