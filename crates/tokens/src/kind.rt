// The kinds of tokens.
ghost use Rattle.std.specs.Prelude.{◌≡◌};
ghost use Rattle.tokens.specs.Kinds.{is_stop};

// A name: its bytes, at most sixteen, and zeros behind them. So two names are the same if their arrays are.
#[derive(Clone, Copy, PartialEq, Eq)]
pub struct Name {
    pub bytes: [u8; 16],
}

#[derive(Clone, Copy, PartialEq, Eq)]
pub enum Kind {
    // What may stand after the last token: the end of the text, bytes that begin no token, a number too large,
    // a name too long, one token more than there may be.
    End,
    NoToken,
    TooLarge,
    TooLong,
    OverLimit,
    // Tokens.
    Name(Name),
    Number(u32),
    Main,
    Int,
    Bool,
    Let,
    In,
    If,
    Then,
    Else,
    True,
    False,
    Empty,
    Fst,
    Snd,
    Len,
    Range,
    Flat,
    Part,
    Scan,
    Reduce,
    Sum,
    Max,
    Or,
    Lin,
    House,
    Open,
    Close,
    SquareOpen,
    SquareClose,
    CurlyOpen,
    CurlyClose,
    Comma,
    Colon,
    Bar,
    Equal,
    Same,
    Less,
    Plus,
    Minus,
    Times,
    Divide,
    Remainder,
}

impl Kind {
    // Whether no token follows.
    pub fn is_stop(self) -> bool
        ensures { result ≡ is_stop self }
    {
        matches!(
            self,
            Kind::End | Kind::NoToken | Kind::TooLarge | Kind::TooLong | Kind::OverLimit
        )
    }
}

// A token, with the places in the text of its first byte and past its last.
#[derive(Clone, Copy, PartialEq, Eq)]
pub struct Token {
    pub kind: Kind,
    pub at: usize,
    pub end: usize,
}
