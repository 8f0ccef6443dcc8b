// What stands at a place of a text.
ghost use Rattle.std.specs.Prelude.{◌≡◌};
ghost use Rattle.query_lexer.specs.Reading.{names_come, after, after_keyword, after_name, after_symbol, fault_of};

use crate::{Keyword, LexFault, Symbol, TokenKind};

/// How what begins with a byte is read.
#[derive(Clone, Copy, Debug, PartialEq, Eq)]
pub(crate) enum Start {
    Blank,
    Quote,
    Name,
    Letter,
    Number,
    Bracket,
    Sign,
}

/// Why no token begins at a place.
#[derive(Clone, Copy, Debug, PartialEq, Eq)]
pub(crate) enum Problem {
    BadCharacter,
    OpenString,
    OpenBracket,
    NumberTooLarge,
}

impl Problem {
    pub(crate) fn at(self, at: u32) -> LexFault
        ensures { result ≡ fault_of self at }
    {
        match self {
            Problem::BadCharacter => LexFault::BadCharacter { at },
            Problem::OpenString => LexFault::OpenString { at },
            Problem::OpenBracket => LexFault::OpenBracket { at },
            Problem::NumberTooLarge => LexFault::NumberTooLarge { at },
        }
    }
}

/// What stands at a place: a blank, a token and how many bytes it has, or a problem.
#[derive(Drop)]
pub(crate) enum Piece {
    Blank,
    Token(TokenKind, usize),
    Bad(Problem),
}

/// Whether names may come.
#[derive(Clone, Copy, Debug, PartialEq, Eq)]
pub(crate) enum Mode {
    Ordinary,
    BehindInto,
    BehindFrom,
    /// Behind a name of FROM, where a comma leads to the next.
    BehindName,
}

impl Mode {
    pub(crate) fn names_come(self) -> bool
        ensures { result ≡ names_come self }
    {
        match self {
            Mode::BehindInto | Mode::BehindFrom => true,
            Mode::Ordinary | Mode::BehindName => false,
        }
    }

    pub(crate) fn after(self, kind: &TokenKind) -> Mode
        ensures { result ≡ after self kind.now }
    {
        match kind {
            TokenKind::Keyword(keyword) => after_keyword(*keyword),
            TokenKind::Name(_) => self.after_name(),
            TokenKind::Symbol(sign) => self.after_symbol(*sign),
            _ => Mode::Ordinary,
        }
    }

    fn after_name(self) -> Mode
        ensures { result ≡ after_name self }
    {
        match self {
            Mode::BehindFrom => Mode::BehindName,
            _ => Mode::Ordinary,
        }
    }

    fn after_symbol(self, sign: Symbol) -> Mode
        ensures { result ≡ after_symbol self sign }
    {
        match (self, sign) {
            (Mode::BehindName, Symbol::Comma) => Mode::BehindFrom,
            _ => Mode::Ordinary,
        }
    }
}

fn after_keyword(keyword: Keyword) -> Mode
    ensures { result ≡ after_keyword keyword }
{
    match keyword {
        Keyword::Into => Mode::BehindInto,
        Keyword::From => Mode::BehindFrom,
        _ => Mode::Ordinary,
    }
}
