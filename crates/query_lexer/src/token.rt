// The tokens of a query.
use crate::{Keyword, Symbol};
use lp_values::{Real, Text};

/// What a token is.
#[derive(Drop)]
pub enum TokenKind {
    /// A word that is no keyword, a word in brackets (without these), or a field such as
    /// `cs(Cookie)`.
    Word(Text),
    /// A keyword, whatever its case.
    Keyword(Keyword),
    /// A string, without its quotes and with doubled quotes as one.
    Str(Text),
    /// A whole number; `signed` tells whether a `-` stands before the digits.
    Integer { value: i64, signed: bool },
    /// A number with a point, whose decimals past six are cut.
    Real(Real),
    /// A name behind INTO or FROM.
    Name(Text),
    /// A sign.
    Symbol(Symbol),
}

/// A token and its place, in bytes from the text's start.
#[derive(Drop)]
pub struct Token {
    pub at: u32,
    pub kind: TokenKind,
}
