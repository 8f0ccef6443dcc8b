//! The grammar of queries, and its laws.
//!
//! The rules stand as data in `specs::Rules`, one for each line of the grammar. A crate above relies on what derives
//! from them (`Derivation`), on `Exact`, which says all that an answer of a reader may promise, and on the laws of
//! `proofs`, one for each form of rule: they make the answer of a form from those of its parts.
#![tactic(auto)]

ghost use Rattle.std.specs.Prelude.{◌≡◌};
ghost use Rattle.grammar.specs.Classes.{code, is_a};

/// What the grammar tells apart in a token.
#[derive(Clone, Copy, Debug, PartialEq, Eq)]
pub enum Class {
    /// An integer without a sign.
    Unsigned,
    /// An integer with a sign.
    Signed,
    /// A number with a point.
    Real,
    /// A text in quotes.
    Text,
    /// A name of a file.
    Name,
    /// A word that is none of the next three.
    Word,
    /// The word COUNT.
    Count,
    /// The word PROPCOUNT.
    PropCount,
    /// The word TIMESTAMP.
    Timestamp,
    Select,
    Top,
    Distinct,
    All,
    Using,
    As,
    Into,
    From,
    Where,
    Group,
    By,
    With,
    Rollup,
    Having,
    Order,
    Asc,
    Desc,
    And,
    Or,
    Not,
    Like,
    Between,
    In,
    Is,
    Null,
    Case,
    When,
    Then,
    Else,
    End,
    Open,
    Close,
    Comma,
    Semicolon,
    Star,
    /// One of the six signs of comparison.
    Compares,
}

impl Class {
    fn code(self) -> u8
        ensures { result ≡ code self }
    {
        match self {
            Class::Unsigned => 0,
            Class::Signed => 1,
            Class::Real => 2,
            Class::Text => 3,
            Class::Name => 4,
            Class::Word => 5,
            Class::Count => 6,
            Class::PropCount => 7,
            Class::Timestamp => 8,
            Class::Select => 9,
            Class::Top => 10,
            Class::Distinct => 11,
            Class::All => 12,
            Class::Using => 13,
            Class::As => 14,
            Class::Into => 15,
            Class::From => 16,
            Class::Where => 17,
            Class::Group => 18,
            Class::By => 19,
            Class::With => 20,
            Class::Rollup => 21,
            Class::Having => 22,
            Class::Order => 23,
            Class::Asc => 24,
            Class::Desc => 25,
            Class::And => 26,
            Class::Or => 27,
            Class::Not => 28,
            Class::Like => 29,
            Class::Between => 30,
            Class::In => 31,
            Class::Is => 32,
            Class::Null => 33,
            Class::Case => 34,
            Class::When => 35,
            Class::Then => 36,
            Class::Else => 37,
            Class::End => 38,
            Class::Open => 39,
            Class::Close => 40,
            Class::Comma => 41,
            Class::Semicolon => 42,
            Class::Star => 43,
            Class::Compares => 44,
        }
    }

    pub fn is(self, other: Class) -> bool
        ensures { result ≡ is_a self other }
    {
        self.code() == other.code()
    }
}
