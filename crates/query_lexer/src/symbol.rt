// The signs of the query language, and their texts.
ghost use Rattle.std.specs.Prelude.{◌≡◌, find, nat_eq, MatchOption};
ghost use Rattle.std.specs.List.{starts_with};
ghost use Rattle.query_lexer.specs.Symbols.{text_of, HasSign, HasNoSign};

/// A sign of the query language.
#[derive(Clone, Copy, Debug, PartialEq, Eq)]
pub enum Symbol {
    /// `(`
    Open,
    /// `)`
    Close,
    /// `,`
    Comma,
    /// `;`
    Semicolon,
    /// `*`
    Star,
    /// `=`
    Equal,
    /// `<>`
    NotEqual,
    /// `<`
    Less,
    /// `>`
    More,
    /// `<=`
    LessEqual,
    /// `>=`
    MoreEqual,
}

// The longer ones come first.
const ALL: [Symbol; 11] = [
    Symbol::NotEqual,
    Symbol::LessEqual,
    Symbol::MoreEqual,
    Symbol::Open,
    Symbol::Close,
    Symbol::Comma,
    Symbol::Semicolon,
    Symbol::Star,
    Symbol::Equal,
    Symbol::Less,
    Symbol::More,
];

impl Symbol {
    /// The sign as it is written.
    pub fn text(self) -> &'static str
        ensures { result.now ≡ text_of self }
    {
        match self {
            Symbol::Open => "(",
            Symbol::Close => ")",
            Symbol::Comma => ",",
            Symbol::Semicolon => ";",
            Symbol::Star => "*",
            Symbol::Equal => "=",
            Symbol::NotEqual => "<>",
            Symbol::Less => "<",
            Symbol::More => ">",
            Symbol::LessEqual => "<=",
            Symbol::MoreEqual => ">=",
        }
    }

    /// The longest sign with which a text begins.
    pub fn at_front(text: &[u8]) -> Option<Symbol>
        ensures { MatchOption result (HasNoSign text.now) (HasSign text.now) }
    {
        first_of(&ALL, text)
    }
}

/// The first of some signs with which a text begins.
fn first_of(signs: &[Symbol], text: &[u8]) -> Option<Symbol>
    ensures { result ≡ find (λ sign. starts_with nat_eq text.now (text_of sign)) signs.now }
{
    signs
        .iter()
        .copied()
        .find(|sign| text.starts_with(sign.text().as_bytes()))
}
