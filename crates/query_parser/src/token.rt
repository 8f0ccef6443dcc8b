// One token, as the grammar sees it.
ghost use Rattle.std.specs.Prelude.{◌≡◌, IfOk, true, pos};
ghost use Rattle.grammar.specs.Classes.{is_a};
ghost use Rattle.grammar.specs.Rules.{is_plain, is_counting, is_word, is_integer, is_separator, begins_literal, begins_expr};
ghost use Rattle.grammar.specs.declared.Class.TheVariants as class;
ghost use Rattle.query_tree.specs.Tokens.{seen, class_of_keyword, class_of_symbol, class_of_word, class_of_integer};
ghost use Rattle.query_tree.specs.Views.{number_of};
ghost use Rattle.query_parser.specs.Sorts.{in_sort};

use grammar::Class;
use lp_values::{Compare, Real, Text};
use query_lexer::{Keyword, Symbol, Token, TokenKind};
use std::alloc::{AllocError, Global};

/// Some classes of tokens.
#[derive(Clone, Copy, Debug, PartialEq, Eq)]
pub enum Sort {
    /// Any word.
    Word,
    /// A word that is neither COUNT nor PROPCOUNT.
    Plain,
    /// COUNT or PROPCOUNT.
    Counting,
    Integer,
    /// A comma or a semicolon.
    Separator,
    /// What stands for a value by itself.
    Literal,
    /// What an expression begins with.
    Expression,
}

impl Sort {
    pub fn has(self, class: Class) -> bool
        ensures { result ≡ in_sort self class }
    {
        match self {
            Sort::Word => is_word(class),
            Sort::Plain => is_plain(class),
            Sort::Counting => is_counting(class),
            Sort::Integer => is_integer(class),
            Sort::Separator => is_separator(class),
            Sort::Literal => begins_literal(class),
            Sort::Expression => begins_expression(class),
        }
    }
}

fn is_plain(class: Class) -> bool
    ensures { result ≡ is_plain class }
{
    Class::Word.is(class) || Class::Timestamp.is(class)
}

fn is_counting(class: Class) -> bool
    ensures { result ≡ is_counting class }
{
    Class::Count.is(class) || Class::PropCount.is(class)
}

fn is_word(class: Class) -> bool
    ensures { result ≡ is_word class }
{
    is_plain(class) || is_counting(class)
}

fn is_integer(class: Class) -> bool
    ensures { result ≡ is_integer class }
{
    Class::Unsigned.is(class) || Class::Signed.is(class)
}

fn is_separator(class: Class) -> bool
    ensures { result ≡ is_separator class }
{
    Class::Semicolon.is(class) || Class::Comma.is(class)
}

fn begins_literal(class: Class) -> bool
    ensures { result ≡ begins_literal class }
{
    is_integer(class) || Class::Real.is(class) || Class::Text.is(class) || Class::Null.is(class)
}

fn begins_expression(class: Class) -> bool
    ensures { result ≡ begins_expr class }
{
    begins_literal(class) || is_word(class) || Class::Case.is(class)
}

fn keyword_class(keyword: Keyword) -> Class
    ensures { result ≡ class_of_keyword keyword }
{
    match keyword {
        Keyword::Select => Class::Select,
        Keyword::Top => Class::Top,
        Keyword::Distinct => Class::Distinct,
        Keyword::All => Class::All,
        Keyword::Using => Class::Using,
        Keyword::As => Class::As,
        Keyword::Into => Class::Into,
        Keyword::From => Class::From,
        Keyword::Where => Class::Where,
        Keyword::Group => Class::Group,
        Keyword::By => Class::By,
        Keyword::With => Class::With,
        Keyword::Rollup => Class::Rollup,
        Keyword::Having => Class::Having,
        Keyword::Order => Class::Order,
        Keyword::Asc => Class::Asc,
        Keyword::Desc => Class::Desc,
        Keyword::And => Class::And,
        Keyword::Or => Class::Or,
        Keyword::Not => Class::Not,
        Keyword::Like => Class::Like,
        Keyword::Between => Class::Between,
        Keyword::In => Class::In,
        Keyword::Is => Class::Is,
        Keyword::Null => Class::Null,
        Keyword::Case => Class::Case,
        Keyword::When => Class::When,
        Keyword::Then => Class::Then,
        Keyword::Else => Class::Else,
        Keyword::End => Class::End,
    }
}

fn symbol_class(symbol: Symbol) -> Class
    ensures { result ≡ class_of_symbol symbol }
{
    match symbol {
        Symbol::Open => Class::Open,
        Symbol::Close => Class::Close,
        Symbol::Comma => Class::Comma,
        Symbol::Semicolon => Class::Semicolon,
        Symbol::Star => Class::Star,
        Symbol::Equal => Class::Compares,
        Symbol::NotEqual => Class::Compares,
        Symbol::Less => Class::Compares,
        Symbol::More => Class::Compares,
        Symbol::LessEqual => Class::Compares,
        Symbol::MoreEqual => Class::Compares,
    }
}

fn word_class(word: &str) -> Class
    ensures { result ≡ class_of_word word.now }
{
    if word.eq_ignore_ascii_case("COUNT") {
        Class::Count
    } else if word.eq_ignore_ascii_case("PROPCOUNT") {
        Class::PropCount
    } else if word.eq_ignore_ascii_case("TIMESTAMP") {
        Class::Timestamp
    } else {
        Class::Word
    }
}

fn integer_class(value: i64, signed: bool) -> Class
    ensures { result ≡ class_of_integer signed value }
{
    if signed || value < 0 {
        Class::Signed
    } else {
        Class::Unsigned
    }
}

/// The class of a token.
pub fn class_of(token: &Token) -> Class
    ensures { result ≡ (seen token.now).class }
{
    match &token.kind {
        TokenKind::Word(text) => word_class(text.as_str()),
        TokenKind::Keyword(keyword) => keyword_class(*keyword),
        TokenKind::Str(_) => Class::Text,
        TokenKind::Integer { value, signed } => integer_class(*value, *signed),
        TokenKind::Real(_) => Class::Real,
        TokenKind::Name(_) => Class::Name,
        TokenKind::Symbol(symbol) => symbol_class(*symbol),
    }
}

/// The text that a token stands for: empty where it stands for none.
pub fn text_of(alloc: Global, token: &Token) -> Result<Text, AllocError>
    ensures { IfOk result (λ text. text ≡ (seen token.now).name) }
{
    match &token.kind {
        TokenKind::Word(text) => text.copy(alloc),
        TokenKind::Str(text) => text.copy(alloc),
        TokenKind::Name(text) => text.copy(alloc),
        _ => Text::from_str(alloc, ""),
    }
}

/// The number that an integer stands for: 0 for other tokens.
pub fn integer_of(token: &Token) -> i64
    requires { is_integer (seen token.now).class ≡ true }
    ensures { result ≡ (seen token.now).number }
{
    match &token.kind {
        TokenKind::Integer { value, .. } => *value,
        _ => 0,
    }
}

/// The number that an integer without a sign stands for.
pub fn count_of(token: &Token) -> u64
    requires { is_a class.Unsigned (seen token.now).class ≡ true }
    ensures { pos result ≡ (seen token.now).number }
{
    integer_of(token).unsigned_abs()
}

/// The number with decimals that a token stands for.
pub fn real_of(token: &Token) -> Real
    requires { is_a class.Real (seen token.now).class ≡ true }
    ensures { result.millionths ≡ (seen token.now).number }
{
    match &token.kind {
        TokenKind::Real(value) => *value,
        _ => Real { millionths: 0 },
    }
}

/// The comparison that a sign stands for.
pub fn comparison_of(token: &Token) -> Compare
    requires { is_a class.Compares (seen token.now).class ≡ true }
    ensures { number_of result ≡ (seen token.now).number }
{
    match &token.kind {
        TokenKind::Symbol(Symbol::NotEqual) => Compare::NotEqual,
        TokenKind::Symbol(Symbol::Less) => Compare::Less,
        TokenKind::Symbol(Symbol::More) => Compare::More,
        TokenKind::Symbol(Symbol::LessEqual) => Compare::LessEqual,
        TokenKind::Symbol(Symbol::MoreEqual) => Compare::MoreEqual,
        _ => Compare::Equal,
    }
}
