// The keywords, and their names.
ghost use Rattle.std.specs.Prelude.{◌≡◌, MatchOption};
ghost use Rattle.query_lexer.specs.Keywords.{name_of, IsKeyword, IsNoKeyword};

/// A keyword of the query language.
#[derive(Clone, Copy, Debug, PartialEq, Eq)]
pub enum Keyword {
    Select,
    Top,
    Distinct,
    All,
    Using,
    As,
    Into,
    From,
    Where,
    Group,
    By,
    With,
    Rollup,
    Having,
    Order,
    Asc,
    Desc,
    And,
    Or,
    Not,
    Like,
    Between,
    In,
    Is,
    Null,
    Case,
    When,
    Then,
    Else,
    End,
}

const ALL: [Keyword; 30] = [
    Keyword::Select,
    Keyword::Top,
    Keyword::Distinct,
    Keyword::All,
    Keyword::Using,
    Keyword::As,
    Keyword::Into,
    Keyword::From,
    Keyword::Where,
    Keyword::Group,
    Keyword::By,
    Keyword::With,
    Keyword::Rollup,
    Keyword::Having,
    Keyword::Order,
    Keyword::Asc,
    Keyword::Desc,
    Keyword::And,
    Keyword::Or,
    Keyword::Not,
    Keyword::Like,
    Keyword::Between,
    Keyword::In,
    Keyword::Is,
    Keyword::Null,
    Keyword::Case,
    Keyword::When,
    Keyword::Then,
    Keyword::Else,
    Keyword::End,
];

impl Keyword {
    /// The keyword in capitals.
    pub fn name(self) -> &'static str
        ensures { result.now ≡ name_of self }
    {
        match self {
            Keyword::Select => "SELECT",
            Keyword::Top => "TOP",
            Keyword::Distinct => "DISTINCT",
            Keyword::All => "ALL",
            Keyword::Using => "USING",
            Keyword::As => "AS",
            Keyword::Into => "INTO",
            Keyword::From => "FROM",
            Keyword::Where => "WHERE",
            Keyword::Group => "GROUP",
            Keyword::By => "BY",
            Keyword::With => "WITH",
            Keyword::Rollup => "ROLLUP",
            Keyword::Having => "HAVING",
            Keyword::Order => "ORDER",
            Keyword::Asc => "ASC",
            Keyword::Desc => "DESC",
            Keyword::And => "AND",
            Keyword::Or => "OR",
            Keyword::Not => "NOT",
            Keyword::Like => "LIKE",
            Keyword::Between => "BETWEEN",
            Keyword::In => "IN",
            Keyword::Is => "IS",
            Keyword::Null => "NULL",
            Keyword::Case => "CASE",
            Keyword::When => "WHEN",
            Keyword::Then => "THEN",
            Keyword::Else => "ELSE",
            Keyword::End => "END",
        }
    }

    /// The keyword that a word is, whatever its case.
    pub fn by_name(word: &str) -> Option<Keyword>
        ensures { MatchOption result (IsNoKeyword word.now) (IsKeyword word.now) }
    {
        for keyword in ALL {
            if word.eq_ignore_ascii_case(keyword.name()) {
                return Some(keyword);
            }
        }
        None
    }
}
