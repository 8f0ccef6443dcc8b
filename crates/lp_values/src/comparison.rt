// The comparisons.

/// The six comparisons.
#[derive(Clone, Copy, Debug, PartialEq, Eq)]
pub enum Compare {
    Equal,
    NotEqual,
    Less,
    More,
    LessEqual,
    MoreEqual,
}
