// The marks of a section.

/// What a mark stands for.
#[derive(Clone, Copy, Debug, PartialEq, Eq)]
pub enum Mark {
    /// The value of a column.
    Value(usize),
    /// The name of a column.
    Name(usize),
    /// The number of columns.
    Count,
    /// The moment of the run.
    Moment,
}

/// A mark, and its size behind the first `%`.
#[derive(Clone, Copy, Debug, PartialEq, Eq)]
pub struct FoundMark {
    pub mark: Mark,
    pub size: usize,
}
