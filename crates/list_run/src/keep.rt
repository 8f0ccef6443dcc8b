// What is kept of a subquery's values.

/// What is kept of a subquery's values, in order, beside the set of them.
#[derive(Clone, Copy, Debug, PartialEq, Eq)]
pub enum Keep {
    Nothing,
    All,
    /// The first occurrence of each value alone.
    Distinct,
}
