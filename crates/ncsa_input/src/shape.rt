// The parts of a line.

/// The form of a part.
#[derive(Clone, Copy, Debug, PartialEq, Eq)]
pub enum Shape {
    /// Bytes up to a space.
    Word,
    /// What stands in square brackets.
    Bracketed,
    /// What stands in quotes.
    Quoted,
}
