// How rotations are named, and what becomes of a file that is there.
/// How a rotated log is named.
#[derive(Clone, Copy, Debug, PartialEq, Eq)]
pub enum Rotation {
    /// A log keeps its name.
    Names,
    /// A log's name gets a number behind it.
    Numbers,
}

/// What becomes of an output's file that is there already.
#[derive(Clone, Copy, Debug, PartialEq, Eq)]
pub enum FileMode {
    /// The text goes behind what it holds.
    Append,
    /// The text takes its place.
    Overwrite,
    /// It stays, unless it is empty.
    LeaveAlone,
}
