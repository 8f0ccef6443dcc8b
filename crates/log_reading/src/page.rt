// How far the reading of a log has come.
use line_input::{Fields, Splitter, Standing};

/// The state of the loop: what takes the rows, and how far the log is read.
#[derive(Drop)]
pub struct Page<T> {
    pub taker: T,
    pub splitter: Splitter,
    pub standing: Standing,
    /// Room for the fields of a line that is one row.
    pub row: Fields,
    /// Rows of all logs so far.
    pub rows: u64,
    /// Bad lines of all logs so far.
    pub bad: u64,
    /// How many bad lines there may be, if not any number.
    pub most_bad: Option<u64>,
}
