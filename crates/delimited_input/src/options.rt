// How the fields of a log are parted.

/// How the fields of a log are parted, and whether the first line names the columns.
#[derive(Clone, Copy, Debug, PartialEq, Eq)]
pub struct DelimitedOptions {
    /// The byte that parts fields.
    pub separator: u8,
    /// Whether fields may stand in quotes.
    pub quotes: bool,
    /// Whether the first line is a header.
    pub header_row: bool,
}

/// A separator that can't part fields: CR, LF, a quote, or a byte over 0x7E.
#[derive(Clone, Copy, Debug, PartialEq, Eq)]
pub struct BadOption;
