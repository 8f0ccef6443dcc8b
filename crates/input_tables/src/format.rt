// The formats whose columns are known before a log is read.

/// An input format with a table of its own. The columns of CSV and TSV, which the logs tell, are in none.
#[derive(Clone, Copy, Debug, PartialEq, Eq)]
pub enum TableFormat {
    IisW3c,
    Ncsa,
    TextLine,
    TextWord,
}
