// Numbers with six decimals.

/// A number as a whole count of millionths.
#[derive(Clone, Copy, Debug, PartialEq, Eq, PartialOrd, Ord, Hash)]
pub struct Real {
    pub millionths: i64,
}
