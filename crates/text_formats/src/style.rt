// How the fields of a line stand.

/// Fields between separators. A byte that would break a field is replaced.
#[derive(Clone, Copy, Debug, PartialEq, Eq)]
pub struct Style {
    pub separator: u8,
    /// A further byte that no field holds.
    pub blank: u8,
    /// What stands in the place of a separator, of that byte, and of CR and LF.
    pub instead: u8,
    /// Whether an empty field is a dash.
    pub dashed: bool,
}
