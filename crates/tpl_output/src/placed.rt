// What stands where in a template.

use crate::Section;

/// The mark that opens or closes a section.
#[derive(Clone, Copy, Debug, PartialEq, Eq)]
pub struct Tag {
    pub section: Section,
    pub closing: bool,
}

/// A section's mark with its place and the place behind it.
#[derive(Clone, Copy, Debug, PartialEq, Eq)]
pub struct Placed {
    pub at: usize,
    pub behind: usize,
    pub tag: Tag,
}

#[derive(Clone, Copy, Debug, PartialEq, Eq)]
pub enum Kind {
    Unclosed,
    Misplaced,
    OutsideText,
    TooLarge,
}

/// A fault with its place.
#[derive(Clone, Copy, Debug, PartialEq, Eq)]
pub struct Found {
    pub kind: Kind,
    pub at: usize,
}
