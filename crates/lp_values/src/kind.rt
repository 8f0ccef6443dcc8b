// Kinds of values.

/// What a column or an expression holds. `Any` is the kind of NULL, and fits every kind.
#[derive(Clone, Copy, Debug, PartialEq, Eq)]
pub enum Kind {
    Integer,
    Real,
    Text,
    Stamp,
    Any,
}
