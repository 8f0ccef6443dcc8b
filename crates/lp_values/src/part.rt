// What a stamp has of a date and a time.

/// Which parts of date and time a stamp has.
#[derive(Clone, Copy, Debug, PartialEq, Eq, PartialOrd, Ord, Hash)]
pub enum Part {
    Date,
    Time,
    Both,
}
