// The moment of a run.

/// A moment, in whole seconds since 1970-01-01 00:00:00 UTC.
#[derive(Clone, Copy)]
pub struct Moment {
    pub seconds: i64,
}
