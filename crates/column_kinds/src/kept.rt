// Records that are kept.
ghost use Rattle.std.specs.Prelude.{◌<◌, ◌^◌};

use line_input::{Columns, Fields};
use lp_outside::Name;
use lp_values::{Bytes, ListOf};

/// The first log of a run that has columns.
#[derive(Drop)]
pub struct FirstLog {
    pub identity: Name,
    pub columns: Columns,
}

/// A record of a log, whose fields may be parts of its line.
#[derive(Drop)]
pub struct KeptRow {
    pub identity: Name,
    pub number: u64,
    pub columns: Option<Columns>,
    pub line: Bytes,
    pub fields: Fields,
    ghost small: { number < 2 ^ 63 },
}

pub type KeptRows = ListOf<KeptRow>;
