// How far a sample has come.
ghost use Rattle.std.specs.Prelude.{◌<◌, max};
ghost use Rattle.column_kinds.specs.Phases.{kept_in};

use crate::{FirstLog, KeptRows};
use lp_time::Pattern;
use query_types::TypeFault;

/// The records before their columns are judged, and what makes the taker for them.
#[derive(Drop)]
pub struct Gathering<M> {
    /// The first log that has columns, if one is known.
    pub first: Option<FirstLog>,
    pub rows: KeptRows,
    pub maker: M,
}

#[derive(Drop)]
pub enum Phase<M, T> {
    /// Records are kept, until they tell the columns.
    Gathering(Gathering<M>),
    /// The taker takes them.
    Taking(T),
    /// No taker is made.
    Refused(TypeFault),
    /// Memory was refused, or the output failed.
    Lost,
}

/// A taker in front of another one, which is made once the first records tell the columns. Between two records it keeps fewer
/// than `limit`, or none.
#[derive(Drop)]
pub struct Sampled<'a, M, T> {
    /// From how many records kinds are judged.
    pub limit: u32,
    /// How times are read.
    pub pattern: &'a Pattern,
    pub phase: Phase<M, T>,
    ghost few: { kept_in phase < max 1 limit },
}
