// What is asked of groups of records, and what a group gives.

use crate::{Kind, ListOf, ValueList};

/// An aggregate. The kind of SUM and AVG is that of their argument: Integer, Real, or Any where it is always NULL.
#[derive(Clone, Copy, Debug, PartialEq, Eq)]
pub enum AggKind {
    CountAll,
    Count,
    Sum(Kind),
    Avg(Kind),
    Min,
    Max,
    PropCount,
}

/// A group: its keys, NULL where they are dropped; how many are dropped, from the end; its aggregates.
#[derive(Debug, Drop)]
pub struct GroupRow {
    pub keys: ValueList,
    pub dropped: u32,
    pub aggregates: ValueList,
}

pub type AggList = ListOf<AggKind>;

pub type GroupRows = ListOf<GroupRow>;
