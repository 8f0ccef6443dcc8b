// What a record, or a group of another table, brings to a column.
ghost use Rattle.std.specs.Prelude.{◌≡◌, IfOk, MatchOption};
ghost use Rattle.group_rollup.specs.Columns.{applied, change_by, change_from, tally_one, if_better, count_at, total_at, value_at};

use crate::column::{
    AggregateColumn, NO_TOTAL, Total, count_one, is_greater, is_lesser, item_or, put_at, raise,
    raise_total, total_one,
};
use lp_values::Value;
use std::alloc::{AllocError, Global};

/// A value that comes into its place is a copy.
#[derive(Debug, Drop)]
pub(crate) enum Change {
    Count(u64),
    Sum(Total),
    Best(Option<Value>),
}

fn copy_if(alloc: Global, better: bool, value: &Value) -> Result<Change, AllocError>
    ensures { IfOk result (λ change. change ≡ Change.Best (if_better better value.now)) }
{
    if better {
        Ok(Change::Best(Some(value.copy(alloc)?)))
    } else {
        Ok(Change::Best(None))
    }
}

impl AggregateColumn {
    /// What a record's argument brings to a group.
    pub fn change_by(
        &self,
        alloc: Global,
        index: usize,
        value: &Value,
    ) -> Result<Change, AllocError>
        ensures { IfOk result (λ change. change ≡ change_by self.now index (tally_one value.now)) }
    {
        match self {
            AggregateColumn::Records(_) => Ok(Change::Count(1)),
            AggregateColumn::Values(_) => Ok(Change::Count(count_one(value))),
            AggregateColumn::Totals(_) => Ok(Change::Sum(total_one(value))),
            AggregateColumn::Least(values) => copy_if(
                alloc,
                is_lesser(values, index, value),
                value,
            ),
            AggregateColumn::Greatest(values) => copy_if(
                alloc,
                is_greater(values, index, value),
                value,
            ),
        }
    }

    pub fn count_at(&self, index: usize) -> u64
        ensures { result ≡ count_at self.now index }
    {
        match self {
            AggregateColumn::Records(counts) => item_or(counts, index, 0),
            AggregateColumn::Values(counts) => item_or(counts, index, 0),
            _ => 0,
        }
    }

    pub fn total_at(&self, index: usize) -> Total
        ensures { result ≡ total_at self.now index }
    {
        match self {
            AggregateColumn::Totals(totals) => item_or(totals, index, NO_TOTAL),
            _ => NO_TOTAL,
        }
    }

    /// The least or the greatest of a group.
    pub fn value_at(&self, index: usize) -> Option<&Value>
        ensures { MatchOption result (value_at self.now index ≡ Value.Null) (λ value. value_at self.now index ≡ value.now) }
    {
        match self {
            AggregateColumn::Least(values) => values.get(index),
            AggregateColumn::Greatest(values) => values.get(index),
            _ => None,
        }
    }

    /// What a group of another table's column brings to a group.
    pub fn change_from(
        &self,
        alloc: Global,
        index: usize,
        other: &AggregateColumn,
        at: usize,
    ) -> Result<Change, AllocError>
        ensures { IfOk result (λ change. change ≡ change_from self.now index other.now at) }
    {
        match self {
            AggregateColumn::Records(_) => Ok(Change::Count(other.count_at(at))),
            AggregateColumn::Values(_) => Ok(Change::Count(other.count_at(at))),
            AggregateColumn::Totals(_) => Ok(Change::Sum(other.total_at(at))),
            AggregateColumn::Least(values) => match other.value_at(at) {
                Some(value) => copy_if(alloc, is_lesser(values, index, value), value),
                None => Ok(Change::Best(None)),
            },
            AggregateColumn::Greatest(values) => match other.value_at(at) {
                Some(value) => copy_if(alloc, is_greater(values, index, value), value),
                None => Ok(Change::Best(None)),
            },
        }
    }

    pub fn apply(&mut self, index: usize, change: Change)
        ensures { self.new ≡ applied self.old index change }
    {
        match (self, change) {
            (AggregateColumn::Records(counts), Change::Count(by)) => raise(counts, index, by),
            (AggregateColumn::Values(counts), Change::Count(by)) => raise(counts, index, by),
            (AggregateColumn::Totals(totals), Change::Sum(by)) => raise_total(totals, index, by),
            (AggregateColumn::Least(values), Change::Best(Some(value))) => put_at(
                values, index, value,
            ),
            (AggregateColumn::Greatest(values), Change::Best(Some(value))) => put_at(
                values, index, value,
            ),
            _ => {}
        }
    }
}
