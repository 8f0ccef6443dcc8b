// The values of aggregates, and the rows of groups.
ghost use Rattle.std.specs.Prelude.{◌≡◌, ◌<◌, ◌++◌, [], List, Some, slice_get, length, replicate, IfOk, OnOk};
ghost use Rattle.group_rollup.specs.Groups.{number_in, sum_in, quotient_or_null};
ghost use Rattle.group_rollup.specs.Columns.{finished, all_finished, value_at};
ghost use Rattle.group_rollup.specs.HandedOut.{row_of, rows_of};
ghost use Rattle.lp_values.specs.declared.value.Value.{Value as Seen};
ghost use Rattle.lp_values.specs.declared.value.Value.TheVariants.{Null};

use crate::column::AggregateColumn;
use crate::rows::Rows;
use lp_values::{AggKind, GroupRow, GroupRows, Kind, Real, Value, ValueList, copy_values};
use std::alloc::{AllocError, Global};

/// A number of a kind, or NULL where the kind has no such number.
fn number_in(kind: Kind, number: i128) -> Value
    ensures { result ≡ number_in kind number }
{
    match (kind, i64::try_from(number)) {
        (Kind::Integer, Ok(number)) => Value::Int(number),
        (Kind::Real, Ok(millionths)) => Value::Real(Real { millionths }),
        _ => Value::Null,
    }
}

fn sum_in(kind: Kind, sum: i128, values: u64) -> Value
    ensures { result ≡ sum_in kind sum values }
{
    if values == 0 {
        Value::Null
    } else {
        number_in(kind, sum)
    }
}

fn quotient_or_null(kind: Kind, whole: i128, parts: u64) -> Value
    ensures { result ≡ quotient_or_null kind whole parts }
{
    if parts == 0 {
        Value::Null
    } else {
        number_in(kind, whole / i128::from(parts))
    }
}

impl AggregateColumn {
    fn copy_at(&self, alloc: Global, index: usize) -> Result<Value, AllocError>
        ensures { IfOk result (λ value. value ≡ value_at self.now index) }
    {
        match self.value_at(index) {
            Some(value) => value.copy(alloc),
            None => Ok(Value::Null),
        }
    }

    /// The value of an aggregate for a group, among so many records in all.
    fn finish(
        &self,
        alloc: Global,
        kind: AggKind,
        all: u64,
        index: usize,
    ) -> Result<Value, AllocError>
        ensures { IfOk result (λ value. value ≡ finished kind all self.now index) }
    {
        match kind {
            AggKind::CountAll | AggKind::Count => {
                Ok(number_in(Kind::Integer, i128::from(self.count_at(index))))
            }
            AggKind::Sum(kind) => {
                let total = self.total_at(index);
                Ok(sum_in(kind, total.sum, total.values))
            }
            AggKind::Avg(kind) => {
                let total = self.total_at(index);
                Ok(quotient_or_null(kind, total.sum, total.values))
            }
            AggKind::Min | AggKind::Max => self.copy_at(alloc, index),
            AggKind::PropCount => {
                let whole = i128::from(self.count_at(index)) * 1_000_000;
                Ok(quotient_or_null(Kind::Real, whole, all))
            }
        }
    }
}

fn aggregates(
    alloc: Global,
    kinds: &[AggKind],
    all: u64,
    columns: &[AggregateColumn],
    index: usize,
) -> Result<ValueList, AllocError>
    requires { length columns.now ≡ length kinds.now }
    ensures { IfOk result (λ values. values ≡ all_finished kinds.now all columns.now index) }
{
    let mut values = ValueList::with_capacity(alloc, kinds.len())?;
    for place in 0..kinds.len() {
        values.push(columns[place].finish(alloc, kinds[place], all, index)?)?;
    }
    Ok(values)
}

/// Keys, and NULL for those that are dropped.
fn padded(alloc: Global, keys: &ValueList, dropped: u32) -> Result<ValueList, AllocError>
    ensures { IfOk result (λ list. list ≡ keys.now ++ replicate dropped Null) }
{
    let mut list = copy_values(alloc, keys)?;
    let mut left = dropped;
    while left > 0 {
        list.push(Value::Null)?;
        left -= 1;
    }
    Ok(list)
}

impl Rows {
    /// The row of a group, some of its keys dropped, among so many records in all.
    fn row(
        &self,
        kinds: &[AggKind],
        all: u64,
        dropped: u32,
        index: usize,
    ) -> Result<GroupRow, AllocError>
        requires kinds { length self.now.columns.items ≡ length kinds.now }
        requires index { index < length self.now.keys.keys }
        ensures { IfOk result (λ row. (key : List Seen) → slice_get self.now.keys.keys index ≡ Some key → row ≡ row_of dropped kinds.now all self.now.columns.items key index) }
    {
        let keys = self.keys.get_index(index).unwrap();
        Ok(GroupRow {
            keys: padded(self.alloc, keys, dropped)?,
            dropped,
            aggregates: aggregates(self.alloc, kinds, all, &self.columns, index)?,
        })
    }

    /// The row of a group without keys that has no records.
    pub fn row_of_none(
        &self,
        kinds: &[AggKind],
        all: u64,
        dropped: u32,
    ) -> Result<GroupRow, AllocError>
        requires { length self.now.columns.items ≡ length kinds.now }
        ensures { IfOk result (λ row. row ≡ row_of dropped kinds.now all self.now.columns.items [] 0) }
    {
        Ok(GroupRow {
            keys: padded(self.alloc, &ValueList::new(self.alloc), dropped)?,
            dropped,
            aggregates: aggregates(self.alloc, kinds, all, &self.columns, 0)?,
        })
    }

    /// Appends the rows of all groups.
    pub fn hand_out(
        &self,
        kinds: &[AggKind],
        all: u64,
        dropped: u32,
        rows: &mut GroupRows,
    ) -> Result<(), AllocError>
        requires { length self.now.columns.items ≡ length kinds.now }
        ensures { OnOk result (rows.new ≡ rows.old ++ rows_of dropped kinds.now all self.now.columns.items self.now.keys.keys 0) }
    {
        for index in 0..self.keys.len() {
            rows.push(self.row(kinds, all, dropped, index)?)?;
        }
        Ok(())
    }
}
