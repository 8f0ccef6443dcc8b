// What an aggregate keeps of each group.
ghost use Rattle.std.specs.Prelude.{◌≡◌, ◌≤◌, ◌^◌, unsigned_abs, get_or, slice_set, take, OnOk, OnErr};
ghost use Rattle.group_rollup.specs.Groups.{is_null, number_of};
ghost use Rattle.group_rollup.specs.Tables.{AreSmall};
ghost use Rattle.group_rollup.specs.Columns.{no_column, begun, cut, is_lesser, is_greater, count_one, total_one, count_sum, total_sum, no_total};

use lp_values::{AggKind, ListOf, Value, ValueList, order};
use std::alloc::{AllocError, Global};
use std::mem;

/// The sum of values, and how many of them there are.
#[derive(Clone, Copy, Debug)]
pub(crate) struct Total {
    pub sum: i128,
    pub values: u64,
}

pub(crate) type Counts = ListOf<u64>;

pub(crate) type TotalList = ListOf<Total>;

/// A place for each group: its number of records, that of its values, their sum, the least or the greatest of them.
#[derive(Debug, Drop)]
pub(crate) enum AggregateColumn {
    Records(Counts),
    Values(Counts),
    Totals(TotalList),
    Least(ValueList),
    Greatest(ValueList),
}

pub(crate) const NO_TOTAL: Total = Total { sum: 0, values: 0 };

pub(crate) fn is_null(value: &Value) -> bool
    ensures { result ≡ is_null value.now }
{
    match value {
        Value::Null => true,
        _ => false,
    }
}

fn number_of(value: &Value) -> i128
    ensures value { result ≡ number_of value.now }
    ensures small { unsigned_abs (number_of value.now) ≤ 2 ^ 63 }
{
    match value {
        Value::Int(number) => i128::from(*number),
        Value::Real(number) => i128::from(number.millionths),
        _ => 0,
    }
}

/// Reads each value, which shows that its number lies within 64 bits.
pub(crate) fn are_small(values: &[Value])
    ensures { AreSmall values.now }
{
    for value in values {
        let _number = number_of(value);
    }
}

/// One for a value, none for NULL.
pub(crate) fn count_one(value: &Value) -> u64
    ensures { result ≡ count_one value.now }
{
    if is_null(value) { 0 } else { 1 }
}

pub(crate) fn total_one(value: &Value) -> Total
    ensures { result ≡ total_one value.now }
{
    Total {
        sum: number_of(value),
        values: count_one(value),
    }
}

/// The item at a place, or another where none is there.
#[tactic(auto, using(crate::proofs::Places::get_none))]
pub(crate) fn item_or<T: Copy>(list: &ListOf<T>, index: usize, other: T) -> T
    ensures { result ≡ get_or list.now index other }
{
    match list.get(index) {
        Some(item) => *item,
        None => other,
    }
}

/// Puts an item at a place that is there.
pub(crate) fn put_at<T: Drop>(list: &mut ListOf<T>, index: usize, item: T)
    ensures { list.new ≡ slice_set list.old index item }
{
    if index < list.len() {
        list.set(index, item);
    }
}

fn cut_list<T: Drop>(alloc: Global, list: &mut ListOf<T>, length: usize)
    ensures { list.new ≡ take length list.old }
{
    let mut items = mem::replace(list, ListOf::new(alloc)).into_vec();
    items.truncate(length);
    *list = ListOf::from_vec(items);
}

pub(crate) fn raise(counts: &mut Counts, index: usize, by: u64)
    ensures { counts.new ≡ slice_set counts.old index (count_sum (get_or counts.old index 0) by) }
{
    let count = item_or(counts, index, 0).saturating_add(by);
    put_at(counts, index, count);
}

pub(crate) fn raise_total(totals: &mut TotalList, index: usize, by: Total)
    ensures { totals.new ≡ slice_set totals.old index (total_sum (get_or totals.old index no_total) by) }
{
    let total = item_or(totals, index, NO_TOTAL);
    let total = Total {
        sum: total.sum.saturating_add(by.sum),
        values: total.values.saturating_add(by.values),
    };
    put_at(totals, index, total);
}

/// Whether a value goes before the least at a place.
#[tactic(auto, using(crate::proofs::Places::get_none))]
pub(crate) fn is_lesser(values: &ValueList, index: usize, value: &Value) -> bool
    ensures { result ≡ is_lesser (get_or values.now index Value.Null) value.now }
{
    match values.get(index) {
        Some(least) => !is_null(value) && (is_null(least) || order(value, least).is_lt()),
        None => !is_null(value),
    }
}

/// Whether a value goes behind the greatest at a place.
#[tactic(auto, using(crate::proofs::Places::get_none))]
pub(crate) fn is_greater(values: &ValueList, index: usize, value: &Value) -> bool
    ensures { result ≡ is_greater (get_or values.now index Value.Null) value.now }
{
    match values.get(index) {
        Some(greatest) => !is_null(value) && (is_null(greatest) || order(value, greatest).is_gt()),
        None => !is_null(value),
    }
}

impl AggregateColumn {
    /// A column for no groups.
    pub fn new(alloc: Global, kind: AggKind) -> AggregateColumn
        ensures { result ≡ no_column kind }
    {
        match kind {
            AggKind::CountAll | AggKind::PropCount => AggregateColumn::Records(ListOf::new(alloc)),
            AggKind::Count => AggregateColumn::Values(ListOf::new(alloc)),
            AggKind::Sum(_) | AggKind::Avg(_) => AggregateColumn::Totals(ListOf::new(alloc)),
            AggKind::Min => AggregateColumn::Least(ListOf::new(alloc)),
            AggKind::Max => AggregateColumn::Greatest(ListOf::new(alloc)),
        }
    }

    /// Makes room for a group more, of no records yet.
    pub fn begin(&mut self) -> Result<(), AllocError>
        ensures ok { OnOk result (self.new ≡ begun self.old) }
        ensures err { OnErr result (self.new ≡ self.old) }
    {
        match self {
            AggregateColumn::Records(counts) => counts.push(0),
            AggregateColumn::Values(counts) => counts.push(0),
            AggregateColumn::Totals(totals) => totals.push(NO_TOTAL),
            AggregateColumn::Least(values) => values.push(Value::Null),
            AggregateColumn::Greatest(values) => values.push(Value::Null),
        }
    }

    /// Leaves the first groups alone.
    pub fn cut(&mut self, alloc: Global, length: usize)
        ensures { self.new ≡ cut length self.old }
    {
        match self {
            AggregateColumn::Records(counts) => cut_list(alloc, counts, length),
            AggregateColumn::Values(counts) => cut_list(alloc, counts, length),
            AggregateColumn::Totals(totals) => cut_list(alloc, totals, length),
            AggregateColumn::Least(values) => cut_list(alloc, values, length),
            AggregateColumn::Greatest(values) => cut_list(alloc, values, length),
        }
    }
}
