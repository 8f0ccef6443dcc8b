// Which columns of a table a query uses.
ghost use Rattle.std.specs.Prelude.{◌≡◌, ◌||◌, IfOk, option_map};
ghost use Rattle.query_types.specs.Conditions.{filter_of, mentions};
ghost use Rattle.query_types.specs.Terms.{any_has_column};
ghost use Rattle.query_types.specs.Planned.{is_mentioned, used_from};

use crate::{Condition, MeaningList, TableColumns, UsedList};
use std::alloc::{AllocError, Global};

// Whether one of some meanings has the column at a place.
fn any_has_column(index: usize, meanings: &MeaningList) -> bool
    ensures { result ≡ any_has_column index meanings.now }
{
    meanings
        .as_slice()
        .iter()
        .any(|meaning| meaning.has_column(index))
}

/// Whether a condition has the column at a place.
pub fn mentions(index: usize, condition: &Condition) -> bool
    ensures { result ≡ mentions index (filter_of condition.now) }
{
    match condition {
        Condition::Or(left, right) => mentions(index, left) || mentions(index, right),
        Condition::And(left, right) => mentions(index, left) || mentions(index, right),
        Condition::Not(inner) => mentions(index, inner),
        Condition::Compare {
            how: _,
            left,
            right,
        } => left.has_column(index) || right.has_column(index),
        Condition::IsNull { value, negated: _ } => value.has_column(index),
        Condition::Like {
            value,
            pattern: _,
            negated: _,
        } => value.has_column(index),
        Condition::Between {
            value,
            low,
            high,
            negated: _,
        } => value.has_column(index) || low.has_column(index) || high.has_column(index),
        Condition::Within {
            value,
            items,
            negated: _,
        } => value.has_column(index) || any_has_column(index, items),
        Condition::Contained {
            value,
            values: _,
            negated: _,
        } => value.has_column(index),
    }
}

// Whether WHERE has the column at a place.
fn is_mentioned(index: usize, condition: &Option<Condition>) -> bool
    ensures { result ≡ is_mentioned index (option_map filter_of condition.now) }
{
    match condition {
        None => false,
        Some(condition) => mentions(index, condition),
    }
}

// Whether an alias of USING, an item or WHERE means the column at a place.
fn is_used(
    index: usize,
    aliased: &MeaningList,
    items: &MeaningList,
    condition: &Option<Condition>,
) -> bool
    ensures { result ≡ (any_has_column index aliased.now || any_has_column index items.now || is_mentioned index (option_map filter_of condition.now)) }
{
    any_has_column(index, aliased) || any_has_column(index, items) || is_mentioned(index, condition)
}

/// For each column of a table whether an alias of USING, an item or WHERE means it.
pub fn used_columns(
    alloc: Global,
    table: &TableColumns,
    aliased: &MeaningList,
    items: &MeaningList,
    condition: &Option<Condition>,
) -> Result<UsedList, AllocError>
    ensures { IfOk result (λ used. used ≡ used_from 0 table.now.columns aliased.now items.now (option_map filter_of condition.now)) }
{
    let mut used = UsedList::new(alloc);
    for index in 0..table.columns.len() {
        used.push(is_used(index, aliased, items, condition))?;
    }
    Ok(used)
}
