// The columns of a table, all at one place.
ghost use Rattle.std.specs.Prelude.{◌≡◌, length, map, IfOk, OnOk, OnErr, ℕ};
ghost use Rattle.group_rollup.specs.Columns.{no_column, begun, cut, AllHave, changes_by, changes_from, all_applied};

use crate::changes::Change;
use crate::column::AggregateColumn;
use lp_values::{AggKind, Value};
use std::alloc::{AllocError, Global};
use std::mem;

pub(crate) fn new_columns(
    alloc: Global,
    kinds: &[AggKind],
) -> Result<Vec<AggregateColumn>, AllocError>
    ensures { IfOk result (λ columns. columns.items ≡ map no_column kinds.now) }
{
    let mut columns = Vec::with_capacity(alloc, kinds.len())?;
    for kind in kinds {
        columns.push(AggregateColumn::new(alloc, *kind))?;
    }
    Ok(columns)
}

pub(crate) fn cut_all(alloc: Global, columns: &mut Vec<AggregateColumn>, count: usize)
    ensures { columns.new.items ≡ map (cut count) columns.old.items }
{
    for index in 0..columns.len() {
        columns[index].cut(alloc, count);
    }
}

/// Those before the one that is refused have a group more then.
fn grow(columns: &mut Vec<AggregateColumn>) -> Result<(), AllocError>
    ensures ok { OnOk result (columns.new.items ≡ map begun columns.old.items) }
    ensures err { OnErr result ((n : ℕ) → AllHave n columns.old.items → map (cut n) columns.new.items ≡ columns.old.items) }
{
    for index in 0..columns.len() {
        columns[index].begin()?;
    }
    Ok(())
}

/// Makes room for a group more in each column, or leaves them as they were.
pub(crate) fn begin_all(
    alloc: Global,
    columns: &mut Vec<AggregateColumn>,
    count: usize,
) -> Result<(), AllocError>
    requires { AllHave count columns.old.items }
    ensures ok { OnOk result (columns.new.items ≡ map begun columns.old.items) }
    ensures err { OnErr result (columns.new.items ≡ columns.old.items) }
{
    match grow(columns) {
        Ok(()) => Ok(()),
        Err(fault) => {
            cut_all(alloc, columns, count);
            Err(fault)
        }
    }
}

/// What a record brings. All that may fail is done here, before anything is changed.
pub(crate) fn all_changes(
    alloc: Global,
    columns: &[AggregateColumn],
    place: usize,
    values: &[Value],
    changes: &mut Vec<Change>,
) -> Result<(), AllocError>
    requires { length values.now ≡ length columns.now }
    ensures { OnOk result (changes.new.items ≡ changes_by columns.now place values.now) }
{
    changes.clear();
    for index in 0..columns.len() {
        changes.push(columns[index].change_by(alloc, place, &values[index])?)?;
    }
    Ok(())
}

/// What a group of another table brings.
pub(crate) fn all_changes_from(
    alloc: Global,
    columns: &[AggregateColumn],
    place: usize,
    others: &[AggregateColumn],
    at: usize,
    changes: &mut Vec<Change>,
) -> Result<(), AllocError>
    requires { length others.now ≡ length columns.now }
    ensures { OnOk result (changes.new.items ≡ changes_from columns.now place others.now at) }
{
    changes.clear();
    for index in 0..columns.len() {
        changes.push(columns[index].change_from(alloc, place, &others[index], at)?)?;
    }
    Ok(())
}

pub(crate) fn apply_all(columns: &mut Vec<AggregateColumn>, place: usize, changes: &mut Vec<Change>)
    requires { length changes.old.items ≡ length columns.old.items }
    ensures { columns.new.items ≡ all_applied columns.old.items place changes.old.items }
{
    for index in 0..columns.len() {
        let change = mem::replace(&mut changes[index], Change::Count(0));
        columns[index].apply(place, change);
    }
}
