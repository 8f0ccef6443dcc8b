// The values of a row in front of a place and behind it.
ghost use Rattle.std.specs.Prelude.{◌≡◌, drop, take, IfOk, OnOk};

use lp_values::{TextList, Value, ValueList};
use std::alloc::{AllocError, Global};

/// Moves into a list all values of a row from a place on.
pub(crate) fn move_behind(
    row: &mut ValueList,
    start: usize,
    into: &mut ValueList,
) -> Result<(), AllocError>
    ensures { OnOk result (into.new ≡ drop start row.old) }
{
    into.clear();
    for index in start..row.len() {
        into.push(row.replace(index, Value::Null))?;
    }
    Ok(())
}

/// So many of the first values of a row, or all.
pub(crate) fn first_values(row: &ValueList, count: usize) -> &[Value]
    ensures { result.now ≡ take count row.now }
{
    let values = row.as_slice();
    if count < values.len() {
        &values[..count]
    } else {
        values
    }
}

/// The names of columns from a place on.
pub(crate) fn copy_behind(
    alloc: Global,
    names: &TextList,
    start: usize,
) -> Result<TextList, AllocError>
    ensures { IfOk result (λ copy. copy ≡ drop start names.now) }
{
    let mut copy = TextList::new(alloc);
    for index in start..names.len() {
        copy.push(names.as_slice()[index].copy(alloc)?)?;
    }
    Ok(copy)
}
