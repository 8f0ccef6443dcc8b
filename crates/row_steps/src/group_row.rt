// The row of a group.
ghost use Rattle.std.specs.Prelude.{◌≡◌, ◌++◌, length, replicate, OnOk, IfOk};
ghost use Rattle.lp_values.specs.declared.value.Value.TheVariants as V;
ghost use Rattle.row_steps.specs.Grouped.{group_values, marks};

use crate::cutting::move_values;
use lp_values::{GroupRow, Value, ValueList};
use std::alloc::AllocError;

/// Appends a number, so many times.
fn add_copies(values: &mut ValueList, number: i64, count: usize) -> Result<(), AllocError>
    ensures { OnOk result (values.new ≡ values.old ++ replicate count (V.Int number)) }
{
    for _place in 0..count {
        values.push(Value::Int(number))?;
    }
    Ok(())
}

/// Appends for each key whether it is rolled up.
fn add_marks(values: &mut ValueList, keys: usize, dropped: u32) -> Result<(), AllocError>
    ensures { OnOk result (values.new ≡ values.old ++ marks keys dropped) }
{
    let stand = keys.saturating_sub(dropped as usize);
    add_copies(values, 0, stand)?;
    add_copies(values, 1, keys - stand)?;
    Ok(())
}

/// The row of a group. Its keys and its aggregates are moved.
pub(crate) fn group_row(group: GroupRow) -> Result<ValueList, AllocError>
    ensures { IfOk result (λ values. values ≡ group_values group) }
{
    let GroupRow {
        keys,
        dropped,
        aggregates,
    } = group;
    let mut values = keys;
    let mut aggregates = aggregates;
    let width = values.len();
    let count = aggregates.len();
    move_values(&mut aggregates, 0, count, &mut values)?;
    add_marks(&mut values, width, dropped)?;
    Ok(values)
}
