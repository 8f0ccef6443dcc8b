// A row in two: keys, and the arguments of aggregates.
ghost use Rattle.std.specs.Prelude.{◌≡◌, ◌≤◌, ◌<◌, ◌+◌, ◌-◌, ◌^◌, ◌++◌, ◌∷◌, [], ℕ, Bool, List, length, take, drop, OnOk};
ghost use Rattle.lp_values.specs.declared.group.AggKind.{AggKind as Asks};
ghost use Rattle.group_rollup.specs.Groups.{Record};
ghost use Rattle.group_rollup.specs.Tables.{Holds};
ghost use Rattle.row_steps.specs.Grouped.{cut};

use group_rollup::Groups;
use lp_values::{Value, ValueList};
use std::alloc::AllocError;

/// Moves so many values of a list, from a place on, behind those of another.
pub(crate) fn move_values(
    from: &mut ValueList,
    start: usize,
    count: usize,
    into: &mut ValueList,
) -> Result<(), AllocError>
    requires within { start + count ≤ length from.old }
    requires fits { start + count < 2 ^ 64 }
    ensures moved { OnOk result (into.new ≡ into.old ++ take count (drop start from.old)) }
    ensures behind { OnOk result (drop (start + count) from.new ≡ drop (start + count) from.old) }
    ensures size { OnOk result (length from.new ≡ length from.old) }
{
    for offset in 0..count {
        into.push(from.replace(start + offset, Value::Null))?;
    }
    Ok(())
}

/// Moves a row into two lists: so many keys, and what stands behind them.
fn cut_row(
    row: &mut ValueList,
    width: usize,
    keys: &mut ValueList,
    arguments: &mut ValueList,
) -> Result<(), AllocError>
    requires { width ≤ length row.old }
    ensures keys { OnOk result (keys.new ≡ take width row.old) }
    ensures arguments { OnOk result (arguments.new ≡ drop width row.old) }
{
    let count = row.len() - width;
    keys.clear();
    move_values(row, 0, width, keys)?;
    arguments.clear();
    move_values(row, width, count, arguments)?;
    Ok(())
}

/// Adds a row to groups, cut into keys and arguments; what the row held is moved.
pub(crate) fn add_row(
    groups: &mut Groups,
    width: u32,
    row: &mut ValueList,
    keys: &mut ValueList,
    arguments: &mut ValueList,
) -> Result<(), AllocError>
    requires width { groups.old.width ≡ width }
    requires row { length row.old ≡ width + length groups.old.kinds }
    requires few { groups.old.records + 1 < 2 ^ 63 }
    ensures ok { OnOk result ((many : ℕ) (kinds : List Asks) (rollup : Bool) (records : List Record) → Holds many kinds rollup groups.old records → Holds many kinds rollup groups.new (records ++ cut width row.old ∷ [])) }
    ensures shape { (groups.new.width ≡ groups.old.width) × (groups.new.kinds ≡ groups.old.kinds) }
    ensures count { groups.new.records ≤ groups.old.records + 1 }
{
    cut_row(row, width as usize, keys, arguments)?;
    groups.add(keys, arguments)?;
    Ok(())
}
