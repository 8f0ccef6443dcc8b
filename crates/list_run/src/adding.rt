// The values of a row, gathered.
ghost use Rattle.std.specs.Prelude.{◌≡◌, fold, OnOk};
ghost use Rattle.list_run.specs.Gathering.{remembering};

use crate::Gathered;
use lp_values::{Value, ValueList};
use std::alloc::{AllocError, Global};

/// Moves the values of a row into what is gathered.
pub(crate) fn add_row(
    alloc: Global,
    gathered: &mut Gathered,
    row: &mut ValueList,
) -> Result<(), AllocError>
    ensures { OnOk result (gathered.new ≡ fold remembering gathered.old row.old) }
{
    for index in 0..row.len() {
        gathered.add(alloc, row.replace(index, Value::Null))?;
    }
    Ok(())
}
