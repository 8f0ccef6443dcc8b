// Records that were kept, to a taker.
ghost use Rattle.std.specs.Prelude.{◌≡◌, ◌≤◌, ◌<◌, ◌+◌, ◌^◌, map, length, OnOk, OnErr, IsErrOf};
ghost use Rattle.lp_model.specs.Outside.{Rose};
ghost use Rattle.column_kinds.specs.Kept.{met_in};

use crate::KeptRows;
use log_reading::{TakeFault, Taker};
use std::alloc::Global;

/// Hands records that were kept to a taker, in order.
pub(crate) fn give_kept<T: Taker<O>, O>(
    alloc: Global,
    rows: &KeptRows,
    taker: &mut T,
    out: &mut O,
) -> Result<(), TakeFault>
    requires { T.count taker.old + length rows.now < 2 ^ 63 }
    ensures takes { OnOk result (T.takes taker.old out.old (map met_in rows.now) taker.new out.new) }
    ensures stops { OnErr result (T.stops taker.old out.old (map met_in rows.now) taker.new out.new) }
    ensures count { OnOk result (T.count taker.new ≡ T.count taker.old + length rows.now) }
    ensures goes { T.goes out.old out.new }
    ensures later { T.faults out.old ≤ T.faults out.new }
    ensures failed { IsErrOf result TakeFault.Failed → Rose (T.faults out.old) (T.faults out.new) }
    ensures stopped { IsErrOf result TakeFault.Stopped → T.stopped taker.new }
{
    for row in rows.as_slice() {
        let line = row.line.as_slice();
        taker.take(
            alloc,
            &row.identity,
            row.number,
            &row.columns,
            line,
            &row.fields,
            out,
        )?;
    }
    Ok(())
}
