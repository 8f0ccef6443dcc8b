// How records are kept.
ghost use Rattle.std.specs.Prelude.{◌≡◌, ◌<◌, ◌^◌, IfOk};
ghost use Rattle.line_input.specs.Taken.{slots_of};
ghost use Rattle.column_kinds.specs.Kept.{found_in};

use crate::{FirstLog, KeptRow};
use line_input::{Columns, Fields, Slot, copy_columns};
use lp_outside::Name;
use lp_values::Bytes;
use std::alloc::{AllocError, Global};

// A field of its own.
fn copy_slot(alloc: Global, slot: &Slot) -> Result<Slot, AllocError>
    ensures { IfOk result (λ copy. copy ≡ slot.now) }
{
    match slot {
        Slot::Absent => Ok(Slot::Absent),
        Slot::Part { from, to } => Ok(Slot::Part {
            from: *from,
            to: *to,
        }),
        Slot::Own(bytes) => {
            let bytes = copy_bytes(alloc, bytes.as_slice())?;
            Ok(Slot::Own(bytes))
        }
    }
}

fn copy_bytes(alloc: Global, bytes: &[u8]) -> Result<Bytes, AllocError>
    ensures { IfOk result (λ copy. copy ≡ bytes.now) }
{
    let mut copy = Bytes::new(alloc);
    copy.add(bytes)?;
    Ok(copy)
}

fn copy_fields(alloc: Global, fields: &Fields) -> Result<Fields, AllocError>
    ensures { IfOk result (λ copy. copy ≡ fields.now) }
{
    let mut copy = Fields::new(alloc);
    for slot in fields.as_slice() {
        copy.push(copy_slot(alloc, slot)?)?;
    }
    Ok(copy)
}

// The columns in force, if any are.
fn copy_in_force(alloc: Global, columns: &Option<Columns>) -> Result<Option<Columns>, AllocError>
    ensures { IfOk result (λ copy. copy ≡ columns.now) }
{
    match columns {
        None => Ok(None),
        Some(columns) => {
            let columns = copy_columns(alloc, columns)?;
            Ok(Some(columns))
        }
    }
}

impl FirstLog {
    /// A log and its columns.
    pub fn new(alloc: Global, identity: &Name, columns: &Columns) -> Result<FirstLog, AllocError>
        ensures { IfOk result (λ first. first ≡ record { identity = identity.now; columns = columns.now }) }
    {
        let columns = copy_columns(alloc, columns)?;
        Ok(FirstLog {
            identity: identity.copy(),
            columns,
        })
    }
}

impl KeptRow {
    /// Keeps a record.
    pub fn new(
        alloc: Global,
        identity: &Name,
        number: u64,
        columns: &Option<Columns>,
        line: &[u8],
        fields: &Fields,
    ) -> Result<KeptRow, AllocError>
        requires { number < 2 ^ 63 }
        ensures { IfOk result (λ kept. found_in kept ≡ record { identity = identity.now; row = record { number = number; slots = slots_of line.now fields.now; columns = columns.now } }) }
    {
        let columns = copy_in_force(alloc, columns)?;
        let line = copy_bytes(alloc, line)?;
        let fields = copy_fields(alloc, fields)?;
        Ok(KeptRow {
            identity: identity.copy(),
            number,
            columns,
            line,
            fields,
        })
    }
}
