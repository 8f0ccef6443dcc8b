// Records that are kept before their columns are judged.
ghost use Rattle.std.specs.Prelude.{◌≡◌, ◌≤◌, ◌<◌, ◌↔◌, ◌+◌, ◌^◌, ◌++◌, ◌∷◌, [], map, length, OnOk, OnErr, IfOk, IsTrue};
ghost use Rattle.line_input.specs.Taken.{slots_of};
ghost use Rattle.log_reading.specs.Found.{Found};
ghost use Rattle.column_kinds.specs.Kept.{found_in};
ghost use Rattle.column_kinds.specs.Past.{columns_or, first_seen};

use crate::{FirstLog, Gathering, KeptRow};
use line_input::{Columns, Fields};
use lp_outside::Name;
use std::alloc::{AllocError, Global};

// The log of a record.
fn log_of(alloc: Global, identity: &Name, columns: &Option<Columns>) -> Result<FirstLog, AllocError>
    ensures { IfOk result (λ log. log ≡ record { identity = identity.now; columns = columns_or columns.now }) }
{
    match columns {
        Some(columns) => FirstLog::new(alloc, identity, columns),
        None => Ok(FirstLog {
            identity: identity.copy(),
            columns: Columns::new(alloc),
        }),
    }
}

// The log of a record is the first, where none is known yet.
fn see_first<M>(
    alloc: Global,
    identity: &Name,
    columns: &Option<Columns>,
    gathering: &mut Gathering<M>,
) -> Result<(), AllocError>
    ensures first { OnOk result ((found : Found) → found.identity ≡ identity.now → found.row.columns ≡ columns.now → gathering.new.first ≡ first_seen gathering.old.first (found ∷ [])) }
    ensures rows { gathering.new.rows ≡ gathering.old.rows }
    ensures maker { gathering.new.maker ≡ gathering.old.maker }
{
    if gathering.first.is_none() {
        gathering.first = Some(log_of(alloc, identity, columns)?);
    }
    Ok(())
}

// Keeps a record.
fn keep<M>(
    alloc: Global,
    identity: &Name,
    number: u64,
    columns: &Option<Columns>,
    line: &[u8],
    fields: &Fields,
    gathering: &mut Gathering<M>,
) -> Result<(), AllocError>
    requires { number < 2 ^ 63 }
    ensures kept { OnOk result (let found : Found = record { identity = identity.now; row = record { number = number; slots = slots_of line.now fields.now; columns = columns.now } } in
        (gathering.new.first ≡ first_seen gathering.old.first (found ∷ [])) × (map found_in gathering.new.rows ≡ map found_in gathering.old.rows ++ found ∷ [])) }
    ensures count { OnOk result (length gathering.new.rows ≡ length gathering.old.rows + 1) }
    ensures err { OnErr result (gathering.new.rows ≡ gathering.old.rows) }
    ensures maker { gathering.new.maker ≡ gathering.old.maker }
{
    see_first(alloc, identity, columns, gathering)?;
    let row = KeptRow::new(alloc, identity, number, columns, line, fields)?;
    gathering.rows.push(row)?;
    Ok(())
}

/// Keeps a record, and tells whether there are now enough to judge the columns.
pub(crate) fn gather<M>(
    alloc: Global,
    identity: &Name,
    number: u64,
    columns: &Option<Columns>,
    line: &[u8],
    fields: &Fields,
    limit: u32,
    gathering: &mut Gathering<M>,
) -> Result<bool, AllocError>
    requires { number < 2 ^ 63 }
    ensures kept { OnOk result (let found : Found = record { identity = identity.now; row = record { number = number; slots = slots_of line.now fields.now; columns = columns.now } } in
        (gathering.new.first ≡ first_seen gathering.old.first (found ∷ [])) × (map found_in gathering.new.rows ≡ map found_in gathering.old.rows ++ found ∷ [])) }
    ensures count { OnOk result (length gathering.new.rows ≡ length gathering.old.rows + 1) }
    ensures enough { IfOk result (λ enough. IsTrue enough ↔ (limit ≤ length gathering.new.rows)) }
    ensures err { OnErr result (gathering.new.rows ≡ gathering.old.rows) }
    ensures maker { gathering.new.maker ≡ gathering.old.maker }
{
    keep(alloc, identity, number, columns, line, fields, gathering)?;
    Ok(limit as usize <= gathering.rows.len())
}
