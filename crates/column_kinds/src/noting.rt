// The columns of a log behind its last record.
ghost use Rattle.std.specs.Prelude.{◌≡◌, OnOk, OnErr};
ghost use Rattle.column_kinds.specs.Noting.{Notes, NotesFirst};

use crate::{FirstLog, Gathering, Phase, Sampled};
use line_input::Columns;
use lp_outside::Name;
use std::alloc::{AllocError, Global};

// A log is the first, if it has columns and none is known yet.
fn note_in<M>(
    alloc: Global,
    identity: &Name,
    columns: &Option<Columns>,
    gathering: &mut Gathering<M>,
) -> Result<(), AllocError>
    ensures noted { OnOk result (NotesFirst identity.now columns.now gathering.old gathering.new) }
    ensures rows { gathering.new.rows ≡ gathering.old.rows }
    ensures err { OnErr result (gathering.new ≡ gathering.old) }
{
    if gathering.first.is_some() {
        return Ok(());
    }
    match columns {
        None => Ok(()),
        Some(columns) => {
            let log = FirstLog::new(alloc, identity, columns)?;
            gathering.first = Some(log);
            Ok(())
        }
    }
}

/// Notes the columns of a log, where no log with columns is known yet.
pub(crate) fn note_first<'a, M: Drop, T: Drop>(
    alloc: Global,
    identity: &Name,
    columns: &Option<Columns>,
    sampled: &mut Sampled<'a, M, T>,
) -> Result<(), AllocError>
    ensures noted { OnOk result (Notes identity.now columns.now sampled.old sampled.new) }
    ensures err { OnErr result (sampled.new.phase ≡ sampled.old.phase) }
{
    match &mut sampled.phase {
        Phase::Gathering(gathering) => note_in(alloc, identity, columns, gathering),
        Phase::Taking(_) | Phase::Refused(_) | Phase::Lost => Ok(()),
    }
}
