// A stem's own file.
ghost use Rattle.std.specs.Prelude.{◌≡◌, ◌≤◌, OnOk, IfOk, IfErr};
ghost use Rattle.lp_model.specs.Outside.{OnlyGrow, Rose, Told};
ghost use Rattle.generations.specs.Files.{IsLiveAs};

use lp_outside::{Logs, LogsFailed, Name};

/// Whether a stem's own file is there.
pub fn is_live<L: Logs>(logs: &mut L, stem: &Name) -> Result<bool, LogsFailed>
    ensures grows { OnlyGrow (L.folder logs.old) (L.folder logs.new) }
    ensures given { L.given logs.new ≡ L.given logs.old }
    ensures later { L.faults logs.old ≤ L.faults logs.new }
    ensures steady { OnOk result (L.faults logs.new ≡ L.faults logs.old) }
    ensures live { IfOk result (λ live. Told (L.folder logs.new) (λ folder. IsLiveAs folder stem.now live)) }
    ensures failed { IfErr result (λ _. Rose (L.faults logs.old) (L.faults logs.new)) }
{
    match logs.length(stem) {
        Ok(Some(_)) => Ok(true),
        Ok(None) => Ok(false),
        Err(failed) => Err(failed),
    }
}
