// The disk, settled before anything else is done.
ghost use Rattle.std.specs.Prelude.{◌≡◌, ◌≤◌, OnOk, IfOk, IfErr, IfSome, IsErrOf};
ghost use Rattle.lp_model.specs.Outside.{Rose};
ghost use Rattle.commit.specs.Faults.{FitsWhole, IsApart};
ghost use Rattle.commit.specs.Keeping.{KeepsEntries};
ghost use Rattle.commit.specs.Known.{IsLow};
ghost use Rattle.commit.specs.Resume.{CanSettle, Settles};
ghost use Rattle.reports.specs.declared.status.Status.TheVariants as S;
ghost use Rattle.checkpointed_command.specs.Refusals.{IsSettledSince, IsUnsettled};
ghost use Rattle.checkpointed_command.specs.Steps.{IsDamaged};

use crate::statuses::unsettled;
use commit::{Commit, CommitFiles};
use ledger::End;
use lp_outside::Disk;
use reports::Status;

/// Finishes what a run that was stopped has left, or says why it can't be. Where nothing was left to finish, the end of the ledger is
/// answered.
pub(crate) fn settle_ledger<D: Disk>(
    disk: &mut D,
    files: CommitFiles,
) -> Result<Option<End>, Status>
    ensures settles { CanSettle (D.state disk.old) files.ledger files.stage → Settles (D.state disk.old) (D.state disk.new) files.ledger files.stage }
    ensures fits { OnOk result ((D.state disk.old).tells → IsApart files.ledger files.stage (D.state disk.old).seen → FitsWhole files.ledger files.stage (D.state disk.old).seen) }
    // The ledger's entries stay, and the last of them is done.
    ensures keeps { OnOk result ((D.state disk.old).tells → IsApart files.ledger files.stage (D.state disk.old).seen → KeepsEntries files.ledger (D.state disk.old).seen (D.state disk.new).seen) }
    ensures tells { OnOk result ((D.state disk.old).tells → (D.state disk.new).tells) }
    // It is known from some moment on, since when the disk was only read.
    ensures since { IfOk result (IsSettledSince D.state disk.old disk.new files.ledger files.stage) }
    ensures low { IfOk result (λ known. IfSome known IsLow) }
    ensures refused { IfErr result (IsUnsettled (D.state disk.old) files.ledger files.stage) }
    ensures undamaged { IfErr result (λ status. IsDamaged status → CanSettle (D.state disk.old) files.ledger files.stage → ⊥) }
    ensures later { D.faults disk.old ≤ D.faults disk.new }
    ensures failed { IsErrOf result S.DiskFault → Rose (D.faults disk.old) (D.faults disk.new) }
{
    let mut commit = Commit::new(disk, files);
    match commit.settle_known(None) {
        Ok(known) => Ok(known),
        Err(fault) => Err(unsettled(fault)),
    }
}
