// What the steps mean together.
ghost use Rattle.std.specs.Prelude.{◌≡◌, ◌≢◌, ◌++◌, [], ◌∷◌, ℕ, List};
ghost use Rattle.disk_model.specs.Disk.{Files, LeavesOnly};
ghost use Rattle.disk_changes.specs.Changes.{KeepsFront};
ghost use Rattle.ledger_model.specs.Entries.{Entry, Output};
ghost use Rattle.recovery_model.specs.Recovered.{IsOther, IsRestored, Recovers};
ghost use Rattle.commit.specs.States.{Keeps, KeepsEither};
ghost use Rattle.commit.specs.Outputs.{AllStaged, BreaksOutputs};
ghost use Rattle.commit.specs.Resume.{CanSettle};
ghost use Rattle.commit.specs.Whole.{BeforeOrWith};
ghost use Rattle.commit.specs.Phases.{disk_of, ledger_of, stage_of, Same, Goes, Unsettled, Settled, Sealed, PreservesHeld, SettlesHeld, LeavesEither, AreSteps, last_of};
ghost use Rattle.commit.specs.declared.phases.Commit.{Commit as Held};

use crate::Commit;
use lp_outside::Disk;

/// A redo may be repeated: whatever a file holds from the base on, it is restored to the same bytes, and the restored file
/// to itself.
pub fn redo_may_be_repeated()
    ensures kept { (stage : List ℕ) (index : ℕ) (output : Output) (file other restored : List ℕ) → KeepsFront output.base file other → IsRestored stage index output file restored → IsRestored stage index output other restored }
    ensures again { (stage : List ℕ) (index : ℕ) (output : Output) (file restored : List ℕ) → IsRestored stage index output file restored → IsRestored stage index output restored restored }
    ensures one { (stage : List ℕ) (index : ℕ) (output : Output) (file restored other : List ℕ) → IsRestored stage index output file restored → IsRestored stage index output file other → restored ≡ other }
{}

/// The texts of an entry's outputs are staged, or break at one place, and never both.
pub fn stage_fits_or_breaks_once()
    ensures never_both { (stage : List ℕ) (outputs : List Output) (place : ℕ) → AllStaged stage outputs → BreaksOutputs stage outputs place → ⊥ }
    ensures one_place { (stage : List ℕ) (outputs : List Output) (p q : ℕ) → BreaksOutputs stage outputs p → BreaksOutputs stage outputs q → p ≡ q }
{}

/// An image stands for one list of entries and one choice of files.
pub fn image_stands_for_one_state()
    ensures { (ledger stage : List ℕ) (entries others : List Entry) (files more image : Files) → Recovers ledger stage entries files image → Recovers ledger stage others more image
        → (entries ≡ others) × ((name : List ℕ) → IsOther ledger stage name → files name ≡ more name) }
{}

/// A disk that keeps one state, or the state before an entry and the one after it, can be settled.
pub fn can_be_settled<D: Disk>(disk: &D)
    ensures kept { (ledger stage : List ℕ) (entries : List Entry) (files : Files) → ledger ≢ stage → Keeps (D.state disk.now) ledger stage entries files → CanSettle (D.state disk.now) ledger stage }
    ensures either { (ledger stage : List ℕ) (entries : List Entry) (entry : Entry) (before after : Files) → ledger ≢ stage → KeepsEither (D.state disk.now) ledger stage entries entry before after → CanSettle (D.state disk.now) ledger stage }
{
    let _disk = disk;
}

/// What any calls of the stage let stand over a settled disk: it stays settled, and each image of each moment in between
/// stands for the state before.
pub fn staging_keeps<'a, 'b, D: Disk>(old: &Commit<'a, D>, new: &Commit<'b, D>)
    ensures { (entries : List Entry) (files : Files) → Goes D.state old.now new.now → Settled D.state old.now entries files → PreservesHeld D.state old.now new.now entries files × Settled D.state new.now entries files }
{
    let _old = old;
    let _new = new;
}

/// While the gate is closed the disk is settled for the state before the entry, so that it may be staged on and sealed
/// again any number of times.
pub fn sealed_is_settled<'a, D: Disk>(sealed: &Commit<'a, D>)
    ensures { (entry : Entry) (entries : List Entry) (before after : Files) → Sealed D.state sealed.now entry entries before after → Settled D.state sealed.now entries before }
{
    let _sealed = sealed;
}

/// Stretches in which the state stays follow each other.
pub fn stretches_add<'a, 'b, 'c, D: Disk>(
    first: &Commit<'a, D>,
    second: &Commit<'b, D>,
    third: &Commit<'c, D>,
)
    ensures preserves { (entries : List Entry) (files : Files) → Same first.now second.now → PreservesHeld D.state first.now second.now entries files → PreservesHeld D.state second.now third.now entries files → PreservesHeld D.state first.now third.now entries files }
    ensures either { (entries : List Entry) (entry : Entry) (before after : Files) → Same first.now second.now → LeavesEither D.state first.now second.now entries entry before after
        → PreservesHeld D.state second.now third.now (entries ++ entry ∷ []) after → LeavesEither D.state first.now third.now entries entry before after }
{
    let _first = first;
    let _second = second;
    let _third = third;
}

/// A run that is settled, staged and sealed any number of times, opened and finished. Up to the gate each image of each
/// moment stands for what an image stood for before it, and behind it for that or for the state with the entry.
pub fn a_run_is_whole_or_undone<'a, 'b, 'c, D: Disk>(
    first: &Commit<'a, D>,
    settled: &Commit<'b, D>,
    end: &Commit<'c, D>,
)
    // The disk is settled, and then the stage is called and entries are sealed.
    ensures stays { (steps : List (Held D)) (entries : List Entry) (files : Files) → Unsettled D.state first.now → Recovers (ledger_of first.now) (stage_of first.now) entries files ((disk_of D.state first.now).seen)
        → Same first.now settled.now → SettlesHeld D.state first.now settled.now → Settled D.state settled.now entries files → AreSteps D.state entries files settled.now steps
        → SettlesHeld D.state first.now (last_of settled.now steps) × Settled D.state (last_of settled.now steps) entries files }
    // The last entry that was sealed is opened, and finished.
    ensures each_moment { (steps : List (Held D)) (opened : Held D) (entry : Entry) (entries : List Entry) (before after : Files) → Unsettled D.state first.now → Recovers (ledger_of first.now) (stage_of first.now) entries before ((disk_of D.state first.now).seen)
        → Same first.now settled.now → SettlesHeld D.state first.now settled.now → Settled D.state settled.now entries before → AreSteps D.state entries before settled.now steps
        → Same (last_of settled.now steps) opened → LeavesEither D.state (last_of settled.now steps) opened entries entry before after → PreservesHeld D.state opened end.now (entries ++ entry ∷ []) after
        → LeavesOnly (disk_of D.state first.now) (disk_of D.state end.now) (BeforeOrWith (disk_of D.state first.now) (ledger_of first.now) (stage_of first.now) entries entry after)
        × CanSettle (disk_of D.state end.now) (ledger_of first.now) (stage_of first.now) }
{
    let _first = first;
    let _settled = settled;
    let _end = end;
}
