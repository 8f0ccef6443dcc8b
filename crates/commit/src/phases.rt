// The phases of a commit, one after the other, over the only reference to a disk.
ghost use Rattle.std.specs.Prelude.{◌≡◌, ◌<◌, ◌≤◌, ◌+◌, ◌^◌, ◌++◌, [], ◌∷◌, ℕ, List, length, Option, Some, IfOk, IfSome, OnOk, OnErr, IsErrOf};
ghost use Rattle.lp_model.specs.Outside.{HasCause};
ghost use Rattle.disk_model.specs.Disk.{Files};
ghost use Rattle.ledger_model.specs.Entries.{Entry};
ghost use Rattle.ledger_model.specs.Grammar.{payload_of};
ghost use Rattle.ledger.specs.Written.{entry_of};
ghost use Rattle.ledger.specs.Reader.{HasReason};
ghost use Rattle.ledger.specs.declared.refused.LedgerRefused.TheVariants.{LedgerFault};
ghost use Rattle.ledger.specs.declared.refused.Part2.{Part2};
ghost use Rattle.ledger.specs.declared.refused.Part2.TheVariants.{Stage};
ghost use Rattle.recovery_model.specs.Recovered.{AreApart, Recovers};
ghost use Rattle.commit.specs.Known.{IsLow, IsLastDone, IsReadSince};
ghost use Rattle.commit.specs.Resume.{CanSettle, Settles};
ghost use Rattle.commit.specs.States.{ShowsFiles, LiesIn};
ghost use Rattle.commit.specs.Faults.{IsApart, FitsWhole, BreaksAt};
ghost use Rattle.commit.specs.Keeping.{KeepsEntries};
ghost use Rattle.commit.specs.Redo.{frames_in};
ghost use Rattle.commit.specs.Outputs.{AllStaged, BreaksOutputs};

use crate::{CommitFault, finish, open_gate, seal, settle_disk, settle_known, start};
use ledger::End;
use lp_outside::{Disk, DiskFailed, Name};

/// The two files of a commit.
#[derive(Drop)]
pub struct CommitFiles {
    pub ledger: Name,
    pub stage: Name,
}

/// The end of a ledger, where its last entry was done.
fn if_done(end: End) -> Option<End>
    ensures { IfSome result (λ found. (found ≡ end) × IsLastDone end.last) }
{
    match end.last {
        Some(last) => { if last.done { Some(end) } else { None } }
        None => None,
    }
}

/// A commit over a disk, of which it holds the only reference. Its phase is what is known of the disk.
pub struct Commit<'d, D> {
    pub(crate) disk: &'d mut D,
    pub(crate) files: CommitFiles,
    /// The place of the closed gate, or of the last entry's.
    pub(crate) place: u64,
    /// How many bytes of the stage are frames.
    pub(crate) staged: u64,
    /// The place behind the entry that is sealed.
    pub(crate) next: u64,
    ghost low: { place + 2 ≤ 2 ^ 62 },
    ghost within: { staged ≤ 2 ^ 62 },
    ghost behind: { next + 2 ≤ 2 ^ 62 },
}

impl<'d, D> Drop for Commit<'d, D> {
    fn drop(self)
        ensures { self.exit.0.now ≡ self.entry.disk.now }
    {
        let Commit {
            disk: _,
            files: _,
            place: _,
            staged: _,
            next: _,
        } = self;
    }
}

impl<'d, D: Disk> Commit<'d, D> {
    ghost use Rattle.commit.specs.Phases.{disk_of, ledger_of, stage_of, staged_of, place_of, next_of, Same, Goes, Unsettled, Settled, Staged, Sealed, Opened, ShowsEntry, PreservesHeld, SettlesHeld, LeavesEither, HasFrames};

    /// A disk that may have been stopped anywhere.
    pub fn new(disk: &'d mut D, files: CommitFiles) -> Self
        ensures same_reference { result.disk.ghost_name ≡ disk.entry.ghost_name }
        ensures same { result.disk.now ≡ disk.entry.now }
        ensures files { result.files ≡ files }
    {
        Commit {
            disk,
            files,
            place: 0,
            staged: 0,
            next: 0,
        }
    }

    /// How many bytes of the stage are frames.
    pub fn staged(&self) -> u64
        ensures { result ≡ staged_of self.now }
    {
        self.staged
    }

    /// Finishes what a run that was stopped has left. It may be stopped and called again any number of times.
    pub fn settle(&mut self) -> Result<(), CommitFault>
        ensures same { Same self.old self.new }
        ensures any_moment { Unsettled D.state self.old → SettlesHeld D.state self.old self.new }
        // At Ok the last entry is done, for the state that a read gave, and each file read is that.
        ensures settled { OnOk result (Unsettled D.state self.old → (entries : List Entry) (files : Files) → Recovers (ledger_of self.old) (stage_of self.old) entries files ((disk_of D.state self.old).seen)
            → Settled D.state self.new entries files × ShowsFiles (disk_of D.state self.new) (ledger_of self.old) (stage_of self.old) files) }
        ensures no_fault { (part : Part2) (p : ℕ) → IsErrOf result (LedgerFault part p) → Unsettled D.state self.old → ⊥ }
        // What a read gave fits, or breaks at the place that is answered.
        ensures fits { OnOk result ((disk_of D.state self.old).tells → IsApart (ledger_of self.old) (stage_of self.old) ((disk_of D.state self.old).seen) → FitsWhole (ledger_of self.old) (stage_of self.old) ((disk_of D.state self.old).seen)) }
        ensures fault { (part : Part2) (p : ℕ) → IsErrOf result (LedgerFault part p) → (disk_of D.state self.old).tells → IsApart (ledger_of self.old) (stage_of self.old) ((disk_of D.state self.old).seen) → BreaksAt (ledger_of self.old) (stage_of self.old) ((disk_of D.state self.old).seen) part p }
        // And of its ledger the entries stay, of which the last is done.
        ensures keeps { OnOk result ((disk_of D.state self.old).tells → IsApart (ledger_of self.old) (stage_of self.old) ((disk_of D.state self.old).seen) → KeepsEntries (ledger_of self.old) ((disk_of D.state self.old).seen) ((disk_of D.state self.new).seen)) }
        ensures tells { OnOk result ((disk_of D.state self.old).tells → (disk_of D.state self.new).tells) }
        ensures reason { HasReason (D.faults self.old.disk.now) (D.faults self.new.disk.now) result }
    {
        match settle_disk(self.disk, &self.files.ledger, &self.files.stage) {
            Ok(place) => {
                self.place = place;
                Ok(())
            }
            Err(fault) => Err(fault),
        }
    }

    /// The same of a disk that was only read since an earlier moment, at which the end of its ledger was known, or nothing of it: what
    /// is known isn't looked up again. At Ok the end is answered where the last entry was done already: nothing was written then,
    /// and it is known from that moment on.
    pub fn settle_known(&mut self, known: Option<End>) -> Result<Option<End>, CommitFault>
        requires low { IfSome known IsLow }
        ensures same { Same self.old self.new }
        ensures any_moment { (earlier : D) → IsReadSince (D.state earlier) (disk_of D.state self.old) (ledger_of self.old) known → CanSettle (D.state earlier) (ledger_of self.old) (stage_of self.old)
            → Settles (D.state earlier) (disk_of D.state self.new) (ledger_of self.old) (stage_of self.old) }
        // At Ok the last entry is done, for the state that a read gave, and each file read is that.
        ensures settled { (earlier : D) → IsReadSince (D.state earlier) (disk_of D.state self.old) (ledger_of self.old) known → OnOk result (CanSettle (D.state earlier) (ledger_of self.old) (stage_of self.old)
            → (entries : List Entry) (files : Files) → Recovers (ledger_of self.old) (stage_of self.old) entries files ((D.state earlier).seen)
            → Settled D.state self.new entries files × ShowsFiles (disk_of D.state self.new) (ledger_of self.old) (stage_of self.old) files) }
        ensures no_fault { (earlier : D) → IsReadSince (D.state earlier) (disk_of D.state self.old) (ledger_of self.old) known → (part : Part2) (p : ℕ) → IsErrOf result (LedgerFault part p) → CanSettle (D.state earlier) (ledger_of self.old) (stage_of self.old) → ⊥ }
        // What a read gave fits, or breaks at the place that is answered.
        ensures fits { (earlier : D) → IsReadSince (D.state earlier) (disk_of D.state self.old) (ledger_of self.old) known → OnOk result ((D.state earlier).tells → IsApart (ledger_of self.old) (stage_of self.old) ((D.state earlier).seen) → FitsWhole (ledger_of self.old) (stage_of self.old) ((D.state earlier).seen)) }
        ensures fault { (earlier : D) → IsReadSince (D.state earlier) (disk_of D.state self.old) (ledger_of self.old) known → (part : Part2) (p : ℕ) → IsErrOf result (LedgerFault part p) → (D.state earlier).tells → IsApart (ledger_of self.old) (stage_of self.old) ((D.state earlier).seen)
            → BreaksAt (ledger_of self.old) (stage_of self.old) ((D.state earlier).seen) part p }
        // And of its ledger the entries stay, of which the last is done.
        ensures keeps { (earlier : D) → IsReadSince (D.state earlier) (disk_of D.state self.old) (ledger_of self.old) known → OnOk result ((D.state earlier).tells → IsApart (ledger_of self.old) (stage_of self.old) ((D.state earlier).seen)
            → KeepsEntries (ledger_of self.old) ((D.state earlier).seen) ((disk_of D.state self.new).seen)) }
        ensures tells { (earlier : D) → IsReadSince (D.state earlier) (disk_of D.state self.old) (ledger_of self.old) known → OnOk result ((D.state earlier).tells → (disk_of D.state self.new).tells) }
        ensures found { (earlier : D) → IsReadSince (D.state earlier) (disk_of D.state self.old) (ledger_of self.old) known → IfOk result (λ found. IfSome found (λ end. IsReadSince (D.state earlier) (disk_of D.state self.new) (ledger_of self.old) (Some end))) }
        ensures low { IfOk result (λ found. IfSome found IsLow) }
        ensures reason { HasReason (D.faults self.old.disk.now) (D.faults self.new.disk.now) result }
    {
        match settle_known(self.disk, &self.files.ledger, &self.files.stage, known) {
            Ok(end) => {
                self.place = end.pair;
                Ok(if_done(end))
            }
            Err(fault) => Err(fault),
        }
    }

    /// Empties the stage.
    pub fn start(&mut self) -> Result<(), DiskFailed>
        ensures goes { Goes D.state self.old self.new }
        ensures empty { OnOk result ((disk_of D.state self.old).tells → HasFrames D.state self.new × ((disk_of D.state self.new).seen (stage_of self.new) ≡ [])) }
        ensures count { OnErr result (staged_of self.new ≡ staged_of self.old) }
        ensures cause { HasCause (D.faults self.old.disk.now) (D.faults self.new.disk.now) result }
    {
        start(self.disk, &self.files.stage)?;
        self.staged = 0;
        Ok(())
    }

    /// Makes the stage lasting, and writes an entry behind the closed gate.
    pub fn seal(&mut self, entry: &ledger::Entry) -> Result<(), DiskFailed>
        ensures same { Same self.old self.new }
        // A crash at any moment leaves the state without the entry, and so does the disk afterwards, at a refusal too.
        ensures any_moment { (entries : List Entry) (files : Files) → Settled D.state self.old entries files → PreservesHeld D.state self.old self.new entries files }
        // An entry that was sealed has a length of 64 bits.
        ensures small { OnOk result (length (payload_of (entry_of entry.now)) < 2 ^ 64) }
        ensures sealed { OnOk result ((entries : List Entry) (before after : Files) → Settled D.state self.old entries before → Staged D.state self.old (entry_of entry.now) before after → Sealed D.state self.new (entry_of entry.now) entries before after) }
        // The gate's place stays, and at Ok the next pair's is behind the entry.
        ensures gate { place_of self.new ≡ place_of self.old }
        ensures behind { OnOk result (next_of self.new ≡ place_of self.old + 10 + length (payload_of (entry_of entry.now))) }
        ensures refused { OnErr result (next_of self.new ≡ next_of self.old) }
        ensures cause { HasCause (D.faults self.old.disk.now) (D.faults self.new.disk.now) result }
    {
        let size = entry.size();
        seal(
            self.disk,
            &self.files.ledger,
            &self.files.stage,
            self.place,
            entry,
        )?;
        self.next = self.place + 10 + size;
        Ok(())
    }

    /// Opens the gate.
    pub fn open_gate(&mut self) -> Result<(), DiskFailed>
        ensures same { Same self.old self.new }
        // A crash at any moment leaves the state before the entry or the one with it, and so does the disk afterwards, at a refusal too.
        ensures any_moment { (entry : Entry) (entries : List Entry) (before after : Files) → Sealed D.state self.old entry entries before after → LeavesEither D.state self.old self.new entries entry before after }
        // The entry lies behind its pair, at a refusal too.
        ensures lies { (entry : Entry) (entries : List Entry) (before after : Files) → Sealed D.state self.old entry entries before after → LiesIn (disk_of D.state self.new) (ledger_of self.old) (entries ++ entry ∷ []) entry }
        ensures opened { OnOk result ((entry : Entry) (entries : List Entry) (before after : Files) → Sealed D.state self.old entry entries before after → Opened D.state self.new entry (entries ++ entry ∷ []) after) }
        // Both places stay.
        ensures gate { place_of self.new ≡ place_of self.old }
        ensures behind { next_of self.new ≡ next_of self.old }
        ensures cause { HasCause (D.faults self.old.disk.now) (D.faults self.new.disk.now) result }
    {
        open_gate(self.disk, &self.files.ledger, self.place)
    }

    /// Writes the outputs of the entry, and then its done byte.
    pub fn finish(&mut self) -> Result<(), CommitFault>
        ensures same { Same self.old self.new }
        // A crash at any moment leaves the state with the entry, and so does the disk afterwards, at a refusal too.
        ensures any_moment { (entry : Entry) (entries : List Entry) (files : Files) → Opened D.state self.old entry entries files → PreservesHeld D.state self.old self.new entries files }
        // The entry lies behind its pair, at a refusal too.
        ensures lies { (entry : Entry) (entries : List Entry) (files : Files) → Opened D.state self.old entry entries files → LiesIn (disk_of D.state self.new) (ledger_of self.old) entries entry }
        ensures done { OnOk result ((entry : Entry) (entries : List Entry) (files : Files) → Opened D.state self.old entry entries files → Settled D.state self.new entries files) }
        // From the state that the gate leaves the bytes always fit.
        ensures no_fault { (part : Part2) (p : ℕ) → IsErrOf result (LedgerFault part p) → (entry : Entry) (entries : List Entry) (files : Files) → Opened D.state self.old entry entries files → ⊥ }
        // The frames of each output fit, or those of the first that don't break at the place that is answered.
        ensures fit { OnOk result ((entry : Entry) → ShowsEntry D.state self.old entry → AreApart (ledger_of self.old) (stage_of self.old) entry.outputs → AllStaged (frames_in (disk_of D.state self.old) (stage_of self.old) entry.staged) entry.outputs) }
        ensures fault { (part : Part2) (p : ℕ) → IsErrOf result (LedgerFault part p) → (entry : Entry) → ShowsEntry D.state self.old entry → AreApart (ledger_of self.old) (stage_of self.old) entry.outputs
            → (part ≡ Stage) × BreaksOutputs (frames_in (disk_of D.state self.old) (stage_of self.old) entry.staged) entry.outputs p }
        ensures reason { HasReason (D.faults self.old.disk.now) (D.faults self.new.disk.now) result }
    {
        let size = self.next.saturating_sub(self.place + 10);
        match finish(
            self.disk,
            &self.files.ledger,
            &self.files.stage,
            self.place,
            size,
        ) {
            Ok(()) => {
                self.place = self.next;
                Ok(())
            }
            Err(fault) => Err(fault),
        }
    }
}
