// A whole commit through the trait of stages.
ghost use Rattle.std.specs.Prelude.{◌≡◌, ◌≢◌, ◌⊎◌, ◌≤◌, ◌++◌, [], ◌∷◌, ℕ, List, OnOk, IfOk, IsErrOf, OnErr};
ghost use Rattle.lp_model.specs.Outside.{HasCause, Rose};
ghost use Rattle.disk_model.specs.Disk.{Files, LeavesOnly};
ghost use Rattle.ledger_model.specs.Entries.{Entry as PlainEntry};
ghost use Rattle.ledger.specs.Written.{entry_of};
ghost use Rattle.ledger.specs.Reader.{HasReason};
ghost use Rattle.ledger.specs.declared.refused.LedgerRefused.TheVariants.{LedgerFault};
ghost use Rattle.ledger.specs.declared.refused.Part2.{Part2};
ghost use Rattle.recovery_model.specs.Recovered.{Recovers};
ghost use Rattle.commit.specs.States.{IsGood, Keeps, ShowsFiles, LiesIn};
ghost use Rattle.commit.specs.Resume.{CanSettle, Settles};
ghost use Rattle.commit.specs.Faults.{IsApart, FitsWhole, BreaksSomewhere};
ghost use Rattle.lp_outside.specs.Gained.{HasText};
ghost use Rattle.commit.specs.Whole.{HasRefusal, AddsTwo, MayCommit, output_at, BeforeOrWith};
ghost use Rattle.commit.specs.Phases.{disk_of, ledger_of, stage_of, staged_of, Same, Goes, Unsettled, Settled, Staged, Sealed, PreservesHeld, SettlesHeld, LeavesEither};

use crate::{Commit, CommitFault, CommitFiles};
use ledger::{Entry, Output};
use lp_outside::{Disk, Name, Placed, Stage, StageFailed, place_text};
use std::alloc::AllocError;

/// Why a run was refused before its gate.
#[derive(Clone, Copy, Debug, PartialEq, Eq)]
pub enum Refused {
    Memory,
    Failed,
}

/// Where a commit stopped.
#[derive(Clone, Copy, Debug, PartialEq, Eq)]
pub enum Stopped {
    /// Before the gate, for want of memory: the disk has counted no fault, and stands for the state before.
    Memory,
    /// Before the gate: the disk failed or what it holds is damaged, and it stands for the state before.
    BeforeGate,
    /// At the gate or behind it: the disk failed, and stands for the state before or for the one with the entry, which lies
    /// whole behind its pair. The next settling tells which.
    FromGate,
    /// Behind the gate: what the disk gives isn't what was written to it. An honest disk never does so, if no output of the
    /// entry is the ledger or the stage.
    Damaged,
}

/// Puts two texts into a stage.
pub fn place_two_texts<G: Stage>(
    stage: &mut G,
    first: &Name,
    one: &[u8],
    second: &Name,
    two: &[u8],
) -> Result<(Placed, Placed), StageFailed>
    requires apart { first.now ≢ second.now }
    ensures goes { G.goes stage.old stage.new }
    ensures first { IfOk result (λ placed. (G.state stage.old).tells → HasText 0 first.now placed.0.base placed.0.mark one.now (G.state stage.new)) }
    ensures second { IfOk result (λ placed. (G.state stage.old).tells → HasText 1 second.now placed.1.base placed.1.mark two.now (G.state stage.new)) }
    ensures ended { IfOk result (λ placed. G.ended stage.new first.now placed.0.base placed.0.mark × G.ended stage.new second.now placed.1.base placed.1.mark) }
    ensures bases { IfOk result (λ placed. (G.state stage.old).tells → (G.state stage.old).is_length first.now placed.0.base × (G.state stage.old).is_length second.now placed.1.base) }
    ensures cause { HasCause (G.faults stage.old) (G.faults stage.new) result }
{
    let one_placed = place_text(stage, 0, first, one)?;
    let two_placed = place_text(stage, 1, second, two)?;
    Ok((one_placed, two_placed))
}

/// Notes in an entry what was staged.
fn note(
    entry: &mut Entry,
    staged: u64,
    first: &Name,
    one: Placed,
    second: &Name,
    two: Placed,
) -> Result<(), AllocError>
    requires { entry.old.outputs ≡ [] }
    ensures staged { OnOk result ((entry_of entry.new).staged ≡ staged) }
    ensures outputs { OnOk result ((entry_of entry.new).outputs ≡ output_at first.now one.base one.mark ∷ output_at second.now two.base two.mark ∷ []) }
{
    entry.staged = staged;
    entry.outputs.push(Output {
        name: first.copy(),
        base: one.base,
        mark: one.mark,
    })?;
    entry.outputs.push(Output {
        name: second.copy(),
        base: two.base,
        mark: two.mark,
    })
}

/// Stages the texts of an entry.
fn stage_texts<'d, D: Disk>(
    commit: &mut Commit<'d, D>,
    entry: &mut Entry,
    first: &Name,
    one: &[u8],
    second: &Name,
    two: &[u8],
) -> Result<(), Refused>
    requires empty { entry.old.outputs ≡ [] }
    requires apart { first.now ≢ second.now }
    ensures reason { HasRefusal (D.faults commit.old.disk.now) (D.faults commit.new.disk.now) result }
    ensures goes { Goes D.state commit.old commit.new }
    ensures staged { OnOk result ((entries : List PlainEntry) (before after : Files) → Settled D.state commit.old entries before → AddsTwo first.now one.now second.now two.now before after
        → IsGood (ledger_of commit.old) (stage_of commit.old) (entry_of entry.new) → Staged D.state commit.new (entry_of entry.new) before after) }
{
    match commit.start() {
        Ok(()) => {}
        Err(_) => return Err(Refused::Failed),
    }
    let placed = match place_two_texts(commit, first, one, second, two) {
        Ok(placed) => placed,
        Err(_) => return Err(Refused::Failed),
    };
    match note(entry, commit.staged(), first, placed.0, second, placed.1) {
        Ok(()) => Ok(()),
        Err(_) => Err(Refused::Memory),
    }
}

/// Stages the texts of an entry, and seals it.
fn prepare<'d, D: Disk>(
    commit: &mut Commit<'d, D>,
    entry: &mut Entry,
    first: &Name,
    one: &[u8],
    second: &Name,
    two: &[u8],
) -> Result<(), Refused>
    requires empty { entry.old.outputs ≡ [] }
    requires apart { first.now ≢ second.now }
    ensures reason { HasRefusal (D.faults commit.old.disk.now) (D.faults commit.new.disk.now) result }
    ensures same { Same commit.old commit.new }
    ensures any_moment { (entries : List PlainEntry) (files : Files) → Settled D.state commit.old entries files → PreservesHeld D.state commit.old commit.new entries files }
    ensures sealed { OnOk result ((entries : List PlainEntry) (before after : Files) → Settled D.state commit.old entries before → AddsTwo first.now one.now second.now two.now before after
        → IsGood (ledger_of commit.old) (stage_of commit.old) (entry_of entry.new) → Sealed D.state commit.new (entry_of entry.new) entries before after) }
{
    match stage_texts(commit, entry, first, one, second, two) {
        Ok(()) => {}
        Err(refused) => return Err(refused),
    }
    match commit.seal(entry) {
        Ok(()) => Ok(()),
        Err(_) => Err(Refused::Failed),
    }
}

/// Opens the gate of a sealed entry, and writes its outputs.
fn conclude<'d, D: Disk>(commit: &mut Commit<'d, D>) -> Result<(), CommitFault>
    ensures same { Same commit.old commit.new }
    ensures any_moment { (entry : PlainEntry) (entries : List PlainEntry) (before after : Files) → Sealed D.state commit.old entry entries before after → LeavesEither D.state commit.old commit.new entries entry before after }
    ensures done { OnOk result ((entry : PlainEntry) (entries : List PlainEntry) (before after : Files) → Sealed D.state commit.old entry entries before after → Settled D.state commit.new (entries ++ entry ∷ []) after) }
    ensures lies { (entry : PlainEntry) (entries : List PlainEntry) (before after : Files) → Sealed D.state commit.old entry entries before after → LiesIn (disk_of D.state commit.new) (ledger_of commit.old) (entries ++ entry ∷ []) entry }
    ensures no_fault { (part : Part2) (p : ℕ) → IsErrOf result (LedgerFault part p) → (entry : PlainEntry) (entries : List PlainEntry) (before after : Files) → Sealed D.state commit.old entry entries before after → ⊥ }
    ensures reason { HasReason (D.faults commit.old.disk.now) (D.faults commit.new.disk.now) result }
{
    match commit.open_gate() {
        Ok(()) => {}
        Err(_) => return Err(CommitFault::DiskFault),
    }
    commit.finish()
}

/// Settles a disk, stages two texts through the trait of stages, seals an entry with their marks, opens its gate and
/// writes its outputs.
fn commit_texts<'d, D: Disk>(
    commit: &mut Commit<'d, D>,
    entry: &mut Entry,
    first: &Name,
    one: &[u8],
    second: &Name,
    two: &[u8],
) -> Result<(), Stopped>
    requires empty { entry.old.outputs ≡ [] }
    requires apart { first.now ≢ second.now }
    ensures same { Same commit.old commit.new }
    ensures each_moment { (entries : List PlainEntry) (before after : Files) → MayCommit (disk_of D.state commit.old) (ledger_of commit.old) (stage_of commit.old) entries (entry_of entry.new) first.now one.now second.now two.now before after
        → LeavesOnly (disk_of D.state commit.old) (disk_of D.state commit.new) (BeforeOrWith (disk_of D.state commit.old) (ledger_of commit.old) (stage_of commit.old) entries (entry_of entry.new) after) }
    ensures again { (entries : List PlainEntry) (before after : Files) → MayCommit (disk_of D.state commit.old) (ledger_of commit.old) (stage_of commit.old) entries (entry_of entry.new) first.now one.now second.now two.now before after
        → CanSettle (disk_of D.state commit.new) (ledger_of commit.old) (stage_of commit.old) }
    ensures kept { OnOk result ((entries : List PlainEntry) (before after : Files) → MayCommit (disk_of D.state commit.old) (ledger_of commit.old) (stage_of commit.old) entries (entry_of entry.new) first.now one.now second.now two.now before after
        → Keeps (disk_of D.state commit.new) (ledger_of commit.old) (stage_of commit.old) (entries ++ entry_of entry.new ∷ []) after) }
    ensures shown { OnOk result ((entries : List PlainEntry) (before after : Files) → MayCommit (disk_of D.state commit.old) (ledger_of commit.old) (stage_of commit.old) entries (entry_of entry.new) first.now one.now second.now two.now before after
        → ShowsFiles (disk_of D.state commit.new) (ledger_of commit.old) (stage_of commit.old) after) }
    ensures behind { IsErrOf result Stopped.FromGate → (entries : List PlainEntry) (before after : Files) → MayCommit (disk_of D.state commit.old) (ledger_of commit.old) (stage_of commit.old) entries (entry_of entry.new) first.now one.now second.now two.now before after
        → LiesIn (disk_of D.state commit.new) (ledger_of commit.old) (entries ++ entry_of entry.new ∷ []) (entry_of entry.new) }
    ensures later { D.faults commit.old.disk.now ≤ D.faults commit.new.disk.now }
    ensures counts { OnOk result (D.faults commit.new.disk.now ≡ D.faults commit.old.disk.now) }
    ensures wants { IsErrOf result Stopped.Memory → D.faults commit.new.disk.now ≡ D.faults commit.old.disk.now }
    ensures cause_before { IsErrOf result Stopped.BeforeGate → Unsettled D.state commit.old → Rose (D.faults commit.old.disk.now) (D.faults commit.new.disk.now) }
    ensures cause_behind { IsErrOf result Stopped.FromGate → Rose (D.faults commit.old.disk.now) (D.faults commit.new.disk.now) }
    ensures fits { (IsErrOf result Stopped.BeforeGate → ⊥) → (disk_of D.state commit.old).tells → IsApart (ledger_of commit.old) (stage_of commit.old) ((disk_of D.state commit.old).seen) → FitsWhole (ledger_of commit.old) (stage_of commit.old) ((disk_of D.state commit.old).seen) }
    ensures breaks { IsErrOf result Stopped.BeforeGate → (disk_of D.state commit.old).tells → IsApart (ledger_of commit.old) (stage_of commit.old) ((disk_of D.state commit.old).seen)
        → Rose (D.faults commit.old.disk.now) (D.faults commit.new.disk.now) ⊎ BreaksSomewhere (ledger_of commit.old) (stage_of commit.old) ((disk_of D.state commit.old).seen) }
    ensures no_damage { IsErrOf result Stopped.Damaged → (entries : List PlainEntry) (before after : Files) → MayCommit (disk_of D.state commit.old) (ledger_of commit.old) (stage_of commit.old) entries (entry_of entry.new) first.now one.now second.now two.now before after → ⊥ }
    ensures memory { IsErrOf result Stopped.Memory → Unsettled D.state commit.old → SettlesHeld D.state commit.old commit.new }
    ensures refused { IsErrOf result Stopped.BeforeGate → Unsettled D.state commit.old → SettlesHeld D.state commit.old commit.new }
{
    match commit.settle() {
        Ok(()) => {}
        Err(_) => return Err(Stopped::BeforeGate),
    }
    match prepare(commit, entry, first, one, second, two) {
        Ok(()) => {}
        Err(Refused::Memory) => return Err(Stopped::Memory),
        Err(Refused::Failed) => return Err(Stopped::BeforeGate),
    }
    match conclude(commit) {
        Ok(()) => Ok(()),
        Err(CommitFault::DiskFault) => Err(Stopped::FromGate),
        Err(CommitFault::LedgerFault { .. }) => Err(Stopped::Damaged),
    }
}

/// A run over a disk: each image of each moment of all of it stands for what an image stood for before, or for the state
/// with the entry; at Ok for the latter, after a refusal before the gate for the former, and from the gate on for either.
pub fn commit_two_texts<D: Disk>(
    disk: &mut D,
    files: CommitFiles,
    entry: &mut Entry,
    first: &Name,
    one: &[u8],
    second: &Name,
    two: &[u8],
) -> Result<(), Stopped>
    requires empty { entry.old.outputs ≡ [] }
    requires apart { first.now ≢ second.now }
    // At each moment, whether it is done or refused, and so at the end too.
    ensures each_moment { (entries : List PlainEntry) (before after : Files) → MayCommit (D.state disk.old) files.ledger files.stage entries (entry_of entry.new) first.now one.now second.now two.now before after
        → LeavesOnly (D.state disk.old) (D.state disk.new) (BeforeOrWith (D.state disk.old) files.ledger files.stage entries (entry_of entry.new) after) }
    // The disk can be settled again.
    ensures again { (entries : List PlainEntry) (before after : Files) → MayCommit (D.state disk.old) files.ledger files.stage entries (entry_of entry.new) first.now one.now second.now two.now before after
        → CanSettle (D.state disk.new) files.ledger files.stage }
    // At Ok each image stands for the state with the entry, and each file read is that.
    ensures kept { OnOk result ((entries : List PlainEntry) (before after : Files) → MayCommit (D.state disk.old) files.ledger files.stage entries (entry_of entry.new) first.now one.now second.now two.now before after
        → Keeps (D.state disk.new) files.ledger files.stage (entries ++ entry_of entry.new ∷ []) after) }
    ensures shown { OnOk result ((entries : List PlainEntry) (before after : Files) → MayCommit (D.state disk.old) files.ledger files.stage entries (entry_of entry.new) first.now one.now second.now two.now before after
        → ShowsFiles (D.state disk.new) files.ledger files.stage after) }
    // Behind the gate the entry lies whole in what a read gives.
    ensures behind { IsErrOf result Stopped.FromGate → (entries : List PlainEntry) (before after : Files) → MayCommit (D.state disk.old) files.ledger files.stage entries (entry_of entry.new) first.now one.now second.now two.now before after
        → LiesIn (D.state disk.new) files.ledger (entries ++ entry_of entry.new ∷ []) (entry_of entry.new) }
    // It is refused for the disk only where that counted a fault, and for want of memory only where it counted none.
    ensures later { D.faults disk.old ≤ D.faults disk.new }
    ensures counts { OnOk result (D.faults disk.new ≡ D.faults disk.old) }
    ensures wants { IsErrOf result Stopped.Memory → D.faults disk.new ≡ D.faults disk.old }
    ensures cause_before { IsErrOf result Stopped.BeforeGate → CanSettle (D.state disk.old) files.ledger files.stage → Rose (D.faults disk.old) (D.faults disk.new) }
    ensures cause_behind { IsErrOf result Stopped.FromGate → Rose (D.faults disk.old) (D.faults disk.new) }
    // Unless it is refused before the gate, all that a read gave fits; and there for a cause: the disk counted a fault, or what a read gave breaks.
    ensures fits { (IsErrOf result Stopped.BeforeGate → ⊥) → (D.state disk.old).tells → IsApart files.ledger files.stage ((D.state disk.old).seen) → FitsWhole files.ledger files.stage ((D.state disk.old).seen) }
    ensures breaks { IsErrOf result Stopped.BeforeGate → (D.state disk.old).tells → IsApart files.ledger files.stage ((D.state disk.old).seen) → Rose (D.faults disk.old) (D.faults disk.new) ⊎ BreaksSomewhere files.ledger files.stage ((D.state disk.old).seen) }
    // No disk that keeps what was written answers damage behind the gate.
    ensures no_damage { IsErrOf result Stopped.Damaged → (entries : List PlainEntry) (before after : Files) → MayCommit (D.state disk.old) files.ledger files.stage entries (entry_of entry.new) first.now one.now second.now two.now before after → ⊥ }
    ensures memory { IsErrOf result Stopped.Memory → CanSettle (D.state disk.old) files.ledger files.stage → Settles (D.state disk.old) (D.state disk.new) files.ledger files.stage }
    // After a refusal before the gate each image of each moment stands for what one stood for before, whatever the entry is.
    ensures refused { IsErrOf result Stopped.BeforeGate → CanSettle (D.state disk.old) files.ledger files.stage → Settles (D.state disk.old) (D.state disk.new) files.ledger files.stage }
{
    let mut commit = Commit::new(disk, files);
    commit_texts(&mut commit, entry, first, one, second, two)
}
