//! Worlds of logs, a ledger and its outputs: what may happen in them, and what holds in each that is reached. The functions do no work: their contracts are the laws.
#![tactic(auto)]

ghost use Rattle.std.specs.Prelude.{◌≡◌, ◌+◌, max, ℕ, List, Some, None};
ghost use Rattle.disk_model.specs.Disk.{Files, DiskState, IsImage};
ghost use Rattle.disk_model.specs.Rules.{KeepsRules};
ghost use Rattle.ledger_model.specs.Entries.{Entry};
ghost use Rattle.run_model.specs.Logs.{numbers, Logs};
ghost use Rattle.run_model.specs.Meanings.{Meaning, Asked};
ghost use Rattle.run_model.specs.Right.{IsSettled};
ghost use Rattle.run_model.specs.Kept.{HasSpan, spans_of};
ghost use Rattle.run_model.specs.Steps.{Setting, Grown, IsOfCall, MayRun, Ending};
ghost use Rattle.run_model.specs.Listed.{Listed, ListsStem};
ghost use Rattle.recovery_model.specs.Recovered.{Recovers, Recoverable};
ghost use Rattle.run_model.specs.Meanings.{IsOne};
ghost use Rattle.worlds.specs.Worlds.{World};
ghost use Rattle.worlds.specs.LogEvents.{Sets, Appends, Appears, Rotates, Removes, ChangesOthers};
ghost use Rattle.worlds.specs.Events.{Event, Runs, StopsIn, Stops, IsReached};
ghost use Rattle.worlds.specs.Good.{IsGood};
ghost use Rattle.worlds.specs.Headline.{StandsFor};

/// A disk, as far as its state is known.
pub trait Disk {
    /// What it holds and what a crash may leave.
    ghost state: { Self → DiskState };

    /// When its state was looked at.
    fn look(&self);

    /// It keeps the rules of a disk while it is honest.
    ghost rules: { (disk : Self) → KeepsRules (state disk) };
}

/// What queries mean.
pub trait Query {
    ghost meaning: { Meaning };

    /// Nothing is done.
    fn rest(&self);
}

/// A settled state stays settled where logs grow and new ones come, and where a log goes that no entry has a span of.
pub fn growth_keeps_a_state_settled<M: Query>()
    ensures grown { (old new : Logs) (start : Files) (entries : List Entry) (files : Files) → Grown old.written new.written → IsSettled M.meaning old.written start entries files → IsSettled M.meaning new.written start entries files }
    ensures less { (identity : List ℕ) (old new : Logs) (start : Files) (entries : List Entry) (files : Files) → Sets identity None old.written new.written → (HasSpan identity (spans_of entries) → ⊥) → IsSettled M.meaning old.written start entries files → IsSettled M.meaning new.written start entries files }
{}

/// Bytes appended to a log keep what is known of a world.
pub fn append_keeps<D: Disk, M: Query>()
    ensures { (setting : Setting) (name bytes : List ℕ) (old new : Logs) (disk : D) → IsGood M.meaning setting old (D.state disk) → Appends setting.rotation setting.parting name bytes old new → IsGood M.meaning setting new (D.state disk) }
{}

/// A log that appears keeps it.
pub fn appear_keeps<D: Disk, M: Query>()
    ensures { (setting : Setting) (name : List ℕ) (old new : Logs) (disk : D) → IsGood M.meaning setting old (D.state disk) → Appears setting.rotation setting.parting name old new → IsGood M.meaning setting new (D.state disk) }
{}

/// A rotation keeps it.
pub fn rotate_keeps<D: Disk, M: Query>()
    ensures { (setting : Setting) (stem : List ℕ) (old new : Logs) (disk : D) → IsGood M.meaning setting old (D.state disk) → Rotates setting.rotation stem old new → IsGood M.meaning setting new (D.state disk) }
{}

/// A removal keeps it.
pub fn remove_keeps<D: Disk, M: Query>()
    ensures { (setting : Setting) (name : List ℕ) (old new : Logs) (disk : D) → IsGood M.meaning setting old (D.state disk) → Removes setting name old new (D.state disk) → IsGood M.meaning setting new (D.state disk) }
{}

/// A change of files that aren't logs keeps it.
pub fn change_keeps<D: Disk, M: Query>()
    ensures { (setting : Setting) (old new : Logs) (disk : D) → IsGood M.meaning setting old (D.state disk) → ChangesOthers setting.parting old new → IsGood M.meaning setting new (D.state disk) }
{}

/// A run keeps it, and each image of each moment of the run stands for a settled state.
pub fn run_keeps<D: Disk, M: Query>()
    ensures kept { (setting : Setting) (asked : Asked) (ending : Ending) (before after : Logs) (old new : D) → IsGood M.meaning setting before (D.state old) → Runs M.meaning setting asked ending before after (D.state old) (D.state new) → IsGood M.meaning setting after (D.state new) }
    ensures any_moment { (setting : Setting) (asked : Asked) (ending : Ending) (before after : Logs) (old new : D) (image : Files) → IsGood M.meaning setting before (D.state old) → Runs M.meaning setting asked ending before after (D.state old) (D.state new)
        → IsOfCall (D.state old) (D.state new) image → StandsFor M.meaning setting after image }
{}

/// A stop keeps it, within a run or between two.
pub fn stop_keeps<D: Disk, M: Query>()
    ensures within { (setting : Setting) (asked : Asked) (ending : Ending) (before after : Logs) (old new : D) → IsGood M.meaning setting before (D.state old) → StopsIn D.state M.meaning setting asked ending before after old new → IsGood M.meaning setting after (D.state new) }
    ensures between { (setting : Setting) (logs : Logs) (old new : D) → IsGood M.meaning setting logs (D.state old) → Stops (D.state old) (D.state new) → IsGood M.meaning setting logs (D.state new) }
{}

/// The headline: after any list of appends, new logs, rotations, removals, changes of other files, runs and stops, each image of the disk, and what a read gives, recovers to a state in which each complete line of each log lies in exactly one span of one entry or is unread, in a file that is there; and each file holds, entry after entry, the texts of those that have it as an output.
pub fn each_line_once<D: Disk, M: Query>()
    ensures images { (setting : Setting) (events : List Event) (world : World D) (image : Files) → IsReached D.state M.meaning setting events world → IsImage (D.state world.disk) image → StandsFor M.meaning setting world.logs image }
    ensures seen { (setting : Setting) (events : List Event) (world : World D) → IsReached D.state M.meaning setting events world → StandsFor M.meaning setting world.logs (D.state world.disk).seen }
{}

/// A disk on which a run may rest can be settled, where the meaning of a query is one: images with the same entries stand for the same files.
pub fn worlds_can_be_settled<D: Disk, M: Query>()
    ensures { (setting : Setting) (asked : Asked) (logs : Logs) (disk : D) → IsOne M.meaning → MayRun M.meaning setting asked logs (D.state disk) → Recoverable (D.state disk) setting.ledger setting.stage }
{}

/// A run under numbers takes a stem's file for the generation that it is: one behind its rotations.
pub fn a_stem_is_listed_as_its_generation<D: Disk, M: Query>()
    ensures { (setting : Setting) (asked : Asked) (logs : Logs) (disk : D) (entries : List Entry) (files : Files) (stem : List ℕ) (count : ℕ) (listed : List Listed) → setting.rotation ≡ numbers → MayRun M.meaning setting asked logs (D.state disk)
        → Recovers setting.ledger setting.stage entries files (D.state disk).seen → IsSettled M.meaning logs.written setting.start entries files → logs.rotations stem ≡ Some count → (l : ListsStem logs.folder entries stem listed) → max (l.newest + 1) l.first ≡ count + 1 }
{}
