// What the loop reads logs from.
ghost use Rattle.std.specs.Prelude.{◌≡◌, ◌⊎◌, ◌+◌, ◌<◌, ◌≤◌, ℕ, List, length, Option, IfOk, MatchResult};
ghost use Rattle.lp_model.specs.Outside.{Folder, HasCause, OnlyGrow, Told, AreBytesAt, bytes_in};

use lp_outside::{Logs, LogsFailed, Name};

/// Logs by name, of which the loop reads one piece behind the other: files, from any place on, or a stream, from where it
/// stands.
pub trait LogSource {
    /// What the logs hold, where that is told; of a stream all that it has given and will give.
    ghost folder: { Self → Option Folder };

    /// How many bytes it has given.
    ghost given: { Self → ℕ };

    /// How often it was read.
    ghost reads: { Self → ℕ };

    /// How often it has failed.
    ghost faults: { Self → ℕ };

    /// This log can be read from this place on.
    ghost ready: { Self → List ℕ → ℕ → Type 0 };

    /// What it lets stand from one moment to a later one, over all its calls.
    ghost goes: { Self → Self → Type 0 };

    /// Some of a log's bytes from a place on, at least one; none into a slice that isn't empty is the log's end.
    fn give(&mut self, name: &Name, at: u64, into: &mut [u8]) -> Result<usize, LogsFailed>
        requires { ready self.old name.now at }
        ensures goes { goes self.old self.new }
        ensures grows { OnlyGrow (folder self.old) (folder self.new) }
        ensures count { IfOk result (λ count. count ≤ length into.new) }
        ensures some { IfOk result (λ count. (0 < count) ⊎ (length into.new ≡ 0) ⊎ Told (folder self.new) (λ files. length (bytes_in files name.now) ≤ at)) }
        ensures bytes { IfOk result (λ count. AreBytesAt (folder self.new) name.now at count into.new) }
        ensures ready { IfOk result (λ count. ready self.new name.now (at + count)) }
        ensures given { MatchResult result (λ count. given self.new ≡ given self.old + count) (λ _. given self.new ≡ given self.old) }
        ensures reads { reads self.new ≤ reads self.old + 1 }
        ensures cause { HasCause (faults self.old) (faults self.new) result };

    /// No call at all lets all stand.
    ghost goes_nowhere: { (logs : Self) → goes logs logs };

    /// What stands over some calls and over later ones stands over all of them.
    ghost goes_on: { (first second third : Self) → goes first second → goes second third → goes first third };
}

/// Files can be read from any place on.
impl<L: Logs> LogSource for L {
    ghost use Rattle.std.specs.Bool.{⊤};
    ghost use Rattle.lp_model.specs.Outside.{OnlyGrow};
    ghost use Rattle.lp_model.proofs.Growing.{OnlyGrow-refl, OnlyGrow-trans};

    ghost folder = { L.folder };

    ghost given = { L.given };

    ghost reads = { L.reads };

    ghost faults = { L.faults };

    ghost ready = { λ logs name place. ⊤ };

    ghost goes = { λ before now. OnlyGrow (L.folder before) (L.folder now) };

    fn give(&mut self, name: &Name, at: u64, into: &mut [u8]) -> Result<usize, LogsFailed> {
        self.read_at(name, at, into)
    }

    ghost goes_nowhere = { λ logs. OnlyGrow-refl (L.folder logs) };

    ghost goes_on = { λ first second third one two. OnlyGrow-trans (L.folder first) (L.folder second) (L.folder third) one two };
}
