// A stage: texts of outputs that wait.
ghost use Rattle.std.specs.Prelude.{◌≡◌, ◌+◌, ◌%◌, ◌^◌, ◌≤◌, ℕ, List, [], length, OnOk, OnErr, IfOk, Option, IsSomeAnd};
ghost use Rattle.lp_model.specs.Outside.{HasCause, Told, GainsSome};
ghost use Rattle.lp_outside.specs.declared.stage.Mark.{Mark};
ghost use Rattle.lp_outside.specs.Stages.{StageState, no_mark, KeepsAll, KeepsClosed, KeepsTaken};
ghost use Rattle.lp_outside.specs.Gained.{Gained, SparesOthers, SparesFronts, SparesLengths, KeepsLengths, SparesEnded, KeepsEnded};

use crate::Name;
use thiserror::Error;

/// A call of a stage failed. Nothing is said of that output's text.
#[derive(Clone, Copy, Debug, PartialEq, Eq, Error)]
#[error("a stage failed")]
pub struct StageFailed;

/// How far an output's text was staged.
#[derive(Clone, Copy, Debug, PartialEq, Eq)]
pub struct Mark {
    /// The place of its last frame, 2^64 - 1 where it has none.
    pub last: u64,
    /// How many bytes it has, modulo 2^64.
    pub length: u64,
}

impl Mark {
    /// The mark of an empty text.
    pub fn none() -> Mark
        ensures { result ≡ no_mark }
    {
        Mark {
            last: u64::MAX,
            length: 0,
        }
    }
}

/// Texts of outputs that wait to be written, or go on to an output stream at once. A caller hands in one name and one base
/// for an index; the base is the place in the output's file where its text begins.
pub trait Stage {
    /// What it holds.
    ghost state: { Self → StageState };

    /// How often it has failed.
    ghost faults: { Self → ℕ };

    /// What it lets stand from one moment to a later one, over all its calls.
    ghost goes: { Self → Self → Type 0 };

    /// The output of this name and base was ended at this mark.
    ghost ended: { Self → List ℕ → ℕ → Mark → Type 0 };

    /// The length of an output's file.
    fn held(&mut self, name: &Name) -> Result<u64, StageFailed>
        ensures goes { goes self.old self.new }
        ensures texts { (state self.old).tells → KeepsAll (state self.old) (state self.new) }
        ensures written { (state self.new).written ≡ (state self.old).written }
        ensures taken { (state self.new).taken ≡ (state self.old).taken }
        ensures length { IfOk result (λ bytes. (state self.old).is_length name.now bytes) }
        ensures lengths { KeepsLengths (state self.old) (state self.new) }
        ensures ended { KeepsEnded ended self.old self.new }
        ensures bound { IfOk result (λ bytes. bytes ≤ 2 ^ 62) }
        ensures cause { HasCause (faults self.old) (faults self.new) result };

    /// Adds bytes to an output's text, and moves the mark behind them. A piece begins at a multiple of 4,096.
    fn put(
        &mut self,
        output: u32,
        name: &Name,
        base: u64,
        mark: &mut Mark,
        bytes: &[u8],
    ) -> Result<(), StageFailed>
        requires { mark.old.length % 4096 ≡ 0 }
        ensures goes { goes self.old self.new }
        ensures gained { OnOk result (Gained output name.now base mark.old mark.new bytes.now (state self.old) (state self.new)) }
        // After a refusal the mark is where it was, and a stream has written the front of the bytes.
        ensures err { OnErr result (mark.new ≡ mark.old) }
        ensures front { OnErr result (GainsSome (state self.old).written (state self.new).written bytes.now) }
        ensures taken { OnErr result (Told (state self.old).taken (λ before. IsSomeAnd (state self.new).taken (λ now. before ≤ now))) }
        ensures others { SparesOthers output name.now (state self.old) (state self.new) }
        ensures fronts { SparesFronts base (state self.old) (state self.new) }
        ensures lengths { SparesLengths name.now (state self.old) (state self.new) }
        ensures ended { SparesEnded ended name.now self.old self.new }
        ensures cause { HasCause (faults self.old) (faults self.new) result };

    /// Ends an output. Its text stays.
    fn close(&mut self, name: &Name, base: u64, mark: &Mark) -> Result<(), StageFailed>
        ensures goes { goes self.old self.new }
        ensures kept { (state self.old).tells → KeepsClosed name.now base mark.now (state self.old) (state self.new) }
        ensures tells { OnOk result ((state self.old).tells → (state self.new).tells) }
        ensures fronts { SparesFronts base (state self.old) (state self.new) }
        ensures written { (state self.new).written ≡ (state self.old).written }
        ensures taken { (state self.new).taken ≡ (state self.old).taken }
        ensures lengths { SparesLengths name.now (state self.old) (state self.new) }
        ensures ended { SparesEnded ended name.now self.old self.new }
        ensures closed { OnOk result (ended self.new name.now base mark.now) }
        ensures cause { HasCause (faults self.old) (faults self.new) result };

    /// No call at all lets all stand.
    ghost goes_nowhere: { (stage : Self) → goes stage stage };

    /// What stands over some calls and over later ones stands over all of them.
    ghost goes_on: { (first second third : Self) → goes first second → goes second third → goes first third };

    /// It takes no byte back.
    ghost keeps_taken: { (before now : Self) → goes before now → KeepsTaken (state before) (state now) };

    /// An output without a frame has an empty text.
    ghost empty: { (stage : Self) → (state stage).tells → (output : ℕ) (name : List ℕ) (base : ℕ) → (state stage).is_text output name base no_mark [] };

    /// An output has one text at a mark.
    ghost one: { (stage : Self) → (state stage).tells → (output : ℕ) (name : List ℕ) (base : ℕ) (mark : Mark) (text other : List ℕ)
        → (state stage).is_text output name base mark text → (state stage).is_text output name base mark other → other ≡ text };
}
