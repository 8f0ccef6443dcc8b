// A commit as a stage.
ghost use Rattle.std.specs.Prelude.{◌≡◌, ◌%◌, ◌<◌, ◌≤◌, ◌≢◌, [], OnOk, OnErr, IsSomeAnd, refl};
ghost use Rattle.lp_model.specs.Outside.{HasCause, Told, GainsSome};
ghost use Rattle.lp_outside.specs.Gained.{Gained, SparesOthers, SparesFronts, SparesLengths, SparesEnded};
ghost use Rattle.commit.specs.StagedTexts.{one_read};

use crate::{Commit, put};
use lp_outside::{Disk, Mark, Name, Stage, StageFailed};

impl<'d, D: Disk> Stage for Commit<'d, D> {
    ghost use Rattle.std.specs.Bool.{⊤};
    ghost use Rattle.commit.specs.Phases.{stage_state, staged_of, Goes};
    ghost use Rattle.commit.specs.Going.{goes_nowhere, goes_on};

    ghost state = { stage_state D.state };

    ghost faults = { λ c. D.faults c.disk.now };

    ghost goes = { Goes D.state };

    // A text in the stage needs no end.
    ghost ended = { λ commit name base mark. ⊤ };

    fn held(&mut self, name: &Name) -> Result<u64, StageFailed> {
        match self.disk.length(name) {
            Ok(bytes) => Ok(bytes),
            Err(_) => Err(StageFailed),
        }
    }

    fn put(
        &mut self,
        output: u32,
        _name: &Name,
        _base: u64,
        mark: &mut Mark,
        bytes: &[u8],
    ) -> Result<(), StageFailed>
        requires { mark.old.length % 4096 ≡ 0 }
        ensures goes { Goes D.state self.old self.new }
        ensures gained { OnOk result (Gained output _name.now _base mark.old mark.new bytes.now (stage_state D.state self.old) (stage_state D.state self.new)) }
        ensures err { OnErr result (mark.new ≡ mark.old) }
        // And so is the count of the stage's bytes.
        ensures count { OnErr result (staged_of self.new ≡ staged_of self.old) }
        ensures front { OnErr result (GainsSome (stage_state D.state self.old).written (stage_state D.state self.new).written bytes.now) }
        ensures taken { OnErr result (Told (stage_state D.state self.old).taken (λ before. IsSomeAnd (stage_state D.state self.new).taken (λ now. before ≤ now))) }
        ensures others { SparesOthers output _name.now (stage_state D.state self.old) (stage_state D.state self.new) }
        ensures fronts { SparesFronts _base (stage_state D.state self.old) (stage_state D.state self.new) }
        ensures lengths { SparesLengths _name.now (stage_state D.state self.old) (stage_state D.state self.new) }
        ensures ended { SparesEnded (λ commit name base mark. ⊤) _name.now self.old self.new }
        ensures cause { HasCause (D.faults self.old.disk.now) (D.faults self.new.disk.now) result }
    {
        match put(
            self.disk,
            &self.files.stage,
            &mut self.staged,
            output,
            mark,
            bytes,
        ) {
            Ok(()) => Ok(()),
            Err(_) => Err(StageFailed),
        }
    }

    fn close(&mut self, _name: &Name, _base: u64, _mark: &Mark) -> Result<(), StageFailed> {
        Ok(())
    }

    ghost goes_nowhere = { goes_nowhere D.state };

    ghost goes_on = { goes_on D.state };

    ghost keeps_taken = { λ before now goes. tt };

    ghost empty = { λ stage tells output name base. ([], refl, refl) };

    ghost one = { λ stage tells output name base mark text other a b. one_read _ _ _ _ _ _ a b };
}
