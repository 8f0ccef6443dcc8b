// Files of a disk as a stage.
ghost use Rattle.std.specs.Prelude.{◌≡◌, ◌≤◌, ◌+◌, ◌%◌, ◌^◌, ℕ, List, take, length, OnOk, OnErr, IfOk, IsSomeAnd};
ghost use Rattle.disk_model.specs.Disk.{Shows, At, Nothing, Shortened};
ghost use Rattle.disk_changes.specs.Changes.{KeepsFront};
ghost use Rattle.lp_model.specs.Outside.{HasCause, Told, GainsSome};
ghost use Rattle.lp_outside.specs.declared.stage.Mark.{Mark};
ghost use Rattle.lp_outside.specs.Stages.{KeepsAll, KeepsClosed};
ghost use Rattle.lp_outside.specs.Gained.{Gained, SparesOthers, SparesFronts, SparesLengths, KeepsLengths, SparesEnded, KeepsEnded};

use lp_outside::{Disk, DiskFailed, Mark, Name, Stage, StageFailed};

/// A disk whose files are written at once. It holds the only reference to the disk.
pub struct FileStage<'d, D> {
    pub(crate) disk: &'d mut D,
}

impl<'d, D> Drop for FileStage<'d, D> {
    fn drop(self)
        ensures { self.exit.0.now ≡ self.entry.disk.now }
    {
        let FileStage { disk: _ } = self;
    }
}

impl<'d, D: Disk> FileStage<'d, D> {
    pub fn new(disk: &'d mut D) -> Self
        ensures same_reference { result.disk.ghost_name ≡ disk.entry.ghost_name }
        ensures same { result.disk.now ≡ disk.entry.now }
    {
        FileStage { disk }
    }
}

/// A text stands in its output's file, and a call for an output changes no other file, and no byte before its base.
impl<'d, D: Disk> Stage for FileStage<'d, D> {
    ghost use Rattle.file_stage.specs.FileTexts.{disk_of, file_state, EndsBy, Goes, goes_nowhere, goes_on, one_text, no_text};

    ghost state = { file_state D.state };

    ghost faults = { λ stage. D.faults stage.disk.now };

    ghost goes = { Goes D.state };

    ghost ended = { EndsBy D.state };

    fn held(&mut self, name: &Name) -> Result<u64, StageFailed>
        ensures goes { Goes D.state self.old self.new }
        ensures texts { (file_state D.state self.old).tells → KeepsAll (file_state D.state self.old) (file_state D.state self.new) }
        ensures length { IfOk result (λ bytes. (file_state D.state self.old).is_length name.now bytes) }
        ensures lengths { KeepsLengths (file_state D.state self.old) (file_state D.state self.new) }
        ensures ended { KeepsEnded (EndsBy D.state) self.old self.new }
        ensures bound { IfOk result (λ bytes. bytes ≤ 2 ^ 62) }
        ensures cause { HasCause (D.faults self.old.disk.now) (D.faults self.new.disk.now) result }
        // No file changes.
        ensures changes { (disk_of D.state self.old).tells → Shows Nothing (disk_of D.state self.old) (disk_of D.state self.new) }
    {
        match self.disk.length(name) {
            Ok(bytes) => Ok(bytes),
            Err(_) => Err(StageFailed),
        }
    }

    fn put(
        &mut self,
        output: u32,
        name: &Name,
        base: u64,
        mark: &mut Mark,
        bytes: &[u8],
    ) -> Result<(), StageFailed>
        ensures goes { Goes D.state self.old self.new }
        ensures gained { OnOk result (Gained output name.now base mark.old mark.new bytes.now (file_state D.state self.old) (file_state D.state self.new)) }
        ensures err { OnErr result (mark.new ≡ mark.old) }
        ensures front { OnErr result (GainsSome (file_state D.state self.old).written (file_state D.state self.new).written bytes.now) }
        ensures taken { OnErr result (Told (file_state D.state self.old).taken (λ before. IsSomeAnd (file_state D.state self.new).taken (λ now. before ≤ now))) }
        ensures others { SparesOthers output name.now (file_state D.state self.old) (file_state D.state self.new) }
        ensures fronts { SparesFronts base (file_state D.state self.old) (file_state D.state self.new) }
        ensures lengths { SparesLengths name.now (file_state D.state self.old) (file_state D.state self.new) }
        ensures ended { SparesEnded (EndsBy D.state) name.now self.old self.new }
        ensures cause { HasCause (D.faults self.old.disk.now) (D.faults self.new.disk.now) result }
        // No other file changes, and no byte before the base, at a refusal too.
        ensures changes { (disk_of D.state self.old).tells → Shows (At name.now (KeepsFront base)) (disk_of D.state self.old) (disk_of D.state self.new) }
    {
        // A sum past the end of its type is a place that the disk refuses.
        let place = base.saturating_add(mark.length);
        match self.disk.write_at(name, place, bytes) {
            Ok(()) => {
                mark.length = mark.length.wrapping_add(bytes.len() as u64);
                Ok(())
            }
            Err(_) => Err(StageFailed),
        }
    }

    fn close(&mut self, name: &Name, base: u64, mark: &Mark) -> Result<(), StageFailed>
        ensures goes { Goes D.state self.old self.new }
        ensures kept { (file_state D.state self.old).tells → KeepsClosed name.now base mark.now (file_state D.state self.old) (file_state D.state self.new) }
        ensures tells { OnOk result ((file_state D.state self.old).tells → (file_state D.state self.new).tells) }
        ensures fronts { SparesFronts base (file_state D.state self.old) (file_state D.state self.new) }
        ensures lengths { SparesLengths name.now (file_state D.state self.old) (file_state D.state self.new) }
        ensures ended { SparesEnded (EndsBy D.state) name.now self.old self.new }
        ensures closed { OnOk result (EndsBy D.state self.new name.now base mark.now) }
        ensures cut { OnOk result ((disk_of D.state self.old).tells → length ((disk_of D.state self.new).seen name.now) ≤ base + mark.now.length) }
        ensures cause { HasCause (D.faults self.old.disk.now) (D.faults self.new.disk.now) result }
        // No other file changes, and no byte before the base, at a refusal too.
        ensures changes { (disk_of D.state self.old).tells → Shows (At name.now (KeepsFront base)) (disk_of D.state self.old) (disk_of D.state self.new) }
    {
        match cut_behind(self.disk, name, base, mark) {
            Ok(()) => Ok(()),
            Err(_) => Err(StageFailed),
        }
    }

    ghost goes_nowhere = { goes_nowhere D.state };

    ghost goes_on = { goes_on D.state };

    ghost keeps_taken = { λ before now goes. tt };

    ghost empty = { λ stage tells output name base. no_text ((disk_of D.state stage).seen name) base };

    ghost one = { λ stage tells output name base mark text other a b. one_text ((disk_of D.state stage).seen name) base mark.length text other a b };
}

// Cuts a file where a text ends. No file reaches a place past the end of its type; only its length has to be asked for then.
fn cut_behind<D: Disk>(disk: &mut D, name: &Name, base: u64, mark: &Mark) -> Result<(), DiskFailed>
    ensures shows { (D.state disk.old).tells → Shows (At name.now (Shortened (base + mark.now.length))) (D.state disk.old) (D.state disk.new) }
    ensures honest { (D.state disk.old).honest → (D.state disk.new).honest }
    ensures ends { OnOk result ((D.state disk.old).tells → length ((D.state disk.new).seen name.now) ≤ base + mark.now.length) }
    ensures cause { HasCause (D.faults disk.old) (D.faults disk.new) result }
{
    match base.checked_add(mark.length) {
        Some(end) => disk.cut(name, end),
        None => {
            disk.length(name)?;
            Ok(())
        }
    }
}
