// A whole text to a file.
ghost use Rattle.std.specs.Prelude.{◌≡◌, ◌++◌, ◌≤◌, length, take, OnOk, IfOk};
ghost use Rattle.lp_model.specs.Outside.{HasCause};
ghost use Rattle.disk_model.specs.Disk.{Shows, At};
ghost use Rattle.disk_changes.specs.Changes.{KeepsFront};
ghost use Rattle.file_stage.specs.FileTexts.{disk_of, Goes};

use crate::FileStage;
use lp_outside::{Disk, Mark, Name, Stage, StageFailed};

/// Writes a text into a file from a base on, and ends the file behind it.
pub fn write_file<D: Disk>(
    stage: &mut FileStage<D>,
    output: u32,
    name: &Name,
    base: u64,
    text: &[u8],
) -> Result<Mark, StageFailed>
    ensures goes { Goes D.state stage.old stage.new }
    // The file is its first bytes, up to the base, and then the text.
    ensures file { OnOk result ((disk_of D.state stage.old).tells → base ≤ length ((disk_of D.state stage.old).seen name.now)
        → (disk_of D.state stage.new).seen name.now ≡ take base ((disk_of D.state stage.old).seen name.now) ++ text.now) }
    ensures length { IfOk result (λ mark. mark.length ≡ length text.now) }
    // No other file changes, and no byte before the base, at a refusal too.
    ensures changes { (disk_of D.state stage.old).tells → Shows (At name.now (KeepsFront base)) (disk_of D.state stage.old) (disk_of D.state stage.new) }
    ensures cause { HasCause (D.faults stage.old.disk.now) (D.faults stage.new.disk.now) result }
{
    let mut mark = Mark::none();
    stage.put(output, name, base, &mut mark, text)?;
    stage.close(name, base, &mark)?;
    Ok(mark)
}
