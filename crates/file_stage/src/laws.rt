// What files hold behind the calls of a stage: no calls, laws alone.
ghost use Rattle.std.specs.Prelude.{◌≡◌, ◌≢◌, ◌++◌, ◌≤◌, ℕ, List, length, take};
ghost use Rattle.lp_outside.specs.declared.stage.Mark.{Mark};
ghost use Rattle.lp_outside.specs.Gained.{HasText, SparesOthers, SparesFronts, SparesLengths};
ghost use Rattle.file_stage.specs.FileTexts.{disk_of, file_state, AlwaysTells, EndsBy};

use crate::FileStage;
use lp_outside::Disk;

/// From what any caller of a stage knows: a file whose bytes before a base were spared, which has a text from the base on and
/// is ended behind it, is these bytes and the text; and a file that was spared whole is as it was.
pub fn files_hold_texts<D: Disk>(before: &FileStage<D>, now: &FileStage<D>)
    ensures written { AlwaysTells D.state → (output : ℕ) (name : List ℕ) (base : ℕ) (mark : Mark) (text : List ℕ) → base ≤ length ((disk_of D.state before.now).seen name)
        → SparesFronts base (file_state D.state before.now) (file_state D.state now.now) → HasText output name base mark text (file_state D.state now.now) → EndsBy D.state now.now name base mark
        → (disk_of D.state now.now).seen name ≡ take base ((disk_of D.state before.now).seen name) ++ text }
    ensures spared { AlwaysTells D.state → (output : ℕ) (called name : List ℕ) → name ≢ called
        → SparesOthers output called (file_state D.state before.now) (file_state D.state now.now) → SparesLengths called (file_state D.state before.now) (file_state D.state now.now)
        → (disk_of D.state now.now).seen name ≡ (disk_of D.state before.now).seen name }
{
    let _before = before;
    let _now = now;
}
