// A disk: files that are read and written.
ghost use Rattle.std.specs.Prelude.{◌≡◌, ◌⊎◌, ◌<◌, ◌≤◌, ◌+◌, ◌^◌, ℕ, List, length, take, drop, IfOk, OnOk};
ghost use Rattle.lp_model.specs.Outside.{HasCause};
ghost use Rattle.disk_model.specs.Disk.{DiskState, Works, Shows, Nothing, At, Torn, Shortened, IsSynced, IsImage, Files, overwritten, start_of};

use crate::Name;
use thiserror::Error;

/// A call of a disk failed, and may have done any part of its work.
#[derive(Clone, Copy, Debug, PartialEq, Eq, Error)]
#[error("a disk failed")]
pub struct DiskFailed;

/// Files by name that are read and written, and that a crash may leave otherwise than a read gives them. An absent file
/// has no bytes. A file has at most 2^62 bytes; a longer one is a fault.
pub trait Disk {
    /// What it holds and what a crash may leave.
    ghost state: { Self → DiskState };

    /// How often it has failed.
    ghost faults: { Self → ℕ };

    /// The length of a file; an absent one has none.
    fn length(&mut self, name: &Name) -> Result<u64, DiskFailed>
        ensures crash { (state self.old).honest → Works Nothing (state self.old) (state self.new) }
        ensures shows { (state self.old).tells → Shows Nothing (state self.old) (state self.new) }
        ensures found { IfOk result (λ found. (state self.old).tells → found ≡ length ((state self.old).seen name.now)) }
        ensures bound { IfOk result (λ found. found ≤ 2 ^ 62) }
        ensures cause { HasCause (faults self.old) (faults self.new) result };

    /// Some of a file's bytes from a place on, at least one; none into a slice that isn't empty only at the file's end,
    /// and only by a disk that tells its files.
    fn read_at(&mut self, name: &Name, at: u64, into: &mut [u8]) -> Result<usize, DiskFailed>
        ensures crash { (state self.old).honest → Works Nothing (state self.old) (state self.new) }
        ensures shows { (state self.old).tells → Shows Nothing (state self.old) (state self.new) }
        ensures count { IfOk result (λ count. count ≤ length into.new) }
        ensures some { IfOk result (λ count. (0 < count) ⊎ (length into.new ≡ 0) ⊎ ((state self.old).tells × (length ((state self.old).seen name.now) ≤ at))) }
        ensures bytes { IfOk result (λ count. (state self.old).tells → take count into.new ≡ take count (drop at ((state self.old).seen name.now))) }
        ensures fits { IfOk result (λ count. (state self.old).tells → 0 < count → at + count ≤ length ((state self.old).seen name.now)) }
        ensures bound { IfOk result (λ count. 0 < count → at + count ≤ 2 ^ 62) }
        ensures cause { HasCause (faults self.old) (faults self.new) result };

    /// Writes bytes from a place on; zero bytes fill a gap before it. Until a sync, a crash may leave any bytes there.
    fn write_at(&mut self, name: &Name, at: u64, bytes: &[u8]) -> Result<(), DiskFailed>
        ensures crash { (state self.old).honest → Works (At name.now (Torn (start_of ((state self.old).seen name.now) at) (at + length bytes.now))) (state self.old) (state self.new) }
        ensures shows { (state self.old).tells → Shows (At name.now (Torn (start_of ((state self.old).seen name.now) at) (at + length bytes.now))) (state self.old) (state self.new) }
        ensures written { OnOk result ((state self.old).tells → (state self.new).seen name.now ≡ overwritten ((state self.old).seen name.now) at bytes.now) }
        ensures bound { OnOk result (at + length bytes.now ≤ 2 ^ 62) }
        ensures cause { HasCause (faults self.old) (faults self.new) result };

    /// Cuts a file that is longer, and leaves another as it is.
    fn cut(&mut self, name: &Name, to: u64) -> Result<(), DiskFailed>
        ensures crash { (state self.old).honest → Works (At name.now (Shortened to)) (state self.old) (state self.new) }
        ensures shows { (state self.old).tells → Shows (At name.now (Shortened to)) (state self.old) (state self.new) }
        ensures cut { OnOk result ((state self.old).tells → (state self.new).seen name.now ≡ take to ((state self.old).seen name.now)) }
        ensures cause { HasCause (faults self.old) (faults self.new) result };

    /// Makes a file lasting: after it a crash leaves what a read gives.
    fn sync(&mut self, name: &Name) -> Result<(), DiskFailed>
        ensures crash { (state self.old).honest → Works Nothing (state self.old) (state self.new) }
        ensures shows { (state self.old).tells → Shows Nothing (state self.old) (state self.new) }
        ensures durable { OnOk result ((state self.old).honest → IsSynced (state self.new) name.now) }
        ensures cause { HasCause (faults self.old) (faults self.new) result };

    /// An honest disk tells what a read gives.
    ghost honest_tells: { (disk : Self) → (state disk).honest → (state disk).tells };

    /// What a read gives is an image.
    ghost seen_left: { (disk : Self) → (state disk).honest → IsImage (state disk) (state disk).seen };

    /// This moment is one of those since an earlier one.
    ghost counts_now: { (disk : Self) (t : ℕ) (image : Files) → (state disk).honest → t ≤ (state disk).moment → IsImage (state disk) image → (state disk).left_since t image };

    /// Since this moment there is no other.
    ghost only_now: { (disk : Self) (image : Files) → (state disk).honest → (state disk).left_since (state disk).moment image → IsImage (state disk) image };
}
