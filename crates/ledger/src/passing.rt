// Passes over texts of any length without taking memory.
ghost use Rattle.std.specs.Prelude.{◌≡◌, ℕ, ◌<◌, ◌≤◌, List, length, take, IfOk, MatchBool};
ghost use Rattle.lp_model.specs.Outside.{HasCause};
ghost use Rattle.ledger.specs.Reader.{CanRead, Rests};

use crate::EntryReader;
use lp_outside::{Disk, DiskFailed, Name};
use std::str;

#[derive(Clone, Copy)]
pub enum TextKind {
    Any,
    Utf8,
}

ghost use Rattle.ledger.specs.Passing.{IsText, NoText, Passed, PassedSome};

/// The length of the longest front of a chunk that is a text.
fn text_front(kind: TextKind, chunk: &[u8]) -> usize
    ensures within { result ≤ length chunk.now }
    ensures is { IsText kind (take result chunk.now) }
    ensures longest { (k : ℕ) → result < k → k ≤ length chunk.now → IsText kind (take k chunk.now) → ⊥ }
{
    match kind {
        TextKind::Any => chunk.len(),
        TextKind::Utf8 => match str::from_utf8(chunk) {
            Ok(_) => chunk.len(),
            Err(fault) => fault.valid_up_to(),
        },
    }
}

/// Passes over some of a text of which so many bytes are left, or over none where it isn't there.
fn pass_some<D: Disk>(
    disk: &mut D,
    ledger: &Name,
    reader: &mut EntryReader,
    kind: TextKind,
    most: u64,
) -> Result<usize, DiskFailed>
    requires { 0 < most }
    ensures passes { (file : List ℕ) (to : ℕ) → CanRead (D.state disk.old) ledger.now file to reader.old → CanRead (D.state disk.new) ledger.now file to reader.new
        × IfOk result (PassedSome kind file to reader.old.at reader.new.at most) }
    ensures within { IfOk result (λ count. count ≤ most) }
    ensures rests { Rests (D.state disk.old) (D.state disk.new) }
    ensures cause { HasCause (D.faults disk.old) (D.faults disk.new) result }
{
    reader.load(disk, ledger, most.min(4) as usize)?;
    let ahead = reader.ahead();
    let room = most.min(1024) as usize;
    let chunk = &ahead[..ahead.len().min(room)];
    let count = text_front(kind, chunk);
    reader.skip(count);
    Ok(count)
}

#[tactic(auto, using(crate::proofs::Resting::rests_then))]
/// Passes over a text, and says whether it is there.
pub fn pass<D: Disk>(
    disk: &mut D,
    ledger: &Name,
    reader: &mut EntryReader,
    kind: TextKind,
    size: u64,
) -> Result<bool, DiskFailed>
    ensures passes { (file : List ℕ) (to : ℕ) → CanRead (D.state disk.old) ledger.now file to reader.old → CanRead (D.state disk.new) ledger.now file to reader.new
        × IfOk result (λ passed. MatchBool passed (Passed kind file to reader.old.at reader.new.at size) (NoText kind file to reader.old.at size)) }
    ensures rests { Rests (D.state disk.old) (D.state disk.new) }
    ensures cause { HasCause (D.faults disk.old) (D.faults disk.new) result }
{
    let mut rest = size;
    while rest > 0 {
        let count = pass_some(disk, ledger, reader, kind, rest)?;
        if count == 0 {
            return Ok(false);
        }
        rest -= count as u64;
    }
    Ok(true)
}
