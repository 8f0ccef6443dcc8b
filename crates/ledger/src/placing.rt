// Looks at the outputs of a payload, whose names differ.
#![tactic(auto, using(crate::proofs::Resting::rests_then))]

ghost use Rattle.std.specs.Prelude.{◌≡◌, ℕ, ◌+◌, ◌<◌, ◌≤◌, ◌^◌, List, length, IfOk, MatchBool};
ghost use Rattle.ledger.specs.Reader.{Rests, Looks, HasReason, Holds, CanRead, Checks, IsRead};
ghost use Rattle.ledger.specs.Counted.{SomeItems};
ghost use Rattle.ledger.specs.Placing.{name_hash, HasHashes, Compares, ComparesSeen, TakesPlace};
ghost use Rattle.ledger_model.specs.Grammar.{outputs_layout, output_layout, ending_layout};
ghost use Rattle.ledger_model.specs.Entries.{Output};
ghost use Rattle.ledger_model.specs.Layouts.{listed};

use crate::checking::check_counts;
use crate::refused::damaged;
use crate::{EntryReader, LedgerRefused};
use lp_outside::{Disk, Mark, Name};

const LIMIT: u64 = 1 << 63;

/// The most outputs that an entry has.
const MOST: usize = 10_000;

/// As many as most entries have at most: for these no more room is made ready.
const FEW: usize = 64;

const FACTOR: u64 = 1_099_511_628_211;

/// A number that two names share only by rare chance, if they differ.
fn hash_of(name: &Name) -> u64
    ensures { result ≡ name_hash name.now }
{
    let bytes = name.as_str().as_bytes();
    let mut hash: u64 = 0;
    for byte in bytes {
        hash = hash.wrapping_mul(FACTOR).wrapping_add(u64::from(*byte));
    }
    hash
}

/// Whether a text that begins at a place of a file ends at 2^63 or behind it.
fn ends_high(base: u64, size: u64) -> bool
    ensures { MatchBool result (2 ^ 63 ≤ base + size) (base + size < 2 ^ 63) }
{
    base >= LIMIT || size >= LIMIT - base
}

/// The place where an output's text begins, and the mark behind it.
pub(crate) fn take_place<D: Disk>(
    disk: &mut D,
    ledger: &Name,
    reader: &mut EntryReader,
) -> Result<(u64, Mark), LedgerRefused>
    ensures takes { (file : List ℕ) (to : ℕ) → CanRead (D.state disk.old) ledger.now file to reader.old → CanRead (D.state disk.new) ledger.now file to reader.new
        × TakesPlace file to reader.old.at reader.new.at result }
    ensures low { IfOk result (λ place. place.0 + place.1.length < 2 ^ 63) }
    ensures rests { Rests (D.state disk.old) (D.state disk.new) }
    ensures reason { HasReason (D.faults disk.old) (D.faults disk.new) result }
{
    let base = reader.number(disk, ledger)?;
    let place = reader.place();
    let length = reader.number(disk, ledger)?;
    if ends_high(base, length) {
        return Err(damaged(place));
    }
    let last = reader.number(disk, ledger)?;
    Ok((base, Mark { last, length }))
}

/// Whether a name is that of one of the outputs that stand at a place.
fn is_taken<D: Disk>(
    disk: &mut D,
    ledger: &Name,
    first: u64,
    to: u64,
    count: u64,
    name: &Name,
) -> Result<bool, LedgerRefused>
    ensures compares { (file : List ℕ) → Holds (D.state disk.old) ledger.now file → Compares file to first count name.now result }
    ensures rests { Rests (D.state disk.old) (D.state disk.new) }
    ensures reason { HasReason (D.faults disk.old) (D.faults disk.new) result }
{
    let mut reader = EntryReader::new(first, to);
    for _index in 0..count {
        let other = reader.take_name(disk, ledger)?;
        take_place(disk, ledger, &mut reader)?;
        if other.is(name) {
            return Ok(true);
        }
    }
    Ok(false)
}

/// Whether a name of this hash is that of one of the outputs that stand at a place, whose names have these hashes. They are
/// read again only where one of them has the same.
fn is_known<D: Disk>(
    disk: &mut D,
    ledger: &Name,
    first: u64,
    to: u64,
    count: u64,
    name: &Name,
    hash: u64,
    seen: &[u64],
) -> Result<bool, LedgerRefused>
    requires { hash ≡ name_hash name.now }
    ensures compares { (file : List ℕ) → Holds (D.state disk.old) ledger.now file → ComparesSeen seen.now file to first count name.now result }
    ensures rests { Rests (D.state disk.old) (D.state disk.new) }
    ensures reason { HasReason (D.faults disk.old) (D.faults disk.new) result }
{
    if !seen.contains(&hash) {
        return Ok(false);
    }
    is_taken(disk, ledger, first, to, count, name)
}

/// An output behind others, of which the first stands at a place and whose names have these hashes; gives its name's hash.
fn output<D: Disk>(
    disk: &mut D,
    ledger: &Name,
    reader: &mut EntryReader,
    first: u64,
    count: u64,
    seen: &[u64],
) -> Result<u64, LedgerRefused>
    ensures looks { (file : List ℕ) (to : ℕ) → CanRead (D.state disk.old) ledger.now file to reader.old → CanRead (D.state disk.new) ledger.now file to reader.new
        × ((some : SomeItems output_layout file to first reader.old.at count) → HasHashes seen.now some.items → Checks (output_layout some.items) file to reader.old.at reader.new.at result) }
    ensures hash { IfOk result (λ hash. (file : List ℕ) (to : ℕ) → CanRead (D.state disk.old) ledger.now file to reader.old → (before : List Output) (output : Output) → IsRead (output_layout before) file to reader.old.at reader.new.at output → hash ≡ name_hash output.name) }
    ensures rests { Rests (D.state disk.old) (D.state disk.new) }
    ensures reason { HasReason (D.faults disk.old) (D.faults disk.new) result }
{
    let start = reader.place();
    let name = reader.take_name(disk, ledger)?;
    let hash = hash_of(&name);
    let taken = is_known(disk, ledger, first, reader.end(), count, &name, hash, seen)?;
    if taken {
        return Err(damaged(start));
    }
    take_place(disk, ledger, reader)?;
    Ok(hash)
}

/// So many outputs, with room for the hashes of their names.
fn each_output<D: Disk>(
    disk: &mut D,
    ledger: &Name,
    reader: &mut EntryReader,
    count: u64,
    seen: &mut [u64],
) -> Result<(), LedgerRefused>
    requires { count ≤ length seen.old }
    ensures looks { Looks (listed output_layout count) (D.state disk.old) (D.state disk.new) ledger.now reader.old reader.new result }
    ensures rests { Rests (D.state disk.old) (D.state disk.new) }
    ensures reason { HasReason (D.faults disk.old) (D.faults disk.new) result }
{
    let first = reader.place();
    for index in 0..count {
        let place = index as usize;
        let hash = output(disk, ledger, reader, first, index, &seen[..place])?;
        seen[place] = hash;
    }
    Ok(())
}

fn output_items<D: Disk>(
    disk: &mut D,
    ledger: &Name,
    reader: &mut EntryReader,
    count: u64,
) -> Result<(), LedgerRefused>
    requires { count ≤ 10_000 }
    ensures looks { Looks (listed output_layout count) (D.state disk.old) (D.state disk.new) ledger.now reader.old reader.new result }
    ensures rests { Rests (D.state disk.old) (D.state disk.new) }
    ensures reason { HasReason (D.faults disk.old) (D.faults disk.new) result }
{
    if count <= 64 {
        return each_output(disk, ledger, reader, count, &mut [0; FEW]);
    }
    each_output(disk, ledger, reader, count, &mut [0; MOST])
}

fn outputs<D: Disk>(
    disk: &mut D,
    ledger: &Name,
    reader: &mut EntryReader,
) -> Result<(), LedgerRefused>
    ensures looks { Looks outputs_layout (D.state disk.old) (D.state disk.new) ledger.now reader.old reader.new result }
    ensures rests { Rests (D.state disk.old) (D.state disk.new) }
    ensures reason { HasReason (D.faults disk.old) (D.faults disk.new) result }
{
    let place = reader.place();
    let count = reader.word(disk, ledger)?;
    if count > 10_000 {
        return Err(damaged(place));
    }
    output_items(disk, ledger, reader, u64::from(count))
}

/// The stage's length, the outputs and the counts.
pub fn check_ending<D: Disk>(
    disk: &mut D,
    ledger: &Name,
    reader: &mut EntryReader,
) -> Result<(), LedgerRefused>
    ensures looks { Looks ending_layout (D.state disk.old) (D.state disk.new) ledger.now reader.old reader.new result }
    ensures rests { Rests (D.state disk.old) (D.state disk.new) }
    ensures reason { HasReason (D.faults disk.old) (D.faults disk.new) result }
{
    reader.number(disk, ledger)?;
    outputs(disk, ledger, reader)?;
    check_counts(disk, ledger, reader)
}
