// Walks over the pairs of a ledger.
#![tactic(auto, using(crate::proofs::Resting::rests_then))]

ghost use Rattle.std.specs.Prelude.{◌≡◌, ℕ, ◌+◌, ◌<◌, ◌≤◌, ◌^◌, List, length, take, drop, IfOk, IfSome, MatchResult};
ghost use Rattle.ledger_model.specs.Ledgers.{mark};
ghost use Rattle.ledger.specs.Reader.{Rests, HasReason, CanRead, Holds, left_of};
ghost use Rattle.ledger.specs.Walking.{IsPayload, RefusedPayload, WalksBody, FindsPair, RefusedPair, IsEnd, RefusedLedger};

use crate::checking::{check_kept, check_texts};
use crate::heading::check_head;
use crate::placing::check_ending;
use crate::refused::{damaged, moved};
use crate::{EntryReader, LedgerRefused};
use lp_outside::{Disk, Name};

/// The bytes in front of a ledger.
const MARK: [u8; 16] = *b"LPCHECKPOINT0001";

/// The gate byte of an entry that is kept.
const OPEN: u8 = 0xA5;

/// The done byte of an entry whose outputs are written.
const DONE: u8 = 0x5A;

/// The last entry of a ledger, by places in bytes.
#[derive(Clone, Copy, Debug, PartialEq, Eq)]
pub struct LastEntry {
    pub pair: u64,
    pub payload: u64,
    pub length: u64,
    /// Whether its done byte is set.
    pub done: bool,
}

/// Where a ledger ends.
#[derive(Clone, Copy, Debug, PartialEq, Eq)]
pub struct End {
    /// The number of open pairs.
    pub entries: u64,
    pub last: Option<LastEntry>,
    /// The place of the closed pair.
    pub pair: u64,
}

/// Looks at a whole payload.
fn check_payload<D: Disk>(
    disk: &mut D,
    ledger: &Name,
    reader: &mut EntryReader,
) -> Result<(), LedgerRefused>
    ensures looks { (file : List ℕ) (to : ℕ) → CanRead (D.state disk.old) ledger.now file to reader.old → to ≤ length file
        → MatchResult result (λ _. IsPayload (left_of file to reader.old.at)) (RefusedPayload (left_of file to reader.old.at) reader.old.at) }
    ensures rests { Rests (D.state disk.old) (D.state disk.new) }
    ensures reason { HasReason (D.faults disk.old) (D.faults disk.new) result }
{
    check_head(disk, ledger, reader)?;
    check_texts(disk, ledger, reader)?;
    check_kept(disk, ledger, reader)?;
    check_ending(disk, ledger, reader)?;
    if reader.place() < reader.end() {
        return Err(damaged(reader.place()));
    }
    Ok(())
}

/// Looks at a body: its length, its payload and the pair behind it.
fn walk_body<D: Disk>(
    disk: &mut D,
    ledger: &Name,
    body: u64,
    size: u64,
) -> Result<u64, LedgerRefused>
    requires low { size ≤ 2 ^ 62 }
    requires within { body ≤ size }
    ensures walks { (file : List ℕ) → Holds (D.state disk.old) ledger.now file → size ≡ length file → WalksBody (drop body file) body result }
    ensures low { IfOk result (λ length. body + 10 + length ≤ size) }
    ensures rests { Rests (D.state disk.old) (D.state disk.new) }
    ensures reason { HasReason (D.faults disk.old) (D.faults disk.new) result }
{
    let mut bytes = [0; 8];
    let mut front = EntryReader::new(body, size);
    match front.take(disk, ledger, &mut bytes) {
        Ok(()) => {}
        Err(refused) => return Err(moved(refused, body)),
    }
    let length = u64::from_le_bytes(bytes);
    let left = size - body;
    if left < 10 {
        return Err(damaged(body));
    }
    if left - 10 < length {
        return Err(damaged(body));
    }
    let payload = body + 8;
    let mut reader = EntryReader::new(payload, payload + length);
    check_payload(disk, ledger, &mut reader)?;
    Ok(length)
}

/// Looks at the pair at a place of a ledger of so many bytes: there is none where its gate is closed.
fn walk_pair<D: Disk>(
    disk: &mut D,
    ledger: &Name,
    place: u64,
    size: u64,
) -> Result<Option<LastEntry>, LedgerRefused>
    requires low { size ≤ 2 ^ 62 }
    requires within { place + 2 ≤ size }
    ensures walks { (file : List ℕ) → Holds (D.state disk.old) ledger.now file → size ≡ length file → MatchResult result (FindsPair (drop place file) place) (RefusedPair (drop place file) place) }
    ensures low { IfOk result (λ found. IfSome found (λ last. (last.pair ≡ place) × (last.payload ≡ place + 10) × (place + 12 + last.length ≤ size))) }
    ensures rests { Rests (D.state disk.old) (D.state disk.new) }
    ensures reason { HasReason (D.faults disk.old) (D.faults disk.new) result }
{
    let mut bytes = [0; 2];
    let mut reader = EntryReader::new(place, size);
    reader.take(disk, ledger, &mut bytes)?;
    if bytes[0] != OPEN {
        return Ok(None);
    }
    let length = walk_body(disk, ledger, place + 2, size)?;
    Ok(Some(LastEntry {
        pair: place,
        payload: place + 10,
        length,
        done: bytes[1] == DONE,
    }))
}

/// Walks over the pairs behind the mark of a ledger of so many bytes.
fn walk_pairs<D: Disk>(disk: &mut D, ledger: &Name, size: u64) -> Result<End, LedgerRefused>
    requires low { size ≤ 2 ^ 62 }
    requires some { 18 < size }
    ensures walks { (file : List ℕ) → Holds (D.state disk.old) ledger.now file → size ≡ length file → take 16 file ≡ mark → MatchResult result (IsEnd file) (RefusedLedger file) }
    ensures low { IfOk result (λ end. end.pair + 2 ≤ size) }
    ensures last { IfOk result (λ end. IfSome end.last (λ last. last.pair + 10 + last.length ≤ end.pair)) }
    ensures rests { Rests (D.state disk.old) (D.state disk.new) }
    ensures reason { HasReason (D.faults disk.old) (D.faults disk.new) result }
{
    let mut end = End {
        entries: 0,
        last: None,
        pair: 16,
    };
    'pairs: while let Some(found) = walk_pair(disk, ledger, end.pair, size)? {
        end = End {
            entries: end.entries + 1,
            last: Some(found),
            pair: found.payload + found.length,
        };
    }
    Ok(end)
}

/// Looks at the mark in front of a ledger of so many bytes.
fn check_mark<D: Disk>(disk: &mut D, ledger: &Name, size: u64) -> Result<(), LedgerRefused>
    requires { 18 < size }
    ensures looks { (file : List ℕ) → Holds (D.state disk.old) ledger.now file → size ≡ length file → MatchResult result (λ _. take 16 file ≡ mark) (RefusedLedger file) }
    ensures rests { Rests (D.state disk.old) (D.state disk.new) }
    ensures reason { HasReason (D.faults disk.old) (D.faults disk.new) result }
{
    let mut front = [0; 16];
    let mut reader = EntryReader::new(0, size);
    reader.take(disk, ledger, &mut front)?;
    if front != MARK {
        return Err(damaged(0));
    }
    Ok(())
}

/// Walks over a ledger, and says where it ends. A ledger of at most 18 bytes has no entries.
pub fn walk<D: Disk>(disk: &mut D, ledger: &Name) -> Result<End, LedgerRefused>
    ensures walks { (file : List ℕ) → Holds (D.state disk.old) ledger.now file → MatchResult result (IsEnd file) (RefusedLedger file) }
    ensures low { IfOk result (λ end. end.pair + 2 ≤ 2 ^ 62) }
    ensures last { IfOk result (λ end. IfSome end.last (λ last. last.pair + 10 + last.length ≤ end.pair)) }
    ensures rests { Rests (D.state disk.old) (D.state disk.new) }
    ensures reason { HasReason (D.faults disk.old) (D.faults disk.new) result }
{
    let size = disk.length(ledger)?;
    if size <= 18 {
        return Ok(End {
            entries: 0,
            last: None,
            pair: 16,
        });
    }
    check_mark(disk, ledger, size)?;
    walk_pairs(disk, ledger, size)
}
