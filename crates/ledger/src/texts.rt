// Reads texts of any length whole.
#![tactic(auto, using(crate::proofs::Resting::rests_then))]

ghost use Rattle.std.specs.Prelude.{◌≡◌, ℕ, ◌<◌, ◌≤◌, List, length, IfOk, IfErr, OnErr, MatchBool};
ghost use Rattle.ledger.specs.Reader.{Rests, CanRead, left_of};
ghost use Rattle.ledger.specs.Texts.{Added, AddedSome, ReadsText, HasTextReason, IsNoFault, text_refused};

use crate::{EntryReader, LedgerRefused, Part2, TextRefused};
use lp_outside::{Disk, Name};
use lp_values::Bytes;
use std::alloc::Global;

fn refused_text(refused: LedgerRefused) -> TextRefused
    ensures { result ≡ text_refused refused }
{
    match refused {
        LedgerRefused::DiskFault => TextRefused::DiskFault,
        LedgerRefused::LedgerFault { part, at } => TextRefused::LedgerFault { part, at },
    }
}

/// The refusal of a text that isn't there whole.
fn cut_text(place: u64) -> TextRefused
    ensures { result ≡ TextRefused.LedgerFault Part2.Ledger place }
{
    TextRefused::LedgerFault {
        part: Part2::Ledger,
        at: place,
    }
}

/// Adds some of the bytes left, at most so many, to others.
fn add_some<D: Disk>(
    disk: &mut D,
    ledger: &Name,
    reader: &mut EntryReader,
    most: u64,
    to: &mut Bytes,
) -> Result<usize, TextRefused>
    requires { 0 < most }
    ensures adds { (file : List ℕ) (end : ℕ) → CanRead (D.state disk.old) ledger.now file end reader.old → CanRead (D.state disk.new) ledger.now file end reader.new
        × IfOk result (AddedSome file end reader.old.at reader.new.at to.old to.new) }
    ensures within { IfOk result (λ count. count ≤ most) }
    ensures clean { IfErr result IsNoFault }
    ensures rests { Rests (D.state disk.old) (D.state disk.new) }
    ensures reason { HasTextReason (D.faults disk.old) (D.faults disk.new) result }
{
    match reader.load(disk, ledger, 1) {
        Ok(()) => {}
        Err(_) => return Err(TextRefused::DiskFault),
    }
    let ahead = reader.ahead();
    let room = most.min(1024) as usize;
    let piece = &ahead[..ahead.len().min(room)];
    let count = piece.len();
    match to.add(piece) {
        Ok(()) => {}
        Err(_) => return Err(TextRefused::Memory),
    }
    reader.skip(count);
    Ok(count)
}

/// Adds so many of the bytes left to others, or says that fewer are left.
fn add_bytes<D: Disk>(
    disk: &mut D,
    ledger: &Name,
    reader: &mut EntryReader,
    size: u64,
    to: &mut Bytes,
) -> Result<bool, TextRefused>
    ensures adds { (file : List ℕ) (end : ℕ) → CanRead (D.state disk.old) ledger.now file end reader.old → CanRead (D.state disk.new) ledger.now file end reader.new
        × IfOk result (λ whole. MatchBool whole (Added file end reader.old.at reader.new.at to.old to.new size) (length (left_of file end reader.old.at) < size)) }
    ensures clean { IfErr result IsNoFault }
    ensures rests { Rests (D.state disk.old) (D.state disk.new) }
    ensures reason { HasTextReason (D.faults disk.old) (D.faults disk.new) result }
{
    let mut rest = size;
    while rest > 0 {
        let count = match add_some(disk, ledger, reader, rest, to) {
            Ok(count) => count,
            Err(refused) => return Err(refused),
        };
        if count == 0 {
            return Ok(false);
        }
        rest -= count as u64;
    }
    Ok(true)
}

fn find_text<D: Disk>(
    alloc: Global,
    disk: &mut D,
    ledger: &Name,
    reader: &mut EntryReader,
) -> Result<Bytes, TextRefused>
    ensures reads { (file : List ℕ) (end : ℕ) → CanRead (D.state disk.old) ledger.now file end reader.old → CanRead (D.state disk.new) ledger.now file end reader.new
        × ReadsText file end reader.old.at reader.new.at result }
    ensures rests { Rests (D.state disk.old) (D.state disk.new) }
    ensures reason { HasTextReason (D.faults disk.old) (D.faults disk.new) result }
{
    let place = reader.place();
    let size = match reader.word(disk, ledger) {
        Ok(size) => size,
        Err(refused) => return Err(refused_text(refused)),
    };
    // The ledger is looked at before memory is asked for: want of it is no answer to a text that isn't there.
    match reader.has(disk, ledger, u64::from(size)) {
        Ok(true) => {}
        Ok(false) => return Err(cut_text(place)),
        Err(_) => return Err(TextRefused::DiskFault),
    }
    let mut text = Bytes::new(alloc);
    match add_bytes(disk, ledger, reader, u64::from(size), &mut text) {
        Ok(true) => Ok(text),
        // Only a disk that changed since has fewer.
        Ok(false) => Err(cut_text(place)),
        Err(refused) => Err(refused),
    }
}

impl EntryReader {
    /// Takes a text. Where none stands there the ledger is damaged at the text's length, which is told before memory is asked
    /// for: at want of memory the text stands there whole. After any `Err` none is taken.
    pub fn take_text<D: Disk>(
        &mut self,
        alloc: Global,
        disk: &mut D,
        ledger: &Name,
    ) -> Result<Bytes, TextRefused>
        ensures reads { (file : List ℕ) (end : ℕ) → CanRead (D.state disk.old) ledger.now file end self.old → CanRead (D.state disk.new) ledger.now file end self.new
            × ReadsText file end self.old.at self.new.at result }
        ensures err { OnErr result (self.new.at ≡ self.old.at) }
        ensures rests { Rests (D.state disk.old) (D.state disk.new) }
        ensures reason { HasTextReason (D.faults disk.old) (D.faults disk.new) result }
    {
        let place = self.place();
        match find_text(alloc, disk, ledger, self) {
            Ok(text) => Ok(text),
            Err(refused) => {
                self.rewind(place);
                Err(refused)
            }
        }
    }
}
