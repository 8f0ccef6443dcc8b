// Reads a part of a ledger from its front.
ghost use Rattle.std.specs.Prelude.{◌≡◌, ◌⊎◌, ℕ, ◌+◌, ◌-◌, ◌<◌, ◌≤◌, ◌^◌, List, [], ◌++◌, length, take, drop, min, max, IfOk, OnOk, OnErr, MatchBool, MatchOption, MatchResult, slice_index};
ghost use Rattle.ledger_model.specs.Grammar.{IsName, name_field};
ghost use Rattle.lp_model.specs.Outside.{HasCause};
ghost use Rattle.ledger.specs.Reader.{Position, Holds, CanRead, IsFilled, Stood, Rests, Gives, RefusedShort, HasReason, left_of, any_byte, any_short, any_word, IsRead, RefusedAt, text_within};
ghost use Rattle.ledger.specs.Counted.{any_signed};
ghost use Rattle.ledger_model.specs.Numbers.{number};

use crate::LedgerRefused;
use crate::refused::{damaged, moved};
use lp_outside::{Disk, DiskFailed, Name};
use std::marker::Model;
use std::str;

const ROOM: u64 = 1024;

/// Reads the bytes of a ledger from one place up to another.
#[derive(Drop)]
pub struct EntryReader {
    at: u64,
    to: u64,
    room: [u8; 1024],
    start: usize,
    end: usize,
}

impl Model for EntryReader {
    ghost Value = { Position };

    ghost view = { λ r. record { at = r.at; to = r.to; ahead = drop r.start (take r.end r.room) } };

    ghost invariant = { λ r. (r.start ≤ r.end) × (r.end ≤ 1024) × (r.at + (r.end - r.start) ≤ max r.at r.to) };
}

/// Fills a buffer from its front with bytes of a file: at least as many as are wanted, or all that fit or are left.
fn fill<D: Disk>(
    disk: &mut D,
    name: &Name,
    at: u64,
    room: &mut [u8],
    want: usize,
) -> Result<usize, DiskFailed>
    requires { at + length room.old < 2 ^ 64 }
    ensures count { IfOk result (λ count. count ≤ length room.new) }
    ensures holds { (file : List ℕ) → Holds (D.state disk.old) name.now file → Holds (D.state disk.new) name.now file }
    ensures filled { IfOk result (λ count. (file : List ℕ) → Holds (D.state disk.old) name.now file → IsFilled file at want count room.new) }
    ensures rests { Rests (D.state disk.old) (D.state disk.new) }
    ensures cause { HasCause (D.faults disk.old) (D.faults disk.new) result }
{
    let mut done = 0;
    while done < want && done < room.len() {
        let count = disk.read_at(name, at + done as u64, &mut room[done..])?;
        if count == 0 {
            break;
        }
        done += count;
    }
    Ok(done)
}

/// The name that some bytes are, if they are one.
fn read_name(bytes: &[u8]) -> Option<Name>
    ensures { MatchOption result (IsName bytes.now → ⊥) (λ name. (name ≡ bytes.now) × IsName bytes.now) }
{
    match str::from_utf8(bytes) {
        Ok(text) => match Name::read(text) {
            Ok(name) => Some(name),
            Err(_) => None,
        },
        Err(_) => None,
    }
}

impl EntryReader {
    /// A reader of the bytes from one place up to another; there are none where the second is the lower one.
    pub fn new(from: u64, to: u64) -> EntryReader
        ensures at { result.at ≡ from }
        ensures to { result.to ≡ to }
        ensures ahead { result.ahead ≡ [] }
    {
        EntryReader {
            at: from,
            to,
            room: [0; 1024],
            start: 0,
            end: 0,
        }
    }

    /// The place of the next byte.
    pub fn place(&self) -> u64
        ensures { result ≡ self.now.at }
    {
        self.at
    }

    /// The place where reading ends.
    pub(crate) fn end(&self) -> u64
        ensures { result ≡ self.now.to }
    {
        self.to
    }

    pub(crate) fn ahead(&self) -> &[u8]
        ensures { result.now ≡ self.now.ahead }
    {
        &self.room[self.start..self.end]
    }

    pub(crate) fn skip(&mut self, count: usize)
        requires { count ≤ length self.old.ahead }
        ensures at { self.new.at ≡ self.old.at + count }
        ensures to { self.new.to ≡ self.old.to }
        ensures ahead { self.new.ahead ≡ drop count self.old.ahead }
    {
        self.start += count;
        self.at += count as u64;
    }

    /// Reads at least so many bytes ahead, or all that are left.
    pub(crate) fn load<D: Disk>(
        &mut self,
        disk: &mut D,
        ledger: &Name,
        want: usize,
    ) -> Result<(), DiskFailed>
        requires { want ≤ 1024 }
        ensures at { self.new.at ≡ self.old.at }
        ensures to { self.new.to ≡ self.old.to }
        ensures reads { (file : List ℕ) (to : ℕ) → CanRead (D.state disk.old) ledger.now file to self.old → CanRead (D.state disk.new) ledger.now file to self.new }
        ensures enough { OnOk result ((file : List ℕ) (to : ℕ) → CanRead (D.state disk.old) ledger.now file to self.old → (want ≤ length self.new.ahead) ⊎ (self.new.ahead ≡ left_of file to self.old.at)) }
        ensures rests { Rests (D.state disk.old) (D.state disk.new) }
        ensures cause { HasCause (D.faults disk.old) (D.faults disk.new) result }
    {
        if self.end - self.start >= want {
            return Ok(());
        }
        self.start = 0;
        self.end = 0;
        let limit = self.to.saturating_sub(self.at).min(ROOM) as usize;
        self.end = fill(disk, ledger, self.at, &mut self.room[..limit], want)?;
        Ok(())
    }

    /// Tells whether so many bytes are left, and takes none: at most one byte more is read, and none that was read ahead.
    pub(crate) fn has<D: Disk>(
        &self,
        disk: &mut D,
        ledger: &Name,
        count: u64,
    ) -> Result<bool, DiskFailed>
        ensures tells { IfOk result (λ has. (file : List ℕ) (to : ℕ) → CanRead (D.state disk.old) ledger.now file to self.now → MatchBool has (count ≤ length (left_of file to self.now.at)) (length (left_of file to self.now.at) < count)) }
        ensures rests { Rests (D.state disk.old) (D.state disk.new) }
        ensures cause { HasCause (D.faults disk.old) (D.faults disk.new) result }
    {
        if count <= (self.end - self.start) as u64 {
            return Ok(true);
        }
        if count > self.to.saturating_sub(self.at) {
            return Ok(false);
        }
        let mut last = [0; 1];
        let found = disk.read_at(ledger, self.at + (count - 1), &mut last)?;
        Ok(found > 0)
    }

    pub(crate) fn rewind(&mut self, place: u64)
        ensures at { self.new.at ≡ place }
        ensures to { self.new.to ≡ self.old.to }
        ensures ahead { self.new.ahead ≡ [] }
    {
        self.at = place;
        self.start = 0;
        self.end = 0;
    }

    /// Takes a piece of at most 1,024 bytes, or none where fewer are left.
    fn take_piece<D: Disk>(
        &mut self,
        disk: &mut D,
        ledger: &Name,
        piece: &mut [u8],
    ) -> Result<bool, DiskFailed>
        requires { length piece.old ≤ 1024 }
        ensures to { self.new.to ≡ self.old.to }
        ensures reads { (file : List ℕ) (to : ℕ) → CanRead (D.state disk.old) ledger.now file to self.old → CanRead (D.state disk.new) ledger.now file to self.new
            × IfOk result (λ taken. MatchBool taken (Stood file to self.old.at self.new.at piece.new) (length (left_of file to self.old.at) < length piece.old)) }
        ensures rests { Rests (D.state disk.old) (D.state disk.new) }
        ensures cause { HasCause (D.faults disk.old) (D.faults disk.new) result }
    {
        self.load(disk, ledger, piece.len())?;
        let ahead = self.ahead();
        if ahead.len() < piece.len() {
            return Ok(false);
        }
        piece.copy_from_slice(&ahead[..piece.len()]);
        self.skip(piece.len());
        Ok(true)
    }

    /// Takes the next bytes. Where fewer are left the ledger is damaged at the first of them, and none are taken.
    pub fn take<D: Disk>(
        &mut self,
        disk: &mut D,
        ledger: &Name,
        into: &mut [u8],
    ) -> Result<(), LedgerRefused>
        ensures to { self.new.to ≡ self.old.to }
        ensures reads { (file : List ℕ) (to : ℕ) → CanRead (D.state disk.old) ledger.now file to self.old → CanRead (D.state disk.new) ledger.now file to self.new
            × MatchResult result (λ _. Stood file to self.old.at self.new.at into.new) (RefusedShort file to self.old.at (length into.old)) }
        ensures err { OnErr result (self.new.at ≡ self.old.at) }
        ensures low { (i : ℕ) → slice_index into.new i < 256 }
        ensures rests { Rests (D.state disk.old) (D.state disk.new) }
        ensures reason { HasReason (D.faults disk.old) (D.faults disk.new) result }
    {
        let place = self.at;
        let mut done = 0;
        while done < into.len() {
            let end = into.len().min(done + 1024);
            match self.take_piece(disk, ledger, &mut into[done..end]) {
                Ok(true) => done = end,
                Ok(false) => {
                    self.rewind(place);
                    return Err(damaged(place));
                }
                Err(_) => {
                    self.rewind(place);
                    return Err(LedgerRefused::DiskFault);
                }
            }
        }
        Ok(())
    }

    pub(crate) fn byte<D: Disk>(&mut self, disk: &mut D, ledger: &Name) -> Result<u8, LedgerRefused>
        ensures gives { Gives any_byte (D.state disk.old) (D.state disk.new) ledger.now self.old self.new result }
        ensures rests { Rests (D.state disk.old) (D.state disk.new) }
        ensures reason { HasReason (D.faults disk.old) (D.faults disk.new) result }
    {
        let mut bytes = [0; 1];
        self.take(disk, ledger, &mut bytes)?;
        Ok(bytes[0])
    }

    pub(crate) fn short<D: Disk>(
        &mut self,
        disk: &mut D,
        ledger: &Name,
    ) -> Result<u16, LedgerRefused>
        ensures gives { Gives any_short (D.state disk.old) (D.state disk.new) ledger.now self.old self.new result }
        ensures rests { Rests (D.state disk.old) (D.state disk.new) }
        ensures reason { HasReason (D.faults disk.old) (D.faults disk.new) result }
    {
        let mut bytes = [0; 2];
        self.take(disk, ledger, &mut bytes)?;
        Ok(u16::from_le_bytes(bytes))
    }

    pub(crate) fn word<D: Disk>(
        &mut self,
        disk: &mut D,
        ledger: &Name,
    ) -> Result<u32, LedgerRefused>
        ensures gives { Gives any_word (D.state disk.old) (D.state disk.new) ledger.now self.old self.new result }
        ensures rests { Rests (D.state disk.old) (D.state disk.new) }
        ensures reason { HasReason (D.faults disk.old) (D.faults disk.new) result }
    {
        let mut bytes = [0; 4];
        self.take(disk, ledger, &mut bytes)?;
        Ok(u32::from_le_bytes(bytes))
    }

    pub(crate) fn number<D: Disk>(
        &mut self,
        disk: &mut D,
        ledger: &Name,
    ) -> Result<u64, LedgerRefused>
        ensures gives { Gives number (D.state disk.old) (D.state disk.new) ledger.now self.old self.new result }
        ensures rests { Rests (D.state disk.old) (D.state disk.new) }
        ensures reason { HasReason (D.faults disk.old) (D.faults disk.new) result }
    {
        let mut bytes = [0; 8];
        self.take(disk, ledger, &mut bytes)?;
        Ok(u64::from_le_bytes(bytes))
    }

    pub(crate) fn signed<D: Disk>(
        &mut self,
        disk: &mut D,
        ledger: &Name,
    ) -> Result<i64, LedgerRefused>
        ensures gives { Gives any_signed (D.state disk.old) (D.state disk.new) ledger.now self.old self.new result }
        ensures rests { Rests (D.state disk.old) (D.state disk.new) }
        ensures reason { HasReason (D.faults disk.old) (D.faults disk.new) result }
    {
        let bits = self.number(disk, ledger)?;
        Ok(bits.cast_signed())
    }

    /// Takes a text into the front of a buffer, and gives its length; a text that is longer is damaged.
    pub(crate) fn short_text<D: Disk>(
        &mut self,
        disk: &mut D,
        ledger: &Name,
        room: &mut [u8],
    ) -> Result<usize, LedgerRefused>
        requires { length room.old < 2 ^ 32 }
        ensures reads { (file : List ℕ) (to : ℕ) → CanRead (D.state disk.old) ledger.now file to self.old → CanRead (D.state disk.new) ledger.now file to self.new
            × MatchResult result (λ size. IsRead (text_within (length room.old)) file to self.old.at self.new.at (take size room.new)) (RefusedAt (text_within (length room.old)) file to self.old.at) }
        ensures within { IfOk result (λ size. size ≤ length room.new) }
        ensures rests { Rests (D.state disk.old) (D.state disk.new) }
        ensures reason { HasReason (D.faults disk.old) (D.faults disk.new) result }
    {
        let place = self.place();
        let size = self.word(disk, ledger)? as usize;
        if size > room.len() {
            return Err(damaged(place));
        }
        match self.take(disk, ledger, &mut room[..size]) {
            Ok(()) => Ok(size),
            Err(refused) => Err(moved(refused, place)),
        }
    }

    fn find_name<D: Disk>(&mut self, disk: &mut D, ledger: &Name) -> Result<Name, LedgerRefused>
        ensures gives { Gives name_field (D.state disk.old) (D.state disk.new) ledger.now self.old self.new result }
        ensures rests { Rests (D.state disk.old) (D.state disk.new) }
        ensures reason { HasReason (D.faults disk.old) (D.faults disk.new) result }
    {
        let place = self.place();
        let mut room = [0; 512];
        let size = self.short_text(disk, ledger, &mut room)?;
        match read_name(&room[..size]) {
            Some(name) => Ok(name),
            None => Err(damaged(place)),
        }
    }

    /// Takes a text that is a name. Where none stands there the ledger is damaged at the text's length, and none is taken.
    pub fn take_name<D: Disk>(&mut self, disk: &mut D, ledger: &Name) -> Result<Name, LedgerRefused>
        ensures gives { Gives name_field (D.state disk.old) (D.state disk.new) ledger.now self.old self.new result }
        ensures err { OnErr result (self.new.at ≡ self.old.at) }
        ensures rests { Rests (D.state disk.old) (D.state disk.new) }
        ensures reason { HasReason (D.faults disk.old) (D.faults disk.new) result }
    {
        let place = self.place();
        match self.find_name(disk, ledger) {
            Ok(name) => Ok(name),
            Err(refused) => {
                self.rewind(place);
                Err(refused)
            }
        }
    }
}
