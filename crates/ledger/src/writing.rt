// Writes the front of a ledger, and a body behind a closed pair.
#![tactic(auto, using(crate::proofs::Resting::rests_then))]

ghost use Rattle.std.specs.Prelude.{◌≡◌, ℕ, ◌+◌, ◌<◌, ◌≤◌, ◌^◌, List, [], ◌∷◌, ◌++◌, length, take, drop, OnOk, OnErr};
ghost use Rattle.lp_model.specs.Outside.{HasCause};
ghost use Rattle.disk_model.specs.Disk.{Works, Shows, At, Torn, IsSynced, overwritten};
ghost use Rattle.disk_changes.specs.Changes.{KeepsFront, Anything};
ghost use Rattle.ledger.specs.Writer.{Written, WritesBody};
ghost use Rattle.ledger_model.specs.Numbers.{u64_bytes};
ghost use Rattle.ledger_model.specs.Ledgers.{mark};
ghost use Rattle.ledger_model.specs.Grammar.{payload_of};
ghost use Rattle.ledger.specs.Written.{entry_of};

use crate::Entry;
use crate::fields::add_entry;
use crate::spelling::Speller;
use lp_outside::{Disk, DiskFailed, Name};
use std::marker::Model;

/// The mark of a ledger, and a closed pair.
const FRONT: [u8; 18] = *b"LPCHECKPOINT0001\0\0";

/// Writes the front of a new ledger, and makes it lasting.
pub fn create<D: Disk>(disk: &mut D, ledger: &Name) -> Result<(), DiskFailed>
    ensures made { OnOk result ((D.state disk.old).tells → length ((D.state disk.old).seen ledger.now) ≤ 18 → (D.state disk.new).seen ledger.now ≡ mark ++ (0 ∷ (0 ∷ []))) }
    // Bytes behind the front stay, in a longer ledger too.
    ensures crash { (D.state disk.old).honest → Works (At ledger.now (Torn 0 18)) (D.state disk.old) (D.state disk.new) }
    ensures shows { (D.state disk.old).tells → Shows (At ledger.now (Torn 0 18)) (D.state disk.old) (D.state disk.new) }
    ensures lasting { OnOk result ((D.state disk.old).honest → IsSynced (D.state disk.new) ledger.now) }
    ensures cause { HasCause (D.faults disk.old) (D.faults disk.new) result }
{
    disk.write_at(ledger, 0, &FRONT)?;
    disk.sync(ledger)
}

/// Writes the payload of a body piece by piece, and then what stands around it.
#[derive(Drop)]
pub struct EntryWriter {
    at: u64,
    count: u64,
}

impl Model for EntryWriter {
    ghost Value = { Written };

    ghost view = { λ w. record { at = w.at; count = w.count } };

    ghost invariant = { λ w. (w.at ≤ 2 ^ 62) × (w.count ≤ 2 ^ 62) };
}

impl EntryWriter {
    /// A writer of a body that begins at a place of the ledger.
    pub fn new(at: u64) -> EntryWriter
        requires { at ≤ 2 ^ 62 }
        ensures at { result.at ≡ at }
        ensures count { result.count ≡ 0 }
    {
        EntryWriter { at, count: 0 }
    }

    /// Writes a piece of the payload behind those before it. After an `Err` any part of it may be written.
    pub fn put<D: Disk>(
        &mut self,
        disk: &mut D,
        ledger: &Name,
        bytes: &[u8],
    ) -> Result<(), DiskFailed>
        ensures at { self.new.at ≡ self.old.at }
        ensures count { OnOk result (self.new.count ≡ self.old.count + length bytes.now) }
        ensures err { OnErr result (self.new.count ≡ self.old.count) }
        ensures written { OnOk result ((D.state disk.old).tells → (D.state disk.new).seen ledger.now ≡ overwritten ((D.state disk.old).seen ledger.now) (self.old.at + 8 + self.old.count) bytes.now) }
        ensures crash { (D.state disk.old).honest → self.old.at ≤ length ((D.state disk.old).seen ledger.now) → Works (At ledger.now (KeepsFront self.old.at)) (D.state disk.old) (D.state disk.new) }
        ensures shows { (D.state disk.old).tells → Shows (At ledger.now Anything) (D.state disk.old) (D.state disk.new) }
        ensures cause { HasCause (D.faults disk.old) (D.faults disk.new) result }
    {
        let place = self.at + 8 + self.count;
        disk.write_at(ledger, place, bytes)?;
        self.count += bytes.len() as u64;
        Ok(())
    }

    /// Writes the payload of an entry behind the pieces before it. After an `Err` any part of it may be written.
    pub fn put_entry<D: Disk>(
        &mut self,
        disk: &mut D,
        ledger: &Name,
        entry: &Entry,
    ) -> Result<(), DiskFailed>
        ensures at { self.new.at ≡ self.old.at }
        ensures count { OnOk result (self.new.count ≡ self.old.count + length (payload_of (entry_of entry.now))) }
        ensures err { OnErr result (self.new.count ≡ self.old.count) }
        ensures written { OnOk result ((D.state disk.old).tells → (D.state disk.new).seen ledger.now ≡ overwritten ((D.state disk.old).seen ledger.now) (self.old.at + 8 + self.old.count) (payload_of (entry_of entry.now))) }
        ensures crash { (D.state disk.old).honest → self.old.at ≤ length ((D.state disk.old).seen ledger.now) → Works (At ledger.now (KeepsFront self.old.at)) (D.state disk.old) (D.state disk.new) }
        ensures shows { (D.state disk.old).tells → Shows (At ledger.now Anything) (D.state disk.old) (D.state disk.new) }
        ensures cause { HasCause (D.faults disk.old) (D.faults disk.new) result }
    {
        let mut speller = Speller::new(self.copy());
        add_entry(disk, ledger, &mut speller, entry)?;
        speller.flush(disk, ledger)?;
        self.count = speller.count();
        Ok(())
    }

    fn copy(&self) -> EntryWriter
        ensures at { result.at ≡ self.now.at }
        ensures count { result.count ≡ self.now.count }
    {
        EntryWriter {
            at: self.at,
            count: self.count,
        }
    }

    /// How many bytes of the payload are written.
    pub(crate) fn count(&self) -> u64
        ensures value { result ≡ self.now.count }
        ensures bound { result ≤ 2 ^ 62 }
    {
        self.count
    }

    /// Writes a closed pair behind the payload, and its length before it. Nothing is made lasting.
    pub fn finish<D: Disk>(self, disk: &mut D, ledger: &Name) -> Result<(), DiskFailed>
        ensures written { OnOk result ((D.state disk.old).tells → (D.state disk.new).seen ledger.now
            ≡ overwritten (overwritten ((D.state disk.old).seen ledger.now) (self.at + 8 + self.count) (0 ∷ (0 ∷ []))) self.at (u64_bytes self.count)) }
        ensures crash { (D.state disk.old).honest → self.at ≤ length ((D.state disk.old).seen ledger.now) → Works (At ledger.now (KeepsFront self.at)) (D.state disk.old) (D.state disk.new) }
        ensures shows { (D.state disk.old).tells → Shows (At ledger.now Anything) (D.state disk.old) (D.state disk.new) }
        ensures body { OnOk result ((D.state disk.old).tells → WritesBody self ((D.state disk.old).seen ledger.now) ((D.state disk.new).seen ledger.now)) }
        ensures bound { OnOk result (self.at + 8 + self.count + 2 ≤ 2 ^ 62) }
        ensures cause { HasCause (D.faults disk.old) (D.faults disk.new) result }
    {
        let EntryWriter { at, count } = self;
        disk.write_at(ledger, at + 8 + count, &[0, 0])?;
        disk.write_at(ledger, at, &count.to_le_bytes())
    }
}
