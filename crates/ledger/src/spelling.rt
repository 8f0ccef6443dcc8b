// Writes the payload of a body in pieces, of which short ones wait for others.
ghost use Rattle.std.specs.Prelude.{◌≡◌, ◌+◌, ◌≤◌, ◌<◌, ◌^◌, ◌++◌, ◌∷◌, ℕ, ℤ, List, [], length, take, OnOk};
ghost use Rattle.lp_model.specs.Outside.{HasCause};
ghost use Rattle.disk_model.specs.Disk.{Works, Shows, At, overwritten};
ghost use Rattle.disk_changes.specs.Changes.{KeepsFront, Anything};
ghost use Rattle.ledger.specs.Spelling.{Pending, Goes, Spells};
ghost use Rattle.ledger_model.specs.Numbers.{u32_bytes, u64_bytes, i64_bytes, text_bytes};

use crate::EntryWriter;
use lp_outside::{Disk, DiskFailed, Name};
use std::marker::Model;

const ROOM: usize = 4096;

/// Writes a payload in pieces, of which those that are short wait for others.
#[derive(Drop)]
pub(crate) struct Speller {
    writer: EntryWriter,
    room: [u8; 4096],
    used: usize,
}

impl Model for Speller {
    ghost Value = { Pending };

    ghost view = { λ s. record { at = s.writer.at; count = s.writer.count; ahead = take s.used s.room } };

    ghost invariant = { λ s. s.used ≤ 4096 };
}

impl Speller {
    pub(crate) fn new(writer: EntryWriter) -> Speller
        ensures at { result.at ≡ writer.at }
        ensures count { result.count ≡ writer.count }
        ensures ahead { result.ahead ≡ [] }
    {
        Speller {
            writer,
            room: [0; 4096],
            used: 0,
        }
    }

    /// How many bytes of the payload are written.
    pub(crate) fn count(&self) -> u64
        ensures value { result ≡ self.now.count }
        ensures bound { result ≤ 2 ^ 62 }
    {
        self.writer.count()
    }

    /// What waits.
    fn ahead(&self) -> &[u8]
        ensures value { result.now ≡ self.now.ahead }
        ensures short { length result.now ≤ 4096 }
    {
        &self.room[..self.used]
    }

    fn left(&self) -> usize
        ensures { result + length self.now.ahead ≡ 4096 }
    {
        ROOM - self.ahead().len()
    }

    /// Writes what waits.
    pub(crate) fn flush<D: Disk>(&mut self, disk: &mut D, ledger: &Name) -> Result<(), DiskFailed>
        ensures at { self.new.at ≡ self.old.at }
        ensures count { OnOk result (self.new.count ≡ self.old.count + length self.old.ahead) }
        ensures ahead { OnOk result (self.new.ahead ≡ []) }
        ensures written { OnOk result ((D.state disk.old).tells → (D.state disk.new).seen ledger.now ≡ overwritten ((D.state disk.old).seen ledger.now) (self.old.at + 8 + self.old.count) self.old.ahead) }
        ensures crash { (D.state disk.old).honest → self.old.at ≤ length ((D.state disk.old).seen ledger.now) → Works (At ledger.now (KeepsFront self.old.at)) (D.state disk.old) (D.state disk.new) }
        ensures shows { (D.state disk.old).tells → Shows (At ledger.now Anything) (D.state disk.old) (D.state disk.new) }
        ensures cause { HasCause (D.faults disk.old) (D.faults disk.new) result }
    {
        self.writer.put(disk, ledger, &self.room[..self.used])?;
        self.used = 0;
        Ok(())
    }

    /// Writes bytes at once.
    fn write<D: Disk>(
        &mut self,
        disk: &mut D,
        ledger: &Name,
        bytes: &[u8],
    ) -> Result<(), DiskFailed>
        ensures at { self.new.at ≡ self.old.at }
        ensures count { OnOk result (self.new.count ≡ self.old.count + length bytes.now) }
        ensures ahead { self.new.ahead ≡ self.old.ahead }
        ensures written { OnOk result ((D.state disk.old).tells → (D.state disk.new).seen ledger.now ≡ overwritten ((D.state disk.old).seen ledger.now) (self.old.at + 8 + self.old.count) bytes.now) }
        ensures crash { (D.state disk.old).honest → self.old.at ≤ length ((D.state disk.old).seen ledger.now) → Works (At ledger.now (KeepsFront self.old.at)) (D.state disk.old) (D.state disk.new) }
        ensures shows { (D.state disk.old).tells → Shows (At ledger.now Anything) (D.state disk.old) (D.state disk.new) }
        ensures cause { HasCause (D.faults disk.old) (D.faults disk.new) result }
    {
        self.writer.put(disk, ledger, bytes)
    }

    /// Lets bytes wait.
    fn hold(&mut self, bytes: &[u8])
        requires { length self.old.ahead + length bytes.now ≤ 4096 }
        ensures at { self.new.at ≡ self.old.at }
        ensures count { self.new.count ≡ self.old.count }
        ensures ahead { self.new.ahead ≡ self.old.ahead ++ bytes.now }
    {
        let end = self.used + bytes.len();
        self.room[self.used..end].copy_from_slice(bytes);
        self.used = end;
    }

    /// Writes what waits, and then bytes for which it left no room.
    fn add_behind<D: Disk>(
        &mut self,
        disk: &mut D,
        ledger: &Name,
        bytes: &[u8],
    ) -> Result<(), DiskFailed>
        ensures goes { Goes (D.state disk.old) (D.state disk.new) ledger.now self.old self.new }
        ensures spells { OnOk result (Spells (D.state disk.old) (D.state disk.new) ledger.now self.old self.new bytes.now) }
        ensures cause { HasCause (D.faults disk.old) (D.faults disk.new) result }
    {
        self.flush(disk, ledger)?;
        if bytes.len() > ROOM {
            return self.write(disk, ledger, bytes);
        }
        self.hold(bytes);
        Ok(())
    }

    pub(crate) fn add<D: Disk>(
        &mut self,
        disk: &mut D,
        ledger: &Name,
        bytes: &[u8],
    ) -> Result<(), DiskFailed>
        ensures goes { Goes (D.state disk.old) (D.state disk.new) ledger.now self.old self.new }
        ensures spells { OnOk result (Spells (D.state disk.old) (D.state disk.new) ledger.now self.old self.new bytes.now) }
        ensures cause { HasCause (D.faults disk.old) (D.faults disk.new) result }
    {
        if bytes.len() > self.left() {
            return self.add_behind(disk, ledger, bytes);
        }
        self.hold(bytes);
        Ok(())
    }

    pub(crate) fn add_byte<D: Disk>(
        &mut self,
        disk: &mut D,
        ledger: &Name,
        byte: u8,
    ) -> Result<(), DiskFailed>
        ensures goes { Goes (D.state disk.old) (D.state disk.new) ledger.now self.old self.new }
        ensures spells { OnOk result (Spells (D.state disk.old) (D.state disk.new) ledger.now self.old self.new (byte ∷ [])) }
        ensures cause { HasCause (D.faults disk.old) (D.faults disk.new) result }
    {
        self.add(disk, ledger, &[byte])
    }

    /// The low 32 bits of a count.
    pub(crate) fn add_count<D: Disk>(
        &mut self,
        disk: &mut D,
        ledger: &Name,
        count: usize,
    ) -> Result<(), DiskFailed>
        ensures goes { Goes (D.state disk.old) (D.state disk.new) ledger.now self.old self.new }
        ensures spells { OnOk result (Spells (D.state disk.old) (D.state disk.new) ledger.now self.old self.new (u32_bytes count)) }
        ensures cause { HasCause (D.faults disk.old) (D.faults disk.new) result }
    {
        let low = (count as u64 % (1 << 32)) as u32;
        self.add(disk, ledger, &low.to_le_bytes())
    }

    pub(crate) fn add_number<D: Disk>(
        &mut self,
        disk: &mut D,
        ledger: &Name,
        number: u64,
    ) -> Result<(), DiskFailed>
        ensures goes { Goes (D.state disk.old) (D.state disk.new) ledger.now self.old self.new }
        ensures spells { OnOk result (Spells (D.state disk.old) (D.state disk.new) ledger.now self.old self.new (u64_bytes number)) }
        ensures cause { HasCause (D.faults disk.old) (D.faults disk.new) result }
    {
        self.add(disk, ledger, &number.to_le_bytes())
    }

    pub(crate) fn add_signed<D: Disk>(
        &mut self,
        disk: &mut D,
        ledger: &Name,
        number: i64,
    ) -> Result<(), DiskFailed>
        ensures goes { Goes (D.state disk.old) (D.state disk.new) ledger.now self.old self.new }
        ensures spells { OnOk result (Spells (D.state disk.old) (D.state disk.new) ledger.now self.old self.new (i64_bytes number)) }
        ensures cause { HasCause (D.faults disk.old) (D.faults disk.new) result }
    {
        self.add(disk, ledger, &number.to_le_bytes())
    }

    pub(crate) fn add_text<D: Disk>(
        &mut self,
        disk: &mut D,
        ledger: &Name,
        text: &[u8],
    ) -> Result<(), DiskFailed>
        ensures goes { Goes (D.state disk.old) (D.state disk.new) ledger.now self.old self.new }
        ensures spells { OnOk result (Spells (D.state disk.old) (D.state disk.new) ledger.now self.old self.new (text_bytes text.now)) }
        ensures cause { HasCause (D.faults disk.old) (D.faults disk.new) result }
    {
        self.add_count(disk, ledger, text.len())?;
        self.add(disk, ledger, text)
    }
}
