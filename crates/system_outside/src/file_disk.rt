// Files as a disk. They tell nothing of what they hold.
ghost use Rattle.std.specs.Prelude.{◌≡◌, ◌≤◌, length, IfOk};
ghost use Rattle.lp_model.specs.Outside.{HasCause};

use crate::folders::{is_same_folder, make_folders, sync_folders};
use crate::kept::{Kept, is_absence};
use lp_outside::{Disk, DiskFailed, Name};
use std::fs::{OpenFile, OpenOptions};
use std::io;
use std::io::ErrorKind;
use std::os::unix::fs::FileExt;
use std::rt::Files;

// The longest file, 2^62 bytes.
const LONGEST_FILE: u64 = 1 << 62;

/// The files of a system as a disk. The three that were used last are kept open, so that a run keeps its ledger, its stage and
/// an output, and a text that goes from one file into another takes one call of the system for each read and each write. A
/// write makes the file and its folders where they are missing; no other call makes a file.
///
/// A sync asks nothing of the system that an earlier one of this disk has done: a file that was synced and not changed since
/// is as it was, and so are the names in a folder where no file was made since. That rests on what a run rests on: no other
/// program writes its files meanwhile.
#[derive(Drop)]
pub struct FileDisk<'a, R: Files> {
    rt: &'a R,
    last: Option<Kept<R::File>>,
    before: Option<Kept<R::File>>,
    earlier: Option<Kept<R::File>>,
    /// A file whose name was made durable, and behind which this disk made no file.
    named: Option<Name>,
    faults: u64,
}

// Whether this is the open file of that name.
fn is_open<F: Drop>(open: &Option<Kept<F>>, name: &Name) -> bool {
    match open {
        Some(file) => file.is(name),
        None => false,
    }
}

// Opens a file for reading, or for both, where it is there.
fn open_there<R: Files>(rt: &R, name: &Name, writes: bool) -> io::Result<Option<Kept<R::File>>> {
    match OpenOptions::new()
        .read(true)
        .write(writes)
        .open(rt, name.as_str())
    {
        Ok(file) => Ok(Some(Kept::new(name, file, writes))),
        Err(e) if is_absence(&e) => Ok(None),
        Err(e) => Err(e),
    }
}

// Opens a file for both, and makes it where it is missing.
fn open_made<R: Files>(rt: &R, name: &Name) -> io::Result<R::File> {
    OpenOptions::new()
        .read(true)
        .write(true)
        .create(true)
        .open(rt, name.as_str())
}

// The same, with the folders of its name.
fn open_in_folders<R: Files>(rt: &R, name: &Name) -> io::Result<R::File> {
    match open_made(rt, name) {
        Err(e) if e.kind() == ErrorKind::NotFound => {
            make_folders(rt, name)?;
            open_made(rt, name)
        }
        opened => opened,
    }
}

impl<'a, R: Files> FileDisk<'a, R>
where
    R::File: FileExt,
{
    pub fn new(rt: &'a R) -> Self
        ensures { ⟦<FileDisk<'a, R> as Disk>⟧.faults result ≡ 0 }
    {
        FileDisk {
            rt,
            last: None,
            before: None,
            earlier: None,
            named: None,
            faults: 0,
        }
    }

    // Takes an open file, where one is this one and serves.
    fn take(&mut self, name: &Name, writes: bool) -> Option<Kept<R::File>>
        ensures { self.new.faults ≡ self.old.faults }
    {
        if is_open(&self.earlier, name) {
            std::mem::swap(&mut self.before, &mut self.earlier);
        }
        if is_open(&self.before, name) {
            std::mem::swap(&mut self.last, &mut self.before);
        }
        if !is_open(&self.last, name) {
            return None;
        }
        match self.last.take() {
            Some(file) if file.writes || !writes => Some(file),
            _ => None,
        }
    }

    // Keeps a file open as the one that was used last.
    fn keep(&mut self, file: Kept<R::File>)
        ensures { self.new.faults ≡ self.old.faults }
    {
        if let Some(last) = self.last.take() {
            if let Some(before) = self.before.take() {
                self.earlier = Some(before);
            }
            self.before = Some(last);
        }
        self.last = Some(file);
    }

    // Takes the open file, or opens it where it is there.
    fn take_there(&mut self, name: &Name, writes: bool) -> io::Result<Option<Kept<R::File>>>
        ensures { self.new.faults ≡ self.old.faults }
    {
        match self.take(name, writes) {
            Some(file) => Ok(Some(file)),
            None => open_there(self.rt, name, writes),
        }
    }

    // Takes the open file for writing, or opens it, and makes it where it is missing.
    fn take_made(&mut self, name: &Name) -> io::Result<Kept<R::File>>
        ensures { self.new.faults ≡ self.old.faults }
    {
        if let Some(file) = self.take_there(name, true)? {
            return Ok(file);
        }
        self.named = None;
        Ok(Kept::new(name, open_in_folders(self.rt, name)?, true))
    }

    // Makes the name of a file durable, unless it is already.
    fn sync_name(&mut self, name: &Name) -> io::Result<()>
        ensures { self.new.faults ≡ self.old.faults }
    {
        match &self.named {
            Some(named) if is_same_folder(named, name) => Ok(()),
            _ => {
                sync_folders(self.rt, name)?;
                self.named = Some(name.copy());
                Ok(())
            }
        }
    }

    fn length_of(&mut self, name: &Name) -> io::Result<u64>
        ensures { self.new.faults ≡ self.old.faults }
    {
        match std::fs::metadata(self.rt, name.as_str()) {
            Ok(found) if found.is_dir() => Err(io::Error::from(ErrorKind::IsADirectory)),
            Ok(found) => Ok(found.len()),
            Err(e) if is_absence(&e) => Ok(0),
            Err(e) => Err(e),
        }
    }

    fn read_file(&mut self, name: &Name, at: u64, into: &mut [u8]) -> io::Result<usize>
        ensures count { IfOk result (λ count. count ≤ length into.new) }
        ensures faults { self.new.faults ≡ self.old.faults }
    {
        let Some(file) = self.take_there(name, false)? else {
            return Ok(0);
        };
        let count = file.read_at(at, into)?;
        self.keep(file);
        Ok(count)
    }

    fn write_file(&mut self, name: &Name, at: u64, bytes: &[u8]) -> io::Result<()>
        ensures { self.new.faults ≡ self.old.faults }
    {
        let mut file = self.take_made(name)?;
        file.write_at(at, bytes)?;
        self.keep(file);
        Ok(())
    }

    fn cut_file(&mut self, name: &Name, to: u64) -> io::Result<()>
        ensures { self.new.faults ≡ self.old.faults }
    {
        let Some(mut file) = self.take_there(name, true)? else {
            return Ok(());
        };
        file.cut(to)?;
        self.keep(file);
        Ok(())
    }

    fn sync_file(&mut self, name: &Name) -> io::Result<()>
        ensures { self.new.faults ≡ self.old.faults }
    {
        let Some(mut file) = self.take_there(name, false)? else {
            return Ok(());
        };
        file.sync()?;
        // A file that is new, or whose folders are, may be lost with its name, so these are made durable once.
        if !file.is_named {
            self.sync_name(name)?;
            file.is_named = true;
        }
        self.keep(file);
        Ok(())
    }
}

// An answer, with an error counted.
fn counted<T: Drop>(faults: &mut u64, answer: io::Result<T>) -> Result<T, DiskFailed>
    ensures cause { HasCause faults.old faults.new result }
    ensures value { IfOk result (λ value. answer ≡ Rattle.std.specs.Prelude.Ok value) }
{
    match answer {
        Ok(value) => Ok(value),
        Err(_) => {
            *faults = faults.saturating_add(1);
            Err(DiskFailed)
        }
    }
}

impl<'a, R: Files> Disk for FileDisk<'a, R>
where
    R::File: FileExt,
{
    ghost use Rattle.system_outside.specs.Untold.{untold};

    ghost state = { λ disk. untold };

    ghost faults = { λ disk. disk.faults };

    ghost honest_tells = { λ disk honest. honest };

    ghost seen_left = { λ disk honest. absurd honest };

    ghost counts_now = { λ disk t image honest. absurd honest };

    ghost only_now = { λ disk image honest. absurd honest };

    fn length(&mut self, name: &Name) -> Result<u64, DiskFailed> {
        match self.length_of(name) {
            Ok(length) if length <= LONGEST_FILE => Ok(length),
            _ => {
                self.faults = self.faults.saturating_add(1);
                Err(DiskFailed)
            }
        }
    }

    fn read_at(&mut self, name: &Name, at: u64, into: &mut [u8]) -> Result<usize, DiskFailed> {
        match self.read_file(name, at, into) {
            Ok(0) if into.is_empty() => Ok(0),
            Ok(count) if count > 0 && at <= LONGEST_FILE && count as u64 <= LONGEST_FILE - at => {
                Ok(count)
            }
            _ => {
                self.faults = self.faults.saturating_add(1);
                Err(DiskFailed)
            }
        }
    }

    fn write_at(&mut self, name: &Name, at: u64, bytes: &[u8]) -> Result<(), DiskFailed> {
        let size = bytes.len() as u64;
        if size > LONGEST_FILE || at > LONGEST_FILE - size {
            self.faults = self.faults.saturating_add(1);
            return Err(DiskFailed);
        }
        let answer = self.write_file(name, at, bytes);
        counted(&mut self.faults, answer)
    }

    fn cut(&mut self, name: &Name, to: u64) -> Result<(), DiskFailed> {
        let answer = self.cut_file(name, to);
        counted(&mut self.faults, answer)
    }

    fn sync(&mut self, name: &Name) -> Result<(), DiskFailed> {
        let answer = self.sync_file(name);
        counted(&mut self.faults, answer)
    }
}
