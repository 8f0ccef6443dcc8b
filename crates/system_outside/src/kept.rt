// Files of a system that are kept open between calls.
ghost use Rattle.std.specs.Prelude.{◌≡◌, ◌≤◌, length, IfOk, bytes_eq};

use lp_outside::Name;
use std::fs::OpenFile;
use std::io::ErrorKind;
use std::os::unix::fs::FileExt;
use std::rt::Files;
use std::{fs, io};

/// An open file. Its reads and writes name their place, so none has to be remembered.
#[derive(Drop)]
pub struct Kept<F: Drop> {
    name: Name,
    file: F,
    /// Whether it may be written.
    pub writes: bool,
    /// Whether its name is durable in its folders.
    pub is_named: bool,
    // Whether its bytes are durable.
    is_synced: bool,
}

impl<F: Drop> Kept<F> {
    /// A file that was opened just now.
    pub fn new(name: &Name, file: F, writes: bool) -> Self {
        Kept {
            name: name.copy(),
            file,
            writes,
            is_named: false,
            is_synced: false,
        }
    }

    /// Whether it is the file of that name.
    pub fn is(&self, name: &Name) -> bool
        ensures { result ≡ bytes_eq self.now.name name.now }
    {
        self.name.is(name)
    }
}

impl<F: FileExt + Drop> Kept<F> {
    /// Some bytes from a place on.
    pub fn read_at(&self, at: u64, into: &mut [u8]) -> io::Result<usize>
        ensures { IfOk result (λ count. count ≤ length into.new) }
    {
        self.file.read_at(into, at)
    }
}

impl<F: FileExt + OpenFile + Drop> Kept<F> {
    /// Writes bytes from a place on; the system fills a gap before it with zero bytes.
    pub fn write_at(&mut self, at: u64, bytes: &[u8]) -> io::Result<()> {
        self.is_synced = false;
        if bytes.is_empty() {
            return self.reach(at);
        }
        self.file.write_all_at(bytes, at)
    }

    /// Makes the file as short as this, where it is longer.
    pub fn cut(&mut self, to: u64) -> io::Result<()> {
        if self.file.metadata()?.len() > to {
            self.is_synced = false;
            self.file.set_len(to)?;
        }
        Ok(())
    }

    /// Makes its bytes and its length durable. The time of its last change, which nobody asks for, may be lost.
    pub fn sync(&mut self) -> io::Result<()> {
        if !self.is_synced {
            self.file.sync_data()?;
            self.is_synced = true;
        }
        Ok(())
    }

    // Makes the file as long as this, where it is shorter: a write of nothing fills a gap too.
    fn reach(&self, at: u64) -> io::Result<()> {
        if self.file.metadata()?.len() < at {
            self.file.set_len(at)?;
        }
        Ok(())
    }
}

/// Whether an error says that there is no such file.
pub fn is_absence(e: &io::Error) -> bool {
    matches!(
        e.kind(),
        ErrorKind::NotFound | ErrorKind::NotADirectory | ErrorKind::InvalidFilename
    )
}

/// The length of a file, where there is one of that name. A folder is none.
pub fn length_of<R: Files>(rt: &R, name: &Name) -> io::Result<Option<u64>> {
    match fs::metadata(rt, name.as_str()) {
        Ok(found) if found.is_file() => Ok(Some(found.len())),
        Ok(_) => Ok(None),
        Err(e) if is_absence(&e) => Ok(None),
        Err(e) => Err(e),
    }
}
