// Files in memory, by name.
ghost use Rattle.std.specs.Prelude.{◌≡◌, ◌≢◌, ◌++◌, ◌-◌, None, IsSome, position, OnOk, OnErr, IfOk, min, length, take, drop, option_copied};
ghost use Rattle.lp_model.specs.Outside.{bytes_in};
ghost use Rattle.memory_outside.specs.Files.{folder_of, is_named, Changes, Renames, Removes, renamed};

use lp_outside::Name;
use lp_values::Bytes;
use std::alloc::{AllocError, Global};

/// A file.
#[derive(Drop)]
pub struct MemoryFile {
    pub name: Name,
    pub bytes: Bytes,
}

// Where the first file of that name stands.
fn find_place(files: &[MemoryFile], name: &Name) -> Option<usize>
    ensures { result ≡ position (is_named name.now) files.now }
{
    files.iter().position(|file| file.name.is(name))
}

/// The bytes of the first file of that name.
pub fn find<'a>(files: &'a [MemoryFile], name: &Name) -> Option<&'a Bytes>
    ensures { option_copied result ≡ folder_of files.now name.now }
{
    for file in files {
        if file.name.is(name) {
            return Some(&file.bytes);
        }
    }
    None
}

/// The bytes of a file; an absent one has none.
pub fn bytes_of<'a>(files: &'a [MemoryFile], name: &Name) -> &'a [u8]
    ensures { result.now ≡ bytes_in (folder_of files.now) name.now }
{
    match find(files, name) {
        Some(bytes) => bytes.as_slice(),
        None => &[],
    }
}

/// A copy of bytes.
pub fn copied(alloc: Global, bytes: &[u8]) -> Result<Bytes, AllocError>
    ensures { IfOk result (λ copy. copy ≡ bytes.now) }
{
    let mut copy = Bytes::new(alloc);
    copy.add(bytes)?;
    Ok(copy)
}

/// Puts bytes in the place of a file's, which is made where it is absent. An `Err` changes nothing.
pub fn store(files: &mut Vec<MemoryFile>, name: &Name, bytes: Bytes) -> Result<(), AllocError>
    ensures ok { OnOk result (Changes (folder_of files.old.items) (folder_of files.new.items) name.now bytes) }
    ensures err { OnErr result (files.new.items ≡ files.old.items) }
{
    match find_place(files, name) {
        Some(index) => {
            files[index].bytes = bytes;
            Ok(())
        }
        None => {
            files.push(MemoryFile {
                name: name.copy(),
                bytes,
            })?;
            Ok(())
        }
    }
}

/// Adds bytes at the end of a file, which is made where it is absent. An `Err` changes nothing.
pub fn append(
    alloc: Global,
    files: &mut Vec<MemoryFile>,
    name: &Name,
    bytes: &[u8],
) -> Result<(), AllocError>
    ensures ok { OnOk result (Changes (folder_of files.old.items) (folder_of files.new.items) name.now (bytes_in (folder_of files.old.items) name.now ++ bytes.now)) }
    ensures err { OnErr result (folder_of files.new.items ≡ folder_of files.old.items) }
{
    match find_place(files, name) {
        Some(index) => {
            files[index].bytes.add(bytes)?;
            Ok(())
        }
        None => {
            let first = copied(alloc, bytes)?;
            files.push(MemoryFile {
                name: name.copy(),
                bytes: first,
            })?;
            Ok(())
        }
    }
}

// Gives a file of a name another name, and leaves each other one.
fn rename_file(file: &mut MemoryFile, from: &Name, to: &Name)
    ensures { file.new ≡ renamed from.now to.now file.old }
{
    if file.name.is(from) {
        file.name = to.copy();
    }
}

/// Gives each file of a name another name.
pub fn rename(files: &mut [MemoryFile], from: &Name, to: &Name)
    requires there { IsSome (folder_of files.old from.now) }
    requires free { folder_of files.old to.now ≡ None }
    ensures { Renames (folder_of files.old) (folder_of files.new) from.now to.now }
{
    for file in files {
        rename_file(file, from, to);
    }
}

/// Takes each file of a name away.
pub fn remove(files: &mut Vec<MemoryFile>, name: &Name)
    ensures { Removes (folder_of files.old.items) (folder_of files.new.items) name.now }
{
    while let Some(index) = find_place(files, name) {
        files.remove(index);
    }
}

/// Copies bytes from a place on, as many as there are and fit.
pub fn copy_from(bytes: &[u8], at: u64, into: &mut [u8]) -> usize
    ensures count { result ≡ min (length into.old) (length bytes.now - at) }
    ensures bytes { take result into.new ≡ take result (drop at bytes.now) }
{
    if at >= bytes.len() as u64 {
        return 0;
    }
    let rest = &bytes[at as usize..];
    let count = rest.len().min(into.len());
    into[..count].copy_from_slice(&rest[..count]);
    count
}
