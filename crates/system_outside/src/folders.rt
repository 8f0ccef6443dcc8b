// The folders of a name.
use arrayvec::ArrayString;
use lp_outside::Name;
use std::fs::OpenFile;
use std::io::ErrorKind;
use std::rt::Files;
use std::{fs, io};

// The folder of a path.
fn folder_of(path: &str) -> &str {
    match path.rsplit_once('/') {
        None => ".",
        Some((folder, _)) if folder.is_empty() => "/",
        Some((folder, _)) => folder,
    }
}

/// Whether two names stand in one folder, by its name.
pub fn is_same_folder(one: &Name, other: &Name) -> bool {
    folder_of(one.as_str()) == folder_of(other.as_str())
}

// Makes the names in a folder durable.
fn sync_folder<R: Files>(rt: &R, folder: &str) -> io::Result<()> {
    fs::open(rt, folder)?.sync_all()
}

/// Makes the name of a file durable in the folder that holds it, and the name of each folder above in the one above that. One
/// above that may not be opened is passed over: it was there before, since its makers sync what they make.
pub fn sync_folders<R: Files>(rt: &R, name: &Name) -> io::Result<()> {
    let mut path = ArrayString::<512>::new();
    let mut is_first = true;
    for part in name.as_str().split('/') {
        if !is_first {
            add(&mut path, "/")?;
        }
        add(&mut path, part)?;
        is_first = false;
        if part.is_empty() {
            continue;
        }
        match sync_folder(rt, folder_of(path.as_str())) {
            Err(e) if e.kind() == ErrorKind::PermissionDenied && path.len() < name.as_str().len() =>
                {}
            synced => synced?,
        }
    }
    Ok(())
}

// Makes a folder where it is missing, and its name durable.
fn make_folder<R: Files>(rt: &R, path: &str) -> io::Result<()> {
    match fs::create_dir(rt, path) {
        Ok(()) => sync_folder(rt, folder_of(path)),
        Err(e) if e.kind() == ErrorKind::AlreadyExists => Ok(()),
        Err(e) => Err(e),
    }
}

/// Makes each folder of a name that is missing, and each of their names durable.
pub fn make_folders<R: Files>(rt: &R, name: &Name) -> io::Result<()> {
    let mut path = ArrayString::<512>::new();
    let mut is_first = true;
    for part in name.as_str().split('/') {
        if !is_first {
            if !path.is_empty() {
                make_folder(rt, path.as_str())?;
            }
            add(&mut path, "/")?;
        }
        add(&mut path, part)?;
        is_first = false;
    }
    Ok(())
}

// A path's parts are no longer than the name.
fn add(path: &mut ArrayString<512>, part: &str) -> io::Result<()> {
    match path.try_push_str(part) {
        Ok(()) => Ok(()),
        Err(_) => Err(io::Error::from(ErrorKind::InvalidFilename)),
    }
}
