// One call of an object by the words of a line, and what it answers: `+` where there is nothing to tell, `!` where it fails.
// Each call has a function of its own, so that a caller's proof carries no more than its answer: `None` is what no test may
// come to, as want of memory.
use lp_outside::{Disk, Logs, Name, NameList, Sink, Source};
use lp_values::{Bytes, bytes_to, read_integer};
use std::alloc::Global;

/// What answers the call of a line.
pub(crate) trait Answers {
    fn answer(&mut self, line: &str) -> Option<String>;
}

/// Whether the call of a row is answered as the row says.
fn is_answered<A: Answers>(object: &mut A, row: &str) -> Option<bool> {
    let (line, want) = row.split_once(" => ")?;
    let told = object.answer(line)?;
    Some(told.as_str() == want)
}

/// The first row that is answered otherwise.
pub(crate) fn first_other<'a, A: Answers>(object: &mut A, rows: &'a str) -> Option<&'a str> {
    for row in rows.lines() {
        if is_answered(object, row) != Some(true) {
            return Some(row);
        }
    }
    None
}

pub(crate) fn word(line: &str, place: usize) -> &str {
    line.split(' ').nth(place).unwrap_or("")
}

pub(crate) fn number(line: &str, place: usize) -> u64 {
    match read_integer(word(line, place)) {
        Some(number) if number >= 0 => number as u64,
        _ => 0,
    }
}

pub(crate) fn name(line: &str, place: usize) -> Option<Name> {
    Name::read(word(line, place)).ok()
}

pub(crate) fn sign(alloc: Global, is_ok: bool) -> Option<String> {
    String::from_str(alloc, if is_ok { "+" } else { "!" }).ok()
}

pub(crate) fn writes<D: Disk>(disk: &mut D, name: &Name, at: u64, text: &[u8]) -> bool {
    disk.write_at(name, at, text).is_ok()
}

fn cuts<D: Disk>(disk: &mut D, name: &Name, to: u64) -> bool {
    disk.cut(name, to).is_ok()
}

fn syncs<D: Disk>(disk: &mut D, name: &Name) -> bool {
    disk.sync(name).is_ok()
}

// How many bytes are wanted: eight where the line says nothing.
fn wanted(line: &str) -> usize {
    match number(line, 3) {
        0 => 8,
        count => count.min(8) as usize,
    }
}

// The first bytes of a piece, where there are so many.
fn piece(alloc: Global, read: &[u8], count: usize) -> Option<String> {
    if count > read.len() {
        return sign(alloc, false);
    }
    format!(in alloc; "{count} {:?}", bytes_to(read, count)).ok()
}

fn read<D: Disk>(alloc: Global, disk: &mut D, name: &Name, line: &str) -> Option<String> {
    let mut read = [0u8; 8];
    let into = read.get_mut(..wanted(line))?;
    match disk.read_at(name, number(line, 2), into) {
        Ok(count) => piece(alloc, into, count),
        Err(_) => sign(alloc, false),
    }
}

fn length<D: Disk>(alloc: Global, disk: &mut D, name: &Name) -> Option<String> {
    let length = disk.length(name).ok();
    format!(in alloc; "{length:?}").ok()
}

// Whether a write, a cut or a sync doesn't fail.
fn changes<D: Disk>(disk: &mut D, name: &Name, line: &str) -> bool {
    match word(line, 0) {
        "write" => writes(disk, name, number(line, 2), word(line, 3).as_bytes()),
        "cut" => cuts(disk, name, number(line, 2)),
        _ => syncs(disk, name),
    }
}

/// `write NAME AT TEXT`, `cut NAME TO`, `sync NAME`, `read NAME AT COUNT` and `length NAME`.
pub(crate) fn act<D: Disk>(alloc: Global, disk: &mut D, line: &str) -> Option<String> {
    let name = name(line, 1)?;
    match word(line, 0) {
        "read" => read(alloc, disk, &name, line),
        "length" => length(alloc, disk, &name),
        _ => sign(alloc, changes(disk, &name, line)),
    }
}

/// Whether one of those calls that have nothing to tell doesn't fail.
pub(crate) fn done<D: Disk>(disk: &mut D, line: &str) -> bool {
    match name(line, 1) {
        Some(name) => changes(disk, &name, line),
        None => false,
    }
}

fn add_name(list: &mut String, name: &Name) -> Option<()> {
    list.push_str(name.as_str()).ok()?;
    list.push_str(";").ok()
}

fn listed(alloc: Global, names: &NameList) -> Option<String> {
    let mut list = String::new(alloc);
    for name in names.as_slice() {
        add_name(&mut list, name)?;
    }
    Some(list)
}

fn names_of<L: Logs>(alloc: Global, logs: &mut L, pattern: &Name) -> Option<String> {
    let names = logs.names(alloc, pattern).ok()?;
    listed(alloc, &names)
}

fn log_read<L: Logs>(alloc: Global, logs: &mut L, name: &Name, at: u64) -> Option<String> {
    let mut read = [0u8; 8];
    match logs.read_at(name, at, &mut read) {
        Ok(count) => piece(alloc, &read, count),
        Err(_) => sign(alloc, false),
    }
}

fn log_length<L: Logs>(alloc: Global, logs: &mut L, name: &Name) -> Option<String> {
    let length = logs.length(name).ok();
    format!(in alloc; "{length:?}").ok()
}

/// `names PATTERN`, `log-read NAME AT` and `log-length NAME`.
pub(crate) fn look<L: Logs>(alloc: Global, logs: &mut L, line: &str) -> Option<String> {
    let name = name(line, 1)?;
    match word(line, 0) {
        "names" => names_of(alloc, logs, &name),
        "log-read" => log_read(alloc, logs, &name, number(line, 2)),
        _ => log_length(alloc, logs, &name),
    }
}

// Two bytes of an input, or `!` where it fails.
fn read_two<S: Source>(source: &mut S, to: &mut Bytes) -> Option<()> {
    let mut read = [0u8; 2];
    match source.read(&mut read) {
        Ok(count) => to.add(bytes_to(&read, count)).ok(),
        Err(_) => to.push(b'!').ok(),
    }
}

/// What so many reads of an input give.
pub(crate) fn reads<S: Source>(alloc: Global, source: &mut S, count: u64) -> Option<Bytes> {
    let mut read = Bytes::new(alloc);
    for _ in 0..count {
        read_two(source, &mut read)?;
    }
    Some(read)
}

/// How many bytes of a piece an output takes, if it isn't longer than one that may be offered.
pub(crate) fn put<S: Sink>(sink: &mut S, piece: &[u8]) -> Option<usize> {
    if piece.len() > 65_536 {
        return None;
    }
    sink.write(piece).ok()
}
