// Standings as bytes, written out by hand.
use line_input::{Column, Standing, StandingFault};
use lp_values::Bytes;
use std::alloc::Global;

fn add_byte(bytes: &mut Bytes, word: &str) -> Option<()> {
    match u8::from_str_radix(word, 16) {
        Ok(byte) => bytes.push(byte).ok(),
        Err(_) => Some(()),
    }
}

// Bytes by their two digits each, between spaces.
fn bytes_of(alloc: Global, digits: &str) -> Option<Bytes> {
    let mut bytes = Bytes::new(alloc);
    for word in digits.split(' ') {
        add_byte(&mut bytes, word)?;
    }
    Some(bytes)
}

pub fn add(to: &mut String, text: &str) -> Option<()> {
    to.push_str(text).ok()
}

/// Adds the names of columns, each behind a space.
pub fn add_names(to: &mut String, columns: &[Column]) -> Option<()> {
    for column in columns {
        add(to, " ")?;
        add(to, column.name())?;
    }
    Some(())
}

// The lines and the columns, if there are any, of a standing.
fn show(alloc: Global, standing: &Standing) -> Option<String> {
    let lines = standing.lines();
    let mut to = format!(in alloc; "{lines}").ok()?;
    match standing.columns() {
        Some(columns) => add_names(&mut to, columns.as_slice())?,
        None => add(&mut to, " none")?,
    }
    Some(to)
}

// Whether a standing is written as these bytes.
fn is_written_as(alloc: Global, standing: &Standing, bytes: &[u8]) -> Option<bool> {
    let mut written = Bytes::new(alloc);
    standing.to_bytes(&mut written).ok()?;
    Some(written.as_slice() == bytes)
}

// A standing, where it is written as the bytes that it was read from.
fn show_read(alloc: Global, standing: &Standing, bytes: &[u8]) -> Option<String> {
    if is_written_as(alloc, standing, bytes)? {
        show(alloc, standing)
    } else {
        None
    }
}

fn show_place(alloc: Global, at: u64) -> Option<String> {
    format!(in alloc; "malformed at {at}").ok()
}

// What bytes stand for, or the place of the field that doesn't fit.
fn show_bytes(alloc: Global, bytes: &[u8]) -> Option<String> {
    match Standing::from_bytes(alloc, bytes) {
        Ok(standing) => show_read(alloc, &standing, bytes),
        Err(StandingFault::Malformed { at }) => show_place(alloc, at),
        Err(StandingFault::Memory) => None,
    }
}

fn shown(alloc: Global, digits: &str) -> Option<String> {
    let bytes = bytes_of(alloc, digits)?;
    show_bytes(alloc, bytes.as_slice())
}

fn is_shown(alloc: Global, row: &str) -> Option<bool> {
    let (digits, wanted) = row.split_once(" => ")?;
    let shown = shown(alloc, digits)?;
    Some(shown.as_str() == wanted)
}

const ROWS: &str = "01 00 00 00 00 00 00 00 00 => 1 none
00 00 00 00 00 00 00 00 01 00 00 => 0
02 00 00 00 00 00 00 00 01 02 00 01 00 00 00 61 02 00 00 00 c3 a9 => 2 a é
ff 00 01 00 00 00 00 00 01 01 00 00 00 00 00 => 65791 
- => malformed at 0
01 00 00 00 00 00 00 => malformed at 0
01 00 00 00 00 00 00 00 => malformed at 8
01 00 00 00 00 00 00 00 02 => malformed at 8
01 00 00 00 00 00 00 00 00 00 => malformed at 9
01 00 00 00 00 00 00 00 01 01 => malformed at 8
01 00 00 00 00 00 00 00 01 01 04 => malformed at 8
01 00 00 00 00 00 00 00 01 01 00 02 00 00 00 61 => malformed at 8
01 00 00 00 00 00 00 00 01 01 00 01 00 00 00 ff => malformed at 8
01 00 00 00 00 00 00 00 01 02 00 01 00 00 00 61 01 00 00 => malformed at 8
01 00 00 00 00 00 00 00 01 01 00 01 00 00 00 61 00 => malformed at 16";

#[test]
fn standings_are_read_and_written(rt: HostRuntime) {
    for row in ROWS.lines() {
        assert!(rt; is_shown(rt.alloc(), row) == Some(true), "{row}");
    }
}
