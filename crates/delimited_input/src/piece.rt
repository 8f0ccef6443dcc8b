// A field of a line, where the line holds it as it is, or with its quotes doubled.
ghost use Rattle.std.specs.Prelude.{◌≡◌, ◌≤◌, ℕ, List, true, false, length, drop, IfOk};
ghost use Rattle.std.specs.List.{position_or_len};
ghost use Rattle.memchr.specs.Find.{is_byte};
ghost use Rattle.line_input.specs.Taken.{part_of, slot_bytes};
ghost use Rattle.delimited_input.specs.Fields.{first_field, plain_field, quoted_field};
ghost use Rattle.delimited_input.specs.Lines.{slot_of};
ghost use Rattle.delimited_input.specs.Pieces.{IsBehind, IsStep, behind_bytes, is_doubled, is_opened};

use line_input::{Extent, Fields, Slot};
use lp_values::{Bytes, bytes_from};
use memchr::memchr;
use std::alloc::{AllocError, Global};

/// What stands behind a field.
#[derive(Clone, Copy, Debug, PartialEq, Eq)]
pub(crate) enum Step {
    /// The next field, which begins there.
    Next(usize),
    /// The line's end.
    Last,
    /// Neither, as the field's quotes aren't closed, or text follows them.
    Other,
}

// How many bytes stand before the first of these.
fn length_before(byte: u8, bytes: &[u8]) -> usize
    ensures length { result ≡ position_or_len (is_byte byte) bytes.now }
    ensures fits { result ≤ length bytes.now }
{
    memchr(byte, bytes).unwrap_or(bytes.len())
}

// The field that stands there; an empty one is none.
fn slot_at(alloc: Global, line: &[u8], from: usize, to: usize) -> Result<Slot, AllocError>
    requires order { from ≤ to }
    requires within { to ≤ length line.now }
    ensures { IfOk result (λ slot. slot_bytes line.now slot ≡ slot_of (part_of line.now from to)) }
{
    if from == to {
        return Ok(Slot::Absent);
    }
    Extent { from, to }.slot(alloc, line)
}

/// A field of its own; an empty one is none.
pub(crate) fn own_slot(bytes: Bytes) -> Slot
    ensures { (line : List ℕ) → slot_bytes line result ≡ slot_of bytes }
{
    if bytes.len() == 0 {
        Slot::Absent
    } else {
        Slot::Own(bytes)
    }
}

// Takes a field without quotes, which goes up to the next separator.
fn take_plain(
    alloc: Global,
    separator: u8,
    line: &[u8],
    from: usize,
    row: &mut Fields,
) -> Result<Step, AllocError>
    requires { from ≤ length line.now }
    ensures { IfOk result (IsStep false (plain_field separator (drop from line.now)) line.now row.old row.new) }
{
    let to = from + length_before(separator, bytes_from(line, from));
    row.push(slot_at(alloc, line, from, to)?)?;
    if to == line.len() {
        Ok(Step::Last)
    } else {
        Ok(Step::Next(to + 1))
    }
}

// Whether two quotes stand there, which are one.
fn is_doubled(line: &[u8], at: usize) -> bool
    requires { at ≤ length line.now }
    ensures { result ≡ is_doubled (drop at line.now) }
{
    match bytes_from(line, at) {
        [b'"', b'"', ..] => true,
        _ => false,
    }
}

// What stands behind the quote there, if that closes a field.
fn step_behind(separator: u8, line: &[u8], at: usize) -> Step
    requires { at ≤ length line.now }
    ensures { IsBehind (quoted_field separator (drop at line.now)) line.now result }
{
    match bytes_from(line, at) {
        [b'"'] => Step::Last,
        [b'"', b'"', ..] => Step::Other,
        [b'"', byte, ..] if *byte == separator => Step::Next(at + 2),
        _ => Step::Other,
    }
}

// Adds what a field in quotes holds from a place on, and tells where the quote stands that isn't doubled, or the line's
// end.
fn add_quoted(line: &[u8], from: usize, held: &mut Bytes) -> Result<usize, AllocError>
    requires { from ≤ length line.now }
    ensures within { IfOk result (λ to. to ≤ length line.now) }
    ensures bytes { IfOk result (λ to. (separator : ℕ) → behind_bytes held.old (quoted_field separator (drop from line.now)) ≡ behind_bytes held.new (quoted_field separator (drop to line.now))) }
{
    let mut at = from;
    let mut to = at + length_before(b'"', bytes_from(line, at));
    while is_doubled(line, to) {
        held.add(Extent {
            from: at,
            to: to + 1,
        }
        .of(line))?;
        at = to + 2;
        to = at + length_before(b'"', bytes_from(line, at));
    }
    held.add(Extent { from: at, to }.of(line))?;
    Ok(to)
}

// Takes a field in quotes, of which some are doubled, behind the quote that opens it.
fn take_doubled(
    alloc: Global,
    separator: u8,
    line: &[u8],
    from: usize,
    row: &mut Fields,
) -> Result<Step, AllocError>
    requires { from ≤ length line.now }
    ensures { IfOk result (IsStep true (quoted_field separator (drop from line.now)) line.now row.old row.new) }
{
    let mut held = Bytes::new(alloc);
    let to = add_quoted(line, from, &mut held)?;
    row.push(own_slot(held))?;
    Ok(step_behind(separator, line, to))
}

// Takes a field in quotes, behind the quote that opens it.
fn take_quoted(
    alloc: Global,
    separator: u8,
    line: &[u8],
    from: usize,
    row: &mut Fields,
) -> Result<Step, AllocError>
    requires { from ≤ length line.now }
    ensures { IfOk result (IsStep true (quoted_field separator (drop from line.now)) line.now row.old row.new) }
{
    let to = from + length_before(b'"', bytes_from(line, from));
    if is_doubled(line, to) {
        return take_doubled(alloc, separator, line, from, row);
    }
    row.push(slot_at(alloc, line, from, to)?)?;
    Ok(step_behind(separator, line, to))
}

// Whether a quote stands there.
fn is_opened(line: &[u8], at: usize) -> bool
    requires { at ≤ length line.now }
    ensures { result ≡ is_opened (drop at line.now) }
{
    match bytes_from(line, at) {
        [b'"', ..] => true,
        _ => false,
    }
}

/// Adds the field that begins at a place to `row`, and tells what stands behind it.
pub(crate) fn take_field(
    alloc: Global,
    separator: u8,
    quotes: bool,
    line: &[u8],
    at: usize,
    row: &mut Fields,
) -> Result<Step, AllocError>
    requires { at ≤ length line.now }
    ensures { IfOk result (IsStep quotes (first_field separator quotes (drop at line.now)) line.now row.old row.new) }
{
    if quotes && is_opened(line, at) {
        take_quoted(alloc, separator, line, at + 1, row)
    } else {
        take_plain(alloc, separator, line, at, row)
    }
}
