// Marks found in a section.
ghost use Rattle.std.specs.Prelude.{◌≡◌, ◌≤◌, ◌<◌, ◌+◌, ◌-◌, ◌*◌, ◌^◌, length, codes, nat_le, None, IfSome, option_map, if◌then◌else◌};
ghost use Rattle.std.specs.Char.{is_ascii_digit};
ghost use Rattle.std.specs.Option.{option_or};
ghost use Rattle.tpl_output.specs.Marks.{place_of, column_of, numbered, named, mark_of, mark_in, mark_at, ended_at};

use crate::words::{back, begins_as, front, is_same_word};
use crate::{FoundMark, Mark};
use lp_values::TextList;

// The digit that a byte is.
fn digit_of(byte: u8) -> Option<u8>
    ensures value { result ≡ (if is_ascii_digit byte then Some (byte - 48) else None) }
    ensures small { IfSome result (λ digit. digit < 10) }
{
    if byte.is_ascii_digit() {
        Some(byte - b'0')
    } else {
        None
    }
}

// A number with one more digit; one above the columns stays as it is.
fn with_digit(columns: usize, number: u128, digit: u8) -> u128
    requires digit { digit < 10 }
    requires small { number ≤ 10 * columns + 9 }
    ensures value { result ≡ (if nat_le number columns then number * 10 + digit else number) }
    ensures small { result ≤ 10 * columns + 9 }
{
    if number <= columns as u128 {
        number * 10 + u128::from(digit)
    } else {
        number
    }
}

// The place of a column that a number tells.
fn place_of(columns: usize, number: u128) -> Option<usize>
    ensures { result ≡ place_of columns number }
{
    if 1 <= number && number <= columns as u128 {
        Some(number as usize - 1)
    } else {
        None
    }
}

// The column that digits tell.
fn column_of(columns: usize, digits: &[u8]) -> Option<usize>
    ensures { result ≡ column_of columns digits.now }
{
    let mut number: u128 = 0;
    for byte in digits {
        let Some(digit) = digit_of(*byte) else {
            return None;
        };
        number = with_digit(columns, number, digit);
    }
    place_of(columns, number)
}

fn numbered(columns: usize, word: &[u8], inner: &[u8]) -> Option<usize>
    ensures { result ≡ numbered columns word.now inner.now }
{
    if begins_as(word, inner) {
        column_of(columns, back(inner, word.len()))
    } else {
        None
    }
}

fn named(names: &TextList, inner: &[u8]) -> Option<usize>
    ensures { result ≡ named names.now inner.now }
{
    names
        .as_slice()
        .iter()
        .position(|name| is_same_word(name.as_str().as_bytes(), inner))
}

// The column whose value a body's mark stands for.
fn column_meant(names: &TextList, inner: &[u8]) -> Option<usize>
    ensures { result ≡ option_or (numbered (length names.now) (codes "FIELD_") inner.now) (named names.now inner.now) }
{
    match numbered(names.len(), b"FIELD_", inner) {
        Some(column) => Some(column),
        None => named(names, inner),
    }
}

fn value_mark(names: &TextList, body: bool, inner: &[u8]) -> Option<Mark>
    ensures { result ≡ (if body then option_map Mark.Value (option_or (numbered (length names.now) (codes "FIELD_") inner.now) (named names.now inner.now)) else None) }
{
    if !body {
        return None;
    }
    match column_meant(names, inner) {
        Some(column) => Some(Mark::Value(column)),
        None => None,
    }
}

fn mark_of(names: &TextList, body: bool, inner: &[u8]) -> Option<Mark>
    ensures { result ≡ mark_of names.now body inner.now }
{
    if is_same_word(inner, b"FIELDS_NUM") {
        return Some(Mark::Count);
    }
    if is_same_word(inner, b"SYSTEM_TIMESTAMP") {
        return Some(Mark::Moment);
    }
    match numbered(names.len(), b"FIELDNAME_", inner) {
        Some(column) => Some(Mark::Name(column)),
        None => value_mark(names, body, inner),
    }
}

// The mark that ends at a byte.
fn ended_mark(names: &TextList, body: bool, text: &[u8], at: usize, byte: u8) -> Option<FoundMark>
    requires { at < 2 ^ 63 }
    ensures value { result ≡ ended_at names.now body text.now at byte }
    ensures size { IfSome result (λ found. found.size ≡ at + 1) }
{
    if byte != b'%' {
        return None;
    }
    match mark_of(names, body, front(text, at)) {
        Some(mark) => Some(FoundMark { mark, size: at + 1 }),
        None => None,
    }
}

// The mark that a `%` before a text begins.
fn mark_in(names: &TextList, body: bool, text: &[u8]) -> Option<FoundMark>
    ensures value { result ≡ mark_in names.now body text.now }
    ensures within { IfSome result (λ found. found.size ≤ length text.now) }
{
    for (at, byte) in text.iter().enumerate() {
        if let Some(found) = ended_mark(names, body, text, at, *byte) {
            return Some(found);
        }
    }
    None
}

/// The mark that a byte and the text behind it begin.
pub(crate) fn mark_at(names: &TextList, body: bool, byte: u8, behind: &[u8]) -> Option<FoundMark>
    ensures value { result ≡ mark_at names.now body byte behind.now }
    ensures within { IfSome result (λ found. found.size ≤ length behind.now) }
{
    if byte == b'%' {
        mark_in(names, body, behind)
    } else {
        None
    }
}
