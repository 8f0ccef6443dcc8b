// The fields of a line.
ghost use Rattle.std.specs.Prelude.{◌≡◌, ◌<◌, true, false, List, ℕ, length, is_none, IfOk, IfSome};
ghost use Rattle.csv.specs.Records.{fields_of as record_fields};
ghost use Rattle.line_input.specs.Taken.{slot_bytes};
ghost use Rattle.delimited_input.specs.Cuts.{IsCut};
ghost use Rattle.delimited_input.specs.Fields.{fields_of};
ghost use Rattle.delimited_input.specs.Lines.{fields_in, is_broken, slot_of};

use crate::DelimitedOptions;
use crate::piece::{Step, own_slot, take_field};
use csv::{ByteRecord, ReaderBuilder};
use line_input::{Fields, Slot};
use lp_values::Bytes;
use std::alloc::{AllocError, Global};
use std::io::Read;

// A reader takes one byte order mark off what it reads.
const MARK: [u8; 3] = [0xEF, 0xBB, 0xBF];

// Puts the first fields of a line into `row`, at most so many, and tells whether these are all; or nothing, where a field
// is in quotes that aren't closed, or that text follows.
fn cut_closed(
    alloc: Global,
    separator: u8,
    quotes: bool,
    line: &[u8],
    most: usize,
    row: &mut Fields,
) -> Result<Option<bool>, AllocError>
    ensures cut { IfOk result (λ all. IfSome all (IsCut line.now (fields_of separator quotes line.now) most row.new)) }
    ensures other { IfOk result (λ all. is_none all ≡ true → quotes ≡ true) }
{
    row.clear();
    let mut at = 0;
    for _ in 0..most {
        match take_field(alloc, separator, quotes, line, at, row)? {
            Step::Next(next) => at = next,
            Step::Last => return Ok(Some(true)),
            Step::Other => return Ok(None),
        }
    }
    Ok(Some(false))
}

// Reads a line in which a quote may open a field.
fn read_quoted(alloc: Global, separator: u8, line: &[u8]) -> Result<ByteRecord, AllocError>
    requires filled { 0 < length line.now }
    requires whole { is_broken line.now ≡ false }
    ensures { IfOk result (λ row. record_fields row ≡ fields_of separator true line.now) }
{
    let marked = MARK.as_slice().chain(line);
    let mut reader = ReaderBuilder::new()
        .delimiter(separator)
        .has_headers(false)
        .from_reader(alloc, marked);
    let mut row = ByteRecord::new(alloc);
    match reader.read_byte_record(&mut row) {
        Ok(true) => Ok(row),
        Ok(false) => Err(AllocError),
        // A slice's reader has no error of its own, and one record has no other to differ from.
        Err(_) => Err(AllocError),
    }
}

// A field that keeps its bytes.
fn copied_slot(alloc: Global, field: &[u8]) -> Result<Slot, AllocError>
    ensures { IfOk result (λ slot. (line : List ℕ) → slot_bytes line slot ≡ slot_of field.now) }
{
    let mut own = Bytes::new(alloc);
    own.add(field)?;
    Ok(own_slot(own))
}

// Puts the first fields of a record into `row`, at most so many, and tells whether these are all.
fn keep_fields(
    alloc: Global,
    source: &ByteRecord,
    most: usize,
    row: &mut Fields,
) -> Result<bool, AllocError>
    ensures { IfOk result (λ all. (line : List ℕ) → IsCut line (record_fields source.now) most row.new all) }
{
    row.clear();
    for index in 0..most {
        let Some(field) = source.get(index) else {
            return Ok(true);
        };
        row.push(copied_slot(alloc, field)?)?;
    }
    Ok(source.len() <= most)
}

// Puts the first fields of a line in which a quote may open a field into `row`, at most so many, and tells whether these
// are all.
fn cut_read(
    alloc: Global,
    separator: u8,
    line: &[u8],
    most: usize,
    row: &mut Fields,
) -> Result<bool, AllocError>
    requires filled { 0 < length line.now }
    requires whole { is_broken line.now ≡ false }
    ensures { IfOk result (λ all. IsCut line.now (fields_of separator true line.now) most row.new all) }
{
    match read_quoted(alloc, separator, line) {
        Ok(record) => {
            let all = keep_fields(alloc, &record, most, row);
            drop(record);
            all
        }
        Err(error) => Err(error),
    }
}

/// Puts the first fields of a line into `row`, at most so many, and tells whether these are all.
pub(crate) fn cut_line(
    alloc: Global,
    options: DelimitedOptions,
    line: &[u8],
    most: usize,
    row: &mut Fields,
) -> Result<bool, AllocError>
    requires filled { 0 < length line.now }
    requires whole { is_broken line.now ≡ false }
    ensures { IfOk result (λ all. IsCut line.now (fields_in options line.now) most row.new all) }
{
    match cut_closed(alloc, options.separator, options.quotes, line, most, row) {
        Ok(Some(all)) => Ok(all),
        Ok(None) => cut_read(alloc, options.separator, line, most, row),
        Err(error) => Err(error),
    }
}
