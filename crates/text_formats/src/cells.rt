// The cells of a table.
ghost use Rattle.std.specs.Prelude.{◌≡◌, ◌≤◌, ◌++◌, length, take, drop, map, replicate, IfOk, OnOk, OnErr};
ghost use Rattle.std.specs.List.{list_any};
ghost use Rattle.lp_model.specs.Outside.{GrowsIn};
ghost use Rattle.text_formats.specs.Noted.{is_odd};
ghost use Rattle.text_formats.specs.Tables.{begins_scalar, scalars, is_control, shown_byte, is_null, cell_of};

use lp_values::{Bytes, Value, bytes_from, bytes_to, print};
use std::alloc::AllocError;

fn begins_scalar(byte: u8) -> bool
    ensures { result ≡ begins_scalar byte }
{
    byte < 128 || byte >= 192
}

fn scalars(text: &[u8]) -> usize
    ensures { result ≡ scalars text.now }
{
    text.iter().filter(|byte| begins_scalar(**byte)).count()
}

fn is_control(byte: u8) -> bool
    ensures { result ≡ is_control byte }
{
    byte < 32 || byte == 127
}

fn is_odd(byte: u8) -> bool
    ensures { result ≡ is_odd byte }
{
    byte < 32 || byte >= 127
}

fn shown_byte(byte: u8) -> u8
    ensures { result ≡ shown_byte byte }
{
    if is_control(byte) { b'?' } else { byte }
}

fn has_control(text: &[u8]) -> bool
    ensures { result ≡ list_any is_control text.now }
{
    text.iter().any(|byte| is_control(*byte))
}

// Appends a text with `?` for each control character.
fn add_each(text: &[u8], to: &mut Bytes) -> Result<(), AllocError>
    ensures ok { OnOk result (to.new ≡ to.old ++ map shown_byte text.now) }
    ensures err { OnErr result (GrowsIn to.old to.new (map shown_byte text.now)) }
{
    for byte in text {
        to.push(shown_byte(*byte))?;
    }
    Ok(())
}

fn is_null(value: &Value) -> bool
    ensures { result ≡ is_null value.now }
{
    match value {
        Value::Null => true,
        Value::Int(_) | Value::Real(_) | Value::Text(_) | Value::Stamp(_) => false,
    }
}

// Whether a byte is no whole character, or a control character. No byte ends the loop, so that it takes many at a time.
fn has_odd(text: &[u8]) -> bool
    ensures { result ≡ list_any is_odd text.now }
{
    let mut found = false;
    for byte in text {
        found |= is_odd(*byte);
    }
    found
}

// Puts `?` for each control character from a place on.
fn replace_controls(start: usize, scratch: &mut Bytes, texts: &mut Bytes) -> Result<(), AllocError>
    requires { start ≤ length texts.old }
    ensures { OnOk result (texts.new ≡ take start texts.old ++ map shown_byte (drop start texts.old)) }
{
    scratch.clear();
    scratch.add(bytes_from(texts.as_slice(), start))?;
    texts.truncate(start);
    add_each(scratch.as_slice(), texts)
}

// Makes what is printed from a place on a cell's text, and tells its width; it has an odd byte.
fn show_odd(start: usize, scratch: &mut Bytes, texts: &mut Bytes) -> Result<usize, AllocError>
    requires { start ≤ length texts.old }
    ensures shown { OnOk result (texts.new ≡ take start texts.old ++ map shown_byte (drop start texts.old)) }
    ensures width { IfOk result (λ width. width ≡ scalars (map shown_byte (drop start texts.old))) }
{
    let text = bytes_from(texts.as_slice(), start);
    let width = scalars(text);
    if has_control(text) {
        replace_controls(start, scratch, texts)?;
    }
    Ok(width)
}

// Makes what is printed from a place on a cell's text, and tells its width. Most texts have no odd byte: they stay, and are
// as wide as they are long.
fn show(start: usize, scratch: &mut Bytes, texts: &mut Bytes) -> Result<usize, AllocError>
    requires { start ≤ length texts.old }
    ensures shown { OnOk result (texts.new ≡ take start texts.old ++ map shown_byte (drop start texts.old)) }
    ensures width { IfOk result (λ width. width ≡ scalars (map shown_byte (drop start texts.old))) }
{
    let text = bytes_from(texts.as_slice(), start);
    if has_odd(text) {
        show_odd(start, scratch, texts)
    } else {
        Ok(text.len())
    }
}

// Appends a value's cell, and tells its width.
pub(crate) fn add_cell(
    value: &Value,
    scratch: &mut Bytes,
    texts: &mut Bytes,
) -> Result<usize, AllocError>
    ensures text { OnOk result (texts.new ≡ texts.old ++ cell_of value.now) }
    ensures width { IfOk result (λ width. width ≡ scalars (cell_of value.now)) }
{
    if is_null(value) {
        texts.push(b'-')?;
        return Ok(1);
    }
    let start = texts.len();
    print(value, texts)?;
    show(start, scratch, texts)
}

// How many bytes are appended at once.
const RUN: usize = 64;

// Appends a byte so many times.
pub(crate) fn add_times(count: usize, byte: u8, to: &mut Bytes) -> Result<(), AllocError>
    ensures ok { OnOk result (to.new ≡ to.old ++ replicate count byte) }
    ensures err { OnErr result (GrowsIn to.old to.new (replicate count byte)) }
{
    let run = [byte; RUN];
    for _ in 0..count / RUN {
        to.add(&run)?;
    }
    to.add(bytes_to(&run, count % RUN))
}
