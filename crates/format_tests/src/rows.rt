// Rows from a line of a table, and whether a shape writes a text of them.
use lp_values::{Bytes, Part, Stamp, Text, TextList, Value, ValueList, read_integer};
use output_formats::{Headers, Shape};
use std::alloc::{AllocError, Global};

// What a byte of a table stands for: `$` is LF, `^` a comma.
fn meant(byte: u8) -> u8 {
    match byte {
        b'$' => b'\n',
        b'^' => b',',
        other => other,
    }
}

/// A line of a table as bytes.
pub fn bytes_of(alloc: Global, text: &str) -> Result<Bytes, AllocError> {
    let mut to = Bytes::new(alloc);
    for byte in text.as_bytes() {
        to.push(meant(*byte))?;
    }
    Ok(to)
}

fn text_from(alloc: Global, text: &str) -> Result<Text, AllocError> {
    let bytes = bytes_of(alloc, text)?;
    Text::read(alloc, bytes.as_slice())
}

fn stamp_at(seconds: &str) -> Value {
    let seconds = read_integer(seconds).unwrap_or(0);
    Stamp::new(seconds, Part::Both).map_or(Value::Null, Value::Stamp)
}

fn other_value(alloc: Global, text: &str) -> Result<Value, AllocError> {
    match text.strip_prefix('@') {
        Some(seconds) => Ok(stamp_at(seconds)),
        None => Ok(Value::Text(text_from(alloc, text)?)),
    }
}

// `~` is NULL, digits are an integer, `@` and digits a stamp.
fn value_of(alloc: Global, text: &str) -> Result<Value, AllocError> {
    match read_integer(text) {
        Some(number) => Ok(Value::Int(number)),
        None if text == "~" => Ok(Value::Null),
        None => other_value(alloc, text),
    }
}

fn add_value(alloc: Global, row: &mut ValueList, text: &str) -> Result<(), AllocError> {
    row.push(value_of(alloc, text)?)
}

// Values between commas.
fn row_of(alloc: Global, text: &str) -> Result<ValueList, AllocError> {
    let mut row = ValueList::new(alloc);
    for value in text.split(',') {
        add_value(alloc, &mut row, value)?;
    }
    Ok(row)
}

fn add_name(alloc: Global, names: &mut TextList, text: &str) -> Result<(), AllocError> {
    names.push(text_from(alloc, text)?)
}

fn names_of(alloc: Global, text: &str) -> Result<TextList, AllocError> {
    let mut names = TextList::new(alloc);
    for name in text.split(',') {
        add_name(alloc, &mut names, name)?;
    }
    Ok(names)
}

fn begin<F: Shape>(
    alloc: Global,
    shape: &mut F,
    fresh: bool,
    names: &str,
    to: &mut Bytes,
) -> Result<(), AllocError> {
    let names = names_of(alloc, names)?;
    shape.begin(&names, fresh, to)
}

fn add_row<F: Shape>(
    alloc: Global,
    shape: &mut F,
    row: &str,
    to: &mut Bytes,
) -> Result<(), AllocError> {
    let row = row_of(alloc, row)?;
    shape.row(&row, to)
}

fn end<F: Shape>(shape: &mut F, to: &mut Bytes) -> Result<(), AllocError> {
    shape.end(to)
}

// Adds what a shape writes of `names;row;row`.
fn add_text<F: Shape>(
    alloc: Global,
    shape: &mut F,
    fresh: bool,
    table: &str,
    to: &mut Bytes,
) -> Result<(), AllocError> {
    let mut parts = table.split(';');
    begin(alloc, shape, fresh, parts.next().unwrap_or(""), to)?;
    for part in parts {
        add_row(alloc, shape, part, to)?;
    }
    end(shape, to)
}

// Whether bytes are a line of a table.
fn is_text(alloc: Global, bytes: &Bytes, want: &str) -> Result<bool, AllocError> {
    let want = bytes_of(alloc, want)?;
    Ok(bytes.as_slice() == want.as_slice())
}

/// Whether a shape writes just this of `names;row;row`.
pub fn writes<F: Shape>(
    alloc: Global,
    shape: &mut F,
    fresh: bool,
    table: &str,
    want: &str,
) -> Result<bool, AllocError> {
    let mut told = Bytes::new(alloc);
    add_text(alloc, shape, fresh, table, &mut told)?;
    is_text(alloc, &told, want)
}

/// What stands before a mark and behind it.
pub fn cut<'a>(text: &'a str, mark: &str) -> (&'a str, &'a str) {
    match text.split_once(mark) {
        Some(parts) => parts,
        None => (text, ""),
    }
}

pub fn headers_of(word: &str) -> Headers {
    match word {
        "ON" => Headers::On,
        "OFF" => Headers::Off,
        _ => Headers::Auto,
    }
}
