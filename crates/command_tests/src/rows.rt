// Rows of tables: what is asked, ` => `, and what is to be told. A `;` stands for a line's end.
use lp_values::{Bytes, Text, TextList};
use std::alloc::{AllocError, Global};
use std::process::Abort;
use std::str;

/// A word behind those of a command line.
pub(crate) fn add_word(words: &mut TextList, alloc: Global, word: &str) -> Result<(), AllocError> {
    let word = Text::from_str(alloc, word)?;
    words.push(word)
}

fn add_words(words: &mut TextList, alloc: Global, added: &[&str]) -> Result<(), AllocError> {
    for word in added {
        add_word(words, alloc, word)?;
    }
    Ok(())
}

/// The words of a command line.
pub(crate) fn words_of(alloc: Global, words: &[&str]) -> Result<TextList, AllocError> {
    let mut list = TextList::new(alloc);
    add_words(&mut list, alloc, words)?;
    Ok(list)
}

fn add_lines(to: &mut Bytes, text: &str) -> Result<(), AllocError> {
    for byte in text.as_bytes() {
        to.push(if *byte == b';' { b'\n' } else { *byte })?;
    }
    Ok(())
}

/// The bytes of a text.
pub(crate) fn bytes_of(alloc: Global, text: &str) -> Result<Bytes, AllocError> {
    let mut bytes = Bytes::new(alloc);
    add_lines(&mut bytes, text)?;
    Ok(bytes)
}

/// What a row asks, which stands before ` => `.
pub(crate) fn asked(row: &str) -> &str {
    match row.split_once(" => ") {
        Some((asked, _wanted)) => asked,
        None => row,
    }
}

/// What a row wants to be told, which stands behind ` => `.
fn wanted(row: &str) -> &str {
    match row.split_once(" => ") {
        Some((_asked, wanted)) => wanted,
        None => "no text",
    }
}

/// The word at a place of a row.
pub(crate) fn word(row: &str, place: usize) -> &str {
    row.split(' ').nth(place).unwrap_or("")
}

fn check_bytes(rt: &impl Abort, row: &str, told: &[u8], wanted: &[u8]) {
    let text = str::from_utf8(told).unwrap_or("no text");
    assert!(rt; told == wanted, "{row}\n{text}");
}

/// Ends the test where a run told other bytes than its row wants.
pub(crate) fn check(
    rt: &impl Abort,
    alloc: Global,
    row: &str,
    told: &Bytes,
) -> Result<(), AllocError> {
    let wanted = bytes_of(alloc, wanted(row))?;
    check_bytes(rt, row, told.as_slice(), wanted.as_slice());
    Ok(())
}
