// Texts that are made of others, of at most so many bytes.
ghost use Rattle.std.specs.Prelude.{◌≡◌, ◌++◌, ◌≤◌, ◌<◌, IfOk, string_bytes, IsTrue, ◌↔◌, map, length, encode_utf8};
ghost use Rattle.std.specs.Char.{to_ascii_lowercase, to_ascii_uppercase};
ghost use Rattle.text_functions.specs.Replacing.{within, replaced, replaced_character, replaced_characters};
ghost use Rattle.text_functions.specs.Pieces.{pieces, joined};

use crate::characters::{first_character, has_character};
use crate::occurrences::cut_first;
use lp_values::Text;
use std::alloc::{AllocError, Global};

/// Two texts, one behind the other. `None` exactly where they have more bytes than `most`.
pub fn strcat(alloc: Global, a: &str, b: &str, most: usize) -> Result<Option<Text>, AllocError>
    ensures { IfOk result (λ text. text ≡ within most (a.now ++ b.now)) }
{
    let mut made = String::new(alloc);
    if !add(&mut made, a, most)? {
        return Ok(None);
    }
    if !add(&mut made, b, most)? {
        return Ok(None);
    }
    Ok(Some(Text::from_string(made)))
}

// Adds a piece where there is room.
fn add(made: &mut String, piece: &str, most: usize) -> Result<bool, AllocError>
    requires { length (string_bytes made.old) ≤ most }
    ensures room { IfOk result (λ fits. IsTrue fits ↔ (length (string_bytes made.old ++ piece.now) ≤ most)) }
    ensures added { IfOk result (λ fits. IsTrue fits → string_bytes made.new ≡ string_bytes made.old ++ piece.now) }
{
    if piece.len() > most - made.len() {
        return Ok(false);
    }
    made.push_str(piece)?;
    Ok(true)
}

// Adds a character where there is room.
fn add_character(made: &mut String, character: char, most: usize) -> Result<bool, AllocError>
    requires { length (string_bytes made.old) ≤ most }
    ensures room { IfOk result (λ fits. IsTrue fits ↔ (length (string_bytes made.old ++ encode_utf8 character) ≤ most)) }
    ensures added { IfOk result (λ fits. IsTrue fits → string_bytes made.new ≡ string_bytes made.old ++ encode_utf8 character) }
{
    if character.len_utf8() > most - made.len() {
        return Ok(false);
    }
    made.push(character)?;
    Ok(true)
}

/// Each occurrence of a part replaced; unchanged for an empty part. `None` exactly where that has more bytes than `most`.
pub fn replace_str(
    alloc: Global,
    text: &str,
    part: &str,
    by: &str,
    most: usize,
) -> Result<Option<Text>, AllocError>
    ensures { IfOk result (λ made. made ≡ within most (replaced text.now part.now by.now)) }
{
    if part.is_empty() {
        return copy(alloc, text, most);
    }
    replace_part(alloc, text, part, by, most)
}

fn copy(alloc: Global, text: &str, most: usize) -> Result<Option<Text>, AllocError>
    ensures { IfOk result (λ made. made ≡ within most text.now) }
{
    if text.len() > most {
        return Ok(None);
    }
    Ok(Some(Text::from_str(alloc, text)?))
}

fn replace_part(
    alloc: Global,
    text: &str,
    part: &str,
    by: &str,
    most: usize,
) -> Result<Option<Text>, AllocError>
    requires { 0 < length part.now }
    ensures { IfOk result (λ made. made ≡ within most (joined by.now (pieces part.now text.now))) }
{
    let mut made = String::new(alloc);
    let mut rest = text;
    while let Some((before, next)) = cut_first(rest, part) {
        if !add(&mut made, before, most)? {
            return Ok(None);
        }
        if !add(&mut made, by, most)? {
            return Ok(None);
        }
        rest = next;
    }
    if !add(&mut made, rest, most)? {
        return Ok(None);
    }
    Ok(Some(Text::from_string(made)))
}

/// Each character that is one of some replaced. `None` exactly where that has more bytes than `most`.
pub fn replace_chr(
    alloc: Global,
    text: &str,
    some: &str,
    by: &str,
    most: usize,
) -> Result<Option<Text>, AllocError>
    ensures { IfOk result (λ made. made ≡ within most (replaced_characters text.now some.now by.now)) }
{
    let mut made = String::new(alloc);
    let mut rest = text;
    while let Some((first, next)) = first_character(rest) {
        if !add_replaced(&mut made, first, some, by, most)? {
            return Ok(None);
        }
        rest = next;
    }
    Ok(Some(Text::from_string(made)))
}

fn add_replaced(
    made: &mut String,
    character: char,
    some: &str,
    by: &str,
    most: usize,
) -> Result<bool, AllocError>
    requires { length (string_bytes made.old) ≤ most }
    ensures room { IfOk result (λ fits. IsTrue fits ↔ (length (string_bytes made.old ++ replaced_character some.now by.now character) ≤ most)) }
    ensures added { IfOk result (λ fits. IsTrue fits → string_bytes made.new ≡ string_bytes made.old ++ replaced_character some.now by.now character) }
{
    if has_character(some, character) {
        add(made, by, most)
    } else {
        add_character(made, character, most)
    }
}

/// The letters of ASCII as small ones. `None` exactly where the text has more bytes than `most`.
pub fn to_lowercase(alloc: Global, text: &str, most: usize) -> Result<Option<Text>, AllocError>
    ensures { IfOk result (λ made. made ≡ within most (map to_ascii_lowercase text.now)) }
{
    if text.len() > most {
        return Ok(None);
    }
    Ok(Some(Text::from_string(text.to_ascii_lowercase(alloc)?)))
}

/// The letters of ASCII as capitals. `None` exactly where the text has more bytes than `most`.
pub fn to_uppercase(alloc: Global, text: &str, most: usize) -> Result<Option<Text>, AllocError>
    ensures { IfOk result (λ made. made ≡ within most (map to_ascii_uppercase text.now)) }
{
    if text.len() > most {
        return Ok(None);
    }
    Ok(Some(Text::from_string(text.to_ascii_uppercase(alloc)?)))
}
