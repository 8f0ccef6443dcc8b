// What the text of each kind of value means.
ghost use Rattle.std.specs.Prelude.{◌≡◌, ◌≤◌, IfSome};
ghost use Rattle.command_words.specs.Values.{switch_in, rotation_in, headers_in, character_in, separator_in, mode_of, mode_in, pattern_of, name_in, ledger_in, errors_in, rows_in, lines_in};
ghost use Rattle.command_words.specs.Separators.{IsSeparator};

use crate::numbers::{count_in, limit_in};
use crate::text::same_text;
use crate::{FileMode, Rotation};
use lp_outside::Name;
use lp_time::Pattern;
use output_formats::Headers;

pub fn switch_in(text: &str) -> Option<bool>
    ensures { result ≡ switch_in text.now }
{
    if same_text(text.as_bytes(), b"ON") {
        Some(true)
    } else if same_text(text.as_bytes(), b"OFF") {
        Some(false)
    } else {
        None
    }
}

pub fn rotation_in(text: &str) -> Option<Rotation>
    ensures { result ≡ rotation_in text.now }
{
    if same_text(text.as_bytes(), b"NAMES") {
        Some(Rotation::Names)
    } else if same_text(text.as_bytes(), b"NUMBERS") {
        Some(Rotation::Numbers)
    } else {
        None
    }
}

pub fn headers_in(text: &str) -> Option<Headers>
    ensures { result ≡ headers_in text.now }
{
    if same_text(text.as_bytes(), b"AUTO") {
        Some(Headers::Auto)
    } else if same_text(text.as_bytes(), b"ON") {
        Some(Headers::On)
    } else if same_text(text.as_bytes(), b"OFF") {
        Some(Headers::Off)
    } else {
        None
    }
}

fn character_in(text: &[u8]) -> Option<u8>
    ensures value { result ≡ character_in text.now }
    ensures in_range { IfSome result IsSeparator }
{
    match text {
        [byte] if *byte >= 0x21 && *byte <= 0x7E && *byte != b'"' => Some(*byte),
        _ => None,
    }
}

pub fn separator_in(text: &str) -> Option<u8>
    ensures value { result ≡ separator_in text.now }
    ensures in_range { IfSome result IsSeparator }
{
    if same_text(text.as_bytes(), b"tab") {
        Some(b'\t')
    } else if same_text(text.as_bytes(), b"space") {
        Some(b' ')
    } else {
        character_in(text.as_bytes())
    }
}

pub fn errors_in(text: &str) -> Option<Option<u32>>
    ensures value { result ≡ errors_in text.now }
    ensures in_range { IfSome result (λ limit. IfSome limit (λ count. count ≤ 2147483647)) }
{
    limit_in(0, 2_147_483_647, text)
}

pub fn rows_in(text: &str) -> Option<Option<u32>>
    ensures value { result ≡ rows_in text.now }
    ensures in_range { IfSome result (λ limit. IfSome limit (λ count. (1 ≤ count) × (count ≤ 10000))) }
{
    limit_in(1, 10_000, text)
}

pub fn lines_in(text: &str) -> Option<u32>
    ensures value { result ≡ lines_in text.now }
    ensures in_range { IfSome result (λ count. count ≤ 1000) }
{
    count_in(0, 1_000, text)
}

fn mode_of(number: u32) -> Option<FileMode>
    ensures { result ≡ mode_of number }
{
    match number {
        0 => Some(FileMode::Append),
        1 => Some(FileMode::Overwrite),
        _ => Some(FileMode::LeaveAlone),
    }
}

pub fn mode_in(text: &str) -> Option<FileMode>
    ensures { result ≡ mode_in text.now }
{
    match count_in(0, 2, text) {
        Some(number) => mode_of(number),
        None => None,
    }
}

pub fn pattern_of(text: &str) -> Option<Pattern>
    ensures { result ≡ pattern_of text.now }
{
    match Pattern::read(text) {
        Ok(pattern) => Some(pattern),
        Err(_) => None,
    }
}

pub fn name_in(text: &str) -> Option<Name>
    ensures { result ≡ name_in text.now }
{
    match Name::read(text) {
        Ok(name) => Some(name),
        Err(_) => None,
    }
}

/// A name that is still one with `.stage` behind it.
pub fn ledger_in(text: &str) -> Option<Name>
    ensures { result ≡ ledger_in text.now }
{
    let name = name_in(text)?;
    match name.with_suffix(".stage") {
        Ok(_) => Some(name),
        Err(_) => None,
    }
}
