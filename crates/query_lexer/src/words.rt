// Names, words, strings and brackets.
ghost use Rattle.std.specs.Prelude.{◌≡◌, ◌<◌, ◌≤◌, drop, length, slice_index, map, position, IfOk, IfSome, MatchOption};
ghost use Rattle.std.specs.Char.{to_ascii_lowercase};
ghost use Rattle.memchr.specs.Find.{IsFirstByte, is_byte};
ghost use Rattle.query_lexer.specs.Standing.{name_at, begins_as, field_length, IsWordKind, IsWordAt, bracket_at, IsString, IsNoString, is_quote_first, IsStringAt, IsSignAt};

use crate::piece::{Piece, Problem};
use crate::starts::{name_length, word_length};
use crate::{Keyword, Symbol, TokenKind};
use lp_values::Text;
use memchr::memchr;
use std::alloc::{AllocError, Global};

/// The name that stands in front.
pub(crate) fn name(alloc: Global, rest: &str) -> Result<Piece, AllocError>
    ensures { IfOk result (λ piece. piece ≡ name_at rest.now) }
{
    let length = name_length(rest.as_bytes());
    let text = Text::from_str(alloc, &rest[..length])?;
    Ok(Piece::Token(TokenKind::Name(text), length))
}

/// Whether a text begins with a name in small letters, whatever its own case.
fn begins_as(bytes: &[u8], name: &[u8]) -> bool
    requires { map to_ascii_lowercase name.now ≡ name.now }
    ensures { result ≡ begins_as name.now bytes.now }
{
    name.len() <= bytes.len() && bytes[..name.len()].eq_ignore_ascii_case(name)
}

/// How many bytes the field has that stands in front.
fn field_length(bytes: &[u8]) -> Option<usize>
    ensures { result ≡ field_length bytes.now }
{
    if begins_as(bytes, b"cs(user-agent)") {
        return Some(14);
    }
    if begins_as(bytes, b"cs(referer)") {
        return Some(11);
    }
    if begins_as(bytes, b"cs(cookie)") {
        return Some(10);
    }
    None
}

/// A word as a keyword or as itself.
fn word_kind(alloc: Global, word: &str) -> Result<TokenKind, AllocError>
    ensures { IfOk result (IsWordKind word.now) }
{
    match Keyword::by_name(word) {
        Some(keyword) => Ok(TokenKind::Keyword(keyword)),
        None => Ok(TokenKind::Word(Text::from_str(alloc, word)?)),
    }
}

/// The word that stands in front.
pub(crate) fn word(alloc: Global, rest: &str) -> Result<Piece, AllocError>
    ensures { IfOk result (IsWordAt rest.now) }
{
    if let Some(length) = field_length(rest.as_bytes()) {
        let text = Text::from_str(alloc, &rest[..length])?;
        return Ok(Piece::Token(TokenKind::Word(text), length));
    }
    let length = word_length(rest.as_bytes());
    let kind = word_kind(alloc, &rest[..length])?;
    Ok(Piece::Token(kind, length))
}

/// How many bytes stand before the bracket that closes.
fn length_to_bracket(behind: &str) -> Option<usize>
    ensures first { result ≡ position (is_byte 93) behind.now }
    ensures bracket { IfSome result (λ n. (n < length behind.now) × (slice_index behind.now n ≡ 93)) }
{
    memchr(b']', behind.as_bytes())
}

/// The word in brackets that stands in front.
pub(crate) fn bracket(alloc: Global, rest: &str) -> Result<Piece, AllocError>
    requires { slice_index rest.now 0 ≡ 91 }
    ensures { IfOk result (λ piece. piece ≡ bracket_at rest.now) }
{
    let behind = &rest[1..];
    match length_to_bracket(behind) {
        None => Ok(Piece::Bad(Problem::OpenBracket)),
        Some(0) => Ok(Piece::Bad(Problem::BadCharacter)),
        Some(length) => {
            let text = Text::from_str(alloc, &behind[..length])?;
            Ok(Piece::Token(TokenKind::Word(text), length + 2))
        }
    }
}

fn is_quote_at(rest: &str, at: usize) -> bool
    ensures { result ≡ is_quote_first (drop at rest.now) }
{
    let bytes = rest.as_bytes();
    at < bytes.len() && bytes[at] == b'\''
}

/// How many bytes stand from a place to the next quote.
fn quote_behind(rest: &str, at: usize) -> Option<usize>
    requires { at ≤ length rest.now }
    ensures { IsFirstByte (is_byte 39) (drop at rest.now) result }
{
    memchr(b'\'', &rest.as_bytes()[at..])
}

/// The text of the string that stands in front, and how many bytes it has.
fn string_text(alloc: Global, rest: &str) -> Result<Option<(Text, usize)>, AllocError>
    requires { slice_index rest.now 0 ≡ 39 }
    ensures { IfOk result (λ found. MatchOption found (IsNoString rest.now) (λ s. IsString rest.now s.0 s.1)) }
{
    let mut text = String::new(alloc);
    let mut at = 1;
    while let Some(length) = quote_behind(rest, at) {
        text.push_str(&rest[at..at + length])?;
        at += length + 1;
        if !is_quote_at(rest, at) {
            return Ok(Some((Text::from_string(text), at)));
        }
        text.push('\'')?;
        at += 1;
    }
    Ok(None)
}

/// The string that stands in front, which is a name where one may come.
pub(crate) fn string(alloc: Global, names: bool, rest: &str) -> Result<Piece, AllocError>
    requires { slice_index rest.now 0 ≡ 39 }
    ensures { IfOk result (IsStringAt names rest.now) }
{
    match string_text(alloc, rest)? {
        None => Ok(Piece::Bad(Problem::OpenString)),
        Some((text, size)) => {
            let kind = if names {
                TokenKind::Name(text)
            } else {
                TokenKind::Str(text)
            };
            Ok(Piece::Token(kind, size))
        }
    }
}

/// The sign that stands in front.
pub(crate) fn sign(rest: &[u8]) -> Piece
    ensures { IsSignAt rest.now result }
{
    match Symbol::at_front(rest) {
        None => Piece::Bad(Problem::BadCharacter),
        Some(sign) => Piece::Token(TokenKind::Symbol(sign), sign.text().len()),
    }
}
