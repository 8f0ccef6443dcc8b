// Parts of a text between separators.
ghost use Rattle.std.specs.Prelude.{◌≡◌, ◌<◌, ◌+◌, option_map, option_copied, Some, None, take, drop, length, nat_eq, ◌++◌, if◌then◌else◌, codes, find, slice_get, reverse};
ghost use Rattle.std.specs.List.{starts_with};
ghost use Rattle.text_functions.specs.Pieces.{pieces, joined};
ghost use Rattle.text_functions.specs.Tokens.{token, value, prefix, suffix};

use crate::characters::natural;
use crate::occurrences::{cut_first, cut_last};

/// The token of a number, from 0 on, between separators, by default commas. `None` where there is none, for a negative
/// number and for an empty separator.
pub fn extract_token<'t>(text: &'t str, index: i64, separator: Option<&str>) -> Option<&'t str>
    ensures { option_copied result ≡ token text.now index (option_copied separator.entry) }
{
    let separator = separator.unwrap_or(",");
    if separator.is_empty() {
        return None;
    }
    let index = natural(index)?;
    piece_at(text, index, separator)
}

fn piece_at<'t>(text: &'t str, index: usize, separator: &str) -> Option<&'t str>
    requires { 0 < length separator.now }
    ensures { option_copied result ≡ slice_get (pieces separator.now text.now) index }
{
    let mut rest = text;
    let mut left = index;
    while let Some((before, next)) = cut_first(rest, separator) {
        if left == 0 {
            return Some(before);
        }
        left -= 1;
        rest = next;
    }
    if left == 0 { Some(rest) } else { None }
}

/// What follows `name=` in the first token that begins so, between separators, by default ampersands. `None` where no
/// token does, and for an empty separator.
pub fn extract_value<'t>(text: &'t str, name: &str, separator: Option<&str>) -> Option<&'t str>
    ensures { option_copied result ≡ value text.now name.now (option_copied separator.entry) }
{
    let separator = separator.unwrap_or("&");
    if separator.is_empty() {
        return None;
    }
    value_among(text, name, separator)
}

fn value_among<'t>(text: &'t str, name: &str, separator: &str) -> Option<&'t str>
    requires { 0 < length separator.now }
    ensures { option_copied result ≡ option_map (drop (length name.now + 1)) (find (λ t. starts_with nat_eq t (name.now ++ codes "=")) (pieces separator.now text.now)) }
{
    let mut rest = text;
    while let Some((token, next)) = cut_first(rest, separator) {
        if let Some(value) = value_in(token, name) {
            return Some(value);
        }
        rest = next;
    }
    value_in(rest, name)
}

fn value_in<'t>(token: &'t str, name: &str) -> Option<&'t str>
    ensures { option_copied result ≡ (if starts_with nat_eq token.now (name.now ++ codes "=") then Some (drop (length name.now + 1) token.now) else None) }
{
    match token.strip_prefix(name) {
        Some(rest) => rest.strip_prefix('='),
        None => None,
    }
}

/// What stands before the occurrence of a number, from 0 on; the whole where there are fewer. `None` for a negative
/// number and for an empty separator.
pub fn extract_prefix<'t>(text: &'t str, index: i64, separator: &str) -> Option<&'t str>
    ensures { option_copied result ≡ prefix text.now index separator.now }
{
    if separator.is_empty() {
        return None;
    }
    let index = natural(index)?;
    Some(before_occurrence(text, index, separator))
}

fn before_occurrence<'t>(text: &'t str, index: usize, separator: &str) -> &'t str
    requires { 0 < length separator.now }
    ensures { result.now ≡ joined separator.now (take (index + 1) (pieces separator.now text.now)) }
{
    let mut rest = text;
    let mut left = index;
    while let Some((before, next)) = cut_first(rest, separator) {
        if left == 0 {
            let size = text.len() - rest.len() + before.len();
            return text.split_at(size).0;
        }
        left -= 1;
        rest = next;
    }
    text
}

/// What stands behind the occurrence of a number from the right, from 0 on; the whole where there are fewer. `None` for a
/// negative number and for an empty separator.
pub fn extract_suffix<'t>(text: &'t str, index: i64, separator: &str) -> Option<&'t str>
    ensures { option_copied result ≡ suffix text.now index separator.now }
{
    if separator.is_empty() {
        return None;
    }
    let index = natural(index)?;
    Some(behind_occurrence(text, index, separator))
}

fn behind_occurrence<'t>(text: &'t str, index: usize, separator: &str) -> &'t str
    requires { 0 < length separator.now }
    ensures { result.now ≡ reverse (joined (reverse separator.now) (take (index + 1) (pieces (reverse separator.now) (reverse text.now)))) }
{
    let mut rest = text;
    let mut left = index;
    while let Some((before, next)) = cut_last(rest, separator) {
        if left == 0 {
            let place = rest.len() - next.len();
            return text.split_at(place).1;
        }
        left -= 1;
        rest = before;
    }
    text
}
