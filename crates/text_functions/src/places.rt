// Lengths, counts and positions.
ghost use Rattle.std.specs.Prelude.{◌≡◌, ◌<◌, ◌^◌, length, option_copied, IfSome};
ghost use Rattle.std.specs.Str.{chars};
ghost use Rattle.text_functions.specs.Positions.{index_of, last_index_of, substring, substring_from};
ghost use Rattle.text_functions.specs.Replacing.{count_of};

use crate::characters::{behind, front, natural, size};
use crate::occurrences::{cut_first, cut_last};

/// How many characters a text has.
pub fn strlen(text: &str) -> usize
    ensures value { result ≡ length (chars text.now) }
    ensures small { result < 2 ^ 63 }
{
    size(text)
}

/// How often a part occurs; an empty one never.
pub fn strcnt(text: &str, part: &str) -> usize
    ensures value { result ≡ count_of text.now part.now }
    ensures small { result < 2 ^ 63 }
{
    if part.is_empty() {
        return 0;
    }
    let mut count = 0;
    let mut rest = text;
    while let Some((_, next)) = cut_first(rest, part) {
        count += 1;
        rest = next;
    }
    count
}

/// The position of the first occurrence. `None` where there is none, or the part is empty.
pub fn index_of(text: &str, part: &str) -> Option<usize>
    ensures value { result ≡ index_of text.now part.now }
    ensures small { IfSome result (λ place. place < 2 ^ 63) }
{
    if part.is_empty() {
        return None;
    }
    let (before, _) = cut_first(text, part)?;
    Some(size(before))
}

/// The position of the last occurrence. `None` where there is none, or the part is empty.
pub fn last_index_of(text: &str, part: &str) -> Option<usize>
    ensures value { result ≡ last_index_of text.now part.now }
    ensures small { IfSome result (λ place. place < 2 ^ 63) }
{
    if part.is_empty() {
        return None;
    }
    let (before, _) = cut_last(text, part)?;
    Some(size(before))
}

/// The characters from a position on; past the end none. `None` for a negative number.
pub fn substr_from(text: &str, from: i64) -> Option<&str>
    ensures { option_copied result ≡ substring_from text.now from }
{
    let from = natural(from)?;
    Some(behind(text, from))
}

/// The characters from a position on, at most so many; past the end none. `None` for a negative number.
pub fn substr(text: &str, from: i64, most: i64) -> Option<&str>
    ensures { option_copied result ≡ substring text.now from most }
{
    let from = natural(from)?;
    let most = natural(most)?;
    Some(front(behind(text, from), most))
}
