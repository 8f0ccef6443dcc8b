// Words without regard to case, and parts of a text.
ghost use Rattle.std.specs.Prelude.{◌≡◌, ◌≤◌, true, length, take, drop};
ghost use Rattle.tpl_output.specs.Words.{is_same_word, begins_as};

use lp_values::{bytes_from, bytes_to};

pub(crate) fn is_same_word(a: &[u8], b: &[u8]) -> bool
    ensures { result ≡ is_same_word a.now b.now }
{
    a.eq_ignore_ascii_case(b)
}

/// Whether a text begins with a word, whatever the case of its letters.
pub(crate) fn begins_as(word: &[u8], text: &[u8]) -> bool
    ensures value { result ≡ begins_as word.now text.now }
    ensures fits { result ≡ true → length word.now ≤ length text.now }
{
    word.len() <= text.len() && is_same_word(bytes_to(text, word.len()), word)
}

/// The first bytes of a text, or all where it has fewer.
pub(crate) fn front(text: &[u8], count: usize) -> &[u8]
    ensures { result.now ≡ take count text.now }
{
    if count < text.len() {
        bytes_to(text, count)
    } else {
        text
    }
}

/// The bytes from a place on, none where it is behind the text.
pub(crate) fn back(text: &[u8], start: usize) -> &[u8]
    ensures { result.now ≡ drop start text.now }
{
    if start < text.len() {
        bytes_from(text, start)
    } else {
        &[]
    }
}
