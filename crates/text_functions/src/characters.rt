// A text as characters.
ghost use Rattle.std.specs.Prelude.{◌≡◌, ◌==◌, ◌<◌, ◌≤◌, ◌∷◌, MatchOption, length, take, drop};
ghost use Rattle.std.specs.List.{list_any};
ghost use Rattle.std.specs.Str.{chars, encode_utf8_all, IsUtf8};
ghost use Rattle.text_functions.specs.Positions.{natural};

/// The first character, and what stands behind it.
pub(crate) fn first_character(text: &str) -> Option<(char, &str)>
    ensures { MatchOption result (length text.now ≡ 0) (λ x. (chars text.now ≡ x.0 ∷ chars x.1.now) × (length x.1.now < length text.now) × IsUtf8 x.1.now) }
{
    let mut left = text.chars();
    match left.next() {
        Some(first) => Some((first, left.as_str())),
        None => None,
    }
}

/// What stands behind so many characters.
pub(crate) fn behind(text: &str, count: usize) -> &str
    ensures { result.now ≡ encode_utf8_all (drop count (chars text.now)) }
{
    let mut rest = text;
    let mut left = count;
    while left > 0 {
        let Some((_, next)) = first_character(rest) else {
            return rest;
        };
        rest = next;
        left -= 1;
    }
    rest
}

/// So many characters from the left.
pub(crate) fn front(text: &str, count: usize) -> &str
    ensures { result.now ≡ encode_utf8_all (take count (chars text.now)) }
{
    let size = text.len() - behind(text, count).len();
    text.split_at(size).0
}

pub(crate) fn size(text: &str) -> usize
    ensures value { result ≡ length (chars text.now) }
    ensures within { result ≤ length text.now }
{
    text.chars().count()
}

pub(crate) fn has_character(text: &str, wanted: char) -> bool
    ensures { result ≡ list_any (λ c. c == wanted) (chars text.now) }
{
    let mut rest = text;
    while let Some((first, next)) = first_character(rest) {
        if first == wanted {
            return true;
        }
        rest = next;
    }
    false
}

pub(crate) fn natural(number: i64) -> Option<usize>
    ensures { result ≡ natural number }
{
    if number < 0 {
        None
    } else {
        Some(number as usize)
    }
}
