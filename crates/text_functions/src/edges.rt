// The ends of a text, and the parts of a path.
ghost use Rattle.std.specs.Prelude.{◌≡◌, ◌<◌, ◌+◌, ◌-◌, option_copied, length};
ghost use Rattle.std.specs.List.{prefix_len, suffix_len};
ghost use Rattle.memchr.specs.Find.{IsLastByte};
ghost use Rattle.text_functions.specs.Edges.{is_blank, is_slash, is_point, left_trimmed, right_trimmed, file_name, path_of, extension, extension_of};

use memchr::{memrchr, memrchr2};

/// A text without the spaces and tabs at both ends.
pub fn trim(text: &str) -> &str
    ensures { result.now ≡ right_trimmed (left_trimmed text.now) }
{
    rtrim(ltrim(text))
}

/// A text without the spaces and tabs at its left.
pub fn ltrim(text: &str) -> &str
    ensures { result.now ≡ left_trimmed text.now }
{
    text.split_at(leading_blanks(text.as_bytes())).1
}

/// A text without the spaces and tabs at its right.
pub fn rtrim(text: &str) -> &str
    ensures { result.now ≡ right_trimmed text.now }
{
    text.split_at(end_of_words(text.as_bytes())).0
}

fn is_blank(byte: u8) -> bool
    ensures { result ≡ is_blank byte }
{
    byte == b' ' || byte == b'\t'
}

fn leading_blanks(bytes: &[u8]) -> usize
    ensures { result ≡ prefix_len is_blank bytes.now }
{
    for (place, byte) in bytes.iter().enumerate() {
        if !is_blank(*byte) {
            return place;
        }
    }
    bytes.len()
}

// Where the blanks at the right begin.
fn end_of_words(bytes: &[u8]) -> usize
    ensures { result ≡ length bytes.now - suffix_len is_blank bytes.now }
{
    let mut end = bytes.len();
    while end > 0 {
        if !is_blank(bytes[end - 1]) {
            return end;
        }
        end -= 1;
    }
    end
}

/// What stands behind the last slash or backslash; the whole where there is none.
pub fn extract_filename(text: &str) -> &str
    ensures { result.now ≡ file_name text.now }
{
    match last_slash(text.as_bytes()) {
        Some(place) => text.split_at(place + 1).1,
        None => text,
    }
}

/// What stands before the last slash or backslash; an empty text where there is none.
pub fn extract_path(text: &str) -> &str
    ensures { result.now ≡ path_of text.now }
{
    match last_slash(text.as_bytes()) {
        Some(place) => text.split_at(place).0,
        None => "",
    }
}

/// What stands behind the last point of the file name. `None` where there is none.
pub fn extract_extension(text: &str) -> Option<&str>
    ensures { option_copied result ≡ extension text.now }
{
    extension_in(extract_filename(text))
}

fn extension_in(name: &str) -> Option<&str>
    ensures { option_copied result ≡ extension_of name.now }
{
    let place = last_point(name.as_bytes())?;
    Some(name.split_at(place + 1).1)
}

fn last_slash(bytes: &[u8]) -> Option<usize>
    ensures { IsLastByte is_slash bytes.now result }
{
    memrchr2(b'/', b'\\', bytes)
}

fn last_point(bytes: &[u8]) -> Option<usize>
    ensures { IsLastByte is_point bytes.now result }
{
    memrchr(b'.', bytes)
}
