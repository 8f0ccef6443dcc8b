// The bytes of words, numbers and names.
ghost use Rattle.std.specs.Prelude.{◌≡◌};
ghost use Rattle.std.specs.List.{prefix_len};
ghost use Rattle.query_lexer.specs.Bytes.{is_blank, is_letter, is_digit, is_word_byte, ends_name, is_name_byte};
ghost use Rattle.query_lexer.specs.Standing.{start_of};

use crate::piece::Start;

fn is_blank(byte: u8) -> bool
    ensures { result ≡ is_blank byte }
{
    byte == b' ' || byte == b'\t' || byte == b'\n' || byte == b'\r'
}

fn is_letter(byte: u8) -> bool
    ensures { result ≡ is_letter byte }
{
    (byte >= b'A' && byte <= b'Z') || (byte >= b'a' && byte <= b'z') || byte == b'_'
}

fn is_digit(byte: u8) -> bool
    ensures { result ≡ is_digit byte }
{
    byte >= b'0' && byte <= b'9'
}

fn is_word_byte(byte: u8) -> bool
    ensures { result ≡ is_word_byte byte }
{
    is_letter(byte) || is_digit(byte) || byte == b'-'
}

fn ends_name(byte: u8) -> bool
    ensures { result ≡ ends_name byte }
{
    byte == b',' || byte == b'\'' || byte == b'(' || byte == b')' || byte == b';'
}

fn is_name_byte(byte: u8) -> bool
    ensures { result ≡ is_name_byte byte }
{
    !(is_blank(byte) || ends_name(byte))
}

/// How what begins with a byte is read, where names may come or not.
pub(crate) fn start_of(names: bool, byte: u8) -> Start
    ensures { result ≡ start_of names byte }
{
    if is_blank(byte) {
        return Start::Blank;
    }
    if byte == b'\'' {
        return Start::Quote;
    }
    if names && is_name_byte(byte) {
        return Start::Name;
    }
    if is_letter(byte) {
        return Start::Letter;
    }
    if is_digit(byte) || byte == b'-' {
        return Start::Number;
    }
    if byte == b'[' {
        return Start::Bracket;
    }
    Start::Sign
}

/// How many bytes of words stand in front.
pub(crate) fn word_length(bytes: &[u8]) -> usize
    ensures { result ≡ prefix_len is_word_byte bytes.now }
{
    bytes.iter().take_while(|byte| is_word_byte(**byte)).count()
}

/// How many digits stand in front.
pub(crate) fn digits_length(bytes: &[u8]) -> usize
    ensures { result ≡ prefix_len is_digit bytes.now }
{
    bytes.iter().take_while(|byte| is_digit(**byte)).count()
}

/// How many bytes of names stand in front.
pub(crate) fn name_length(bytes: &[u8]) -> usize
    ensures { result ≡ prefix_len is_name_byte bytes.now }
{
    bytes.iter().take_while(|byte| is_name_byte(**byte)).count()
}
