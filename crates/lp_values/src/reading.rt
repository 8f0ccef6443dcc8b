// Reading texts as numbers.
ghost use Rattle.std.specs.Prelude.{◌≡◌, ◌≤◌, ◌<◌, ◌-◌, ◌^◌, min, true, [], SomeIff, IfSome, MatchOption, length, slice_index_or};
ghost use Rattle.std.specs.List.{before_first, after_first, position_or_len};
ghost use Rattle.std.specs.Char.{digit_value};
ghost use Rattle.std.specs.Str.Parse.{digits_value, without_leading_sign, starts_with_minus};
ghost use Rattle.lp_values.specs.Readings.{integer_in, real_in, is_point, is_digits, is_numeral, millionths_of, signed_by, within_64_bits};

use crate::{Real, bytes_from, bytes_to};
use memchr::memchr;

/// An optional sign and digits, as a number of 64 bits. `None` for every other text.
pub fn read_integer(text: &str) -> Option<i64>
    ensures { result ≡ integer_in text.now }
{
    text.parse::<i64>().ok()
}

/// An optional sign, digits or none, a point and at least one digit; decimals past six are cut. `None` for every other
/// text, and where the millionths are outside 64 bits.
pub fn read_real(text: &str) -> Option<Real>
    ensures { result ≡ real_in text.now }
{
    let bytes = text.as_bytes();
    let unsigned = without_sign(bytes);
    let (whole, decimals) = split_at_point(unsigned)?;
    let whole = whole_of(whole)?;
    let decimals = decimals_of(decimals)?;
    let millionths = signed(bytes, whole * 1_000_000 + decimals)?;
    Some(Real { millionths })
}

fn without_sign(text: &[u8]) -> &[u8]
    ensures { result.now ≡ without_leading_sign text.now }
{
    match text {
        [b'-' | b'+', rest @ ..] => rest,
        _ => text,
    }
}

fn point_of(text: &[u8]) -> Option<usize>
    ensures { MatchOption result (length text.now ≤ position_or_len is_point text.now) (λ at. (at ≡ position_or_len is_point text.now) × (at < length text.now)) }
{
    memchr(b'.', text)
}

fn split_at_point(text: &[u8]) -> Option<(&[u8], &[u8])>
    ensures { MatchOption result (after_first is_point text.now ≡ []) (λ parts. (parts.0.now ≡ before_first is_point text.now) × (parts.1.now ≡ after_first is_point text.now)) }
{
    let point = point_of(text)?;
    Some((bytes_to(text, point), bytes_from(text, point + 1)))
}

fn all_digits(text: &[u8]) -> bool
    ensures { result ≡ is_digits text.now }
{
    text.iter().all(|byte| byte.is_ascii_digit())
}

// The most that the whole part of a Real may be.
const MOST: u64 = 9_223_372_036_854;

fn whole_of(text: &[u8]) -> Option<u64>
    ensures { SomeIff result ((is_digits text.now ≡ true) × (digits_value 10 text.now ≤ 9_223_372_036_854)) (digits_value 10 text.now) }
{
    if !all_digits(text) {
        return None;
    }
    let number = number_of(text);
    if number <= MOST { Some(number) } else { None }
}

// The number that digits write, or the greatest of 64 bits where it is greater.
fn number_of(digits: &[u8]) -> u64
    requires { is_digits digits.now ≡ true }
    ensures { result ≡ min (digits_value 10 digits.now) (2 ^ 64 - 1) }
{
    let mut number = 0u64;
    for byte in digits {
        number = number
            .saturating_mul(10)
            .saturating_add(u64::from(*byte - b'0'));
    }
    number
}

fn decimals_of(text: &[u8]) -> Option<u64>
    ensures value { SomeIff result (is_numeral text.now ≡ true) (millionths_of text.now) }
    ensures below { IfSome result (λ number. number < 1_000_000) }
{
    if text.is_empty() || !all_digits(text) {
        return None;
    }
    Some(first_six(text))
}

fn first_six(text: &[u8]) -> u64
    requires { is_digits text.now ≡ true }
    ensures value { result ≡ millionths_of text.now }
    ensures below { result < 1_000_000 }
{
    let mut number = 0;
    for place in 0..6 {
        number = number * 10 + u64::from(digit_at(text, place));
    }
    number
}

fn digit_at(text: &[u8], place: usize) -> u8
    requires { is_digits text.now ≡ true }
    ensures value { result ≡ digit_value (slice_index_or text.now place 48) }
    ensures digit { result < 10 }
{
    match text.get(place) {
        Some(byte) => *byte - b'0',
        None => 0,
    }
}

fn signed(text: &[u8], size: u64) -> Option<i64>
    ensures { result ≡ within_64_bits (signed_by text.now size) }
{
    let size = i128::from(size);
    let number = if text.first() == Some(&b'-') {
        -size
    } else {
        size
    };
    i64::try_from(number).ok()
}
