// What a piece of a pattern takes from the front of a text.
ghost use Rattle.std.specs.Prelude.{◌≡◌, ◌≤◌, ◌<◌, length, true, Some, position, option_map, IfSome};
ghost use Rattle.std.specs.Str.Parse.{digits_value};
ghost use Rattle.lp_values.specs.Readings.{is_digits};
ghost use Rattle.lp_time.specs.Patterns.{field_of};
ghost use Rattle.lp_time.specs.Readings.{taken, taken_digits, taken_month, digits_of, short_size, room_of, is_same_name, month_names};

use crate::{Field, Piece};
use lp_values::bytes_to;

/// The number of a piece, and what is left behind it.
pub(crate) fn taken<'a>(piece: &Piece, text: &'a [u8]) -> Option<(u16, &'a [u8])>
    ensures value { option_map (λ front. (front.0, front.1.now)) result ≡ taken piece.now text.now }
    ensures small { IfSome result (λ front. front.0 < room_of (field_of piece.now)) }
{
    match piece {
        Piece::Padded(field) => taken_padded(*field, text),
        Piece::Short(_) => taken_digits(short_size(text), text),
        Piece::MonthName => taken_month(text),
        Piece::Other(character) => {
            let left = text.strip_prefix(character.as_slice())?;
            Some((0, left))
        }
    }
}

fn taken_padded(field: Field, text: &[u8]) -> Option<(u16, &[u8])>
    ensures value { option_map (λ front. (front.0, front.1.now)) result ≡ taken_digits (digits_of field) text.now }
    ensures small { IfSome result (λ front. front.0 < room_of (Some field)) }
{
    match field {
        Field::Year => taken_digits(4, text),
        Field::Month => taken_digits(2, text),
        Field::Day => taken_digits(2, text),
        Field::Hour => taken_digits(2, text),
        Field::Minute => taken_digits(2, text),
        Field::Second => taken_digits(2, text),
    }
}

pub(crate) fn is_all_digits(text: &[u8]) -> bool
    ensures { result ≡ is_digits text.now }
{
    text.iter().all(|byte| byte.is_ascii_digit())
}

fn short_size(text: &[u8]) -> usize
    ensures value { result ≡ short_size text.now }
    ensures few { result ≤ 2 }
{
    if 2 <= text.len() && is_all_digits(bytes_to(text, 2)) {
        2
    } else {
        1
    }
}

fn taken_digits(count: usize, text: &[u8]) -> Option<(u16, &[u8])>
    requires { count ≤ 4 }
    ensures value { option_map (λ front. (front.0, front.1.now)) result ≡ taken_digits count text.now }
    ensures small { IfSome result (λ front. front.0 < 10_000) }
    ensures smaller { count ≤ 2 → IfSome result (λ front. front.0 < 100) }
{
    if text.len() < count {
        return None;
    }
    let (front, left) = text.split_at(count);
    if !is_all_digits(front) {
        return None;
    }
    Some((number_of(front), left))
}

// The number that at most four digits write.
pub(crate) fn number_of(digits: &[u8]) -> u16
    requires digits { is_digits digits.now ≡ true }
    requires few { length digits.now ≤ 4 }
    ensures value { result ≡ digits_value 10 digits.now }
    ensures small { result < 10_000 }
    ensures smaller { length digits.now ≤ 2 → result < 100 }
{
    let mut number = 0;
    for byte in digits {
        number = number * 10 + u16::from(*byte - b'0');
    }
    number
}

pub(crate) const MONTH_NAMES: [[u8; 3]; 12] = [
    *b"Jan", *b"Feb", *b"Mar", *b"Apr", *b"May", *b"Jun", *b"Jul", *b"Aug", *b"Sep", *b"Oct",
    *b"Nov", *b"Dec",
];

fn is_same_name(a: &[u8], b: &[u8]) -> bool
    ensures { result ≡ is_same_name a.now b.now }
{
    a.eq_ignore_ascii_case(b)
}

fn month_named(name: &[u8]) -> Option<usize>
    ensures value { result ≡ position (is_same_name name.now) month_names }
    ensures few { IfSome result (λ place. place < 12) }
{
    MONTH_NAMES
        .iter()
        .position(|month| is_same_name(name, month))
}

fn taken_month(text: &[u8]) -> Option<(u16, &[u8])>
    ensures value { option_map (λ front. (front.0, front.1.now)) result ≡ taken_month text.now }
    ensures small { IfSome result (λ front. front.0 < 100) }
{
    if text.len() < 3 {
        return None;
    }
    let (name, left) = text.split_at(3);
    let place = month_named(name)?;
    Some((place as u16 + 1, left))
}
