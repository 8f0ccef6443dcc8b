// Addresses of four numbers.
ghost use Rattle.std.specs.Prelude.{◌≡◌, ◌≤◌, ◌++◌, true, length, decimal, IfOk, IfSome, OnOk, string_bytes};
ghost use Rattle.std.specs.List.{before_first, after_first, position_or_len};
ghost use Rattle.std.specs.Str.Parse.{digits_value};
ghost use Rattle.lp_values.specs.Readings.{is_digits, is_point};
ghost use Rattle.lp_functions.specs.Addresses.{octet_in, address_in, address_text, ipv4_to_int, int_to_ipv4};

use itoa::Buffer;
use lp_values::{Text, Value, bytes_from, bytes_to};
use memchr::memchr;
use std::alloc::{AllocError, Global};

fn all_digits(text: &[u8]) -> bool
    ensures { result ≡ is_digits text.now }
{
    text.iter().all(|byte| byte.is_ascii_digit())
}

// The number that one to three digits write.
fn number_of(digits: &[u8]) -> u32
    requires digits { is_digits digits.now ≡ true }
    requires few { length digits.now ≤ 3 }
    ensures { result ≡ digits_value 10 digits.now }
{
    let mut number = 0;
    for digit in digits {
        number = number * 10 + u32::from(*digit - b'0');
    }
    number
}

fn octet(text: &[u8]) -> Option<u32>
    ensures value { result ≡ octet_in text.now }
    ensures below { IfSome result (λ octet. octet ≤ 255) }
{
    if text.is_empty() || 3 < text.len() || !all_digits(text) {
        return None;
    }
    let number = number_of(text);
    if number <= 255 { Some(number) } else { None }
}

// Where the first point is, or the text's length.
fn point_of(text: &[u8]) -> usize
    ensures value { result ≡ position_or_len is_point text.now }
    ensures within { result ≤ length text.now }
{
    match memchr(b'.', text) {
        Some(point) => point,
        None => text.len(),
    }
}

// What stands before the first point, and behind it.
fn split_at_point(text: &[u8]) -> (&[u8], &[u8])
    ensures before { result.0.now ≡ before_first is_point text.now }
    ensures behind { result.1.now ≡ after_first is_point text.now }
{
    let point = point_of(text);
    if point < text.len() {
        (bytes_to(text, point), bytes_from(text, point + 1))
    } else {
        (text, &[])
    }
}

fn address_in(text: &[u8]) -> Option<u32>
    ensures { result ≡ address_in text.now }
{
    let (first, text) = split_at_point(text);
    let first = octet(first)?;
    let (second, text) = split_at_point(text);
    let second = octet(second)?;
    let (third, text) = split_at_point(text);
    let third = octet(third)?;
    let last = octet(text)?;
    Some(((first * 256 + second) * 256 + third) * 256 + last)
}

pub(crate) fn ipv4_to_int(value: &Value) -> Value
    ensures { result ≡ ipv4_to_int value.now }
{
    match value {
        Value::Text(text) => match address_in(text.as_str().as_bytes()) {
            Some(number) => Value::Int(i64::from(number)),
            None => Value::Null,
        },
        Value::Null | Value::Int(_) | Value::Real(_) | Value::Stamp(_) => Value::Null,
    }
}

fn add_number(text: &mut String, number: u32) -> Result<(), AllocError>
    ensures { OnOk result (string_bytes text.new ≡ string_bytes text.old ++ decimal number) }
{
    let mut buffer = Buffer::new();
    text.push_str(buffer.format(number))
}

fn address_text(alloc: Global, number: u32) -> Result<Text, AllocError>
    ensures { IfOk result (λ text. text ≡ address_text number) }
{
    let mut text = String::new(alloc);
    add_number(&mut text, number / 16_777_216)?;
    text.push_str(".")?;
    add_number(&mut text, number / 65_536 % 256)?;
    text.push_str(".")?;
    add_number(&mut text, number / 256 % 256)?;
    text.push_str(".")?;
    add_number(&mut text, number % 256)?;
    Ok(Text::from_string(text))
}

pub(crate) fn int_to_ipv4(alloc: Global, value: &Value) -> Result<Value, AllocError>
    ensures { IfOk result (λ text. text ≡ int_to_ipv4 value.now) }
{
    match value {
        Value::Int(number) => match u32::try_from(*number) {
            Ok(number) => Ok(Value::Text(address_text(alloc, number)?)),
            Err(_) => Ok(Value::Null),
        },
        Value::Null | Value::Real(_) | Value::Text(_) | Value::Stamp(_) => Ok(Value::Null),
    }
}
