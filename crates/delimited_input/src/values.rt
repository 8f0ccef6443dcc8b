// The value of a field in a column of a kind.
ghost use Rattle.std.specs.Prelude.{◌≡◌, IfOk, option_map};
ghost use Rattle.delimited_input.specs.Values.{real_of_integer, number_value, stamp_value, text_value, filled_value, field_value};

use lp_time::{Pattern, read_stamp};
use lp_values::{Kind, Real, Text, Value, read_integer, read_real};
use std::alloc::{AllocError, Global};

// An integer as a real, or NULL where that is outside 64 bits of millionths.
fn real_of_integer(number: i64) -> Value
    ensures { result ≡ real_of_integer number }
{
    match number.checked_mul(1_000_000) {
        Some(millionths) => Value::Real(Real { millionths }),
        None => Value::Null,
    }
}

fn number_value(text: &str) -> Value
    ensures { result ≡ number_value text.now }
{
    match read_integer(text) {
        Some(number) => real_of_integer(number),
        None => match read_real(text) {
            Some(number) => Value::Real(number),
            None => Value::Null,
        },
    }
}

fn stamp_value(pattern: &Pattern, text: &str) -> Value
    ensures { result ≡ stamp_value pattern.now text.now }
{
    match read_stamp(pattern, text) {
        Some(stamp) => Value::Stamp(stamp),
        None => Value::Null,
    }
}

// The value of a text in a column of a kind.
fn text_value(alloc: Global, kind: Kind, pattern: &Pattern, text: &str) -> Result<Value, AllocError>
    ensures { IfOk result (λ value. value ≡ text_value kind pattern.now text.now) }
{
    match kind {
        Kind::Integer => match read_integer(text) {
            Some(number) => Ok(Value::Int(number)),
            None => Ok(Value::Null),
        },
        Kind::Real => Ok(number_value(text)),
        Kind::Text => Ok(Value::Text(Text::from_str(alloc, text)?)),
        Kind::Stamp => Ok(stamp_value(pattern, text)),
        Kind::Any => Ok(Value::Null),
    }
}

// The value of a field that is there. What is no UTF-8 is repaired first.
fn filled_value(
    alloc: Global,
    kind: Kind,
    pattern: &Pattern,
    bytes: &[u8],
) -> Result<Value, AllocError>
    ensures { IfOk result (λ value. value ≡ filled_value kind pattern.now bytes.now) }
{
    match str::from_utf8(bytes) {
        Ok(text) => text_value(alloc, kind, pattern, text),
        Err(_) => {
            let text = Text::read(alloc, bytes)?;
            text_value(alloc, kind, pattern, text.as_str())
        }
    }
}

/// The value of a field in a column of a kind: NULL where the field is missing or doesn't read. What is no UTF-8 is
/// repaired first, as it is where kinds are judged. Among reals an integer is its value.
pub fn read_field(
    alloc: Global,
    kind: Kind,
    pattern: &Pattern,
    bytes: Option<&[u8]>,
) -> Result<Value, AllocError>
    ensures { IfOk result (λ value. value ≡ field_value kind pattern.now (option_map (λ s. s.now) bytes.entry)) }
{
    match bytes {
        None => Ok(Value::Null),
        Some(bytes) => filled_value(alloc, kind, pattern, bytes),
    }
}
