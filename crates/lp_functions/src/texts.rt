// Values as texts.
ghost use Rattle.std.specs.Prelude.{◌≡◌, ℕ, List, Ok, IfOk, option_copied};
ghost use Rattle.lp_time.specs.Patterns.{pattern_in};
ghost use Rattle.std.specs.Fmt.{signed_decimal};
ghost use Rattle.std.specs.Str.Lossy.{utf8_lossy};
ghost use Rattle.lp_values.specs.Civil.{civil_of};
ghost use Rattle.lp_values.specs.Printed.{printed, printed_real, printed_stamp};
ghost use Rattle.lp_time.specs.Writings.{written};
ghost use Rattle.slot_reading.specs.Slots.{or_null};
ghost use Rattle.lp_functions.specs.Texts.{text_value, to_string, to_string_by, written_as};

use itoa::Buffer;
use lp_time::{Pattern, write_stamp};
use lp_values::{Bytes, Real, Stamp, Text, Value, print};
use std::alloc::{AllocError, Global};

// The most bytes that a function's text may have.
pub(crate) const LONGEST: usize = 16_777_216;

/// A text, or NULL where it is too long.
pub(crate) fn text_value(text: Text) -> Value
    ensures { result ≡ text_value text }
{
    if text.as_str().len() <= LONGEST {
        Value::Text(text)
    } else {
        Value::Null
    }
}

/// A text that was made, or NULL where it was too long.
pub(crate) fn made(text: Option<Text>) -> Value
    ensures { result ≡ or_null Value.Text text }
{
    match text {
        Some(text) => Value::Text(text),
        None => Value::Null,
    }
}

/// A copy of a text, or NULL where it is too long.
pub(crate) fn text_of(alloc: Global, text: &str) -> Result<Value, AllocError>
    ensures { IfOk result (λ value. value ≡ text_value text.now) }
{
    if text.len() <= LONGEST {
        Ok(Value::Text(Text::from_str(alloc, text)?))
    } else {
        Ok(Value::Null)
    }
}

/// A copy of a part of a text, where there is one.
pub(crate) fn text_or_null(alloc: Global, text: Option<&str>) -> Result<Value, AllocError>
    ensures { IfOk result (λ value. value ≡ or_null text_value (option_copied text.entry)) }
{
    match text {
        Some(text) => text_of(alloc, text),
        None => Ok(Value::Null),
    }
}

// What a value prints as, as a text.
fn printed_text(alloc: Global, value: &Value) -> Result<Text, AllocError>
    ensures { IfOk result (λ text. text ≡ utf8_lossy (printed value.now)) }
{
    let mut bytes = Bytes::new(alloc);
    print(value, &mut bytes)?;
    Text::read(alloc, bytes.as_slice())
}

fn integer_text(alloc: Global, number: i64) -> Result<Text, AllocError>
    ensures { IfOk result (λ text. text ≡ signed_decimal number) }
{
    let mut buffer = Buffer::new();
    Text::from_str(alloc, buffer.format(number))
}

fn real_text(alloc: Global, millionths: i64) -> Result<Text, AllocError>
    ensures { IfOk result (λ text. text ≡ printed_real millionths) }
{
    printed_text(alloc, &Value::Real(Real { millionths }))
}

fn stamp_text(alloc: Global, stamp: Stamp) -> Result<Text, AllocError>
    ensures { IfOk result (λ text. text ≡ printed_stamp (civil_of stamp.seconds) stamp.part) }
{
    printed_text(alloc, &Value::Stamp(stamp))
}

pub(crate) fn to_string(alloc: Global, value: &Value) -> Result<Value, AllocError>
    ensures { IfOk result (λ text. text ≡ to_string value.now) }
{
    match value {
        Value::Null => Ok(Value::Null),
        Value::Int(number) => Ok(text_value(integer_text(alloc, *number)?)),
        Value::Real(number) => Ok(text_value(real_text(alloc, number.millionths)?)),
        Value::Text(text) => Ok(text_value(text.copy(alloc)?)),
        Value::Stamp(stamp) => Ok(text_value(stamp_text(alloc, *stamp)?)),
    }
}

fn written_text(alloc: Global, pattern: &Pattern, stamp: Stamp) -> Result<Text, AllocError>
    ensures { IfOk result (λ text. text ≡ utf8_lossy (written pattern.now (civil_of stamp.seconds))) }
{
    let mut bytes = Bytes::new(alloc);
    write_stamp(pattern, stamp, &mut bytes)?;
    Text::read(alloc, bytes.as_slice())
}

pub(crate) fn to_string_by(alloc: Global, a: &Value, b: &Value) -> Result<Value, AllocError>
    ensures { IfOk result (λ text. text ≡ to_string_by a.now b.now) }
{
    match (a, b) {
        (Value::Stamp(stamp), Value::Text(pattern)) => match Pattern::read(pattern.as_str()) {
            Ok(pattern) => Ok(text_value(written_text(alloc, &pattern, *stamp)?)),
            Err(_) => Ok(Value::Null),
        },
        _ => Ok(Value::Null),
    }
}

/// A stamp written by a pattern; NULL for any other value.
pub fn write_as(alloc: Global, pattern: &Pattern, value: &Value) -> Result<Value, AllocError>
    ensures value { IfOk result (λ text. text ≡ written_as pattern.now value.now) }
    ensures same { (text : List ℕ) → pattern_in text ≡ Ok pattern.now → written_as pattern.now value.now ≡ to_string_by value.now (Value.Text text) }
{
    match value {
        Value::Stamp(stamp) => Ok(text_value(written_text(alloc, pattern, *stamp)?)),
        Value::Null | Value::Int(_) | Value::Real(_) | Value::Text(_) => Ok(Value::Null),
    }
}
