// The value that a field is.
ghost use Rattle.std.specs.Prelude.{◌≡◌, ◌<◌, ◌^◌, pos, IfOk, IfSome, MatchOption, option_map, option_and_then};
ghost use Rattle.std.specs.Str.{is_utf8};
ghost use Rattle.slot_reading.specs.Slots.{utf8_text, value_in, value_of, or_null};
ghost use Rattle.slot_reading.specs.Stamps.{stamp_value};
ghost use Rattle.lp_values.specs.Readings.{integer_in, real_in};
ghost use Rattle.lp_values.specs.declared.value.Value.TheVariants.{Int};
ghost use Rattle.lp_time.specs.Readings.{seconds_in, pattern_part};
ghost use Rattle.lp_time.specs.CommonLog.{clf_seconds};

use crate::SlotReading;
use lp_time::{Pattern, clf_stamp, read_stamp};
use lp_values::{Text, Value, read_integer, read_real};
use std::alloc::{AllocError, Global};

fn utf8_text(bytes: &[u8]) -> Option<&str>
    ensures { option_map (λ s. s.now) result ≡ utf8_text bytes.now }
{
    match str::from_utf8(bytes) {
        Ok(text) => Some(text),
        Err(_) => None,
    }
}

// The greatest whole number.
const MOST: u64 = 9_223_372_036_854_775_807;

fn as_integer(number: u64) -> i64
    requires { number < 2 ^ 63 }
    ensures { result ≡ pos number }
{
    number as i64
}

// The number that bytes are which are digits alone, as most are: these need no look at the text as a whole.
fn digits_number(bytes: &[u8]) -> Option<i64>
    ensures { IfSome result (λ number. Int number ≡ value_in SlotReading.Integer bytes.now) }
{
    let mut number = 0u64;
    for byte in bytes {
        if !byte.is_ascii_digit() {
            return None;
        }
        number = number
            .saturating_mul(10)
            .saturating_add(u64::from(*byte - b'0'));
    }
    if number > MOST {
        return None;
    }
    if bytes.len() == 0 {
        return None;
    }
    Some(as_integer(number))
}

/// The whole number that a field's bytes are, or NULL.
pub fn integer_value(bytes: &[u8]) -> Value
    ensures { result ≡ value_in SlotReading.Integer bytes.now }
{
    if let Some(number) = digits_number(bytes) {
        return Value::Int(number);
    }
    match utf8_text(bytes) {
        Some(text) => match read_integer(text) {
            Some(number) => Value::Int(number),
            None => Value::Null,
        },
        None => Value::Null,
    }
}

/// The number that a field's bytes are, or NULL.
pub fn real_value(bytes: &[u8]) -> Value
    ensures { result ≡ value_in SlotReading.Real bytes.now }
{
    match utf8_text(bytes) {
        Some(text) => match read_real(text) {
            Some(number) => Value::Real(number),
            None => Value::Null,
        },
        None => Value::Null,
    }
}

/// The date or time that a field's bytes are by a pattern, or NULL.
pub fn stamp_value(pattern: &Pattern, bytes: &[u8]) -> Value
    ensures { result ≡ value_in (SlotReading.By pattern.now) bytes.now }
{
    match utf8_text(bytes) {
        Some(text) => match read_stamp(pattern, text) {
            Some(stamp) => Value::Stamp(stamp),
            None => Value::Null,
        },
        None => Value::Null,
    }
}

fn clf_value(bytes: &[u8]) -> Value
    ensures { result ≡ value_in SlotReading.Clf bytes.now }
{
    match clf_stamp(bytes) {
        Some(stamp) => Value::Stamp(stamp),
        None => Value::Null,
    }
}

/// The value of a field: NULL where the log has none, or where its bytes don't read. Bytes that are no UTF-8 are no
/// numbers and no times; in a text they are repaired.
pub fn read_slot(
    alloc: Global,
    reading: &SlotReading,
    bytes: Option<&[u8]>,
) -> Result<Value, AllocError>
    ensures { IfOk result (λ value. value ≡ value_of reading.now (option_map (λ s. s.now) bytes.entry)) }
{
    let Some(bytes) = bytes else {
        return Ok(Value::Null);
    };
    match reading {
        SlotReading::Integer => Ok(integer_value(bytes)),
        SlotReading::Real => Ok(real_value(bytes)),
        SlotReading::Text => Ok(Value::Text(Text::read(alloc, bytes)?)),
        SlotReading::By(pattern) => Ok(stamp_value(pattern, bytes)),
        SlotReading::Clf => Ok(clf_value(bytes)),
    }
}
