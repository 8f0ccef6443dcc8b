// Values as numbers.
ghost use Rattle.std.specs.Prelude.{◌≡◌};
ghost use Rattle.lp_functions.specs.Numbers.{to_int, to_real, real_from, integer_or_real, quantized_value};
ghost use Rattle.lp_values.specs.Readings.{integer_in};
ghost use Rattle.lp_time.specs.Days.{quantized};
ghost use Rattle.slot_reading.specs.Slots.{or_null};
ghost use Rattle.slot_reading.specs.Stamps.{stamp_value};

use lp_time::quantize;
use lp_values::{Real, Stamp, Value, quantize_number, read_integer, read_real};

pub(crate) fn to_int(value: &Value) -> Value
    ensures { result ≡ to_int value.now }
{
    match value {
        Value::Int(number) => Value::Int(*number),
        Value::Real(number) => Value::Int(number.millionths / 1_000_000),
        Value::Text(text) => match read_integer(text.as_str()) {
            Some(number) => Value::Int(number),
            None => Value::Null,
        },
        Value::Null | Value::Stamp(_) => Value::Null,
    }
}

fn real_from(number: i64) -> Value
    ensures { result ≡ real_from number }
{
    match i64::try_from(i128::from(number) * 1_000_000) {
        Ok(millionths) => Value::Real(Real { millionths }),
        Err(_) => Value::Null,
    }
}

fn real_in(text: &str) -> Value
    ensures { result ≡ integer_or_real (integer_in text.now) text.now }
{
    match read_integer(text) {
        Some(number) => real_from(number),
        None => match read_real(text) {
            Some(number) => Value::Real(number),
            None => Value::Null,
        },
    }
}

pub(crate) fn to_real(value: &Value) -> Value
    ensures { result ≡ to_real value.now }
{
    match value {
        Value::Int(number) => real_from(*number),
        Value::Real(number) => Value::Real(*number),
        Value::Text(text) => real_in(text.as_str()),
        Value::Null | Value::Stamp(_) => Value::Null,
    }
}

fn quantized_stamp(stamp: Stamp, step: i64) -> Value
    ensures { result ≡ or_null (stamp_value stamp.part) (quantized stamp.part stamp.seconds step) }
{
    match quantize(stamp, step) {
        Some(stamp) => Value::Stamp(stamp),
        None => Value::Null,
    }
}

pub(crate) fn quantized_value(a: &Value, b: &Value) -> Value
    ensures { result ≡ quantized_value a.now b.now }
{
    match (a, b) {
        (Value::Stamp(stamp), Value::Int(step)) => quantized_stamp(*stamp, *step),
        _ => quantize_number(a, b),
    }
}
