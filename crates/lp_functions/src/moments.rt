// Values as dates and times.
ghost use Rattle.std.specs.Prelude.{◌≡◌, ℕ, List, Ok};
ghost use Rattle.lp_values.specs.declared.value.Value.TheVariants.{Text};
ghost use Rattle.lp_functions.specs.Moments.{to_date, to_time, to_timestamp, read_as, read_by};
ghost use Rattle.lp_time.specs.Patterns.{pattern_in};

use lp_time::{Pattern, join_date_time, read_stamp};
use lp_values::Value;

/// The day of a stamp; NULL for any other value.
pub fn to_date(value: &Value) -> Value
    ensures { result ≡ to_date value.now }
{
    match value {
        Value::Stamp(stamp) => Value::Stamp(lp_time::to_date(*stamp)),
        Value::Null | Value::Int(_) | Value::Real(_) | Value::Text(_) => Value::Null,
    }
}

/// The time of day of a stamp; NULL for any other value.
pub fn to_time(value: &Value) -> Value
    ensures { result ≡ to_time value.now }
{
    match value {
        Value::Stamp(stamp) => Value::Stamp(lp_time::to_time(*stamp)),
        Value::Null | Value::Int(_) | Value::Real(_) | Value::Text(_) => Value::Null,
    }
}

fn read_by(pattern: &str, text: &str) -> Value
    ensures { result ≡ read_by (pattern_in pattern.now) text.now }
{
    match Pattern::read(pattern) {
        Ok(pattern) => match read_stamp(&pattern, text) {
            Some(stamp) => Value::Stamp(stamp),
            None => Value::Null,
        },
        Err(_) => Value::Null,
    }
}

pub(crate) fn to_timestamp(a: &Value, b: &Value) -> Value
    ensures { result ≡ to_timestamp a.now b.now }
{
    match (a, b) {
        (Value::Text(text), Value::Text(pattern)) => read_by(pattern.as_str(), text.as_str()),
        (Value::Stamp(date), Value::Stamp(time)) => Value::Stamp(join_date_time(*date, *time)),
        _ => Value::Null,
    }
}

/// A text read as a stamp by a pattern; NULL where it doesn't read, and for any other value.
pub fn read_as(pattern: &Pattern, value: &Value) -> Value
    ensures value { result ≡ read_as pattern.now value.now }
    ensures same { (text : List ℕ) → pattern_in text ≡ Ok pattern.now → read_as pattern.now value.now ≡ to_timestamp value.now (Text text) }
{
    match value {
        Value::Text(text) => match read_stamp(pattern, text.as_str()) {
            Some(stamp) => Value::Stamp(stamp),
            None => Value::Null,
        },
        Value::Null | Value::Int(_) | Value::Real(_) | Value::Stamp(_) => Value::Null,
    }
}
