// Lengths and positions as values.
ghost use Rattle.std.specs.Prelude.{◌≡◌, ◌<◌, ◌^◌, IfSome};
ghost use Rattle.lp_functions.specs.Counting.{number_value, strlen_value, strcnt_value, index_of_value, last_index_of_value};
ghost use Rattle.slot_reading.specs.Slots.{or_null};

use lp_values::Value;
use text_functions::{index_of, last_index_of, strcnt, strlen};

fn number_value(number: usize) -> Value
    requires { number < 2 ^ 63 }
    ensures { result ≡ number_value number }
{
    Value::Int(number as i64)
}

fn position_value(position: Option<usize>) -> Value
    requires { IfSome position (λ place. place < 2 ^ 63) }
    ensures { result ≡ or_null number_value position }
{
    match position {
        Some(position) => number_value(position),
        None => Value::Null,
    }
}

pub(crate) fn strlen_value(a: &Value) -> Value
    ensures { result ≡ strlen_value a.now }
{
    match a {
        Value::Text(text) => number_value(strlen(text.as_str())),
        _ => Value::Null,
    }
}

pub(crate) fn strcnt_value(a: &Value, b: &Value) -> Value
    ensures { result ≡ strcnt_value a.now b.now }
{
    match (a, b) {
        (Value::Text(text), Value::Text(part)) => number_value(strcnt(
            text.as_str(),
            part.as_str(),
        )),
        _ => Value::Null,
    }
}

pub(crate) fn index_of_value(a: &Value, b: &Value) -> Value
    ensures { result ≡ index_of_value a.now b.now }
{
    match (a, b) {
        (Value::Text(text), Value::Text(part)) => position_value(index_of(
            text.as_str(),
            part.as_str(),
        )),
        _ => Value::Null,
    }
}

pub(crate) fn last_index_of_value(a: &Value, b: &Value) -> Value
    ensures { result ≡ last_index_of_value a.now b.now }
{
    match (a, b) {
        (Value::Text(text), Value::Text(part)) => position_value(last_index_of(
            text.as_str(),
            part.as_str(),
        )),
        _ => Value::Null,
    }
}
