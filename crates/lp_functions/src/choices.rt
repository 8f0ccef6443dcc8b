// Values that stand for NULL.
ghost use Rattle.std.specs.Prelude.{◌≡◌, ◌∷◌, [], IfOk, if◌then◌else◌, option_map};
ghost use Rattle.std.specs.List.{list_all};
ghost use Rattle.lp_functions.specs.Choices.{is_of, is_null, first_value, coalesced, replaced_if_not_null};

use crate::place::same_kind;
use lp_values::{Kind, Value};
use std::alloc::{AllocError, Global};

fn is_of(kind: Kind, value: &Value) -> bool
    ensures { result ≡ is_of kind value.now }
{
    same_kind(value.kind(), Kind::Any) || same_kind(value.kind(), kind)
}

fn are_of(kind: Kind, values: &[Value]) -> bool
    ensures { result ≡ list_all (is_of kind) values.now }
{
    values.iter().all(|value| is_of(kind, value))
}

fn is_null(value: &Value) -> bool
    ensures { result ≡ is_null value.now }
{
    match value {
        Value::Null => true,
        Value::Int(_) | Value::Real(_) | Value::Text(_) | Value::Stamp(_) => false,
    }
}

// The first value that isn't NULL.
fn first_value(values: &[Value]) -> Option<&Value>
    ensures { option_map (λ value. value.now) result ≡ first_value values.now }
{
    values.iter().find(|value| !is_null(value))
}

pub(crate) fn coalesced(alloc: Global, values: &[Value]) -> Result<Value, AllocError>
    ensures { IfOk result (λ value. value ≡ coalesced values.now) }
{
    match first_value(values) {
        Some(first) if are_of(first.kind(), values) => first.copy(alloc),
        _ => Ok(Value::Null),
    }
}

// The first of two that isn't NULL, else the second.
fn first_of<'a>(a: &'a Value, b: &'a Value) -> &'a Value
    ensures { result.now ≡ (if is_null a.now then b.now else a.now) }
{
    if is_null(a) { b } else { a }
}

pub(crate) fn coalesced_pair(alloc: Global, a: &Value, b: &Value) -> Result<Value, AllocError>
    ensures { IfOk result (λ value. value ≡ coalesced (a.now ∷ b.now ∷ [])) }
{
    let first = first_of(a, b);
    let kind = first.kind();
    if is_of(kind, a) && is_of(kind, b) {
        first.copy(alloc)
    } else {
        Ok(Value::Null)
    }
}

pub(crate) fn coalesced_triple(
    alloc: Global,
    a: &Value,
    b: &Value,
    c: &Value,
) -> Result<Value, AllocError>
    ensures { IfOk result (λ value. value ≡ coalesced (a.now ∷ b.now ∷ c.now ∷ [])) }
{
    let first = first_of(a, first_of(b, c));
    let kind = first.kind();
    if is_of(kind, a) && is_of(kind, b) && is_of(kind, c) {
        first.copy(alloc)
    } else {
        Ok(Value::Null)
    }
}

pub(crate) fn replaced_if_not_null(alloc: Global, a: &Value, b: &Value) -> Result<Value, AllocError>
    ensures { IfOk result (λ value. value ≡ replaced_if_not_null a.now b.now) }
{
    match a {
        Value::Null => Ok(Value::Null),
        Value::Int(_) | Value::Real(_) | Value::Text(_) | Value::Stamp(_) => b.copy(alloc),
    }
}
