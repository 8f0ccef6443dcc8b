// Parts of texts between separators, as values.
ghost use Rattle.std.specs.Prelude.{◌≡◌, IfOk};
ghost use Rattle.lp_functions.specs.Tokens.{token_of_list_value, extract_token_value, value_of_query_value, extract_value_value, extract_prefix_value, extract_suffix_value};

use crate::texts::text_or_null;
use lp_values::Value;
use std::alloc::{AllocError, Global};
use text_functions::{extract_prefix, extract_suffix, extract_token, extract_value};

pub(crate) fn token_of_list_value(alloc: Global, a: &Value, b: &Value) -> Result<Value, AllocError>
    ensures { IfOk result (λ value. value ≡ token_of_list_value a.now b.now) }
{
    match (a, b) {
        (Value::Text(text), Value::Int(index)) => text_or_null(
            alloc,
            extract_token(text.as_str(), *index, None),
        ),
        _ => Ok(Value::Null),
    }
}

pub(crate) fn extract_token_value(
    alloc: Global,
    a: &Value,
    b: &Value,
    c: &Value,
) -> Result<Value, AllocError>
    ensures { IfOk result (λ value. value ≡ extract_token_value a.now b.now c.now) }
{
    match (a, b, c) {
        (Value::Text(text), Value::Int(index), Value::Text(separator)) => text_or_null(
            alloc,
            extract_token(text.as_str(), *index, Some(separator.as_str())),
        ),
        _ => Ok(Value::Null),
    }
}

pub(crate) fn value_of_query_value(alloc: Global, a: &Value, b: &Value) -> Result<Value, AllocError>
    ensures { IfOk result (λ value. value ≡ value_of_query_value a.now b.now) }
{
    match (a, b) {
        (Value::Text(text), Value::Text(name)) => text_or_null(
            alloc,
            extract_value(text.as_str(), name.as_str(), None),
        ),
        _ => Ok(Value::Null),
    }
}

pub(crate) fn extract_value_value(
    alloc: Global,
    a: &Value,
    b: &Value,
    c: &Value,
) -> Result<Value, AllocError>
    ensures { IfOk result (λ value. value ≡ extract_value_value a.now b.now c.now) }
{
    match (a, b, c) {
        (Value::Text(text), Value::Text(name), Value::Text(separator)) => text_or_null(
            alloc,
            extract_value(text.as_str(), name.as_str(), Some(separator.as_str())),
        ),
        _ => Ok(Value::Null),
    }
}

pub(crate) fn extract_prefix_value(
    alloc: Global,
    a: &Value,
    b: &Value,
    c: &Value,
) -> Result<Value, AllocError>
    ensures { IfOk result (λ value. value ≡ extract_prefix_value a.now b.now c.now) }
{
    match (a, b, c) {
        (Value::Text(text), Value::Int(index), Value::Text(separator)) => text_or_null(
            alloc,
            extract_prefix(text.as_str(), *index, separator.as_str()),
        ),
        _ => Ok(Value::Null),
    }
}

pub(crate) fn extract_suffix_value(
    alloc: Global,
    a: &Value,
    b: &Value,
    c: &Value,
) -> Result<Value, AllocError>
    ensures { IfOk result (λ value. value ≡ extract_suffix_value a.now b.now c.now) }
{
    match (a, b, c) {
        (Value::Text(text), Value::Int(index), Value::Text(separator)) => text_or_null(
            alloc,
            extract_suffix(text.as_str(), *index, separator.as_str()),
        ),
        _ => Ok(Value::Null),
    }
}
