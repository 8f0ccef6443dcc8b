// Parts of texts as values.
ghost use Rattle.std.specs.Prelude.{◌≡◌, IfOk};
ghost use Rattle.lp_functions.specs.Cutting.{trim_value, ltrim_value, rtrim_value, extract_filename_value, extract_path_value, extract_extension_value, rest_from_value, substr_value};

use crate::texts::{text_of, text_or_null};
use lp_values::Value;
use std::alloc::{AllocError, Global};
use text_functions::{
    extract_extension, extract_filename, extract_path, ltrim, rtrim, substr, substr_from, trim,
};

pub(crate) fn trim_value(alloc: Global, a: &Value) -> Result<Value, AllocError>
    ensures { IfOk result (λ value. value ≡ trim_value a.now) }
{
    match a {
        Value::Text(text) => text_of(alloc, trim(text.as_str())),
        _ => Ok(Value::Null),
    }
}

pub(crate) fn ltrim_value(alloc: Global, a: &Value) -> Result<Value, AllocError>
    ensures { IfOk result (λ value. value ≡ ltrim_value a.now) }
{
    match a {
        Value::Text(text) => text_of(alloc, ltrim(text.as_str())),
        _ => Ok(Value::Null),
    }
}

pub(crate) fn rtrim_value(alloc: Global, a: &Value) -> Result<Value, AllocError>
    ensures { IfOk result (λ value. value ≡ rtrim_value a.now) }
{
    match a {
        Value::Text(text) => text_of(alloc, rtrim(text.as_str())),
        _ => Ok(Value::Null),
    }
}

pub(crate) fn extract_filename_value(alloc: Global, a: &Value) -> Result<Value, AllocError>
    ensures { IfOk result (λ value. value ≡ extract_filename_value a.now) }
{
    match a {
        Value::Text(text) => text_of(alloc, extract_filename(text.as_str())),
        _ => Ok(Value::Null),
    }
}

pub(crate) fn extract_path_value(alloc: Global, a: &Value) -> Result<Value, AllocError>
    ensures { IfOk result (λ value. value ≡ extract_path_value a.now) }
{
    match a {
        Value::Text(text) => text_of(alloc, extract_path(text.as_str())),
        _ => Ok(Value::Null),
    }
}

pub(crate) fn extract_extension_value(alloc: Global, a: &Value) -> Result<Value, AllocError>
    ensures { IfOk result (λ value. value ≡ extract_extension_value a.now) }
{
    match a {
        Value::Text(text) => text_or_null(alloc, extract_extension(text.as_str())),
        _ => Ok(Value::Null),
    }
}

pub(crate) fn rest_from_value(alloc: Global, a: &Value, b: &Value) -> Result<Value, AllocError>
    ensures { IfOk result (λ value. value ≡ rest_from_value a.now b.now) }
{
    match (a, b) {
        (Value::Text(text), Value::Int(from)) => text_or_null(
            alloc,
            substr_from(text.as_str(), *from),
        ),
        _ => Ok(Value::Null),
    }
}

pub(crate) fn substr_value(
    alloc: Global,
    a: &Value,
    b: &Value,
    c: &Value,
) -> Result<Value, AllocError>
    ensures { IfOk result (λ value. value ≡ substr_value a.now b.now c.now) }
{
    match (a, b, c) {
        (Value::Text(text), Value::Int(from), Value::Int(most)) => text_or_null(
            alloc,
            substr(text.as_str(), *from, *most),
        ),
        _ => Ok(Value::Null),
    }
}
