// Texts made of others, as values.
ghost use Rattle.std.specs.Prelude.{◌≡◌, IfOk};
ghost use Rattle.lp_functions.specs.Making.{strcat_value, replace_str_value, replace_chr_value, to_lowercase_value, to_uppercase_value};

use crate::texts::{LONGEST, made};
use lp_values::Value;
use std::alloc::{AllocError, Global};
use text_functions::{replace_chr, replace_str, strcat, to_lowercase, to_uppercase};

pub(crate) fn strcat_value(alloc: Global, a: &Value, b: &Value) -> Result<Value, AllocError>
    ensures { IfOk result (λ value. value ≡ strcat_value a.now b.now) }
{
    match (a, b) {
        (Value::Text(first), Value::Text(second)) => Ok(made(strcat(
            alloc,
            first.as_str(),
            second.as_str(),
            LONGEST,
        )?)),
        _ => Ok(Value::Null),
    }
}

pub(crate) fn replace_str_value(
    alloc: Global,
    a: &Value,
    b: &Value,
    c: &Value,
) -> Result<Value, AllocError>
    ensures { IfOk result (λ value. value ≡ replace_str_value a.now b.now c.now) }
{
    match (a, b, c) {
        (Value::Text(text), Value::Text(part), Value::Text(by)) => Ok(made(replace_str(
            alloc,
            text.as_str(),
            part.as_str(),
            by.as_str(),
            LONGEST,
        )?)),
        _ => Ok(Value::Null),
    }
}

pub(crate) fn replace_chr_value(
    alloc: Global,
    a: &Value,
    b: &Value,
    c: &Value,
) -> Result<Value, AllocError>
    ensures { IfOk result (λ value. value ≡ replace_chr_value a.now b.now c.now) }
{
    match (a, b, c) {
        (Value::Text(text), Value::Text(some), Value::Text(by)) => Ok(made(replace_chr(
            alloc,
            text.as_str(),
            some.as_str(),
            by.as_str(),
            LONGEST,
        )?)),
        _ => Ok(Value::Null),
    }
}

pub(crate) fn to_lowercase_value(alloc: Global, a: &Value) -> Result<Value, AllocError>
    ensures { IfOk result (λ value. value ≡ to_lowercase_value a.now) }
{
    match a {
        Value::Text(text) => Ok(made(to_lowercase(alloc, text.as_str(), LONGEST)?)),
        _ => Ok(Value::Null),
    }
}

pub(crate) fn to_uppercase_value(alloc: Global, a: &Value) -> Result<Value, AllocError>
    ensures { IfOk result (λ value. value ≡ to_uppercase_value a.now) }
{
    match a {
        Value::Text(text) => Ok(made(to_uppercase(alloc, text.as_str(), LONGEST)?)),
        _ => Ok(Value::Null),
    }
}
