// Texts in URLs.
ghost use Rattle.std.specs.Prelude.{◌≡◌, IfOk};
ghost use Rattle.std.specs.Str.Lossy.{utf8_lossy};
ghost use Rattle.percent_encoding.specs.Percent.{percent_decode as decoded};
ghost use Rattle.lp_functions.specs.Urls.{escaped, url_escape, url_unescape};

use crate::texts::text_value;
use lp_values::{Text, Value};
use percent_encoding::{AsciiSet, NON_ALPHANUMERIC, ascii_set, percent_decode, percent_encode};
use std::alloc::{AllocError, Global};

// All but letters, digits, `-`, `_`, `.` and `~`.
const ESCAPED: AsciiSet = ascii_set!(
    NON_ALPHANUMERIC
        .remove(b'-')
        .remove(b'_')
        .remove(b'.')
        .remove(b'~')
);

#[tactic(auto, using(crate::proofs::Escapes::percent_encode_is))]
fn escaped(alloc: Global, text: &str) -> Result<Text, AllocError>
    ensures { IfOk result (λ copy. copy ≡ escaped text.now) }
{
    let mut copy = String::new(alloc);
    percent_encode(text.as_bytes(), ESCAPED).append_to(&mut copy)?;
    Ok(Text::from_string(copy))
}

fn unescaped(alloc: Global, text: &str) -> Result<Text, AllocError>
    ensures { IfOk result (λ copy. copy ≡ utf8_lossy (decoded text.now)) }
{
    let mut bytes = Vec::new(alloc);
    percent_decode(text.as_bytes()).append_to(&mut bytes)?;
    Text::read(alloc, bytes.as_slice())
}

pub(crate) fn url_escape(alloc: Global, value: &Value) -> Result<Value, AllocError>
    ensures { IfOk result (λ text. text ≡ url_escape value.now) }
{
    match value {
        Value::Text(text) => Ok(text_value(escaped(alloc, text.as_str())?)),
        Value::Null | Value::Int(_) | Value::Real(_) | Value::Stamp(_) => Ok(Value::Null),
    }
}

pub(crate) fn url_unescape(alloc: Global, value: &Value) -> Result<Value, AllocError>
    ensures { IfOk result (λ text. text ≡ url_unescape value.now) }
{
    match value {
        Value::Text(text) => Ok(text_value(unescaped(alloc, text.as_str())?)),
        Value::Null | Value::Int(_) | Value::Real(_) | Value::Stamp(_) => Ok(Value::Null),
    }
}
