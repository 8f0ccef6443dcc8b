// How many bytes the parts of an entry take. Sums stop at the greatest number.
ghost use Rattle.std.specs.Prelude.{◌≡◌, ◌+◌, ◌-◌, ◌^◌, min, length, sum_by};
ghost use Rattle.ledger.specs.Sizes.{text_length, span_length, value_length, list_length, output_length};

use crate::{EntrySpan, Output};
use lp_values::{Text, Value, ValueList};

pub(crate) fn text_size(length: usize) -> u64
    ensures { result ≡ min (4 + length) (2 ^ 64 - 1) }
{
    (length as u64).saturating_add(4)
}

pub(crate) fn words_size(words: &[Text]) -> u64
    ensures { result ≡ min (sum_by text_length words.now) (2 ^ 64 - 1) }
{
    let mut size: u64 = 0;
    for word in words {
        size = size.saturating_add(text_size(word.as_str().len()));
    }
    size
}

fn span_size(span: &EntrySpan) -> u64
    ensures { result ≡ min (span_length span.now) (2 ^ 64 - 1) }
{
    let identity = text_size(span.identity.as_str().len());
    let standing = text_size(span.standing.len());
    identity.saturating_add(16).saturating_add(standing)
}

pub(crate) fn spans_size(spans: &[EntrySpan]) -> u64
    ensures { result ≡ min (sum_by span_length spans.now) (2 ^ 64 - 1) }
{
    let mut size: u64 = 0;
    for span in spans {
        size = size.saturating_add(span_size(span));
    }
    size
}

fn value_size(value: &Value) -> u64
    ensures { result ≡ min (value_length value.now) (2 ^ 64 - 1) }
{
    match value {
        Value::Null => 1,
        Value::Int(_) => 9,
        Value::Real(_) => 9,
        Value::Text(text) => text_size(text.as_str().len()).saturating_add(1),
        Value::Stamp(_) => 10,
    }
}

fn list_size(list: &[Value]) -> u64
    ensures { result ≡ min (list_length list.now) (2 ^ 64 - 1) }
{
    let mut size: u64 = 8;
    for value in list {
        size = size.saturating_add(value_size(value));
    }
    size
}

pub(crate) fn lists_size(lists: &[ValueList]) -> u64
    ensures { result ≡ min (sum_by list_length lists.now) (2 ^ 64 - 1) }
{
    let mut size: u64 = 0;
    for list in lists {
        size = size.saturating_add(list_size(list.as_slice()));
    }
    size
}

pub(crate) fn outputs_size(outputs: &[Output]) -> u64
    ensures { result ≡ min (sum_by output_length outputs.now) (2 ^ 64 - 1) }
{
    let mut size: u64 = 0;
    for output in outputs {
        size = size.saturating_add(text_size(output.name.as_str().len()).saturating_add(24));
    }
    size
}
