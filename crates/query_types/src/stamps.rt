// Stamps that a query names.
ghost use Rattle.std.specs.Prelude.{◌≡◌, [], ◌∷◌, Some, IfOk};
ghost use Rattle.query_tree.specs.Views.{placed_of};
ghost use Rattle.lp_time.specs.Readings.{pattern_part, seconds_in};
ghost use Rattle.slot_reading.specs.Stamps.{stamp_value};
ghost use Rattle.lp_values.specs.declared.part.Part.TheVariants.{Both};
ghost use Rattle.lp_values.specs.declared.value.Value.TheVariants as V;
ghost use Rattle.query_types.specs.Meanings.{Answers, moment_as, pattern_of, said, stamp_means, stamp_read};
ghost use Rattle.query_types.specs.Terms.{constant, term_of};

use crate::form::{Form, Operation, made};
use crate::{Meaning, TypeFault};
use lp_functions::{to_date, to_time};
use lp_time::{Pattern, read_stamp};
use lp_values::{Part, Stamp, Text, Value};
use query_tree::Placed;
use std::alloc::{AllocError, Global};

/// A text as a pattern, which is to stand at this place.
pub(crate) fn pattern_of(at: u32, text: &Text) -> Result<Pattern, TypeFault>
    ensures { Answers (λ pattern. pattern) result (pattern_of at (Some (record { at = at; text = text.now }))) }
{
    match Pattern::read(text.as_str()) {
        Ok(pattern) => Ok(pattern),
        Err(_) => Err(TypeFault::BadPattern { at }),
    }
}

// A text as a part.
fn text_form(alloc: Global, text: &Text) -> Result<Form, AllocError>
    ensures { IfOk result (λ form. term_of form ≡ constant (V.Text text.now)) }
{
    Ok(Form::Constant(Value::Text(text.copy(alloc)?)))
}

// A value that two texts say.
fn said_by_two(
    alloc: Global,
    value: Value,
    first: &Text,
    second: &Text,
) -> Result<Meaning, AllocError>
    ensures { IfOk result (λ meaning. meaning ≡ said value (constant (V.Text first.now) ∷ constant (V.Text second.now) ∷ [])) }
{
    let mut texts = Vec::new(alloc);
    texts.push(text_form(alloc, first)?)?;
    texts.push(text_form(alloc, second)?)?;
    let kind = value.kind();
    Ok(Meaning::new(made(kind, Operation::Stated(value), texts)))
}

/// The moment of a run, as a call says it.
pub fn moment_said(alloc: Global, value: Value) -> Meaning
    ensures { result ≡ said value [] }
{
    let kind = value.kind();
    Meaning::new(made(kind, Operation::Stated(value), Vec::new(alloc)))
}

// A value read by a pattern, which stands as a text.
fn stamp_read(
    alloc: Global,
    value: &Placed,
    text: &Placed,
    pattern: &Pattern,
) -> Result<Meaning, TypeFault>
    ensures { Answers (λ meaning. meaning) result (stamp_read (placed_of value.now) (placed_of text.now) (pattern_part pattern.now) (seconds_in pattern.now value.now.text)) }
{
    match read_stamp(pattern, value.text.as_str()) {
        Some(stamp) => Ok(said_by_two(alloc, Value::Stamp(stamp), &value.text, &text.text)?),
        None => Err(TypeFault::BadPattern { at: value.at }),
    }
}

/// TIMESTAMP.
pub fn stamp_means(alloc: Global, value: &Placed, pattern: &Placed) -> Result<Meaning, TypeFault>
    ensures { Answers (λ meaning. meaning) result (stamp_means (placed_of value.now) (placed_of pattern.now)) }
{
    let pieces = pattern_of(pattern.at, &pattern.text)?;
    stamp_read(alloc, value, pattern, &pieces)
}

/// The moment of a run as a stamp; NULL outside the years of stamps.
pub fn moment_value(moment: i64) -> Value
    ensures { result ≡ stamp_value Both moment }
{
    match Stamp::new(moment, Part::Both) {
        Some(stamp) => Value::Stamp(stamp),
        None => Value::Null,
    }
}

/// The moment of a run, its day or its time of day.
pub fn moment_as(alloc: Global, part: Part, moment: &Value) -> Result<Value, AllocError>
    ensures { IfOk result (λ value. value ≡ moment_as part moment.now) }
{
    match part {
        Part::Both => moment.copy(alloc),
        Part::Date => Ok(to_date(moment)),
        Part::Time => Ok(to_time(moment)),
    }
}
