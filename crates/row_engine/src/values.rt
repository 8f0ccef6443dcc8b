// The value of a meaning in a row.
ghost use Rattle.std.specs.Prelude.{◌≡◌, IfOk, IfSome, drop, get_or, is_some};
ghost use Rattle.lp_functions.specs.Applied.{applied};
ghost use Rattle.lp_values.specs.declared.value.Value.TheVariants.{Null};
ghost use Rattle.lp_values.specs.Comparing.{compared as comparison};
ghost use Rattle.query_types.specs.Terms.{maker_of, term_of};
ghost use Rattle.row_engine.specs.Rows.{branch_of, forms_in, is_yes, made_by, value_in};
ghost use Rattle.row_engine.specs.Seen.{seen_value, stands};

use crate::seen::Seen;
use lp_functions::{
    Function, apply, apply_to_one, apply_to_three, apply_to_two, read_as, write_as,
};
use lp_values::{Compare, Truth, Value, ValueList, compare};
use query_types::{Form, Meaning, Operation};
use std::alloc::{AllocError, Global};

// The value of a function over more arguments.
#[cycle(values)]
fn called_with_many(
    alloc: Global,
    row: &ValueList,
    function: Function,
    of: &[Form],
) -> Result<Value, AllocError>
    ensures { IfOk result (λ value. value ≡ applied function (forms_in row.now of.now)) }
{
    let mut values = ValueList::with_capacity(alloc, of.len())?;
    for part in of {
        let part = form_value(alloc, row, part)?;
        values.push(part.into_value(alloc)?)?;
    }
    apply(alloc, function, &values)
}

// The value of a function.
#[cycle(values)]
fn called(
    alloc: Global,
    row: &ValueList,
    function: Function,
    of: &[Form],
) -> Result<Value, AllocError>
    ensures { IfOk result (λ value. value ≡ applied function (forms_in row.now of.now)) }
{
    match of {
        [a] => {
            let a = form_value(alloc, row, a)?;
            apply_to_one(alloc, function, a.get())
        }
        [a, b] => {
            let a = form_value(alloc, row, a)?;
            let b = form_value(alloc, row, b)?;
            apply_to_two(alloc, function, a.get(), b.get())
        }
        [a, b, c] => {
            let a = form_value(alloc, row, a)?;
            let b = form_value(alloc, row, b)?;
            let c = form_value(alloc, row, c)?;
            apply_to_three(alloc, function, a.get(), b.get(), c.get())
        }
        _ => called_with_many(alloc, row, function, of),
    }
}

// The value of the first part, or NULL.
#[cycle(values)]
fn first_value<'a>(
    alloc: Global,
    row: &'a ValueList,
    of: &'a [Form],
) -> Result<Seen<'a>, AllocError>
    ensures { IfOk result (λ seen. seen_value seen ≡ get_or (forms_in row.now of.now) 0 Null) }
{
    match of {
        [] => Ok(Seen::Made(Value::Null)),
        [first, ..] => form_value(alloc, row, first),
    }
}

// Whether a WHEN compares equal.
#[cycle(values)]
fn is_met(alloc: Global, row: &ValueList, subject: &Value, test: &Form) -> Result<bool, AllocError>
    ensures { IfOk result (λ is_met. is_met ≡ is_yes (comparison Compare.Equal subject.now (value_in row.now (term_of test.now)))) }
{
    let test = form_value(alloc, row, test)?;
    Ok(compare(Compare::Equal, subject, test.get()) == Truth::Yes)
}

// What a CASE takes of its parts, of which nothing else but the tests before it is worked out.
#[cycle(values)]
fn branched<'a>(
    alloc: Global,
    row: &'a ValueList,
    subject: &Value,
    of: &'a [Form],
) -> Result<Seen<'a>, AllocError>
    ensures { IfOk result (λ seen. seen_value seen ≡ branch_of subject.now (drop 1 (forms_in row.now of.now))) }
{
    let mut at = 1;
    while at + 1 < of.len() {
        let is_met = is_met(alloc, row, subject, &of[at])?;
        if is_met {
            return form_value(alloc, row, &of[at + 1]);
        }
        at += 2;
    }
    match of.get(at) {
        None => Ok(Seen::Made(Value::Null)),
        Some(otherwise) => form_value(alloc, row, otherwise),
    }
}

// What is made of parts.
#[cycle(values)]
fn made_value<'a>(
    alloc: Global,
    row: &'a ValueList,
    by: &'a Operation,
    of: &'a [Form],
) -> Result<Seen<'a>, AllocError>
    ensures { IfOk result (λ seen. seen_value seen ≡ made_by (maker_of by.now) (forms_in row.now of.now)) }
{
    match by {
        Operation::Call(function) => Ok(Seen::Made(called(alloc, row, *function, of)?)),
        Operation::Case => {
            let subject = first_value(alloc, row, of)?;
            branched(alloc, row, subject.get(), of)
        }
        Operation::Write(pattern) => {
            let stamp = first_value(alloc, row, of)?;
            Ok(Seen::Made(write_as(alloc, pattern, stamp.get())?))
        }
        Operation::Read(pattern) => {
            let text = first_value(alloc, row, of)?;
            Ok(Seen::Made(read_as(pattern, text.get())))
        }
        Operation::Stated(value) => Ok(Seen::There(value)),
        Operation::Unlisted(_) => Ok(Seen::Made(Value::Null)),
    }
}

// A form's value in a row: where it stands, or as it was made.
#[cycle(values)]
pub fn form_value<'a>(
    alloc: Global,
    row: &'a ValueList,
    form: &'a Form,
) -> Result<Seen<'a>, AllocError>
    ensures { IfOk result (λ seen. seen_value seen ≡ value_in row.now (term_of form.now)) }
{
    match form {
        Form::Column(index) => Ok(Seen::of(row.get(*index))),
        Form::Constant(value) => Ok(Seen::There(value)),
        Form::Made { kind: _, by, of } => made_value(alloc, row, by, of.as_slice()),
    }
}

/// The value of a column or a constant, where it stands; `None` where it doesn't stand anywhere.
pub fn standing<'a>(row: &'a ValueList, meaning: &'a Meaning) -> Option<&'a Value>
    ensures value { IfSome result (λ value. value.now ≡ value_in row.now meaning.now) }
    ensures stands { is_some result ≡ stands row.now meaning.now }
{
    match meaning.form() {
        Form::Column(index) => row.get(*index),
        Form::Constant(value) => Some(value),
        Form::Made { .. } => None,
    }
}

/// A meaning's value in a row: where it stands, or as it was made.
pub fn value<'a>(
    alloc: Global,
    row: &'a ValueList,
    meaning: &'a Meaning,
) -> Result<Seen<'a>, AllocError>
    ensures { IfOk result (λ seen. seen_value seen ≡ value_in row.now meaning.now) }
{
    form_value(alloc, row, meaning.form())
}

/// A meaning's value in a row, as one's own.
pub fn copied(alloc: Global, row: &ValueList, meaning: &Meaning) -> Result<Value, AllocError>
    ensures { IfOk result (λ copy. copy ≡ value_in row.now meaning.now) }
{
    match standing(row, meaning) {
        Some(value) => value.copy(alloc),
        None => value(alloc, row, meaning)?.into_value(alloc),
    }
}
