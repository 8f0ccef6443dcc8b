// Expressions over a row that begins with keys and aggregates.
ghost use Rattle.std.specs.Prelude.{◌≡◌, ◌+◌, IfOk, map, option_map};
ghost use Rattle.query_types.specs.Boxed.{boxed_filter};
ghost use Rattle.query_types.specs.Conditions.{either, both, opposite, filter_of};
ghost use Rattle.query_types.specs.Terms.{column, term_of, made, maker_of};
ghost use Rattle.senses.specs.Senses.{listed_senses, sense_of, senses_of};
ghost use Rattle.senses.specs.Checks.{check_of};
ghost use Rattle.senses.specs.Checks.{Check as check};
ghost use Rattle.seating.specs.Gathered.{all_seated, column_or, counted_of, place_or_first, seated, seated_in};

use crate::gathering::{Aggregate, aggregate_place};
use in_set::InSet;
use lp_values::{Compare, Kind, Text};
use query_types::{Condition, Form, Meaning, MeaningList, Operation, made};
use senses::{SenseCheck, SenseForm, SenseList, first_same};
use std::alloc::{AllocError, Global};
use std::rc::Rc;

// The column at a place behind so many.
fn column_at(first: usize, place: Option<usize>) -> Result<Form, AllocError>
    ensures { IfOk result (λ form. term_of form ≡ column (first + place_or_first place)) }
{
    let place = match place {
        Some(place) => place,
        None => 0,
    };
    match first.checked_add(place) {
        None => Err(AllocError),
        Some(index) => Ok(Form::Column(index)),
    }
}

// The column at a place behind so many keys and aggregates.
fn mark_at(keys: usize, found: usize, place: Option<usize>) -> Result<Form, AllocError>
    ensures { IfOk result (λ form. term_of form ≡ column (keys + found + place_or_first place)) }
{
    match keys.checked_add(found) {
        None => Err(AllocError),
        Some(first) => column_at(first, place),
    }
}

// What equals a key or means this.
fn seat_meaning(alloc: Global, place: Option<usize>, meaning: &Meaning) -> Result<Form, AllocError>
    ensures { IfOk result (λ form. term_of form ≡ column_or place meaning.now) }
{
    match place {
        Some(place) => Ok(Form::Column(place)),
        None => Ok(meaning.copy(alloc)?.into_form()),
    }
}

// What is made of others over such a row.
#[cycle(seats)]
fn seat_formed(
    alloc: Global,
    of: &[SenseForm],
    keys: &[SenseForm],
    found: &[Aggregate],
    kind: Kind,
    by: &Operation,
) -> Result<Form, AllocError>
    ensures { IfOk result (λ form. term_of form ≡ made kind (maker_of by.now) (all_seated (map sense_of keys.now) (map counted_of found.now) (senses_of (map sense_of of.now)))) }
{
    let mut parts = Vec::new(alloc);
    for part in of {
        parts.push(seated(alloc, part, keys, found)?)?;
    }
    let operation = by.copy(alloc)?;
    Ok(made(kind, operation, parts))
}

/// An expression over a row that begins with keys and aggregates and ends with a mark for each key.
#[cycle(seats)]
pub(crate) fn seated(
    alloc: Global,
    sense: &SenseForm,
    keys: &[SenseForm],
    found: &[Aggregate],
) -> Result<Form, AllocError>
    ensures { IfOk result (λ form. term_of form ≡ seated (map sense_of keys.now) (map counted_of found.now) (sense_of sense.now)) }
{
    match sense {
        SenseForm::Field { at: _, meaning } => {
            seat_meaning(alloc, first_same(keys, sense), meaning)
        }
        SenseForm::Fixed(meaning) => seat_meaning(alloc, first_same(keys, sense), meaning),
        SenseForm::Formed { kind, by, of } => match first_same(keys, sense) {
            Some(place) => Ok(Form::Column(place)),
            None => seat_formed(alloc, of.as_slice(), keys, found, *kind, by),
        },
        SenseForm::Aggregate { at: _, how, of } => {
            column_at(keys.len(), aggregate_place(found, *how, of))
        }
        SenseForm::Grouping { at: _, of } => {
            mark_at(keys.len(), found.len(), first_same(keys, of))
        }
    }
}

//// The same, as what it means.
pub(crate) fn seat(
    alloc: Global,
    keys: &[SenseForm],
    found: &[Aggregate],
    sense: &SenseForm,
) -> Result<Meaning, AllocError>
    ensures { IfOk result (λ meaning. meaning ≡ seated (map sense_of keys.now) (map counted_of found.now) (sense_of sense.now)) }
{
    Ok(Meaning::new(seated(alloc, sense, keys, found)?))
}

/// Adds expressions over such a row.
pub(crate) fn seat_all(
    alloc: Global,
    keys: &[SenseForm],
    found: &[Aggregate],
    senses: &[SenseForm],
) -> Result<MeaningList, AllocError>
    ensures { IfOk result (λ meanings. meanings ≡ map (seated (map sense_of keys.now) (map counted_of found.now)) (map sense_of senses.now)) }
{
    let mut meanings = MeaningList::new(alloc);
    for sense in senses {
        meanings.push(seat(alloc, keys, found, sense)?)?;
    }
    Ok(meanings)
}

// A comparison over such a row.
fn seat_compared(
    alloc: Global,
    keys: &[SenseForm],
    found: &[Aggregate],
    how: Compare,
    left: &SenseForm,
    right: &SenseForm,
) -> Result<Box<Condition>, AllocError>
    ensures { IfOk result (λ condition. boxed_filter condition ≡ seated_in (map sense_of keys.now) (map counted_of found.now) (check.compared how (sense_of left.now) (sense_of right.now))) }
{
    let left = seat(alloc, keys, found, left)?;
    let right = seat(alloc, keys, found, right)?;
    Ok(Box::new(alloc, Condition::Compare { how, left, right })?)
}

// A test for NULL over such a row.
fn seat_null(
    alloc: Global,
    keys: &[SenseForm],
    found: &[Aggregate],
    value: &SenseForm,
    negated: bool,
) -> Result<Box<Condition>, AllocError>
    ensures { IfOk result (λ condition. boxed_filter condition ≡ seated_in (map sense_of keys.now) (map counted_of found.now) (check.null (sense_of value.now) negated)) }
{
    let value = seat(alloc, keys, found, value)?;
    Ok(Box::new(alloc, Condition::IsNull { value, negated })?)
}

// A test for a likeness over such a row.
fn seat_like(
    alloc: Global,
    keys: &[SenseForm],
    found: &[Aggregate],
    value: &SenseForm,
    pattern: &Text,
    negated: bool,
) -> Result<Box<Condition>, AllocError>
    ensures { IfOk result (λ condition. boxed_filter condition ≡ seated_in (map sense_of keys.now) (map counted_of found.now) (check.like (sense_of value.now) pattern.now negated)) }
{
    let value = seat(alloc, keys, found, value)?;
    let pattern = pattern.copy(alloc)?;
    let condition = Condition::Like {
        value,
        pattern,
        negated,
    };
    Ok(Box::new(alloc, condition)?)
}

// A test between two values over such a row.
fn seat_between(
    alloc: Global,
    keys: &[SenseForm],
    found: &[Aggregate],
    value: &SenseForm,
    low: &SenseForm,
    high: &SenseForm,
    negated: bool,
) -> Result<Box<Condition>, AllocError>
    ensures { IfOk result (λ condition. boxed_filter condition ≡ seated_in (map sense_of keys.now) (map counted_of found.now) (check.between (sense_of value.now) (sense_of low.now) (sense_of high.now) negated)) }
{
    let value = seat(alloc, keys, found, value)?;
    let low = seat(alloc, keys, found, low)?;
    let high = seat(alloc, keys, found, high)?;
    let condition = Condition::Between {
        value,
        low,
        high,
        negated,
    };
    Ok(Box::new(alloc, condition)?)
}

// A test among values over such a row.
fn seat_within(
    alloc: Global,
    keys: &[SenseForm],
    found: &[Aggregate],
    value: &SenseForm,
    items: &SenseList,
    negated: bool,
) -> Result<Box<Condition>, AllocError>
    ensures { IfOk result (λ condition. boxed_filter condition ≡ seated_in (map sense_of keys.now) (map counted_of found.now) (check.within (sense_of value.now) (listed_senses items.now) negated)) }
{
    let value = seat(alloc, keys, found, value)?;
    let items = seat_all(alloc, keys, found, items.items.as_slice())?;
    let condition = Condition::Within {
        value,
        items,
        negated,
    };
    Ok(Box::new(alloc, condition)?)
}

// A test among the values of a subquery over such a row.
fn seat_contained(
    alloc: Global,
    keys: &[SenseForm],
    found: &[Aggregate],
    value: &SenseForm,
    values: &Rc<InSet>,
    negated: bool,
) -> Result<Box<Condition>, AllocError>
    ensures { IfOk result (λ condition. boxed_filter condition ≡ seated_in (map sense_of keys.now) (map counted_of found.now) (check.contained (sense_of value.now) values.now.value negated)) }
{
    let value = seat(alloc, keys, found, value)?;
    let values = Rc::clone(values)?;
    let condition = Condition::Contained {
        value,
        values,
        negated,
    };
    Ok(Box::new(alloc, condition)?)
}

// The first or the second.
fn or(
    alloc: Global,
    left: Box<Condition>,
    right: Box<Condition>,
) -> Result<Box<Condition>, AllocError>
    ensures { IfOk result (λ condition. boxed_filter condition ≡ either (boxed_filter left) (boxed_filter right)) }
{
    Ok(Box::new(alloc, Condition::Or(left, right))?)
}

// The first and the second.
fn and(
    alloc: Global,
    left: Box<Condition>,
    right: Box<Condition>,
) -> Result<Box<Condition>, AllocError>
    ensures { IfOk result (λ condition. boxed_filter condition ≡ both (boxed_filter left) (boxed_filter right)) }
{
    Ok(Box::new(alloc, Condition::And(left, right))?)
}

// Not the condition.
fn not(alloc: Global, inner: Box<Condition>) -> Result<Box<Condition>, AllocError>
    ensures { IfOk result (λ condition. boxed_filter condition ≡ opposite (boxed_filter inner)) }
{
    Ok(Box::new(alloc, Condition::Not(inner))?)
}

// A condition over such a row, in a box.
fn seated_in(
    alloc: Global,
    keys: &[SenseForm],
    found: &[Aggregate],
    check: &SenseCheck,
) -> Result<Box<Condition>, AllocError>
    ensures { IfOk result (λ condition. boxed_filter condition ≡ seated_in (map sense_of keys.now) (map counted_of found.now) (check_of check.now)) }
{
    match check {
        SenseCheck::Or(left, right) => {
            let left = seated_in(alloc, keys, found, left)?;
            let right = seated_in(alloc, keys, found, right)?;
            or(alloc, left, right)
        }
        SenseCheck::And(left, right) => {
            let left = seated_in(alloc, keys, found, left)?;
            let right = seated_in(alloc, keys, found, right)?;
            and(alloc, left, right)
        }
        SenseCheck::Not(inner) => {
            let inner = seated_in(alloc, keys, found, inner)?;
            not(alloc, inner)
        }
        SenseCheck::Compare { how, left, right } => {
            seat_compared(alloc, keys, found, *how, left, right)
        }
        SenseCheck::IsNull { value, negated } => { seat_null(alloc, keys, found, value, *negated) }
        SenseCheck::Like {
            value,
            pattern,
            negated,
        } => seat_like(alloc, keys, found, value, pattern, *negated),
        SenseCheck::Between {
            value,
            low,
            high,
            negated,
        } => seat_between(alloc, keys, found, value, low, high, *negated),
        SenseCheck::Within {
            value,
            items,
            negated,
        } => seat_within(alloc, keys, found, value, items, *negated),
        SenseCheck::Contained {
            value,
            values,
            negated,
        } => seat_contained(alloc, keys, found, value, values, *negated),
    }
}

/// WHERE or HAVING over such a row.
pub(crate) fn seat_maybe(
    alloc: Global,
    keys: &[SenseForm],
    found: &[Aggregate],
    check: &Option<SenseCheck>,
) -> Result<Option<Condition>, AllocError>
    ensures { IfOk result (λ condition. option_map filter_of condition ≡ option_map (seated_in (map sense_of keys.now) (map counted_of found.now)) (option_map check_of check.now)) }
{
    match check {
        None => Ok(None),
        Some(check) => {
            let condition = seated_in(alloc, keys, found, check)?;
            Ok(Some(Box::into_inner(condition)))
        }
    }
}
