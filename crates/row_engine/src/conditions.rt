// The truth of conditions in a row.
ghost use Rattle.std.specs.Prelude.{◌≡◌, IfOk, option_map};
ghost use Rattle.std.specs.Str.{chars};
ghost use Rattle.lp_values.specs.Comparing.{truth_of};
ghost use Rattle.lp_values.specs.Comparing.{compared as comparison};
ghost use Rattle.lp_values.specs.Truths.{both};
ghost use Rattle.query_types.specs.Conditions.{filter_of};
ghost use Rattle.query_types.specs.Conditions.{Filter as filter};
ghost use Rattle.row_engine.specs.Likeness.{is_like};
ghost use Rattle.row_engine.specs.Rows.{among, is_null, keeps, likeness, truth_in, turned, value_in};

use crate::values::{standing, value};
use in_set::InSet;
use lp_values::{Compare, Text, Truth, Value, ValueList, and, compare, not, or};
use query_types::{Condition, Meaning, MeaningList, Plan};
use std::alloc::{AllocError, Global};
use text_functions::like;

// NOT before LIKE, BETWEEN, IN and NULL.
fn turned(negated: bool, truth: Truth) -> Truth
    ensures { result ≡ turned negated truth }
{
    if negated { not(truth) } else { truth }
}

fn is_null(value: &Value) -> bool
    ensures { result ≡ is_null value.now }
{
    match value {
        Value::Null => true,
        Value::Int(_) | Value::Real(_) | Value::Text(_) | Value::Stamp(_) => false,
    }
}

fn truth_of(test: bool) -> Truth
    ensures { result ≡ truth_of test }
{
    if test { Truth::Yes } else { Truth::No }
}

// Whether a text is like a pattern.
fn is_like(text: &str, pattern: &str) -> bool
    ensures { result ≡ is_like (chars pattern.now) (chars text.now) }
{
    like(text, pattern)
}

// Whether a value is like a pattern.
fn likeness(value: &Value, pattern: &str) -> Truth
    ensures { result ≡ likeness value.now pattern.now }
{
    match value {
        Value::Text(text) => truth_of(is_like(text.as_str(), pattern)),
        _ => Truth::Unknown,
    }
}

// How a value compares with a meaning's.
fn compared_with(
    alloc: Global,
    row: &ValueList,
    how: Compare,
    left: &Value,
    right: &Meaning,
) -> Result<Truth, AllocError>
    ensures { IfOk result (λ truth. truth ≡ comparison how left.now (value_in row.now right.now)) }
{
    match standing(row, right) {
        Some(right) => Ok(compare(how, left, right)),
        None => {
            let right = value(alloc, row, right)?;
            Ok(compare(how, left, right.get()))
        }
    }
}

// Whether a value is one of some meanings: the OR of the equalities.
fn among(
    alloc: Global,
    row: &ValueList,
    sought: &Value,
    items: &MeaningList,
) -> Result<Truth, AllocError>
    ensures { IfOk result (λ truth. truth ≡ among row.now sought.now items.now) }
{
    let mut truth = Truth::No;
    for item in items.as_slice() {
        let is_equal = compared_with(alloc, row, Compare::Equal, sought, item)?;
        truth = or(truth, is_equal);
    }
    Ok(truth)
}

// Whether a value lies between two meanings.
fn between(
    alloc: Global,
    row: &ValueList,
    value: &Value,
    low: &Meaning,
    high: &Meaning,
) -> Result<Truth, AllocError>
    ensures { IfOk result (λ truth. truth ≡ both (comparison Compare.MoreEqual value.now (value_in row.now low.now)) (comparison Compare.LessEqual value.now (value_in row.now high.now))) }
{
    let low = compared_with(alloc, row, Compare::MoreEqual, value, low)?;
    let high = compared_with(alloc, row, Compare::LessEqual, value, high)?;
    Ok(and(low, high))
}

// The truth of a comparison.
#[inline(never)]
fn compared_truth(
    alloc: Global,
    row: &ValueList,
    how: Compare,
    left: &Meaning,
    right: &Meaning,
) -> Result<Truth, AllocError>
    ensures { IfOk result (λ truth. truth ≡ truth_in row.now (filter.compared how left.now right.now)) }
{
    match standing(row, left) {
        Some(left) => compared_with(alloc, row, how, left, right),
        None => {
            let left = value(alloc, row, left)?;
            compared_with(alloc, row, how, left.get(), right)
        }
    }
}

// The truth of IS NULL.
#[inline(never)]
fn null_truth(
    alloc: Global,
    row: &ValueList,
    of: &Meaning,
    negated: bool,
) -> Result<Truth, AllocError>
    ensures { IfOk result (λ truth. truth ≡ truth_in row.now (filter.null of.now negated)) }
{
    match standing(row, of) {
        Some(of) => Ok(turned(negated, truth_of(is_null(of)))),
        None => {
            let of = value(alloc, row, of)?;
            Ok(turned(negated, truth_of(is_null(of.get()))))
        }
    }
}

// The truth of LIKE.
#[inline(never)]
fn like_truth(
    alloc: Global,
    row: &ValueList,
    of: &Meaning,
    pattern: &Text,
    negated: bool,
) -> Result<Truth, AllocError>
    ensures { IfOk result (λ truth. truth ≡ truth_in row.now (filter.like of.now pattern.now negated)) }
{
    match standing(row, of) {
        Some(of) => Ok(turned(negated, likeness(of, pattern.as_str()))),
        None => {
            let of = value(alloc, row, of)?;
            Ok(turned(negated, likeness(of.get(), pattern.as_str())))
        }
    }
}

// The truth of BETWEEN.
#[inline(never)]
fn between_truth(
    alloc: Global,
    row: &ValueList,
    of: &Meaning,
    low: &Meaning,
    high: &Meaning,
    negated: bool,
) -> Result<Truth, AllocError>
    ensures { IfOk result (λ truth. truth ≡ truth_in row.now (filter.between of.now low.now high.now negated)) }
{
    match standing(row, of) {
        Some(of) => Ok(turned(negated, between(alloc, row, of, low, high)?)),
        None => {
            let of = value(alloc, row, of)?;
            let truth = between(alloc, row, of.get(), low, high)?;
            Ok(turned(negated, truth))
        }
    }
}

// The truth of IN.
#[inline(never)]
fn within_truth(
    alloc: Global,
    row: &ValueList,
    of: &Meaning,
    items: &MeaningList,
    negated: bool,
) -> Result<Truth, AllocError>
    ensures { IfOk result (λ truth. truth ≡ truth_in row.now (filter.within of.now items.now negated)) }
{
    match standing(row, of) {
        Some(of) => Ok(turned(negated, among(alloc, row, of, items)?)),
        None => {
            let of = value(alloc, row, of)?;
            let truth = among(alloc, row, of.get(), items)?;
            Ok(turned(negated, truth))
        }
    }
}

// The truth of IN over a subquery.
#[inline(never)]
fn contained_truth(
    alloc: Global,
    row: &ValueList,
    of: &Meaning,
    values: &InSet,
    negated: bool,
) -> Result<Truth, AllocError>
    ensures { IfOk result (λ truth. truth ≡ truth_in row.now (filter.contained of.now values.now negated)) }
{
    match standing(row, of) {
        Some(of) => Ok(turned(negated, values.holds(of))),
        None => {
            let of = value(alloc, row, of)?;
            Ok(turned(negated, values.holds(of.get())))
        }
    }
}

// The truth of a condition.
fn truth(alloc: Global, row: &ValueList, condition: &Condition) -> Result<Truth, AllocError>
    ensures { IfOk result (λ truth. truth ≡ truth_in row.now (filter_of condition.now)) }
{
    match condition {
        Condition::Or(left, right) => match truth(alloc, row, left)? {
            Truth::Yes => Ok(Truth::Yes),
            left => Ok(or(left, truth(alloc, row, right)?)),
        },
        Condition::And(left, right) => match truth(alloc, row, left)? {
            Truth::No => Ok(Truth::No),
            left => Ok(and(left, truth(alloc, row, right)?)),
        },
        Condition::Not(inner) => Ok(not(truth(alloc, row, inner)?)),
        Condition::Compare { how, left, right } => compared_truth(alloc, row, *how, left, right),
        Condition::IsNull { value: of, negated } => null_truth(alloc, row, of, *negated),
        Condition::Like {
            value: of,
            pattern,
            negated,
        } => like_truth(alloc, row, of, pattern, *negated),
        Condition::Between {
            value: of,
            low,
            high,
            negated,
        } => between_truth(alloc, row, of, low, high, *negated),
        Condition::Within {
            value: of,
            items,
            negated,
        } => within_truth(alloc, row, of, items, *negated),
        Condition::Contained {
            value: of,
            values,
            negated,
        } => contained_truth(alloc, row, of, values, *negated),
    }
}

/// Whether a plan keeps a row: whether WHERE is Yes.
pub fn passes(alloc: Global, plan: &Plan, row: &ValueList) -> Result<bool, AllocError>
    ensures { IfOk result (λ is_kept. is_kept ≡ keeps (option_map filter_of plan.now.condition) row.now) }
{
    match &plan.condition {
        None => Ok(true),
        Some(condition) => Ok(truth(alloc, row, condition)? == Truth::Yes),
    }
}
