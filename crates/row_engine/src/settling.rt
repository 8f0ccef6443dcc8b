// A plan in which what is the same in each row is worked out.
ghost use Rattle.std.specs.Prelude.{◌≡◌, List, [], true, IfOk, map, option_map};
ghost use Rattle.std.specs.List.{list_all};
ghost use Rattle.lp_values.specs.declared.value.Value.{Value};
ghost use Rattle.query_types.specs.Boxed.{boxed_filter};
ghost use Rattle.query_types.specs.Conditions.{filter_of};
ghost use Rattle.query_types.specs.Conditions.{Filter as filter};
ghost use Rattle.query_types.specs.Terms.{maker_of, term_of, terms_of};
ghost use Rattle.query_types.specs.Terms.{Term as term};
ghost use Rattle.row_engine.specs.Rows.{keeps, selected_in, value_in};
ghost use Rattle.row_engine.specs.Settled.{is_settled, is_settled_where, settled, settled_test, varies};

use crate::values::form_value;
use in_set::InSet;
use lp_values::{Compare, Kind, ListOf, Text, Value, ValueList, copy_texts};
use query_types::{Condition, Form, Meaning, MeaningList, Operation, Plan};
use std::alloc::{AllocError, Global};
use std::rc::Rc;

// Whether a form has a column, so that rows may differ in it.
fn varies(form: &Form) -> bool
    ensures { result ≡ varies (term_of form.now) }
{
    match form {
        Form::Column(_) => true,
        Form::Constant(_) => false,
        Form::Made { kind: _, by: _, of } => {
            for part in of {
                if varies(part) {
                    return true;
                }
            }
            false
        }
    }
}

// What a form gives in each row.
fn constant_of(alloc: Global, form: &Form) -> Result<Form, AllocError>
    ensures { IfOk result (λ constant. term_of constant ≡ term.constant (value_in [] (term_of form.now))) }
{
    let row = ValueList::new(alloc);
    let value = form_value(alloc, &row, form)?;
    Ok(Form::Constant(value.into_value(alloc)?))
}

// What is made of others.
fn made(kind: Kind, by: Operation, of: Vec<Form>) -> Form
    ensures { term_of result ≡ term.made kind (maker_of by) (terms_of (map term_of of.items)) }
{
    Form::Made { kind, by, of }
}

// A form with what has no column in it worked out.
fn settled_form(alloc: Global, form: &Form) -> Result<Form, AllocError>
    ensures { IfOk result (λ now. term_of now ≡ settled (term_of form.now)) }
{
    match form {
        Form::Column(index) => Ok(Form::Column(*index)),
        Form::Constant(value) => Ok(Form::Constant(value.copy(alloc)?)),
        Form::Made { kind, by, of } => {
            if !varies(form) {
                return constant_of(alloc, form);
            }
            let mut parts = Vec::with_capacity(alloc, of.len())?;
            for part in of {
                parts.push(settled_form(alloc, part)?)?;
            }
            let by = by.copy(alloc)?;
            Ok(made(*kind, by, parts))
        }
    }
}

// A meaning with what has no column in it worked out.
fn settled_meaning(alloc: Global, meaning: &Meaning) -> Result<Meaning, AllocError>
    ensures { IfOk result (λ now. now ≡ settled meaning.now) }
{
    Ok(Meaning::new(settled_form(alloc, meaning.form())?))
}

fn settled_meanings(alloc: Global, items: &MeaningList) -> Result<MeaningList, AllocError>
    ensures { IfOk result (λ now. now ≡ map settled items.now) }
{
    let mut settled = MeaningList::with_capacity(alloc, items.len())?;
    for item in items.as_slice() {
        settled.push(settled_meaning(alloc, item)?)?;
    }
    Ok(settled)
}

#[inline(never)]
fn compared(
    alloc: Global,
    how: Compare,
    left: &Meaning,
    right: &Meaning,
) -> Result<Box<Condition>, AllocError>
    ensures { IfOk result (λ now. boxed_filter now ≡ settled_test (filter.compared how left.now right.now)) }
{
    let left = settled_meaning(alloc, left)?;
    let right = settled_meaning(alloc, right)?;
    Ok(Box::new(alloc, Condition::Compare { how, left, right })?)
}

#[inline(never)]
fn null(alloc: Global, value: &Meaning, negated: bool) -> Result<Box<Condition>, AllocError>
    ensures { IfOk result (λ now. boxed_filter now ≡ settled_test (filter.null value.now negated)) }
{
    let value = settled_meaning(alloc, value)?;
    Ok(Box::new(alloc, Condition::IsNull { value, negated })?)
}

#[inline(never)]
fn like(
    alloc: Global,
    value: &Meaning,
    pattern: &Text,
    negated: bool,
) -> Result<Box<Condition>, AllocError>
    ensures { IfOk result (λ now. boxed_filter now ≡ settled_test (filter.like value.now pattern.now negated)) }
{
    let value = settled_meaning(alloc, value)?;
    let pattern = pattern.copy(alloc)?;
    let condition = Condition::Like {
        value,
        pattern,
        negated,
    };
    Ok(Box::new(alloc, condition)?)
}

#[inline(never)]
fn between(
    alloc: Global,
    value: &Meaning,
    low: &Meaning,
    high: &Meaning,
    negated: bool,
) -> Result<Box<Condition>, AllocError>
    ensures { IfOk result (λ now. boxed_filter now ≡ settled_test (filter.between value.now low.now high.now negated)) }
{
    let value = settled_meaning(alloc, value)?;
    let low = settled_meaning(alloc, low)?;
    let high = settled_meaning(alloc, high)?;
    let condition = Condition::Between {
        value,
        low,
        high,
        negated,
    };
    Ok(Box::new(alloc, condition)?)
}

#[inline(never)]
fn within(
    alloc: Global,
    value: &Meaning,
    items: &MeaningList,
    negated: bool,
) -> Result<Box<Condition>, AllocError>
    ensures { IfOk result (λ now. boxed_filter now ≡ settled_test (filter.within value.now items.now negated)) }
{
    let value = settled_meaning(alloc, value)?;
    let items = settled_meanings(alloc, items)?;
    let condition = Condition::Within {
        value,
        items,
        negated,
    };
    Ok(Box::new(alloc, condition)?)
}

#[inline(never)]
fn contained(
    alloc: Global,
    value: &Meaning,
    values: &Rc<InSet>,
    negated: bool,
) -> Result<Box<Condition>, AllocError>
    ensures { IfOk result (λ now. boxed_filter now ≡ settled_test (filter.contained value.now values.now.value negated)) }
{
    let value = settled_meaning(alloc, value)?;
    let values = Rc::clone(values)?;
    let condition = Condition::Contained {
        value,
        values,
        negated,
    };
    Ok(Box::new(alloc, condition)?)
}

#[inline(never)]
fn or(
    alloc: Global,
    left: Box<Condition>,
    right: Box<Condition>,
) -> Result<Box<Condition>, AllocError>
    ensures { IfOk result (λ now. boxed_filter now ≡ filter.either (boxed_filter left) (boxed_filter right)) }
{
    Ok(Box::new(alloc, Condition::Or(left, right))?)
}

#[inline(never)]
fn and(
    alloc: Global,
    left: Box<Condition>,
    right: Box<Condition>,
) -> Result<Box<Condition>, AllocError>
    ensures { IfOk result (λ now. boxed_filter now ≡ filter.both (boxed_filter left) (boxed_filter right)) }
{
    Ok(Box::new(alloc, Condition::And(left, right))?)
}

#[inline(never)]
fn not(alloc: Global, inner: Box<Condition>) -> Result<Box<Condition>, AllocError>
    ensures { IfOk result (λ now. boxed_filter now ≡ filter.opposite (boxed_filter inner)) }
{
    Ok(Box::new(alloc, Condition::Not(inner))?)
}

// A condition with what has no column in it worked out, in a box: a level of a long chain of OR costs little stack.
fn boxed(alloc: Global, condition: &Condition) -> Result<Box<Condition>, AllocError>
    ensures { IfOk result (λ now. boxed_filter now ≡ settled_test (filter_of condition.now)) }
{
    match condition {
        Condition::Or(left, right) => {
            let left = boxed(alloc, left)?;
            let right = boxed(alloc, right)?;
            or(alloc, left, right)
        }
        Condition::And(left, right) => {
            let left = boxed(alloc, left)?;
            let right = boxed(alloc, right)?;
            and(alloc, left, right)
        }
        Condition::Not(inner) => {
            let inner = boxed(alloc, inner)?;
            not(alloc, inner)
        }
        Condition::Compare { how, left, right } => compared(alloc, *how, left, right),
        Condition::IsNull { value, negated } => null(alloc, value, *negated),
        Condition::Like {
            value,
            pattern,
            negated,
        } => like(alloc, value, pattern, *negated),
        Condition::Between {
            value,
            low,
            high,
            negated,
        } => between(alloc, value, low, high, *negated),
        Condition::Within {
            value,
            items,
            negated,
        } => within(alloc, value, items, *negated),
        Condition::Contained {
            value,
            values,
            negated,
        } => contained(alloc, value, values, *negated),
    }
}

fn settled_where(
    alloc: Global,
    condition: &Option<Condition>,
) -> Result<Option<Condition>, AllocError>
    ensures { IfOk result (λ now. option_map filter_of now ≡ option_map settled_test (option_map filter_of condition.now)) }
{
    match condition {
        None => Ok(None),
        Some(condition) => {
            let settled = boxed(alloc, condition)?;
            Ok(Some(Box::into_inner(settled)))
        }
    }
}

fn copied<T: Copy>(alloc: Global, list: &ListOf<T>) -> Result<ListOf<T>, AllocError>
    ensures { IfOk result (λ copy. copy ≡ list.now) }
{
    let mut copy = ListOf::with_capacity(alloc, list.len())?;
    for item in list.as_slice() {
        copy.push(*item)?;
    }
    Ok(copy)
}

/// A plan that gives the same in each row, in which what has no column is a constant.
pub fn settled(alloc: Global, plan: &Plan) -> Result<Plan, AllocError>
    ensures names { IfOk result (λ now. now.names ≡ plan.now.names) }
    ensures kinds { IfOk result (λ now. now.kinds ≡ plan.now.kinds) }
    ensures used { IfOk result (λ now. now.used ≡ plan.now.used) }
    ensures order { IfOk result (λ now. now.order ≡ plan.now.order) }
    ensures keeps { IfOk result (λ now. (row : List Value) → keeps (option_map filter_of now.condition) row ≡ keeps (option_map filter_of plan.now.condition) row) }
    ensures selects { IfOk result (λ now. (row : List Value) → selected_in row now.items ≡ selected_in row plan.now.items) }
    ensures settled_items { IfOk result (λ now. list_all is_settled now.items ≡ true) }
    ensures settled_where { IfOk result (λ now. is_settled_where (option_map filter_of now.condition) ≡ true) }
{
    let kinds = copied(alloc, &plan.kinds)?;
    let used = copied(alloc, &plan.used)?;
    let order = copied(alloc, &plan.order)?;
    let names = copy_texts(alloc, &plan.names)?;
    let items = settled_meanings(alloc, &plan.items)?;
    let condition = settled_where(alloc, &plan.condition)?;
    Ok(Plan {
        items,
        names,
        kinds,
        condition,
        used,
        order,
    })
}
