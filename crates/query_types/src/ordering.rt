// Where the expressions of ORDER BY stand among what is selected.
ghost use Rattle.std.specs.Prelude.{◌≡◌, map};
ghost use Rattle.std.specs.List.{position};
ghost use Rattle.grammar.specs.Trees.{trees_of as listed};
ghost use Rattle.query_tree.specs.Views.{trees_of};
ghost use Rattle.query_types.specs.Meanings.{Answers, all_meant};
ghost use Rattle.query_types.specs.Orders.{order_places, place_among, places_asked, same_maker, same_term, same_terms};
ghost use Rattle.query_types.specs.Terms.{called, maker_of, stated, term_of, terms_of, unlisted};

use crate::alias::Alias;
use crate::expressions::meant;
use crate::form::{Form, Operation};
use crate::{Meaning, MeaningList, PlaceList, TableColumns, TypeFault};
use lp_functions::Function;
use lp_values::{Text, Value, order};
use query_tree::ExprList;
use std::alloc::Global;

// Whether an operation is this function, whatever the case of its name.
fn is_function(function: Function, other: &Operation) -> bool
    ensures { result ≡ same_maker (called function) (maker_of other.now) }
{
    match other {
        Operation::Call(other) => function.name().eq_ignore_ascii_case(other.name()),
        Operation::Case => false,
        Operation::Write(_) | Operation::Read(_) => false,
        Operation::Stated(_) | Operation::Unlisted(_) => false,
    }
}

// Whether an operation states this value.
fn is_stated(value: &Value, other: &Operation) -> bool
    ensures { result ≡ same_maker (stated value.now) (maker_of other.now) }
{
    match other {
        Operation::Stated(other) => order(value, other).is_eq(),
        Operation::Call(_) | Operation::Case => false,
        Operation::Write(_) | Operation::Read(_) | Operation::Unlisted(_) => false,
    }
}

// Whether an operation is a column of this name that the table doesn't list.
fn is_unlisted(name: &Text, other: &Operation) -> bool
    ensures { result ≡ same_maker (unlisted name.now) (maker_of other.now) }
{
    match other {
        Operation::Unlisted(other) => name.as_str().eq_ignore_ascii_case(other.as_str()),
        Operation::Call(_) | Operation::Case => false,
        Operation::Write(_) | Operation::Read(_) | Operation::Stated(_) => false,
    }
}

/// Whether two operations are equal by form; of what is written or read the pattern stands among the parts.
pub fn is_same_operation(by: &Operation, other: &Operation) -> bool
    ensures { result ≡ same_maker (maker_of by.now) (maker_of other.now) }
{
    match by {
        Operation::Call(function) => is_function(*function, other),
        Operation::Case => matches!(other, Operation::Case),
        Operation::Write(_) => matches!(other, Operation::Write(_)),
        Operation::Read(_) => matches!(other, Operation::Read(_)),
        Operation::Stated(value) => is_stated(value, other),
        Operation::Unlisted(name) => is_unlisted(name, other),
    }
}

// Whether the parts of a form are those of another, one by one.
#[cycle(forms)]
fn are_same(parts: &[Form], others: &[Form]) -> bool
    ensures { result ≡ same_terms (terms_of (map term_of parts.now)) (terms_of (map term_of others.now)) }
{
    let mut rest = others;
    for part in parts {
        match rest {
            [] => return false,
            [first, behind @ ..] => {
                if !is_same(part, first) {
                    return false;
                }
                rest = behind;
            }
        }
    }
    rest.is_empty()
}

/// Whether two forms are equal.
#[cycle(forms)]
pub(crate) fn is_same(form: &Form, other: &Form) -> bool
    ensures { result ≡ same_term (term_of form.now) (term_of other.now) }
{
    match form {
        Form::Column(index) => match other {
            Form::Column(other) => index == other,
            Form::Constant(_) | Form::Made { .. } => false,
        },
        Form::Constant(value) => match other {
            Form::Constant(other) => order(value, other).is_eq(),
            Form::Column(_) | Form::Made { .. } => false,
        },
        Form::Made { kind: _, by, of } => match other {
            Form::Made {
                kind: _,
                by: other_by,
                of: others,
            } => is_same_operation(by, other_by) && are_same(of.as_slice(), others.as_slice()),
            Form::Column(_) | Form::Constant(_) => false,
        },
    }
}

// What the expressions of ORDER BY mean.
fn order_meant(
    alloc: Global,
    table: &TableColumns,
    moment: &Value,
    aliases: &[Alias],
    order: &ExprList,
) -> Result<MeaningList, TypeFault>
    ensures { Answers (λ meanings. meanings) result (all_meant table.now moment.now aliases.now (listed (trees_of order.now))) }
{
    let mut meanings = MeaningList::new(alloc);
    for value in &order.items {
        let meaning = meant(alloc, table, moment, aliases, value)?;
        meanings.push(meaning)?;
    }
    Ok(meanings)
}

// The place of the first item that a meaning equals, if there is one.
fn first_equal(items: &MeaningList, meaning: &Meaning) -> Option<usize>
    ensures { result ≡ position (same_term meaning.now) items.now }
{
    items.as_slice().iter().position(|item| meaning.is(item))
}

// The same, or the fault that there is none.
fn place_among(items: &MeaningList, meaning: &Meaning, at: u32) -> Result<usize, TypeFault>
    ensures { Answers (λ place. place) result (place_among items.now meaning.now at) }
{
    match first_equal(items, meaning) {
        Some(place) => Ok(place),
        None => Err(TypeFault::NotInSelect { at }),
    }
}

// The places of the items that expressions equal, whose meanings stand beside them.
fn order_places(
    alloc: Global,
    items: &MeaningList,
    values: &ExprList,
    meanings: &MeaningList,
) -> Result<PlaceList, TypeFault>
    ensures { Answers (λ places. places) result (order_places items.now (trees_of values.now) meanings.now) }
{
    let mut places = PlaceList::new(alloc);
    let mut rest = meanings.as_slice();
    for value in &values.items {
        match rest {
            [] => return Ok(places),
            [meaning, behind @ ..] => {
                let place = place_among(items, meaning, value.place())?;
                places.push(place)?;
                rest = behind;
            }
        }
    }
    Ok(places)
}

/// The places of the items that the expressions of ORDER BY equal, each that of the first.
pub fn places_asked(
    alloc: Global,
    table: &TableColumns,
    moment: &Value,
    aliases: &[Alias],
    items: &MeaningList,
    order: &ExprList,
) -> Result<PlaceList, TypeFault>
    ensures { Answers (λ places. places) result (places_asked table.now moment.now aliases.now items.now (trees_of order.now)) }
{
    let meanings = order_meant(alloc, table, moment, aliases, order)?;
    order_places(alloc, items, order, &meanings)
}
