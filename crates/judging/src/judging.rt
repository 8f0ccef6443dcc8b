// Whether what a query asks of its groups is there in each of them.
ghost use Rattle.std.specs.Prelude.{◌≡◌, ◌||◌, map, option_map};
ghost use Rattle.query_tree.specs.Views.{test_of, trees_of};
ghost use Rattle.query_types.specs.Meanings.{Answers};
ghost use Rattle.query_types.specs.Parts.{parts_of};
ghost use Rattle.senses.specs.Senses.{is_key, sense_of, senses_of};
ghost use Rattle.senses.specs.Checks.{check_of};
ghost use Rattle.senses.specs.Clauses.{clauses_of};
ghost use Rattle.judging.specs.Judged.{all_misplaced, having_misplaced, judged, maybe_misplaced, misplaced, misplaced_before, misplaced_in, place_sensed, places_sensed};

use query_tree::{Cond, ExprList, Query};
use query_types::{PlaceList, TypeFault};
use senses::{SenseCheck, SenseClauses, SenseForm, first_same, is_key};
use std::alloc::Global;

// Whether fields may stand within a sense.
fn is_free(free: bool, keys: &[SenseForm], sense: &SenseForm) -> bool
    ensures { result ≡ (free || is_key (map sense_of keys.now) (sense_of sense.now)) }
{
    free || is_key(keys, sense)
}

/// The first that is misplaced in some senses.
#[cycle(places)]
pub fn all_misplaced(senses: &[SenseForm], keys: &[SenseForm], free: bool) -> Option<u32>
    ensures { result ≡ all_misplaced (map sense_of keys.now) free (senses_of (map sense_of senses.now)) }
{
    for sense in senses {
        if let Some(at) = misplaced(sense, keys, free) {
            return Some(at);
        }
    }
    None
}

// The place of the first field that may not stand, or GROUPING of what is no key; `free` tells that fields may stand here.
#[cycle(places)]
fn misplaced(sense: &SenseForm, keys: &[SenseForm], free: bool) -> Option<u32>
    ensures { result ≡ misplaced (map sense_of keys.now) free (sense_of sense.now) }
{
    match sense {
        SenseForm::Field { at, meaning: _ } => {
            if is_free(free, keys, sense) {
                None
            } else {
                Some(*at)
            }
        }
        SenseForm::Fixed(_) => None,
        SenseForm::Formed { kind: _, by: _, of } => {
            all_misplaced(of.as_slice(), keys, is_free(free, keys, sense))
        }
        SenseForm::Aggregate { at: _, how: _, of } => misplaced(of, &[], true),
        SenseForm::Grouping { at, of } => { if is_key(keys, of) { None } else { Some(*at) } }
    }
}

// The first that is misplaced in a condition.
fn misplaced_in(check: &SenseCheck, keys: &[SenseForm], free: bool) -> Option<u32>
    ensures { result ≡ misplaced_in (map sense_of keys.now) free (check_of check.now) }
{
    match check {
        SenseCheck::Or(left, right) => {
            misplaced_in(left, keys, free).or(misplaced_in(right, keys, free))
        }
        SenseCheck::And(left, right) => {
            misplaced_in(left, keys, free).or(misplaced_in(right, keys, free))
        }
        SenseCheck::Not(inner) => misplaced_in(inner, keys, free),
        SenseCheck::Compare {
            how: _,
            left,
            right,
        } => misplaced(left, keys, free).or(misplaced(right, keys, free)),
        SenseCheck::IsNull { value, negated: _ } => misplaced(value, keys, free),
        SenseCheck::Like {
            value,
            pattern: _,
            negated: _,
        } => misplaced(value, keys, free),
        SenseCheck::Between {
            value,
            low,
            high,
            negated: _,
        } => {
            let behind = misplaced(low, keys, free).or(misplaced(high, keys, free));
            misplaced(value, keys, free).or(behind)
        }
        SenseCheck::Within {
            value,
            items,
            negated: _,
        } => {
            let behind = all_misplaced(items.items.as_slice(), keys, free);
            misplaced(value, keys, free).or(behind)
        }
        SenseCheck::Contained {
            value,
            values: _,
            negated: _,
        } => misplaced(value, keys, free),
    }
}

/// The first that is misplaced in WHERE or HAVING.
pub fn maybe_misplaced(check: &Option<SenseCheck>, keys: &[SenseForm], free: bool) -> Option<u32>
    ensures { result ≡ maybe_misplaced (map sense_of keys.now) free (option_map check_of check.now) }
{
    match check {
        None => None,
        Some(check) => misplaced_in(check, keys, free),
    }
}

// The first that is misplaced in HAVING, which may not stand at all without groups.
fn having_misplaced(
    grouped: bool,
    keys: &[SenseForm],
    having: &Option<Cond>,
    check: &Option<SenseCheck>,
) -> Option<u32>
    ensures { result ≡ having_misplaced grouped (map sense_of keys.now) (option_map test_of having.now) (option_map check_of check.now) }
{
    if grouped {
        return maybe_misplaced(check, keys, false);
    }
    match having {
        None => None,
        Some(condition) => Some(condition.place()),
    }
}

// The first that is misplaced before ORDER BY.
fn misplaced_before(grouped: bool, having: &Option<Cond>, clauses: &SenseClauses) -> Option<u32>
    ensures { result ≡ misplaced_before grouped (option_map test_of having.now) (clauses_of clauses.now) }
{
    let keys = clauses.keys.items.as_slice();
    let using = all_misplaced(clauses.using.items.as_slice(), &[], true);
    let items = all_misplaced(clauses.items.items.as_slice(), keys, !grouped);
    let condition = maybe_misplaced(&clauses.condition, &[], true);
    let within = all_misplaced(keys, &[], true);
    let having = having_misplaced(grouped, keys, having, &clauses.having);
    using.or(items.or(condition.or(within.or(having))))
}

// The place of the first item that a sense equals, or the fault of its expression at this place.
fn place_sensed(
    keys: &[SenseForm],
    free: bool,
    items: &[SenseForm],
    at: u32,
    sense: &SenseForm,
) -> Result<usize, TypeFault>
    ensures { Answers (λ place. place) result (place_sensed (map sense_of keys.now) free (map sense_of items.now) at (sense_of sense.now)) }
{
    if let Some(at) = misplaced(sense, keys, free) {
        return Err(TypeFault::NotGrouped { at });
    }
    match first_same(items, sense) {
        Some(place) => Ok(place),
        None => Err(TypeFault::NotInSelect { at }),
    }
}

// The places of the items that expressions equal, whose senses stand beside them.
fn places_sensed(
    alloc: Global,
    keys: &[SenseForm],
    free: bool,
    items: &[SenseForm],
    values: &ExprList,
    senses: &[SenseForm],
) -> Result<PlaceList, TypeFault>
    ensures { Answers (λ places. places) result (places_sensed (map sense_of keys.now) free (map sense_of items.now) (trees_of values.now) (map sense_of senses.now)) }
{
    let mut places = PlaceList::new(alloc);
    let mut rest = senses;
    for value in &values.items {
        match rest {
            [] => return Ok(places),
            [sense, behind @ ..] => {
                let place = place_sensed(keys, free, items, value.place(), sense)?;
                places.push(place)?;
                rest = behind;
            }
        }
    }
    Ok(places)
}

/// The second pass over the clauses: the first fault, or the places of the items that the expressions of ORDER BY equal.
pub fn judged(
    alloc: Global,
    grouped: bool,
    query: &Query,
    clauses: &SenseClauses,
) -> Result<PlaceList, TypeFault>
    ensures { Answers (λ places. places) result (judged grouped (parts_of query.now) (clauses_of clauses.now)) }
{
    if let Some(at) = misplaced_before(grouped, &query.having, clauses) {
        return Err(TypeFault::NotGrouped { at });
    }
    let keys = clauses.keys.items.as_slice();
    let items = clauses.items.items.as_slice();
    let senses = clauses.order.items.as_slice();
    places_sensed(alloc, keys, !grouped, items, &query.order, senses)
}
