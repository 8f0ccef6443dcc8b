// All subqueries of a query, one after the other.
ghost use Rattle.std.specs.Prelude.{◌≡◌, ◌≤◌, ◌++◌, ◌+◌, ℕ, List, [], ◌∷◌, codes, map, None, IfOk, IfErr, IfSome, IsErrOf, IsSome, OnOk};
ghost use Rattle.grammar.specs.Filled.{asked_places};
ghost use Rattle.grammar.specs.Filled.{PlacedGiven as GivenValue};
ghost use Rattle.grammar.specs.Trees as model;
ghost use Rattle.lp_model.specs.Outside.{OnlyGrow, Rose};
ghost use Rattle.lp_outside.specs.NameFault.{name_fault};
ghost use Rattle.command_words.specs.Table.{IsInRange};
ghost use Rattle.query_tree.specs.Views.{placed_given, query_of};
ghost use Rattle.log_reading.specs.Page.{IsWithin};
ghost use Rattle.subqueries.specs.Giving.{AddsGiven, AddsOne, GiveThese, bad_of, subqueries_of};
ghost use Rattle.subqueries.specs.Refusing.{IsClash, IsLeft, StopsBehind, StopsBy};
ghost use Rattle.subqueries.specs.Reading.{ClashesBehind, ClashesBy, ReadsAll, ReadsOne};
ghost use Rattle.subqueries.specs.Valuing.{HasSeparator};

use crate::giving::give_one;
use crate::{SubqueryFault, SubqueryValues};
use command_words::Spec;
use execution::{LogFormat, log_format};
use lp_outside::Logs;
use lp_values::ValueList;
use query_tree::{PlacedGiven, Query};
use std::alloc::{AllocError, Global};

// How many bad lines there may be behind so many, if not any number. There are never too many already.
fn most_left(errors: Option<u32>, bad: u64) -> Option<Option<u64>>
    requires within { IsWithin errors bad }
    ensures some { IsSome result }
    ensures left { IfSome result (IsLeft errors bad) }
{
    match errors {
        None => Some(None),
        Some(most) => match u64::from(most).checked_sub(bad) {
            Some(left) => Some(Some(left)),
            None => None,
        },
    }
}

// Adds what one gave, and the list that is kept of it.
fn add_one(
    values: &mut SubqueryValues,
    given: PlacedGiven,
    list: ValueList,
) -> Result<(), AllocError>
    ensures givens { OnOk result (values.new.givens ≡ values.old.givens ++ given ∷ []) }
    ensures lists { OnOk result (values.new.lists ≡ values.old.lists ++ list ∷ []) }
{
    values.givens.push(given)?;
    values.lists.push(list)
}

// Adds what a query gives for a place, behind so many bad lines, and answers how many there are then.
fn give_next<L: Logs>(
    alloc: Global,
    spec: &Spec,
    format: LogFormat,
    query: &Query,
    place: u32,
    moment: i64,
    logs: &mut L,
    bad: u64,
    values: &mut SubqueryValues,
) -> Result<u64, SubqueryFault>
    requires separator { HasSeparator format }
    requires stage { IfSome spec.now.checkpoint (λ ledger. name_fault (ledger ++ codes ".stage") ≡ None) }
    requires within { IsWithin spec.now.errors bad }
    ensures grows { OnlyGrow (L.folder logs.old) (L.folder logs.new) }
    ensures later { L.faults logs.old ≤ L.faults logs.new }
    ensures gives { IfOk result (AddsOne format spec.now moment (L.folder logs.old) (L.folder logs.new) (query_of query.now) place (map placed_given values.old.givens) (map placed_given values.new.givens) values.old.lists values.new.lists bad) }
    ensures within { IfOk result (λ more. IsWithin spec.now.errors more) }
    ensures stops { IfErr result (λ fault. (behind : List model.Query) (places : List ℕ) → StopsBehind format spec.now moment (L.folder logs.old) (L.folder logs.new) (query_of query.now ∷ behind) places bad fault) }
    ensures failed { IsErrOf result SubqueryFault.Logs → Rose (L.faults logs.old) (L.faults logs.new) }
    ensures read { ReadsOne (L.folder logs.new) (query_of query.now) (L.given logs.old) (L.given logs.new) }
    ensures clash { (name : List ℕ) → IsErrOf result (SubqueryFault.Clash name) → IsClash spec.now (L.folder logs.old) (L.folder logs.new) (query_of query.now) name }
    ensures unread { (name : List ℕ) → IsErrOf result (SubqueryFault.Clash name) → L.given logs.new ≡ L.given logs.old }
{
    let Some(most) = most_left(spec.errors, bad) else {
        unreachable!();
    };
    let (given, list) = match give_one(alloc, spec, format, query, moment, logs, most) {
        Ok(one) => one,
        Err(fault) => return Err(fault),
    };
    let Some(bad) = bad.checked_add(given.bad) else {
        drop(given);
        return Err(SubqueryFault::Memory);
    };
    match add_one(values, PlacedGiven { at: place, given }, list) {
        Ok(()) => Ok(bad),
        Err(_) => Err(SubqueryFault::Memory),
    }
}

// None is left: then no place is left either.
fn none_left(places: &[u32]) -> Result<(), SubqueryFault>
    ensures none { OnOk result (places.now ≡ []) }
    ensures fault { IfErr result (λ fault. fault ≡ SubqueryFault.Memory) }
{
    match places {
        [] => Ok(()),
        _ => Err(SubqueryFault::Memory),
    }
}

// Adds what queries give, each for its place, behind so many bad lines.
fn give_all<L: Logs>(
    alloc: Global,
    spec: &Spec,
    format: LogFormat,
    queries: &[Query],
    places: &[u32],
    moment: i64,
    logs: &mut L,
    bad: u64,
    values: &mut SubqueryValues,
) -> Result<(), SubqueryFault>
    requires separator { HasSeparator format }
    requires stage { IfSome spec.now.checkpoint (λ ledger. name_fault (ledger ++ codes ".stage") ≡ None) }
    requires within { IsWithin spec.now.errors bad }
    ensures grows { OnlyGrow (L.folder logs.old) (L.folder logs.new) }
    ensures later { L.faults logs.old ≤ L.faults logs.new }
    ensures gives { OnOk result (AddsGiven format spec.now moment (L.folder logs.old) (L.folder logs.new) (map query_of queries.now) places.now (map placed_given values.old.givens) (map placed_given values.new.givens) values.old.lists values.new.lists) }
    ensures within { OnOk result ((added : List GivenValue) → map placed_given values.new.givens ≡ map placed_given values.old.givens ++ added → IsWithin spec.now.errors (bad + bad_of added)) }
    ensures stops { IfErr result (StopsBehind format spec.now moment (L.folder logs.old) (L.folder logs.new) (map query_of queries.now) places.now bad) }
    ensures failed { IsErrOf result SubqueryFault.Logs → Rose (L.faults logs.old) (L.faults logs.new) }
    ensures read { ReadsAll (L.folder logs.new) (map query_of queries.now) (L.given logs.old) (L.given logs.new) }
    ensures unread { (name : List ℕ) → IsErrOf result (SubqueryFault.Clash name)
        → ClashesBehind format spec.now moment (L.folder logs.old) (L.folder logs.new) (map query_of queries.now) places.now bad name (L.given logs.old) (L.given logs.new) }
{
    let [query, queries @ ..] = queries else {
        return none_left(places);
    };
    let [place, places @ ..] = places else {
        return Err(SubqueryFault::Memory);
    };
    match give_next(
        alloc, spec, format, query, *place, moment, logs, bad, values,
    ) {
        Ok(bad) => give_all(
            alloc, spec, format, queries, places, moment, logs, bad, values,
        ),
        Err(fault) => Err(fault),
    }
}

/// Runs the subqueries of a query in the order of the text, each over its own logs, whole, in the format in which the query's are
/// read: what each gives, for the IN that asks it, and with a checkpoint the list that is kept of it. Their bad lines count together.
pub fn run_subqueries<L: Logs>(
    alloc: Global,
    spec: &Spec,
    query: &Query,
    moment: i64,
    logs: &mut L,
) -> Result<SubqueryValues, SubqueryFault>
    requires range { IsInRange spec.now }
    requires stage { IfSome spec.now.checkpoint (λ ledger. name_fault (ledger ++ codes ".stage") ≡ None) }
    ensures grows { OnlyGrow (L.folder logs.old) (L.folder logs.new) }
    ensures later { L.faults logs.old ≤ L.faults logs.new }
    ensures gives { IfOk result (λ given. GiveThese spec.now moment (L.folder logs.old) (L.folder logs.new) (query_of query.now) (map placed_given given.givens) given.lists) }
    ensures within { IfOk result (λ given. IsWithin spec.now.errors (bad_of (map placed_given given.givens))) }
    ensures stops { IfErr result (StopsBy spec.now moment (L.folder logs.old) (L.folder logs.new) (query_of query.now)) }
    ensures failed { IsErrOf result SubqueryFault.Logs → Rose (L.faults logs.old) (L.faults logs.new) }
    ensures read { ReadsAll (L.folder logs.new) (subqueries_of (query_of query.now)) (L.given logs.old) (L.given logs.new) }
    ensures unread { (name : List ℕ) → IsErrOf result (SubqueryFault.Clash name) → ClashesBy spec.now moment (L.folder logs.old) (L.folder logs.new) (query_of query.now) name (L.given logs.old) (L.given logs.new) }
{
    let Ok(places) = query.asked_places(alloc) else {
        return Err(SubqueryFault::Memory);
    };
    let mut values = SubqueryValues::new(alloc);
    match give_all(
        alloc,
        spec,
        log_format(spec, query),
        query.subqueries.items.as_slice(),
        places.as_slice(),
        moment,
        logs,
        0,
        &mut values,
    ) {
        Ok(()) => Ok(values),
        Err(fault) => Err(fault),
    }
}
