// What one subquery gives.
ghost use Rattle.std.specs.Prelude.{◌≡◌, ◌≤◌, ◌++◌, ℕ, List, codes, map, None, IfOk, IfErr, IfSome, IsErrOf};
ghost use Rattle.lp_model.specs.Outside.{OnlyGrow, Rose};
ghost use Rattle.lp_outside.specs.NameFault.{name_fault};
ghost use Rattle.query_tree.specs.Views.{given_of, query_of};
ghost use Rattle.log_reading.specs.declared.span.Span.{Span};
ghost use Rattle.log_reading.specs.Page.{IsWithin};
ghost use Rattle.subqueries.specs.Giving.{Gives, expression_place, keep_for};
ghost use Rattle.subqueries.specs.Refusing.{IsRefusedOne, read_fault, unlisted};
ghost use Rattle.subqueries.specs.Reading.{ReadsOne};
ghost use Rattle.subqueries.specs.Valuing.{HasSeparator};

use crate::SubqueryFault;
use crate::clash::clash_in;
use crate::listing::list_spans;
use crate::values::give_values;
use checkpoint::Spans;
use command_words::Spec;
use execution::LogFormat;
use list_run::{Keep, SampledValues};
use lp_outside::Logs;
use lp_values::{Text, TextList, ValueList};
use query_tree::{Given, Query};
use std::alloc::{AllocError, Global};
use std::rc::Rc;

// Why a subquery's logs aren't listed.
fn unlisted(fault: log_listing::ListFault) -> SubqueryFault
    ensures { result ≡ unlisted fault }
{
    match fault {
        log_listing::ListFault::BadName(fault) => SubqueryFault::BadName(fault),
        log_listing::ListFault::NoSuchLog(name) => SubqueryFault::NoSuchLog(name),
        log_listing::ListFault::TooManyLogs => SubqueryFault::TooManyLogs,
        log_listing::ListFault::Logs => SubqueryFault::Logs,
        log_listing::ListFault::Memory => SubqueryFault::Memory,
    }
}

// Why its records give nothing.
fn read_fault(fault: list_run::ListFault) -> SubqueryFault
    ensures { result ≡ read_fault fault }
{
    match fault {
        list_run::ListFault::Plan(fault) => SubqueryFault::Plan(fault),
        list_run::ListFault::Logs => SubqueryFault::Logs,
        list_run::ListFault::Bad { log, row } => SubqueryFault::Bad { log, row },
        list_run::ListFault::Memory => SubqueryFault::Memory,
    }
}

// The place of its expression.
fn expression_place(query: &Query) -> u32
    ensures { result ≡ expression_place (query_of query.now) }
{
    match query.items.items.as_slice() {
        [] => 0,
        [item, ..] => item.value.place(),
    }
}

// The names of its logs.
fn names_of(alloc: Global, spans: &Spans) -> Result<TextList, AllocError>
    ensures { IfOk result (λ names. names ≡ map (λ (span : Span). span.name) spans.now) }
{
    let mut names = TextList::with_capacity(alloc, spans.len())?;
    for span in spans.as_slice() {
        names.push(Text::from_str(alloc, span.name.as_str())?)?;
    }
    Ok(names)
}

// What is kept of a subquery's values, in order.
fn keep_for(waits: bool, query: &Query) -> Keep
    ensures { result ≡ keep_for waits (query_of query.now) }
{
    if !waits {
        Keep::Nothing
    } else if query.distinct {
        Keep::Distinct
    } else {
        Keep::All
    }
}

// What it gave, and the list that is kept of it.
fn given(
    alloc: Global,
    query: &Query,
    list: SampledValues,
    spans: &Spans,
) -> Result<(Given, ValueList), AllocError>
    ensures place { IfOk result (λ one. one.0.place ≡ expression_place (query_of query.now)) }
    ensures kind { IfOk result (λ one. one.0.kind ≡ list.kind) }
    ensures values { IfOk result (λ one. one.0.values.value ≡ list.values) }
    ensures kept { IfOk result (λ one. one.1 ≡ list.kept) }
    ensures logs { IfOk result (λ one. one.0.logs.value ≡ map (λ (span : Span). span.name) spans.now) }
    ensures bad { IfOk result (λ one. one.0.bad ≡ list.bad) }
{
    let logs = Rc::new(alloc, names_of(alloc, spans)?)?;
    let SampledValues {
        kind,
        values,
        kept,
        bad,
    } = list;
    let given = Given {
        place: expression_place(query),
        kind,
        values: Rc::new(alloc, values)?,
        logs,
        bad,
    };
    Ok((given, kept))
}

/// What a subquery gives, and the list that is kept of it: the values of its expression over its logs, whole, which are read in a
/// format.
pub(crate) fn give_one<L: Logs>(
    alloc: Global,
    spec: &Spec,
    format: LogFormat,
    query: &Query,
    moment: i64,
    logs: &mut L,
    most_bad: Option<u64>,
) -> Result<(Given, ValueList), SubqueryFault>
    requires separator { HasSeparator format }
    requires stage { IfSome spec.now.checkpoint (λ ledger. name_fault (ledger ++ codes ".stage") ≡ None) }
    ensures grows { OnlyGrow (L.folder logs.old) (L.folder logs.new) }
    ensures later { L.faults logs.old ≤ L.faults logs.new }
    ensures gives { IfOk result (λ one. Gives format spec.now moment (L.folder logs.old) (L.folder logs.new) (query_of query.now) (given_of one.0) one.1) }
    ensures within { IfOk result (λ one. IsWithin most_bad one.0.bad) }
    ensures refused { IfErr result (IsRefusedOne format spec.now moment (L.folder logs.old) (L.folder logs.new) (query_of query.now) most_bad) }
    ensures failed { IsErrOf result SubqueryFault.Logs → Rose (L.faults logs.old) (L.faults logs.new) }
    ensures read { ReadsOne (L.folder logs.new) (query_of query.now) (L.given logs.old) (L.given logs.new) }
    ensures unread { (name : List ℕ) → IsErrOf result (SubqueryFault.Clash name) → L.given logs.new ≡ L.given logs.old }
{
    let spans = match list_spans(alloc, logs, query) {
        Ok(spans) => spans,
        Err(fault) => return Err(unlisted(fault)),
    };
    if let Some(name) = clash_in(&spec.checkpoint, &spans) {
        return Err(SubqueryFault::Clash(name));
    }
    let waits = spec.checkpoint.is_some();
    let list = match give_values(
        alloc,
        format,
        &spec.ts_format,
        query,
        moment,
        waits,
        keep_for(waits, query),
        logs,
        &spans,
        most_bad,
    ) {
        Ok(list) => list,
        Err(fault) => return Err(read_fault(fault)),
    };
    match given(alloc, query, list, &spans) {
        Ok(one) => Ok(one),
        Err(_) => Err(SubqueryFault::Memory),
    }
}
