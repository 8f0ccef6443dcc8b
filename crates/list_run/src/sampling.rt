// The values of a subquery's rows over logs whose columns they tell, by any reader of their format.
ghost use Rattle.std.specs.Prelude.{◌≡◌, ◌≤◌, ◌+◌, [], length, None, Err, IfOk, IfErr, IsErrOf};
ghost use Rattle.lp_model.specs.Outside.{Rose, OnlyGrow, Told};
ghost use Rattle.log_reading.specs.Page.{IsTooMany, IsWithin};
ghost use Rattle.log_reading.specs.Spans.{AllSpans, AreReadable, AreKept, IsSpan, spans_bad, spans_bad_lines, spans_size};
ghost use Rattle.query_tree.specs.Views.{query_of};
ghost use Rattle.column_kinds.specs.Spans.{past_behind};
ghost use Rattle.list_run.specs.Faults.{OnBad, OnUnplanned, fault_in};
ghost use Rattle.list_run.specs.Made.{IsFresh};
ghost use Rattle.list_run.specs.Rules.{IsGiven, plan_at, rules_of};

use crate::ending::end_sample;
use crate::fault::read_fault;
use crate::list_maker::ListMaker;
use crate::{Collector, Gathered, Keep, ListFault, SampledValues};
use column_kinds::{Gathering, KeptRows, Phase, Sampled};
use line_input::LineReader;
use log_reading::{LogSource, RunFault, Span, TookList, take_spans};
use lp_time::Pattern;
use query_run::{first_page, new_chunk};
use query_tree::Query;
use sampled_run::Moment;
use sampled_table::SampledPicker;
use std::alloc::Global;
use std::marker::PhantomData;

// Why a subquery gives no values, where the reading of its logs stopped.
fn fault_in<M, T>(phase: &Phase<M, T>, fault: RunFault) -> ListFault
    ensures { result ≡ fault_in phase.now fault }
{
    match phase {
        Phase::Refused(why) => ListFault::Plan(*why),
        Phase::Gathering(_) => read_fault(fault),
        Phase::Taking(_) => read_fault(fault),
        Phase::Lost => read_fault(fault),
    }
}

// The sample before the first record.
fn first_sample<'a>(
    alloc: Global,
    limit: u32,
    pattern: &'a Pattern,
    moment: Moment,
    query: &'a Query,
) -> Sampled<'a, ListMaker<'a, Gathered>, Collector<SampledPicker<'a>>>
    ensures { IsFresh limit pattern.now moment.seconds (query_of query.now) result }
{
    Sampled {
        limit,
        pattern,
        phase: Phase::Gathering(Gathering {
            first: None,
            rows: KeptRows::new(alloc),
            maker: ListMaker {
                pattern,
                moment,
                query,
                set: PhantomData,
            },
        }),
    }
}

/// The values of a subquery's rows over the records of spans, joined in order, whose columns they tell, by a reader of their format.
pub(crate) fn sample_reader<'a, R: LineReader, L: LogSource>(
    alloc: Global,
    reader: &R,
    limit: u32,
    pattern: &'a Pattern,
    moment: Moment,
    query: &'a Query,
    keep: Keep,
    waits: bool,
    logs: &mut L,
    spans: &[Span],
    most_bad: Option<u64>,
) -> Result<SampledValues, ListFault>
    requires few { length spans.now ≤ 100000 }
    requires spans { AllSpans spans.now IsSpan }
    requires readable { AreReadable L.folder L.ready logs.old spans.now }
    ensures grows { OnlyGrow (L.folder logs.old) (L.folder logs.new) }
    ensures goes_logs { L.goes logs.old logs.new }
    ensures given_values { IfOk result (λ list. Told (L.folder logs.new) (λ folder. AreKept (R.format reader.now) waits spans.now folder
        → IsGiven keep (rules_of limit pattern.now moment.seconds (query_of query.now)) (past_behind (R.format reader.now) waits folder (record { first = None; founds = [] }) spans.now) list)) }
    ensures unplanned { IfErr result (OnUnplanned (λ why. Told (L.folder logs.new) (λ folder. AreKept (R.format reader.now) waits spans.now folder
        → plan_at (rules_of limit pattern.now moment.seconds (query_of query.now)) (past_behind (R.format reader.now) waits folder (record { first = None; founds = [] }) spans.now) ≡ Err why))) }
    ensures bad { IfOk result (λ list. Told (L.folder logs.new) (λ folder. AreKept (R.format reader.now) waits spans.now folder
        → list.bad ≡ length (spans_bad (R.format reader.now) waits folder spans.now))) }
    ensures within { IfOk result (λ list. IsWithin most_bad list.bad) }
    ensures too_many { IfErr result (OnBad (λ line. Told (L.folder logs.new) (λ folder. AreKept (R.format reader.now) waits spans.now folder
        → IsTooMany most_bad 0 (spans_bad_lines (R.format reader.now) waits folder spans.now) line))) }
    ensures given { L.given logs.new ≤ L.given logs.old + spans_size spans.now }
    ensures later_logs { L.faults logs.old ≤ L.faults logs.new }
    ensures logs { IsErrOf result ListFault.Logs → Rose (L.faults logs.old) (L.faults logs.new) }
{
    let Ok(mut chunk) = new_chunk(alloc) else {
        return Err(ListFault::Memory);
    };
    let sample = first_sample(alloc, limit, pattern, moment, query);
    let mut page = first_page(alloc, sample, most_bad);
    let mut took = TookList::new(alloc);
    let mut gathered = Gathered::new(alloc, keep);
    match take_spans(
        alloc,
        reader,
        waits,
        logs,
        spans,
        &mut chunk,
        &mut page,
        &mut took,
        &mut gathered,
    ) {
        Ok(()) => {
            let bad = page.bad;
            end_sample(alloc, page.taker, gathered, bad)
        }
        Err(fault) => {
            let why = fault_in(&page.taker.phase, fault);
            drop(page);
            Err(why)
        }
    }
}
