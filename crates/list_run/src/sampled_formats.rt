// The values of a subquery's rows over CSV or TSV logs.
ghost use Rattle.std.specs.Prelude.{◌≡◌, ◌≤◌, ◌+◌, length, Err, IfOk, IfErr, IsErrOf};
ghost use Rattle.lp_model.specs.Outside.{Rose, OnlyGrow, Told};
ghost use Rattle.log_reading.specs.Page.{IsTooMany, IsWithin};
ghost use Rattle.log_reading.specs.Spans.{AllSpans, AreReadable, AreKept, IsSpan, spans_bad, spans_bad_lines, spans_size};
ghost use Rattle.delimited_input.specs.Lines.{delimited_lines};
ghost use Rattle.delimited_input.specs.Separators.{IsNoSeparator};
ghost use Rattle.query_tree.specs.Views.{query_of};
ghost use Rattle.column_kinds.specs.Spans.{past_of};
ghost use Rattle.list_run.specs.Faults.{OnBad, OnUnplanned};
ghost use Rattle.list_run.specs.Rules.{IsGiven, plan_at, rules_of};

use crate::sampling::sample_reader;
use crate::{Keep, ListFault, SampledValues};
use delimited_input::{Delimited, DelimitedOptions};
use log_reading::{LogSource, Span};
use lp_time::Pattern;
use query_tree::Query;
use sampled_run::Moment;
use std::alloc::Global;

/// The values of a subquery's rows over the records of CSV or TSV spans, joined in order, whose columns the spans tell.
pub fn gather_sampled<'a, L: LogSource>(
    alloc: Global,
    options: DelimitedOptions,
    limit: u32,
    pattern: &'a Pattern,
    moment: Moment,
    query: &'a Query,
    keep: Keep,
    waits: bool,
    logs: &mut L,
    spans: &[Span],
    most_bad: Option<u64>,
) -> Result<SampledValues, ListFault>
    requires separator { ¬ IsNoSeparator options.separator }
    requires few { length spans.now ≤ 100000 }
    requires spans { AllSpans spans.now IsSpan }
    requires readable { AreReadable L.folder L.ready logs.old spans.now }
    ensures grows { OnlyGrow (L.folder logs.old) (L.folder logs.new) }
    ensures goes_logs { L.goes logs.old logs.new }
    ensures given_values { IfOk result (λ list. Told (L.folder logs.new) (λ folder. AreKept (delimited_lines options) waits spans.now folder
        → IsGiven keep (rules_of limit pattern.now moment.seconds (query_of query.now)) (past_of (delimited_lines options) waits folder spans.now) list)) }
    ensures unplanned { IfErr result (OnUnplanned (λ why. Told (L.folder logs.new) (λ folder. AreKept (delimited_lines options) waits spans.now folder
        → plan_at (rules_of limit pattern.now moment.seconds (query_of query.now)) (past_of (delimited_lines options) waits folder spans.now) ≡ Err why))) }
    ensures bad { IfOk result (λ list. Told (L.folder logs.new) (λ folder. AreKept (delimited_lines options) waits spans.now folder
        → list.bad ≡ length (spans_bad (delimited_lines options) waits folder spans.now))) }
    ensures within { IfOk result (λ list. IsWithin most_bad list.bad) }
    ensures too_many { IfErr result (OnBad (λ line. Told (L.folder logs.new) (λ folder. AreKept (delimited_lines options) waits spans.now folder
        → IsTooMany most_bad 0 (spans_bad_lines (delimited_lines options) waits folder spans.now) line))) }
    ensures given { L.given logs.new ≤ L.given logs.old + spans_size spans.now }
    ensures later_logs { L.faults logs.old ≤ L.faults logs.new }
    ensures logs { IsErrOf result ListFault.Logs → Rose (L.faults logs.old) (L.faults logs.new) }
{
    let Ok(reader) = Delimited::new(options) else {
        unreachable!();
    };
    sample_reader(
        alloc, &reader, limit, pattern, moment, query, keep, waits, logs, spans, most_bad,
    )
}
