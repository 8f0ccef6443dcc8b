// A query, with groups or without, over logs whose columns they tell.
ghost use Rattle.std.specs.Prelude.{◌≡◌, ◌≤◌, ◌+◌, ◌++◌, true, length, map, OnOk, IfOk, IfErr, IsErrOf};
ghost use Rattle.lp_model.specs.Outside.{Rose, OnlyGrow, Told};
ghost use Rattle.log_reading.specs.Page.{IsTooMany, IsWithin};
ghost use Rattle.log_reading.specs.Spans.{AllSpans, AreReadable, AreKept, IsSpan, spans_bad_lines, spans_size, took_of};
ghost use Rattle.delimited_input.specs.Lines.{delimited_lines};
ghost use Rattle.delimited_input.specs.Separators.{IsNoSeparator};
ghost use Rattle.any_format.specs.Wanted.{IsMoment, wanted_text};
ghost use Rattle.text_output.specs.Output.{kind_of};
ghost use Rattle.row_output.specs.Sinks.{IsUnplaced, files_for};
ghost use Rattle.query_tree.specs.Views.{query_of};
ghost use Rattle.column_kinds.specs.Spans.{past_of};
ghost use Rattle.sampled_run.specs.Ran.{OnBadOne};
ghost use Rattle.execution.specs.Plans.{asked_for};
ghost use Rattle.execution.specs.Telling.{IsStoppedBy, IsTold, TellsInTurn, telling};

use any_format::Wanted;
use delimited_input::DelimitedOptions;
use log_reading::{LogSource, Span, TookList};
use lp_outside::Stage;
use lp_time::Pattern;
use query_run::Written;
use query_tree::Query;
use row_output::Into;
use row_planning::is_built;
use sampled_groups::run_sampled_groups;
use sampled_run::{Moment, SampleFault, run_sampled};
use std::alloc::Global;

/// Writes the output rows of a query over the records of spans, joined in order, whose columns the spans tell.
pub(crate) fn sample_query<'a, L: LogSource, G: Stage>(
    alloc: Global,
    options: DelimitedOptions,
    limit: u32,
    pattern: &'a Pattern,
    moment: Moment,
    wanted: Wanted,
    into: Into,
    query: &'a Query,
    most_bad: Option<u64>,
    waits: bool,
    logs: &mut L,
    spans: &[Span],
    took: &mut TookList,
    stage: &mut G,
) -> Result<Written, SampleFault>
    requires separator { ¬ IsNoSeparator options.separator }
    requires moment { IsMoment moment.seconds }
    requires none { IsUnplaced into }
    requires few { length spans.now ≤ 100000 }
    requires spans { AllSpans spans.now IsSpan }
    requires readable { AreReadable L.folder L.ready logs.old spans.now }
    ensures grows { OnlyGrow (L.folder logs.old) (L.folder logs.new) }
    ensures goes_logs { L.goes logs.old logs.new }
    ensures ran { IfOk result (λ run. Told (L.folder logs.new) (λ folder. AreKept (delimited_lines options) waits spans.now folder
        → IsTold (kind_of G.state G.ended) (telling limit pattern.now moment.seconds (query_of query.now) (asked_for (files_for into) (wanted_text wanted moment.seconds) (query_of query.now))) stage.old (past_of (delimited_lines options) waits folder spans.now) (delimited_lines options) waits folder spans.now run stage.new)) }
    ensures stopped { IfErr result (λ fault. Told (L.folder logs.new) (λ folder. AreKept (delimited_lines options) waits spans.now folder
        → IsStoppedBy (kind_of G.state G.ended) (telling limit pattern.now moment.seconds (query_of query.now) (asked_for (files_for into) (wanted_text wanted moment.seconds) (query_of query.now))) stage.old (past_of (delimited_lines options) waits folder spans.now) fault stage.new)) }
    ensures within { IfOk result (λ run. IsWithin most_bad run.counts.bad) }
    ensures too_many { IfErr result (λ fault. OnBadOne fault (λ line. Told (L.folder logs.new) (λ folder. AreKept (delimited_lines options) waits spans.now folder
        → IsTooMany most_bad 0 (spans_bad_lines (delimited_lines options) waits folder spans.now) line))) }
    // Of two faults the one that comes first is told.
    ensures in_turn { IfErr result (λ fault. Told (L.folder logs.new) (λ folder. AreKept (delimited_lines options) waits spans.now folder
        → TellsInTurn (telling limit pattern.now moment.seconds (query_of query.now) (asked_for (files_for into) (wanted_text wanted moment.seconds) (query_of query.now))) stage.old (past_of (delimited_lines options) waits folder spans.now) most_bad (delimited_lines options) waits folder spans.now fault stage.new)) }
    ensures took { OnOk result (Told (L.folder logs.new) (λ folder. AreKept (delimited_lines options) waits spans.now folder
        → took.new ≡ took.old ++ map (took_of (delimited_lines options) waits folder) spans.now)) }
    ensures given { L.given logs.new ≤ L.given logs.old + spans_size spans.now }
    ensures later_logs { L.faults logs.old ≤ L.faults logs.new }
    ensures logs { IsErrOf result SampleFault.Logs → Rose (L.faults logs.old) (L.faults logs.new) }
    ensures goes { G.goes stage.old stage.new }
    ensures later { G.faults stage.old ≤ G.faults stage.new }
    ensures output { IsErrOf result SampleFault.Output → Rose (G.faults stage.old) (G.faults stage.new) }
{
    if is_built(query) {
        run_sampled(
            alloc, options, limit, pattern, moment, wanted, into, query, most_bad, waits, logs,
            spans, took, stage,
        )
    } else {
        run_sampled_groups(
            alloc, options, limit, pattern, moment, wanted, into, query, most_bad, waits, logs,
            spans, took, stage,
        )
    }
}
