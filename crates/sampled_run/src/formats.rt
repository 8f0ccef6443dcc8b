// A query over CSV or TSV logs.
ghost use Rattle.std.specs.Prelude.{◌≡◌, ◌≤◌, ◌+◌, ◌++◌, true, length, map, OnOk, IfOk, IfErr, IsErrOf};
ghost use Rattle.lp_model.specs.Outside.{Rose, OnlyGrow, Told};
ghost use Rattle.log_reading.specs.Page.{IsTooMany, IsWithin};
ghost use Rattle.log_reading.specs.Spans.{AllSpans, AreReadable, AreKept, IsSpan, spans_bad_lines, spans_size, took_of};
ghost use Rattle.delimited_input.specs.Lines.{delimited_lines};
ghost use Rattle.delimited_input.specs.Separators.{IsNoSeparator};
ghost use Rattle.any_format.specs.Wanted.{IsMoment, wanted_text};
ghost use Rattle.text_output.specs.Output.{kind_of};
ghost use Rattle.row_output.specs.Sinks.{IsUnplaced, files_for};
ghost use Rattle.query_tree.specs.Views.{query_of};
ghost use Rattle.query_types.specs.Built.{is_built};
ghost use Rattle.column_kinds.specs.Spans.{past_of};
ghost use Rattle.sampled_run.specs.Finishes.{asked_by};
ghost use Rattle.sampled_run.specs.Rules.{rules_of};
ghost use Rattle.sampled_run.specs.Ran.{IsSampled, IsStoppedBy, OnBadOne};
ghost use Rattle.sampled_run.specs.InTurn.{ComesInTurn};

use crate::running::sample_reader;
use crate::{Moment, SampleFault};
use any_format::Wanted;
use delimited_input::{Delimited, DelimitedOptions};
use log_reading::{LogSource, Span, TookList};
use lp_outside::Stage;
use lp_time::Pattern;
use query_run::Written;
use query_tree::Query;
use row_output::Into;
use std::alloc::Global;

/// Writes a query's rows over the records of CSV or TSV spans, joined in order, whose columns the spans tell.
pub fn run_sampled<'a, L: LogSource, G: Stage>(
    alloc: Global,
    options: DelimitedOptions,
    limit: u32,
    pattern: &'a Pattern,
    moment: Moment,
    wanted: Wanted,
    into: Into,
    query: &'a Query,
    most_bad: Option<u64>,
    waits: bool,
    logs: &mut L,
    spans: &[Span],
    took: &mut TookList,
    stage: &mut G,
) -> Result<Written, SampleFault>
    requires separator { ¬ IsNoSeparator options.separator }
    requires built { is_built (query_of query.now) ≡ true }
    requires moment { IsMoment moment.seconds }
    requires none { IsUnplaced into }
    requires few { length spans.now ≤ 100000 }
    requires spans { AllSpans spans.now IsSpan }
    requires readable { AreReadable L.folder L.ready logs.old spans.now }
    ensures grows { OnlyGrow (L.folder logs.old) (L.folder logs.new) }
    ensures goes_logs { L.goes logs.old logs.new }
    ensures ran { IfOk result (λ run. Told (L.folder logs.new) (λ folder. AreKept (delimited_lines options) waits spans.now folder
        → IsSampled (kind_of G.state G.ended) (rules_of limit pattern.now moment.seconds (query_of query.now) (asked_by (files_for into) (wanted_text wanted moment.seconds) (query_of query.now))) stage.old (past_of (delimited_lines options) waits folder spans.now) (delimited_lines options) waits folder spans.now run stage.new)) }
    ensures stopped { IfErr result (λ fault. Told (L.folder logs.new) (λ folder. AreKept (delimited_lines options) waits spans.now folder
        → IsStoppedBy (kind_of G.state G.ended) (rules_of limit pattern.now moment.seconds (query_of query.now) (asked_by (files_for into) (wanted_text wanted moment.seconds) (query_of query.now))) stage.old (past_of (delimited_lines options) waits folder spans.now) fault stage.new)) }
    ensures within { IfOk result (λ run. IsWithin most_bad run.counts.bad) }
    ensures too_many { IfErr result (λ fault. OnBadOne fault (λ line. Told (L.folder logs.new) (λ folder. AreKept (delimited_lines options) waits spans.now folder
        → IsTooMany most_bad 0 (spans_bad_lines (delimited_lines options) waits folder spans.now) line))) }
    // Of two faults the one that comes first is told: the sample is read before the query is planned, and each row put behind its line.
    ensures in_turn { IfErr result (λ fault. Told (L.folder logs.new) (λ folder. AreKept (delimited_lines options) waits spans.now folder
        → ComesInTurn (rules_of limit pattern.now moment.seconds (query_of query.now) (asked_by (files_for into) (wanted_text wanted moment.seconds) (query_of query.now))) stage.old (past_of (delimited_lines options) waits folder spans.now) most_bad (delimited_lines options) waits folder spans.now fault stage.new)) }
    ensures took { OnOk result (Told (L.folder logs.new) (λ folder. AreKept (delimited_lines options) waits spans.now folder
        → took.new ≡ took.old ++ map (took_of (delimited_lines options) waits folder) spans.now)) }
    ensures given { L.given logs.new ≤ L.given logs.old + spans_size spans.now }
    ensures later_logs { L.faults logs.old ≤ L.faults logs.new }
    ensures logs { IsErrOf result SampleFault.Logs → Rose (L.faults logs.old) (L.faults logs.new) }
    ensures goes { G.goes stage.old stage.new }
    ensures later { G.faults stage.old ≤ G.faults stage.new }
    ensures output { IsErrOf result SampleFault.Output → Rose (G.faults stage.old) (G.faults stage.new) }
{
    let Ok(reader) = Delimited::new(options) else {
        unreachable!();
    };
    sample_reader(
        alloc, &reader, limit, pattern, moment, query, most_bad, waits, logs, spans, wanted, into,
        took, stage,
    )
}
