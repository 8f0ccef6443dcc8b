// A plan, over rows or groups, over spans of logs that are read in a format with a table.
ghost use Rattle.std.specs.Prelude.{◌≡◌, ◌⊎◌, ◌≤◌, ◌+◌, ◌++◌, [], true, length, map, OnOk, OnErr, IfOk, IfErr, IsErrOf};
ghost use Rattle.lp_model.specs.Outside.{Rose, OnlyGrow, Told};
ghost use Rattle.log_reading.specs.Page.{IsTooMany, IsWithin};
ghost use Rattle.log_reading.specs.Spans.{AllSpans, AreReadable, IsSpan, AreKept, spans_found, spans_bad, spans_bad_lines, spans_size, took_of};
ghost use Rattle.text_output.specs.Output.{kind_of};
ghost use Rattle.row_output.specs.Asked.{left_of};
ghost use Rattle.row_output.specs.Kept.{IsNew, asked_of};
ghost use Rattle.row_output.specs.Rows.{Holds, IsRefused, Stops};
ghost use Rattle.row_output.specs.declared.fault.Refused.{Refused as Why};
ghost use Rattle.query_run.specs.Faults.{OnBad, OnRefusedOutput};
ghost use Rattle.input_tables.specs.Tables.{lines_of};
ghost use Rattle.execution.specs.Carried.{BadByPlan, UnplacedByPlan};
ghost use Rattle.execution.specs.Fitting.{Fits, planned_query};
ghost use Rattle.execution.specs.Passing.{GoesByPlan};
ghost use Rattle.execution.specs.Plans.{table_rows};

use crate::planning::QueryPlan;
use group_run::run_groups;
use input_tables::TableFormat;
use log_reading::{LogSource, Span, TookList};
use lp_outside::Stage;
use plan_run::run_plan;
use query_run::{WriteFault, Written};
use row_output::RowOutput;
use std::alloc::Global;

/// Writes the text of a plan's output rows over the records of spans, which are read in a format and joined in order.
pub(crate) fn carry_out<L: LogSource, G: Stage>(
    alloc: Global,
    format: TableFormat,
    output: RowOutput,
    plan: QueryPlan,
    waits: bool,
    logs: &mut L,
    spans: &[Span],
    most_bad: Option<u64>,
    took: &mut TookList,
    stage: &mut G,
) -> Result<Written, WriteFault>
    requires fits { Fits format plan }
    requires new { IsNew output }
    requires few { length spans.now ≤ 100000 }
    requires spans { AllSpans spans.now IsSpan }
    requires readable { AreReadable L.folder L.ready logs.old spans.now }
    ensures grows { OnlyGrow (L.folder logs.old) (L.folder logs.new) }
    ensures goes_logs { L.goes logs.old logs.new }
    ensures goes { G.goes stage.old stage.new }
    ensures holds { IfOk result (λ written. Told (L.folder logs.new) (λ folder. AreKept (lines_of format) waits spans.now folder
        → Holds (kind_of G.state G.ended) (asked_of output) stage.old (table_rows format (planned_query plan) (spans_found (lines_of format) waits folder spans.now)) written.outputs stage.new)) }
    ensures processed { IfOk result (λ written. Told (L.folder logs.new) (λ folder. AreKept (lines_of format) waits spans.now folder
        → written.counts.processed ≡ length (spans_found (lines_of format) waits folder spans.now))) }
    ensures output { IfOk result (λ written. Told (L.folder logs.new) (λ folder. AreKept (lines_of format) waits spans.now folder
        → written.counts.output ≡ length (left_of (asked_of output) (table_rows format (planned_query plan) (spans_found (lines_of format) waits folder spans.now))))) }
    ensures bad { IfOk result (λ written. Told (L.folder logs.new) (λ folder. AreKept (lines_of format) waits spans.now folder
        → written.counts.bad ≡ length (spans_bad (lines_of format) waits folder spans.now))) }
    ensures within { IfOk result (λ written. IsWithin most_bad written.counts.bad) }
    ensures too_many { IfErr result (OnBad (λ line. Told (L.folder logs.new) (λ folder. AreKept (lines_of format) waits spans.now folder
        → IsTooMany most_bad 0 (spans_bad_lines (lines_of format) waits folder spans.now) line))) }
    ensures refused { IfErr result (OnRefusedOutput (λ why. Told (L.folder logs.new) (λ folder. AreKept (lines_of format) waits spans.now folder
        → IsRefused (asked_of output) (table_rows format (planned_query plan) (spans_found (lines_of format) waits folder spans.now)) why))) }
    // Of two faults the one that comes first is told.
    ensures in_turn { IfErr result (OnRefusedOutput (λ why. Told (L.folder logs.new) (λ folder. AreKept (lines_of format) waits spans.now folder
        → UnplacedByPlan format waits (asked_of output) (planned_query plan) most_bad spans.now why folder))) }
    ensures placed { IfErr result (OnBad (λ line. Told (L.folder logs.new) (λ folder. AreKept (lines_of format) waits spans.now folder
        → BadByPlan format waits (asked_of output) (planned_query plan) most_bad spans.now line folder))) }
    // What is refused for its name alone is refused before a log is read.
    ensures unread { IfErr result (OnRefusedOutput (λ why. IsRefused (asked_of output) [] why → L.given logs.new ≡ L.given logs.old)) }
    // An output of a name without stars is refused before any bad line is told.
    ensures named { IfErr result (OnBad (λ line. (why : Why) → IsRefused (asked_of output) [] why → ⊥)) }
    ensures stops { OnErr result (Told (L.folder logs.new) (λ folder. AreKept (lines_of format) waits spans.now folder
        → Stops (kind_of G.state G.ended) (asked_of output) stage.old (table_rows format (planned_query plan) (spans_found (lines_of format) waits folder spans.now)) stage.new)) }
    ensures took { OnOk result (Told (L.folder logs.new) (λ folder. AreKept (lines_of format) waits spans.now folder
        → took.new ≡ took.old ++ map (took_of (lines_of format) waits folder) spans.now)) }
    ensures given { L.given logs.new ≤ L.given logs.old + spans_size spans.now }
    ensures ahead { GoesByPlan (kind_of G.state G.ended) G.goes format waits (L.folder logs.new) spans.now (L.given logs.old) (L.given logs.new) stage.old stage.new (asked_of output) (planned_query plan) }
    ensures later_logs { L.faults logs.old ≤ L.faults logs.new }
    ensures logs { IsErrOf result WriteFault.Logs → Rose (L.faults logs.old) (L.faults logs.new) }
    ensures later { G.faults stage.old ≤ G.faults stage.new }
    ensures stage { IsErrOf result WriteFault.Output → Rose (G.faults stage.old) (G.faults stage.new) }
{
    match plan {
        QueryPlan::Rows(plan) => run_plan(
            alloc, format, output, plan, waits, logs, spans, most_bad, took, stage,
        ),
        QueryPlan::Groups(plan) => run_groups(
            alloc, format, output, plan, waits, logs, spans, most_bad, took, stage,
        ),
    }
}
