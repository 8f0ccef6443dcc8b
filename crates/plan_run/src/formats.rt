// A plan over spans, by their format.
ghost use Rattle.std.specs.Prelude.{◌≡◌, ◌≤◌, ◌+◌, ◌++◌, [], true, length, map, option_map, OnOk, OnErr, IfOk, IfErr, IsErrOf};
ghost use Rattle.lp_model.specs.Outside.{Rose, OnlyGrow, Told};
ghost use Rattle.log_reading.specs.Page.{IsTooMany, IsWithin};
ghost use Rattle.log_reading.specs.Spans.{AllSpans, AreReadable, IsSpan, AreKept, spans_found, spans_bad, spans_bad_lines, spans_size, took_of};
ghost use Rattle.text_output.specs.Output.{kind_of};
ghost use Rattle.row_output.specs.Asked.{left_of};
ghost use Rattle.row_output.specs.Kept.{IsNew, asked_of};
ghost use Rattle.row_output.specs.Rows.{Holds, IsRefused, Stops};
ghost use Rattle.row_output.specs.declared.fault.Refused.{Refused as Why};
ghost use Rattle.query_run.specs.Ahead.{GoesAhead};
ghost use Rattle.query_run.specs.Faults.{OnBad, OnRefusedOutput};
ghost use Rattle.query_run.specs.InTurn.{BadInTurn, RefusedInTurn};
ghost use Rattle.query_run.specs.Rows.{picked};
ghost use Rattle.query_types.specs.Conditions.{filter_of};
ghost use Rattle.query_types.specs.Planned.{Covers, planned_in};
ghost use Rattle.input_tables.specs.Tables.{lines_of, columns_of, readings_of};
ghost use Rattle.plan_rows.specs.Picks.{plan_picks};
ghost use Rattle.plan_run.specs.Rows.{plan_rows};

use crate::running::run_reader;
use input_tables::TableFormat;
use line_input::{TextLines, TextWords};
use log_reading::{LogSource, Span, TookList};
use lp_outside::Stage;
use ncsa_input::Ncsa;
use query_run::{WriteFault, Written};
use query_types::Plan;
use row_output::RowOutput;
use std::alloc::Global;
use w3c_input::IisW3c;

/// Writes the text of a plan's rows over the records of spans, which are read in a format and joined in order.
pub fn run_plan<L: LogSource, G: Stage>(
    alloc: Global,
    format: TableFormat,
    output: RowOutput,
    plan: Plan,
    waits: bool,
    logs: &mut L,
    spans: &[Span],
    most_bad: Option<u64>,
    took: &mut TookList,
    stage: &mut G,
) -> Result<Written, WriteFault>
    requires covers { Covers plan.used plan.items (option_map filter_of plan.condition) }
    requires size { length plan.used ≡ length (columns_of format) }
    requires new { IsNew output }
    requires few { length spans.now ≤ 100000 }
    requires spans { AllSpans spans.now IsSpan }
    requires readable { AreReadable L.folder L.ready logs.old spans.now }
    ensures grows { OnlyGrow (L.folder logs.old) (L.folder logs.new) }
    ensures goes_logs { L.goes logs.old logs.new }
    ensures goes { G.goes stage.old stage.new }
    ensures holds { IfOk result (λ written. Told (L.folder logs.new) (λ folder. AreKept (lines_of format) waits spans.now folder
        → Holds (kind_of G.state G.ended) (asked_of output) stage.old (plan_rows (readings_of format) (planned_in plan) (lines_of format) waits folder spans.now) written.outputs stage.new)) }
    ensures processed { IfOk result (λ written. Told (L.folder logs.new) (λ folder. AreKept (lines_of format) waits spans.now folder
        → written.counts.processed ≡ length (spans_found (lines_of format) waits folder spans.now))) }
    ensures output { IfOk result (λ written. Told (L.folder logs.new) (λ folder. AreKept (lines_of format) waits spans.now folder
        → written.counts.output ≡ length (left_of (asked_of output) (plan_rows (readings_of format) (planned_in plan) (lines_of format) waits folder spans.now)))) }
    ensures bad { IfOk result (λ written. Told (L.folder logs.new) (λ folder. AreKept (lines_of format) waits spans.now folder
        → written.counts.bad ≡ length (spans_bad (lines_of format) waits folder spans.now))) }
    ensures within { IfOk result (λ written. IsWithin most_bad written.counts.bad) }
    ensures too_many { IfErr result (OnBad (λ line. Told (L.folder logs.new) (λ folder. AreKept (lines_of format) waits spans.now folder
        → IsTooMany most_bad 0 (spans_bad_lines (lines_of format) waits folder spans.now) line))) }
    // An output of a name without stars is refused before any bad line is told.
    ensures named { IfErr result (OnBad (λ line. (why : Why) → IsRefused (asked_of output) [] why → ⊥)) }
    ensures refused { IfErr result (OnRefusedOutput (λ why. Told (L.folder logs.new) (λ folder. AreKept (lines_of format) waits spans.now folder
        → IsRefused (asked_of output) (plan_rows (readings_of format) (planned_in plan) (lines_of format) waits folder spans.now) why))) }
    // Of two faults the one that comes first is told: an output that is refused, or a bad line that is one too many.
    ensures in_turn { IfErr result (OnRefusedOutput (λ why. Told (L.folder logs.new) (λ folder. AreKept (lines_of format) waits spans.now folder
        → RefusedInTurn (asked_of output) (picked (plan_picks (readings_of format) (planned_in plan).items (planned_in plan).condition)) most_bad 0 (lines_of format) waits folder spans.now why))) }
    ensures placed { IfErr result (OnBad (λ line. Told (L.folder logs.new) (λ folder. AreKept (lines_of format) waits spans.now folder
        → BadInTurn (asked_of output) (picked (plan_picks (readings_of format) (planned_in plan).items (planned_in plan).condition)) most_bad 0 (lines_of format) waits folder spans.now line))) }
    // Where the output of a name without stars is refused, no log is read.
    ensures unread { IfErr result (OnRefusedOutput (λ why. IsRefused (asked_of output) [] why → L.given logs.new ≡ L.given logs.old)) }
    ensures stops { OnErr result (Told (L.folder logs.new) (λ folder. AreKept (lines_of format) waits spans.now folder
        → Stops (kind_of G.state G.ended) (asked_of output) stage.old (plan_rows (readings_of format) (planned_in plan) (lines_of format) waits folder spans.now) stage.new)) }
    ensures took { OnOk result (Told (L.folder logs.new) (λ folder. AreKept (lines_of format) waits spans.now folder
        → took.new ≡ took.old ++ map (took_of (lines_of format) waits folder) spans.now)) }
    ensures given { L.given logs.new ≤ L.given logs.old + spans_size spans.now }
    // Of a log no more than a piece is read while standard output lacks a piece of the text of what was read.
    ensures ahead { GoesAhead (kind_of G.state G.ended) G.goes (asked_of output) (plan_picks (readings_of format) (planned_in plan).items (planned_in plan).condition) (lines_of format) waits (L.folder logs.new) spans.now (L.given logs.old) (L.given logs.new) stage.old stage.new }
    ensures later_logs { L.faults logs.old ≤ L.faults logs.new }
    ensures logs { IsErrOf result WriteFault.Logs → Rose (L.faults logs.old) (L.faults logs.new) }
    ensures later { G.faults stage.old ≤ G.faults stage.new }
    ensures stage { IsErrOf result WriteFault.Output → Rose (G.faults stage.old) (G.faults stage.new) }
{
    match format {
        TableFormat::IisW3c => run_reader(
            alloc, &IisW3c, format, output, plan, waits, logs, spans, most_bad, took, stage,
        ),
        TableFormat::Ncsa => run_reader(
            alloc, &Ncsa, format, output, plan, waits, logs, spans, most_bad, took, stage,
        ),
        TableFormat::TextWord => run_reader(
            alloc, &TextWords, format, output, plan, waits, logs, spans, most_bad, took, stage,
        ),
        TableFormat::TextLine => run_reader(
            alloc, &TextLines, format, output, plan, waits, logs, spans, most_bad, took, stage,
        ),
    }
}
