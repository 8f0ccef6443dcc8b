// A grouped query over logs to a stage.
ghost use Rattle.std.specs.Prelude.{◌≡◌, ◌⊎◌, ◌≤◌, ◌<◌, ◌^◌, ◌+◌, ◌++◌, [], true, length, map, OnOk, OnErr, IfOk, IfErr, IsErrOf};
ghost use Rattle.lp_model.specs.Outside.{Rose, OnlyGrow, Told};
ghost use Rattle.log_reading.specs.Page.{IsTooMany, IsWithin};
ghost use Rattle.log_reading.specs.Spans.{AllSpans, AreReadable, IsSpan, AreKept, spans_found, spans_bad, spans_bad_lines, spans_size, took_of};
ghost use Rattle.group_rollup.specs.Tables.{Holds as AreOf};
ghost use Rattle.text_output.specs.Output.{kind_of};
ghost use Rattle.row_output.specs.Asked.{left_of};
ghost use Rattle.row_output.specs.Kept.{HasRows, IsNew, asked_of};
ghost use Rattle.row_output.specs.Rows.{Holds, IsRefused, Stops};
ghost use Rattle.row_output.specs.Sinks.{IsOpened};
ghost use Rattle.row_output.specs.declared.fault.Refused.{Refused as Why};
ghost use Rattle.query_run.specs.Faults.{OnBad, OnRefusedOutput};
ghost use Rattle.group_run.specs.InTurn.{IsReached};
ghost use Rattle.row_steps.specs.Grouped.{HasWidth, grouped_output};
ghost use Rattle.row_steps.specs.Rows.{OnGroups, Rows};

use line_input::LineReader;
use log_reading::{LogSource, Page, Span, TookList, take_spans};
use lp_outside::Stage;
use plan_rows::ReadyPlan;
use query_run::{Counts, Picker, WriteFault, Written, ended_by, first_page, new_chunk, stopped_in};
use query_types::GroupShape;
use row_output::RowOutput;
use row_steps::{GroupRows, finish_groups};
use std::alloc::Global;

// The page before the first log, with the output of a name without stars opened.
fn open_page<P: Picker + Drop, G: Stage>(
    alloc: Global,
    output: &mut RowOutput,
    picker: P,
    asks: &GroupShape,
    plan: ReadyPlan,
    most_bad: Option<u64>,
    stage: &mut G,
) -> Result<Page<GroupRows<P>>, WriteFault>
    requires new { IsNew output.old }
    requires wide { HasWidth (P.picks picker) (asks.now.keys + length asks.now.aggregates) }
    ensures has { OnOk result (HasRows (kind_of G.state G.ended) output.new stage.old [] stage.new) }
    ensures opened { OnOk result (IsOpened output.new.sink) }
    ensures asked { asked_of output.new ≡ asked_of output.old }
    ensures none { output.new.put ≡ 0 }
    ensures groups { IfOk result (λ page. AreOf asks.now.keys asks.now.aggregates asks.now.rollup page.taker.groups []) }
    ensures picker { IfOk result (λ page. page.taker.picker ≡ picker) }
    ensures plan { IfOk result (λ page. page.taker.plan ≡ plan) }
    ensures taken { IfOk result (λ page. page.taker.taken ≡ 0) }
    ensures rows { IfOk result (λ page. page.rows ≡ 0) }
    ensures bad { IfOk result (λ page. page.bad ≡ 0) }
    ensures most { IfOk result (λ page. page.most_bad ≡ most_bad) }
    ensures stops { OnErr result ((rows : Rows) → Stops (kind_of G.state G.ended) (asked_of output.old) stage.old rows stage.new) }
    ensures refused { IfErr result (OnRefusedOutput (λ why. (rows : Rows) → IsRefused (asked_of output.old) rows why)) }
    ensures good { IfErr result (OnBad (λ line. ⊥)) }
    ensures named { OnOk result ((why : Why) → IsRefused (asked_of output.old) [] why → ⊥) }
    ensures logs { IsErrOf result WriteFault.Logs → ⊥ }
    ensures goes { G.goes stage.old stage.new }
    ensures later { G.faults stage.old ≤ G.faults stage.new }
    ensures sink { IsErrOf result WriteFault.Output → Rose (G.faults stage.old) (G.faults stage.new) }
{
    let Ok(rows) = GroupRows::new(alloc, picker, asks, plan) else {
        return Err(WriteFault::Memory);
    };
    match output.open(stage) {
        Ok(()) => Ok(first_page(alloc, rows, most_bad)),
        Err(fault) => {
            drop(rows);
            Err(ended_by(fault))
        }
    }
}

// Puts the rows of the groups that were gathered, and ends the outputs.
fn end_page<P: Picker + Drop, G: Stage>(
    alloc: Global,
    page: &Page<GroupRows<P>>,
    output: &mut RowOutput,
    stage: &mut G,
) -> Result<Written, WriteFault>
    requires { output.old.put ≡ 0 }
    ensures holds { IfOk result (λ written. (start : G) → HasRows (kind_of G.state G.ended) output.old start [] stage.old
        → OnGroups page.now.taker.plan.plan page.now.taker.groups (λ out. Holds (kind_of G.state G.ended) (asked_of output.old) start out written.outputs stage.new)) }
    ensures output { IfOk result (λ written. (start : G) → HasRows (kind_of G.state G.ended) output.old start [] stage.old
        → OnGroups page.now.taker.plan.plan page.now.taker.groups (λ out. written.counts.output ≡ length (left_of (asked_of output.old) out))) }
    ensures processed { IfOk result (λ written. written.counts.processed ≡ page.now.rows) }
    ensures bad { IfOk result (λ written. written.counts.bad ≡ page.now.bad) }
    ensures stops { OnErr result ((start : G) → HasRows (kind_of G.state G.ended) output.old start [] stage.old
        → OnGroups page.now.taker.plan.plan page.now.taker.groups (λ out. Stops (kind_of G.state G.ended) (asked_of output.old) start out stage.new)) }
    ensures refused { IfErr result (OnRefusedOutput (λ why. (start : G) → HasRows (kind_of G.state G.ended) output.old start [] stage.old
        → OnGroups page.now.taker.plan.plan page.now.taker.groups (λ out. IsRefused (asked_of output.old) out why))) }
    ensures good { IfErr result (OnBad (λ line. ⊥)) }
    ensures logs { IsErrOf result WriteFault.Logs → ⊥ }
    ensures goes { G.goes stage.old stage.new }
    ensures later { G.faults stage.old ≤ G.faults stage.new }
    ensures sink { IsErrOf result WriteFault.Output → Rose (G.faults stage.old) (G.faults stage.new) }
{
    match finish_groups(alloc, &page.taker, output, stage) {
        Ok(finished) => Ok(Written {
            counts: Counts {
                processed: page.rows,
                output: finished.rows,
                bad: page.bad,
            },
            outputs: finished.outputs,
        }),
        Err(fault) => Err(ended_by(fault)),
    }
}

/// Puts the output rows of the groups of the records of spans, joined in order.
pub fn group_spans<R: LineReader, L: LogSource, P: Picker + Drop, G: Stage>(
    alloc: Global,
    reader: &R,
    waits: bool,
    logs: &mut L,
    spans: &[Span],
    mut output: RowOutput,
    picker: P,
    asks: &GroupShape,
    plan: ReadyPlan,
    most_bad: Option<u64>,
    took: &mut TookList,
    stage: &mut G,
) -> Result<Written, WriteFault>
    requires readable { AreReadable L.folder L.ready logs.old spans.now }
    requires spans { AllSpans spans.now IsSpan }
    requires room { spans_size spans.now + length spans.now < 2 ^ 63 }
    requires new { IsNew output }
    requires wide { HasWidth (P.picks picker) (asks.now.keys + length asks.now.aggregates) }
    ensures grows { OnlyGrow (L.folder logs.old) (L.folder logs.new) }
    ensures goes_logs { L.goes logs.old logs.new }
    ensures goes { G.goes stage.old stage.new }
    ensures holds { IfOk result (λ written. Told (L.folder logs.new) (λ folder. AreKept (R.format reader.now) waits spans.now folder
        → Holds (kind_of G.state G.ended) (asked_of output) stage.old (grouped_output asks.now.keys asks.now.aggregates asks.now.rollup (P.picks picker) plan.plan (spans_found (R.format reader.now) waits folder spans.now)) written.outputs stage.new)) }
    ensures processed { IfOk result (λ written. Told (L.folder logs.new) (λ folder. AreKept (R.format reader.now) waits spans.now folder
        → written.counts.processed ≡ length (spans_found (R.format reader.now) waits folder spans.now))) }
    ensures output { IfOk result (λ written. Told (L.folder logs.new) (λ folder. AreKept (R.format reader.now) waits spans.now folder
        → written.counts.output ≡ length (left_of (asked_of output) (grouped_output asks.now.keys asks.now.aggregates asks.now.rollup (P.picks picker) plan.plan (spans_found (R.format reader.now) waits folder spans.now))))) }
    ensures bad { IfOk result (λ written. Told (L.folder logs.new) (λ folder. AreKept (R.format reader.now) waits spans.now folder
        → written.counts.bad ≡ length (spans_bad (R.format reader.now) waits folder spans.now))) }
    ensures stops { OnErr result (Told (L.folder logs.new) (λ folder. AreKept (R.format reader.now) waits spans.now folder
        → Stops (kind_of G.state G.ended) (asked_of output) stage.old (grouped_output asks.now.keys asks.now.aggregates asks.now.rollup (P.picks picker) plan.plan (spans_found (R.format reader.now) waits folder spans.now)) stage.new)) }
    ensures took { OnOk result (Told (L.folder logs.new) (λ folder. AreKept (R.format reader.now) waits spans.now folder
        → took.new ≡ took.old ++ map (took_of (R.format reader.now) waits folder) spans.now)) }
    ensures given { L.given logs.new ≤ L.given logs.old + spans_size spans.now }
    ensures later_logs { L.faults logs.old ≤ L.faults logs.new }
    ensures logs { IsErrOf result WriteFault.Logs → Rose (L.faults logs.old) (L.faults logs.new) }
    ensures later { G.faults stage.old ≤ G.faults stage.new }
    ensures within { IfOk result (λ written. IsWithin most_bad written.counts.bad) }
    ensures too_many { IfErr result (OnBad (λ line. Told (L.folder logs.new) (λ folder. AreKept (R.format reader.now) waits spans.now folder
        → IsTooMany most_bad 0 (spans_bad_lines (R.format reader.now) waits folder spans.now) line))) }
    // Before a bad line that is one too many all lines were taken.
    ensures reached { IfErr result (OnBad (λ line. Told (L.folder logs.new) (λ folder. AreKept (R.format reader.now) waits spans.now folder
        → IsReached most_bad (R.format reader.now) waits folder spans.now line))) }
    // An output of a name without stars is refused before any bad line is told.
    ensures named { IfErr result (OnBad (λ line. (why : Why) → IsRefused (asked_of output) [] why → ⊥)) }
    ensures refused { IfErr result (OnRefusedOutput (λ why. Told (L.folder logs.new) (λ folder. AreKept (R.format reader.now) waits spans.now folder
        → IsRefused (asked_of output) (grouped_output asks.now.keys asks.now.aggregates asks.now.rollup (P.picks picker) plan.plan (spans_found (R.format reader.now) waits folder spans.now)) why))) }
    // The rows of groups come behind all records: so does the refusal of an output, but for that of a name without stars.
    ensures early { IfErr result (OnRefusedOutput (λ why. Told (L.folder logs.new) (λ folder. AreKept (R.format reader.now) waits spans.now folder
        → IsRefused (asked_of output) [] why ⊎ IsWithin most_bad (length (spans_bad (R.format reader.now) waits folder spans.now))))) }
    // Where the output of a name without stars is refused, no log is read.
    ensures unread { IfErr result (OnRefusedOutput (λ why. IsRefused (asked_of output) [] why → L.given logs.new ≡ L.given logs.old)) }
    ensures sink { IsErrOf result WriteFault.Output → Rose (G.faults stage.old) (G.faults stage.new) }
{
    let mut page = open_page(alloc, &mut output, picker, asks, plan, most_bad, stage)?;
    let Ok(mut chunk) = new_chunk(alloc) else {
        return Err(WriteFault::Memory);
    };
    match take_spans(
        alloc, reader, waits, logs, spans, &mut chunk, &mut page, took, stage,
    ) {
        Ok(()) => end_page(alloc, &page, &mut output, stage),
        Err(fault) => Err(stopped_in(fault, None)),
    }
}
