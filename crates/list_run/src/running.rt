// The values of rows over spans.
ghost use Rattle.std.specs.Prelude.{◌≡◌, ◌≤◌, ◌<◌, ◌^◌, ◌+◌, length, option_map, IfOk, IfErr, IsErrOf};
ghost use Rattle.lp_model.specs.Outside.{Rose, OnlyGrow, Told};
ghost use Rattle.log_reading.specs.Page.{IsTooMany, IsWithin};
ghost use Rattle.log_reading.specs.Spans.{AllSpans, AreReadable, IsSpan, AreKept, spans_found, spans_bad, spans_bad_lines, spans_size};
ghost use Rattle.in_set.specs.Facts.{facts_of};
ghost use Rattle.query_run.specs.Rows.{picked};
ghost use Rattle.query_types.specs.Conditions.{filter_of};
ghost use Rattle.query_types.specs.Planned.{Covers, planned_in};
ghost use Rattle.input_tables.specs.Tables.{lines_of, columns_of, readings_of};
ghost use Rattle.plan_run.specs.Rows.{plan_rows};
ghost use Rattle.list_run.specs.Faults.{OnBad, OnUnplanned};
ghost use Rattle.list_run.specs.Keeping.{kept_values};
ghost use Rattle.list_run.specs.Lists.{values_of};

use crate::ending::end_list;
use crate::fault::read_fault;
use crate::{Collector, Gathered, GivenValues, Keep, ListFault};
use input_tables::TableFormat;
use line_input::LineReader;
use log_reading::{LogSource, Span, TookList, take_spans};
use plan_run::make_picker;
use query_run::{Picker, first_page, new_chunk};
use query_types::Plan;
use std::alloc::Global;

/// The values of the rows that a picker makes of the records of spans.
fn gather_spans<R: LineReader, L: LogSource, P: Picker + Drop>(
    alloc: Global,
    reader: &R,
    picker: P,
    keep: Keep,
    waits: bool,
    logs: &mut L,
    spans: &[Span],
    most_bad: Option<u64>,
) -> Result<GivenValues, ListFault>
    requires readable { AreReadable L.folder L.ready logs.old spans.now }
    requires spans { AllSpans spans.now IsSpan }
    requires room { spans_size spans.now + length spans.now < 2 ^ 63 }
    ensures grows { OnlyGrow (L.folder logs.old) (L.folder logs.new) }
    ensures goes_logs { L.goes logs.old logs.new }
    ensures values { IfOk result (λ given. Told (L.folder logs.new) (λ folder. AreKept (R.format reader.now) waits spans.now folder
        → given.values ≡ facts_of (values_of (picked (P.picks picker) (spans_found (R.format reader.now) waits folder spans.now))))) }
    ensures kept { IfOk result (λ given. Told (L.folder logs.new) (λ folder. AreKept (R.format reader.now) waits spans.now folder
        → given.kept ≡ kept_values keep (values_of (picked (P.picks picker) (spans_found (R.format reader.now) waits folder spans.now))))) }
    ensures bad { IfOk result (λ given. Told (L.folder logs.new) (λ folder. AreKept (R.format reader.now) waits spans.now folder
        → given.bad ≡ length (spans_bad (R.format reader.now) waits folder spans.now))) }
    ensures within { IfOk result (λ given. IsWithin most_bad given.bad) }
    ensures too_many { IfErr result (OnBad (λ line. Told (L.folder logs.new) (λ folder. AreKept (R.format reader.now) waits spans.now folder
        → IsTooMany most_bad 0 (spans_bad_lines (R.format reader.now) waits folder spans.now) line))) }
    ensures unplanned { IfErr result (OnUnplanned (λ fault. ⊥)) }
    ensures given { L.given logs.new ≤ L.given logs.old + spans_size spans.now }
    ensures later_logs { L.faults logs.old ≤ L.faults logs.new }
    ensures logs { IsErrOf result ListFault.Logs → Rose (L.faults logs.old) (L.faults logs.new) }
{
    let Ok(mut chunk) = new_chunk(alloc) else {
        return Err(ListFault::Memory);
    };
    let mut page = first_page(alloc, Collector::new(alloc, picker), most_bad);
    let mut took = TookList::new(alloc);
    let mut gathered = Gathered::new(alloc, keep);
    match take_spans(
        alloc,
        reader,
        waits,
        logs,
        spans,
        &mut chunk,
        &mut page,
        &mut took,
        &mut gathered,
    ) {
        Ok(()) => {
            let bad = page.bad;
            end_list(alloc, gathered, bad)
        }
        Err(fault) => Err(read_fault(fault)),
    }
}

/// The values of a plan's rows over the records of spans, by a reader of their format.
pub(crate) fn gather_reader<R: LineReader, L: LogSource>(
    alloc: Global,
    reader: &R,
    format: TableFormat,
    plan: Plan,
    keep: Keep,
    waits: bool,
    logs: &mut L,
    spans: &[Span],
    most_bad: Option<u64>,
) -> Result<GivenValues, ListFault>
    requires reads { R.format reader.now ≡ lines_of format }
    requires covers { Covers plan.used plan.items (option_map filter_of plan.condition) }
    requires size { length plan.used ≡ length (columns_of format) }
    requires few { length spans.now ≤ 100000 }
    requires spans { AllSpans spans.now IsSpan }
    requires readable { AreReadable L.folder L.ready logs.old spans.now }
    ensures grows { OnlyGrow (L.folder logs.old) (L.folder logs.new) }
    ensures goes_logs { L.goes logs.old logs.new }
    ensures values { IfOk result (λ given. Told (L.folder logs.new) (λ folder. AreKept (lines_of format) waits spans.now folder
        → given.values ≡ facts_of (values_of (plan_rows (readings_of format) (planned_in plan) (lines_of format) waits folder spans.now)))) }
    ensures kept { IfOk result (λ given. Told (L.folder logs.new) (λ folder. AreKept (lines_of format) waits spans.now folder
        → given.kept ≡ kept_values keep (values_of (plan_rows (readings_of format) (planned_in plan) (lines_of format) waits folder spans.now)))) }
    ensures bad { IfOk result (λ given. Told (L.folder logs.new) (λ folder. AreKept (lines_of format) waits spans.now folder
        → given.bad ≡ length (spans_bad (lines_of format) waits folder spans.now))) }
    ensures within { IfOk result (λ given. IsWithin most_bad given.bad) }
    ensures too_many { IfErr result (OnBad (λ line. Told (L.folder logs.new) (λ folder. AreKept (lines_of format) waits spans.now folder
        → IsTooMany most_bad 0 (spans_bad_lines (lines_of format) waits folder spans.now) line))) }
    ensures unplanned { IfErr result (OnUnplanned (λ fault. ⊥)) }
    ensures given { L.given logs.new ≤ L.given logs.old + spans_size spans.now }
    ensures later_logs { L.faults logs.old ≤ L.faults logs.new }
    ensures logs { IsErrOf result ListFault.Logs → Rose (L.faults logs.old) (L.faults logs.new) }
{
    let Ok(picker) = make_picker(alloc, format, plan) else {
        return Err(ListFault::Memory);
    };
    gather_spans(alloc, reader, picker, keep, waits, logs, spans, most_bad)
}
