// The values of a plan's rows, by the format of the logs.
ghost use Rattle.std.specs.Prelude.{◌≡◌, ◌≤◌, ◌<◌, ◌+◌, length, option_map, IfOk, IfErr, IsErrOf};
ghost use Rattle.lp_model.specs.Outside.{Rose, OnlyGrow, Told};
ghost use Rattle.log_reading.specs.Page.{IsTooMany, IsWithin};
ghost use Rattle.log_reading.specs.Spans.{AllSpans, AreReadable, IsSpan, AreKept, spans_bad, spans_bad_lines, spans_size};
ghost use Rattle.in_set.specs.Facts.{facts_of};
ghost use Rattle.query_types.specs.Conditions.{filter_of};
ghost use Rattle.query_types.specs.Planned.{Covers, planned_in};
ghost use Rattle.input_tables.specs.Tables.{lines_of, columns_of, readings_of};
ghost use Rattle.plan_run.specs.Rows.{plan_rows};
ghost use Rattle.list_run.specs.Faults.{OnBad, OnUnplanned};
ghost use Rattle.list_run.specs.Keeping.{kept_values};
ghost use Rattle.list_run.specs.Lists.{values_of};

use crate::running::gather_reader;
use crate::{GivenValues, Keep, ListFault};
use input_tables::TableFormat;
use line_input::{TextLines, TextWords};
use log_reading::{LogSource, Span};
use ncsa_input::Ncsa;
use query_types::Plan;
use std::alloc::Global;
use w3c_input::IisW3c;

/// The values of a plan's rows over the records of spans, which are read in a format with a table and joined in order.
pub fn gather_plan<L: LogSource>(
    alloc: Global,
    format: TableFormat,
    plan: Plan,
    keep: Keep,
    waits: bool,
    logs: &mut L,
    spans: &[Span],
    most_bad: Option<u64>,
) -> Result<GivenValues, ListFault>
    requires covers { Covers plan.used plan.items (option_map filter_of plan.condition) }
    requires size { length plan.used ≡ length (columns_of format) }
    requires few { length spans.now ≤ 100000 }
    requires spans { AllSpans spans.now IsSpan }
    requires readable { AreReadable L.folder L.ready logs.old spans.now }
    ensures grows { OnlyGrow (L.folder logs.old) (L.folder logs.new) }
    ensures goes_logs { L.goes logs.old logs.new }
    ensures values { IfOk result (λ given. Told (L.folder logs.new) (λ folder. AreKept (lines_of format) waits spans.now folder
        → given.values ≡ facts_of (values_of (plan_rows (readings_of format) (planned_in plan) (lines_of format) waits folder spans.now)))) }
    ensures kept { IfOk result (λ given. Told (L.folder logs.new) (λ folder. AreKept (lines_of format) waits spans.now folder
        → given.kept ≡ kept_values keep (values_of (plan_rows (readings_of format) (planned_in plan) (lines_of format) waits folder spans.now)))) }
    ensures bad { IfOk result (λ given. Told (L.folder logs.new) (λ folder. AreKept (lines_of format) waits spans.now folder
        → given.bad ≡ length (spans_bad (lines_of format) waits folder spans.now))) }
    ensures within { IfOk result (λ given. IsWithin most_bad given.bad) }
    ensures too_many { IfErr result (OnBad (λ line. Told (L.folder logs.new) (λ folder. AreKept (lines_of format) waits spans.now folder
        → IsTooMany most_bad 0 (spans_bad_lines (lines_of format) waits folder spans.now) line))) }
    ensures unplanned { IfErr result (OnUnplanned (λ fault. ⊥)) }
    ensures given { L.given logs.new ≤ L.given logs.old + spans_size spans.now }
    ensures later_logs { L.faults logs.old ≤ L.faults logs.new }
    ensures logs { IsErrOf result ListFault.Logs → Rose (L.faults logs.old) (L.faults logs.new) }
{
    match format {
        TableFormat::IisW3c => gather_reader(
            alloc, &IisW3c, format, plan, keep, waits, logs, spans, most_bad,
        ),
        TableFormat::Ncsa => gather_reader(
            alloc, &Ncsa, format, plan, keep, waits, logs, spans, most_bad,
        ),
        TableFormat::TextWord => gather_reader(
            alloc, &TextWords, format, plan, keep, waits, logs, spans, most_bad,
        ),
        TableFormat::TextLine => gather_reader(
            alloc, &TextLines, format, plan, keep, waits, logs, spans, most_bad,
        ),
    }
}
