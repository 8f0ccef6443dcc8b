// The values of a subquery's expression.
ghost use Rattle.std.specs.Prelude.{◌≡◌, ◌≤◌, ◌+◌, length, IfOk, IfErr, IsErrOf, Err};
ghost use Rattle.lp_model.specs.Outside.{OnlyGrow, Rose, Told};
ghost use Rattle.query_tree.specs.Views.{query_of};
ghost use Rattle.execution.specs.Executed.{OnTable};
ghost use Rattle.execution.specs.Formats.{lines_in};
ghost use Rattle.execution.specs.declared.formats.LogFormat.TheVariants as F;
ghost use Rattle.group_planning.specs.Subquery.{subquery_plan_of};
ghost use Rattle.list_run.specs.Faults.{OnBad, OnUnplanned};
ghost use Rattle.list_run.specs.Rules.{kind_first};
ghost use Rattle.log_reading.specs.Page.{IsTooMany, IsWithin};
ghost use Rattle.log_reading.specs.Spans.{AllSpans, AreKept, AreReadable, IsSpan, spans_bad_lines, spans_size};
ghost use Rattle.subqueries.specs.Refusing.{IsTyped};
ghost use Rattle.subqueries.specs.Valuing.{GivesValues, HasSeparator, unplanned};

use checkpoint::Spans;
use execution::LogFormat;
use group_planning::plan_subquery;
use input_tables::{TableFormat, table_of};
use list_run::{Keep, ListFault, SampledValues, gather_plan, gather_sampled};
use log_reading::LogSource;
use lp_time::Pattern;
use lp_values::Kind;
use query_tree::Query;
use query_types::{KindList, TypeFault};
use sampled_run::Moment;
use std::alloc::Global;

// The kind of the first of some columns; of none it is any.
fn kind_first(kinds: &KindList) -> Kind
    ensures { result ≡ kind_first kinds.now }
{
    match kinds.get(0) {
        Some(kind) => *kind,
        None => Kind::Any,
    }
}

// Why a subquery has no plan.
fn unplanned(fault: TypeFault) -> ListFault
    ensures { result ≡ unplanned fault }
{
    match fault {
        TypeFault::Memory => ListFault::Memory,
        fault => ListFault::Plan(fault),
    }
}

// Those in a format with a table.
fn give_tabled<L: LogSource>(
    alloc: Global,
    format: TableFormat,
    pattern: &Pattern,
    query: &Query,
    moment: i64,
    waits: bool,
    keep: Keep,
    logs: &mut L,
    spans: &Spans,
    most_bad: Option<u64>,
) -> Result<SampledValues, ListFault>
    requires few { length spans.now ≤ 100000 }
    requires spans { AllSpans spans.now IsSpan }
    requires readable { AreReadable L.folder L.ready logs.old spans.now }
    ensures grows { OnlyGrow (L.folder logs.old) (L.folder logs.new) }
    ensures values { IfOk result (λ list. OnTable (F.Tabled format) waits pattern.now (L.folder logs.new) spans.now (GivesValues (F.Tabled format) waits keep pattern.now (L.folder logs.new) moment (query_of query.now) list spans.now)) }
    ensures unplanned { IfErr result (OnUnplanned (λ fault. OnTable (F.Tabled format) waits pattern.now (L.folder logs.new) spans.now (λ table. subquery_plan_of table moment (query_of query.now) ≡ Err fault))) }
    ensures within { IfOk result (λ list. IsWithin most_bad list.bad) }
    ensures typed { IfErr result (OnBad (λ line. IsTyped (F.Tabled format) moment (query_of query.now))) }
    ensures too_many { IfErr result (OnBad (λ line. Told (L.folder logs.new) (λ folder. AreKept (lines_in (F.Tabled format)) waits spans.now folder
        → IsTooMany most_bad 0 (spans_bad_lines (lines_in (F.Tabled format)) waits folder spans.now) line))) }
    ensures given { L.given logs.new ≤ L.given logs.old + spans_size spans.now }
    ensures later_logs { L.faults logs.old ≤ L.faults logs.new }
    ensures logs { IsErrOf result ListFault.Logs → Rose (L.faults logs.old) (L.faults logs.new) }
{
    let Ok(table) = table_of(alloc, format) else {
        return Err(ListFault::Memory);
    };
    let plan = match plan_subquery(alloc, query, &table, moment) {
        Ok(plan) => plan,
        Err(fault) => return Err(unplanned(fault)),
    };
    let kind = kind_first(&plan.kinds);
    match gather_plan(
        alloc,
        format,
        plan,
        keep,
        waits,
        logs,
        spans.as_slice(),
        most_bad,
    ) {
        Ok(given) => Ok(SampledValues {
            kind,
            values: given.values,
            kept: given.kept,
            bad: given.bad,
        }),
        Err(fault) => Err(fault),
    }
}

/// The values of a subquery's expression in the records of spans, which are read in a format; what is to be kept of them in order is kept.
pub(crate) fn give_values<L: LogSource>(
    alloc: Global,
    format: LogFormat,
    pattern: &Pattern,
    query: &Query,
    moment: i64,
    waits: bool,
    keep: Keep,
    logs: &mut L,
    spans: &Spans,
    most_bad: Option<u64>,
) -> Result<SampledValues, ListFault>
    requires separator { HasSeparator format }
    requires few { length spans.now ≤ 100000 }
    requires spans { AllSpans spans.now IsSpan }
    requires readable { AreReadable L.folder L.ready logs.old spans.now }
    ensures grows { OnlyGrow (L.folder logs.old) (L.folder logs.new) }
    ensures values { IfOk result (λ list. OnTable format waits pattern.now (L.folder logs.new) spans.now (GivesValues format waits keep pattern.now (L.folder logs.new) moment (query_of query.now) list spans.now)) }
    ensures unplanned { IfErr result (OnUnplanned (λ fault. OnTable format waits pattern.now (L.folder logs.new) spans.now (λ table. subquery_plan_of table moment (query_of query.now) ≡ Err fault))) }
    ensures within { IfOk result (λ list. IsWithin most_bad list.bad) }
    ensures typed { IfErr result (OnBad (λ line. IsTyped format moment (query_of query.now))) }
    ensures too_many { IfErr result (OnBad (λ line. Told (L.folder logs.new) (λ folder. AreKept (lines_in format) waits spans.now folder
        → IsTooMany most_bad 0 (spans_bad_lines (lines_in format) waits folder spans.now) line))) }
    ensures given { L.given logs.new ≤ L.given logs.old + spans_size spans.now }
    ensures later_logs { L.faults logs.old ≤ L.faults logs.new }
    ensures logs { IsErrOf result ListFault.Logs → Rose (L.faults logs.old) (L.faults logs.new) }
{
    match format {
        LogFormat::Tabled(format) => give_tabled(
            alloc, format, pattern, query, moment, waits, keep, logs, spans, most_bad,
        ),
        LogFormat::Sampled(options, limit) => gather_sampled(
            alloc,
            options,
            limit,
            pattern,
            Moment { seconds: moment },
            query,
            keep,
            waits,
            logs,
            spans.as_slice(),
            most_bad,
        ),
    }
}
