// A query over logs whose columns they tell.
ghost use Rattle.std.specs.Prelude.{◌≡◌, ◌≤◌, ◌+◌, true, length, map, IfOk, OnErr, IsErrOf};
ghost use Rattle.lp_model.specs.Outside.{Rose, OnlyGrow, Told};
ghost use Rattle.delimited_input.specs.Lines.{delimited_lines};
ghost use Rattle.delimited_input.specs.Separators.{IsNoSeparator};
ghost use Rattle.log_reading.specs.Page.{IsWithin};
ghost use Rattle.log_reading.specs.Spans.{AllSpans, AreReadable, AreKept, IsSpan, spans_size, took_of};
ghost use Rattle.any_format.specs.Wanted.{wanted_text};
ghost use Rattle.text_output.specs.Output.{kind_of};
ghost use Rattle.row_output.specs.Rows.{Holds, Stops};
ghost use Rattle.row_output.specs.Sinks.{IsUnplaced, files_for};
ghost use Rattle.grammar.specs.Filled.{given_bad};
ghost use Rattle.query_tree.specs.Views.{query_of};
ghost use Rattle.execution.specs.Budgets.{IsBudget};
ghost use Rattle.execution.specs.Executed.{IsExecuted, IsMoment, IsParseError, IsStopped, IsTypedInTurn, IsUnplanned, IsUntouched};
ghost use Rattle.execution.specs.Executed.{IsUnplaced as IsUnplacedRun};
ghost use Rattle.execution.specs.Faults.{IfParse, IfPlan, IfRefused};
ghost use Rattle.execution.specs.Plans.{asked_for};
ghost use Rattle.execution.specs.declared.formats.LogFormat.TheVariants as F;

use crate::errors::{BadBudget, with_before};
use crate::sampling::sample_query;
use crate::{Ran, RunFault};
use any_format::Wanted;
use checkpoint::Spans;
use command_words::Spec;
use delimited_input::DelimitedOptions;
use log_reading::{LogSource, TookList};
use lp_outside::Stage;
use query_tree::Query;
use row_output::Into;
use sampled_run::{Moment, SampleFault};
use std::alloc::Global;

/// Runs a query over spans of logs whose fields a byte parts, and whose columns they tell.
pub(crate) fn execute_sampled<L: LogSource, G: Stage>(
    alloc: Global,
    spec: &Spec,
    options: DelimitedOptions,
    limit: u32,
    query: &Query,
    moment: Moment,
    logs: &mut L,
    spans: &Spans,
    waits: bool,
    budget: BadBudget,
    wanted: Wanted,
    into: Into,
    stage: &mut G,
) -> Result<Ran, RunFault>
    requires separator { ¬ IsNoSeparator options.separator }
    requires moment { IsMoment moment.seconds }
    requires budget { IsBudget spec.now.errors (given_bad (query_of query.now)) budget }
    requires none { IsUnplaced into }
    requires few { length spans.now ≤ 100000 }
    requires spans { AllSpans spans.now IsSpan }
    requires readable { AreReadable L.folder L.ready logs.old spans.now }
    ensures grows { OnlyGrow (L.folder logs.old) (L.folder logs.new) }
    ensures goes_logs { L.goes logs.old logs.new }
    ensures ran { IfOk result (λ ran. IsExecuted (F.Sampled options limit) waits (L.folder logs.new) (λ asked rows. Holds (kind_of G.state G.ended) asked stage.old rows ran.outputs stage.new) (asked_for (files_for into) (wanted_text wanted moment.seconds) (query_of query.now)) spec.now moment.seconds (query_of query.now) spans.now ran.counts) }
    ensures within { IfOk result (λ ran. IsWithin spec.now.errors ran.counts.bad) }
    ensures stopped { OnErr result (IsStopped (F.Sampled options limit) waits (L.folder logs.new) (stage.new ≡ stage.old) (λ asked rows. Stops (kind_of G.state G.ended) asked stage.old rows stage.new) (asked_for (files_for into) (wanted_text wanted moment.seconds) (query_of query.now)) spec.now moment.seconds (query_of query.now) spans.now) }
    ensures refused { IfRefused result (IsUnplacedRun (F.Sampled options limit) waits (L.folder logs.new) (asked_for (files_for into) (wanted_text wanted moment.seconds) (query_of query.now)) spec.now moment.seconds (query_of query.now) spans.now) }
    ensures plan { IfPlan result (IsUnplanned (F.Sampled options limit) waits (L.folder logs.new) spec.now moment.seconds (query_of query.now) spans.now) }
    ensures plan_in_turn { IfPlan result (λ fault. IsTypedInTurn (F.Sampled options limit) waits (L.folder logs.new) spec.now (query_of query.now) spans.now) }
    ensures before { IfPlan result (λ fault. IsUntouched (F.Sampled options limit) waits (L.folder logs.new) (stage.new ≡ stage.old) spec.now spans.now) }
    ensures parse { IfParse result (IsParseError (F.Sampled options limit) waits (L.folder logs.new) (stage.new ≡ stage.old) (asked_for (files_for into) (wanted_text wanted moment.seconds) (query_of query.now)) spec.now moment.seconds (query_of query.now) spans.now) }
    ensures took { IfOk result (λ ran. Told (L.folder logs.new) (λ folder. AreKept (delimited_lines options) waits spans.now folder
        → ran.took ≡ map (took_of (delimited_lines options) waits folder) spans.now)) }
    ensures given { L.given logs.new ≤ L.given logs.old + spans_size spans.now }
    ensures later_logs { L.faults logs.old ≤ L.faults logs.new }
    ensures logs { IsErrOf result RunFault.LogsFault → Rose (L.faults logs.old) (L.faults logs.new) }
    ensures goes { G.goes stage.old stage.new }
    ensures later { G.faults stage.old ≤ G.faults stage.new }
    ensures stage { IsErrOf result RunFault.StageFault → Rose (G.faults stage.old) (G.faults stage.new) }
{
    let mut took = TookList::new(alloc);
    match sample_query(
        alloc,
        options,
        limit,
        &spec.ts_format,
        moment,
        wanted,
        into,
        query,
        Some(budget.most),
        waits,
        logs,
        spans.as_slice(),
        &mut took,
        stage,
    ) {
        Ok(run) => Ok(Ran {
            counts: with_before(run.counts, budget.before),
            outputs: run.outputs,
            took,
        }),
        Err(SampleFault::Plan(fault)) => Err(RunFault::Plan(fault)),
        Err(SampleFault::Bad { log, row }) => match spec.errors {
            Some(_) => Err(RunFault::ParseErrors { log, row }),
            None => Err(RunFault::Memory),
        },
        Err(SampleFault::Refused(why)) => Err(RunFault::Refused(why)),
        Err(SampleFault::Logs) => Err(RunFault::LogsFault),
        Err(SampleFault::Output) => Err(RunFault::StageFault),
        Err(SampleFault::Memory) => Err(RunFault::Memory),
    }
}
