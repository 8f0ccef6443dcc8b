// A query over spans of logs.
ghost use Rattle.std.specs.Prelude.{◌≡◌, ◌≤◌, ◌+◌, ◌++◌, true, length, map, codes, None, IfOk, IfSome, IsSome, OnErr, IsErrOf};
ghost use Rattle.lp_model.specs.Outside.{Rose, OnlyGrow, Told};
ghost use Rattle.command_words.specs.Table.{IsInRange};
ghost use Rattle.lp_outside.specs.NameFault.{name_fault};
ghost use Rattle.log_reading.specs.Page.{IsWithin};
ghost use Rattle.log_reading.specs.Spans.{AllSpans, AreReadable, AreKept, IsSpan, spans_size, took_of};
ghost use Rattle.text_output.specs.Output.{kind_of};
ghost use Rattle.row_output.specs.Rows.{Holds, Stops};
ghost use Rattle.query_tree.specs.Views.{query_of};
ghost use Rattle.execution.specs.Executed.{IsMoment, IsExecuted, IsNamedFirst, IsParseError, IsStopped, IsTypedInTurn, IsUnplaced, IsUnplanned, IsUntouched};
ghost use Rattle.execution.specs.Faults.{IfParse, IfPlan, IfRefused};
ghost use Rattle.execution.specs.Formats.{lines_in, log_format};
ghost use Rattle.execution.specs.OnePass.{GoesInPass, SpansPassed};
ghost use Rattle.execution.specs.Outputs.{asked_in};
ghost use Rattle.input_tables.specs.declared.format.TableFormat.{TableFormat};
ghost use Rattle.execution.specs.Texts.{output_of, sections_in};
ghost use Rattle.command_words.specs.declared.formats.OutputFormat.TheVariants as O;

use crate::errors::bad_budget;
use crate::formats::{LogFormat, log_format};
use crate::outputs::into_of;
use crate::sampled::execute_sampled;
use crate::tabled::execute_tabled;
use crate::texts::{output_of, wanted_as};
use crate::{Ran, RunFault};
use checkpoint::Spans;
use command_words::Spec;
use log_reading::LogSource;
use lp_outside::Stage;
use query_tree::Query;
use sampled_run::Moment;
use std::alloc::Global;
use std::rc::Rc;
use tpl_output::Template;

/// Runs a query over spans of logs, in order: their records, of which it takes those that WHERE keeps, and the text of the rows
/// that SELECT makes of them, by the template where the output is by one. The columns of CSV and TSV logs are known behind their
/// first records. A query with subqueries has what they gave; their logs may be no outputs, and their bad lines count
/// before its own. Where unended lines wait, it takes of each span the lines that LF ends, and answers what it took; else a last
/// line without LF is taken too.
pub fn execute<L: LogSource, G: Stage>(
    alloc: Global,
    spec: &Spec,
    query: &Query,
    template: Option<Rc<Template>>,
    moment: i64,
    logs: &mut L,
    spans: &Spans,
    waits: bool,
    stage: &mut G,
) -> Result<Ran, RunFault>
    requires moment { IsMoment moment }
    requires range { IsInRange spec.now }
    requires template { output_of spec.now (query_of query.now) ≡ O.Tpl → IsSome template }
    requires stage { IfSome spec.now.checkpoint (λ ledger. name_fault (ledger ++ codes ".stage") ≡ None) }
    requires few { length spans.now ≤ 100000 }
    requires spans { AllSpans spans.now IsSpan }
    requires readable { AreReadable L.folder L.ready logs.old spans.now }
    ensures grows { OnlyGrow (L.folder logs.old) (L.folder logs.new) }
    ensures goes_logs { L.goes logs.old logs.new }
    ensures ran { IfOk result (λ ran. IsExecuted (log_format spec.now (query_of query.now)) waits (L.folder logs.new) (λ asked rows. Holds (kind_of G.state G.ended) asked stage.old rows ran.outputs stage.new) (asked_in spec.now (sections_in (λ t. t.value) template) moment (query_of query.now) spans.now) spec.now moment (query_of query.now) spans.now ran.counts) }
    ensures within { IfOk result (λ ran. IsWithin spec.now.errors ran.counts.bad) }
    ensures stopped { OnErr result (IsStopped (log_format spec.now (query_of query.now)) waits (L.folder logs.new) (stage.new ≡ stage.old) (λ asked rows. Stops (kind_of G.state G.ended) asked stage.old rows stage.new) (asked_in spec.now (sections_in (λ t. t.value) template) moment (query_of query.now) spans.now) spec.now moment (query_of query.now) spans.now) }
    ensures refused { IfRefused result (IsUnplaced (log_format spec.now (query_of query.now)) waits (L.folder logs.new) (asked_in spec.now (sections_in (λ t. t.value) template) moment (query_of query.now) spans.now) spec.now moment (query_of query.now) spans.now) }
    ensures plan { IfPlan result (IsUnplanned (log_format spec.now (query_of query.now)) waits (L.folder logs.new) spec.now moment (query_of query.now) spans.now) }
    // Of two faults the one that comes first is told: so say `refused` and `parse` too.
    ensures plan_in_turn { IfPlan result (λ fault. IsTypedInTurn (log_format spec.now (query_of query.now)) waits (L.folder logs.new) spec.now (query_of query.now) spans.now) }
    ensures before { IfPlan result (λ fault. IsUntouched (log_format spec.now (query_of query.now)) waits (L.folder logs.new) (stage.new ≡ stage.old) spec.now spans.now) }
    ensures parse { IfParse result (IsParseError (log_format spec.now (query_of query.now)) waits (L.folder logs.new) (stage.new ≡ stage.old) (asked_in spec.now (sections_in (λ t. t.value) template) moment (query_of query.now) spans.now) spec.now moment (query_of query.now) spans.now) }
    ensures took { IfOk result (λ ran. Told (L.folder logs.new) (λ folder. AreKept (lines_in (log_format spec.now (query_of query.now))) waits spans.now folder
        → ran.took ≡ map (took_of (lines_in (log_format spec.now (query_of query.now))) waits folder) spans.now)) }
    // Over a known table an output of a name without stars is refused before a log is read.
    ensures unread { IfRefused result (IsNamedFirst (log_format spec.now (query_of query.now)) (asked_in spec.now (sections_in (λ t. t.value) template) moment (query_of query.now) spans.now) moment (query_of query.now) (L.given logs.new ≡ L.given logs.old)) }
    ensures given { L.given logs.new ≤ L.given logs.old + spans_size spans.now }
    // A query over rows that go to standard output as they come reads its logs in one pass.
    ensures one_pass { (format : TableFormat) → GoesInPass spec.now (query_of query.now) format
        → SpansPassed spec.now moment (query_of query.now) format waits (L.folder logs.new) spans.now (G.state stage.old).taken (G.state stage.new).taken (L.given logs.old) (L.given logs.new) }
    ensures later_logs { L.faults logs.old ≤ L.faults logs.new }
    ensures logs { IsErrOf result RunFault.LogsFault → Rose (L.faults logs.old) (L.faults logs.new) }
    ensures goes { G.goes stage.old stage.new }
    ensures later { G.faults stage.old ≤ G.faults stage.new }
    ensures stage { IsErrOf result RunFault.StageFault → Rose (G.faults stage.old) (G.faults stage.new) }
{
    let Ok(into) = into_of(alloc, spec, query, spans) else {
        return Err(RunFault::Memory);
    };
    let Ok(budget) = bad_budget(spec.errors, query) else {
        drop(into);
        return Err(RunFault::Memory);
    };
    let moment = Moment { seconds: moment };
    let wanted = wanted_as(spec, output_of(spec, query), template);
    match log_format(spec, query) {
        LogFormat::Tabled(format) => execute_tabled(
            alloc, spec, format, query, moment, logs, spans, waits, budget, wanted, into, stage,
        ),
        LogFormat::Sampled(options, limit) => execute_sampled(
            alloc, spec, options, limit, query, moment, logs, spans, waits, budget, wanted, into,
            stage,
        ),
    }
}
