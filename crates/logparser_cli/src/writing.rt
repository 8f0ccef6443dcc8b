// The rows of a query to standard output, or to files.
ghost use Rattle.std.specs.Prelude.{◌≡◌, ◌≤◌, ◌+◌, true, false, length, option_map, IfOk, IsSome, OnErr, IsErrOf};
ghost use Rattle.lp_model.specs.Outside.{Rose, OnlyGrow};
ghost use Rattle.command_words.specs.Table.{IsInRange};
ghost use Rattle.command_words.specs.declared.formats.OutputFormat.TheVariants as O;
ghost use Rattle.file_stage.specs.FileTexts.{AlwaysTells};
ghost use Rattle.log_reading.specs.Page.{IsWithin};
ghost use Rattle.log_reading.specs.Spans.{AllSpans, AreReadable, IsSpan, spans_size};
ghost use Rattle.query_tree.specs.Views.{query_of};
ghost use Rattle.checkpointed_command.specs.Built.{all_built};
ghost use Rattle.checkpointed_command.specs.Executed.{IsMoment, IsExecuted, IsParseError, IsStopped, IsTypedInTurn, IsUnplaced, IsUnplanned, IsUntouched};
ghost use Rattle.checkpointed_command.specs.Faults.{IfParse, IfPlan, IfRefused};
ghost use Rattle.checkpointed_command.specs.Formats.{log_format};
ghost use Rattle.checkpointed_command.specs.OnePass.{GoesInPass, SpansPassed};
ghost use Rattle.checkpointed_command.specs.Outputs.{asked_in, is_standard};
ghost use Rattle.checkpointed_command.specs.Texts.{into_in, output_of, sections_in};
ghost use Rattle.input_tables.specs.declared.format.TableFormat.{TableFormat};
ghost use Rattle.logparser_cli.specs.Outputs.{HasFront, HasWritten, IsUnwritten, OutputRose, held};

use checkpoint::Spans;
use checkpointed_command::{Ran, RunFault, execute, is_standard};
use command_words::Spec;
use file_stage::FileStage;
use log_reading::LogSource;
use lp_outside::{Disk, Sink};
use query_tree::Query;
use std::alloc::Global;
use std::rc::Rc;
use tpl_output::Template;

/// Runs a query over spans of logs. Its rows go to standard output, and then the disk is left as it is, or to files.
pub(crate) fn write_rows<L: LogSource, D: Disk, S: Sink>(
    alloc: Global,
    spec: &Spec,
    query: &Query,
    template: Option<Rc<Template>>,
    moment: i64,
    logs: &mut L,
    disk: &mut D,
    spans: &Spans,
    out: &mut S,
) -> Result<Ran, RunFault>
    requires moment { IsMoment moment }
    requires range { IsInRange spec.now }
    requires template { output_of spec.now (query_of query.now) ≡ O.Tpl → IsSome template }
    requires built { all_built spec.now (query_of query.now) ≡ true }
    requires few { length spans.now ≤ 100000 }
    requires spans { AllSpans spans.now IsSpan }
    requires readable { AreReadable L.folder L.ready logs.old spans.now }
    ensures grows { OnlyGrow (L.folder logs.old) (L.folder logs.new) }
    ensures goes_logs { L.goes logs.old logs.new }
    ensures ran { IfOk result (λ ran. IsExecuted (log_format spec.now (query_of query.now)) false (L.folder logs.new) (HasWritten (held (AlwaysTells D.state) (D.state disk.old).seen (S.written out.old)) (held (AlwaysTells D.state) (D.state disk.new).seen (S.written out.new))) (asked_in spec.now (sections_in (λ t. t.value) template) moment (query_of query.now) spans.now) spec.now moment (query_of query.now) spans.now ran.counts) }
    ensures within { IfOk result (λ ran. IsWithin spec.now.errors ran.counts.bad) }
    ensures stopped { OnErr result (IsStopped (log_format spec.now (query_of query.now)) false (L.folder logs.new) (IsUnwritten (held (AlwaysTells D.state) (D.state disk.old).seen (S.written out.old)) (held (AlwaysTells D.state) (D.state disk.new).seen (S.written out.new))) (HasFront (held (AlwaysTells D.state) (D.state disk.old).seen (S.written out.old)) (held (AlwaysTells D.state) (D.state disk.new).seen (S.written out.new))) (asked_in spec.now (sections_in (λ t. t.value) template) moment (query_of query.now) spans.now) spec.now moment (query_of query.now) spans.now) }
    ensures refused { IfRefused result (IsUnplaced (log_format spec.now (query_of query.now)) false (L.folder logs.new) (asked_in spec.now (sections_in (λ t. t.value) template) moment (query_of query.now) spans.now) spec.now moment (query_of query.now) spans.now) }
    ensures plan { IfPlan result (IsUnplanned (log_format spec.now (query_of query.now)) false (L.folder logs.new) spec.now moment (query_of query.now) spans.now) }
    ensures plan_in_turn { IfPlan result (λ fault. IsTypedInTurn (log_format spec.now (query_of query.now)) false (L.folder logs.new) spec.now (query_of query.now) spans.now) }
    ensures before { IfPlan result (λ fault. IsUntouched (log_format spec.now (query_of query.now)) false (L.folder logs.new) (IsUnwritten (held (AlwaysTells D.state) (D.state disk.old).seen (S.written out.old)) (held (AlwaysTells D.state) (D.state disk.new).seen (S.written out.new))) spec.now spans.now) }
    ensures parse { IfParse result (IsParseError (log_format spec.now (query_of query.now)) false (L.folder logs.new) (IsUnwritten (held (AlwaysTells D.state) (D.state disk.old).seen (S.written out.old)) (held (AlwaysTells D.state) (D.state disk.new).seen (S.written out.new))) (asked_in spec.now (sections_in (λ t. t.value) template) moment (query_of query.now) spans.now) spec.now moment (query_of query.now) spans.now) }
    ensures given { L.given logs.new ≤ L.given logs.old + spans_size spans.now }
    ensures one_pass { (format : TableFormat) → GoesInPass spec.now (query_of query.now) format → SpansPassed spec.now moment (query_of query.now) format false (L.folder logs.new) spans.now (option_map length (S.written out.old)) (option_map length (S.written out.new)) (L.given logs.old) (L.given logs.new) }
    ensures later_logs { L.faults logs.old ≤ L.faults logs.new }
    ensures logs { IsErrOf result RunFault.LogsFault → Rose (L.faults logs.old) (L.faults logs.new) }
    ensures honest { (D.state disk.old).honest → (D.state disk.new).honest }
    ensures later_disk { D.faults disk.old ≤ D.faults disk.new }
    ensures later_out { S.faults out.old ≤ S.faults out.new }
    ensures failed { IsErrOf result RunFault.StageFault → OutputRose (is_standard (into_in (query_of query.now))) (Rose (D.faults disk.old) (D.faults disk.new)) (Rose (S.faults out.old) (S.faults out.new)) }
{
    // without a checkpoint a last line without LF is a line too, so none waits
    if is_standard(query) {
        return execute(
            alloc, spec, query, template, moment, logs, spans, false, out,
        );
    }
    let mut stage = FileStage::new(disk);
    execute(
        alloc, spec, query, template, moment, logs, spans, false, &mut stage,
    )
}
