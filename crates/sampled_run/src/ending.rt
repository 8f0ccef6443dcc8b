// The end of a run.
ghost use Rattle.std.specs.Prelude.{◌≡◌, ◌≤◌, IfOk, IfErr, IsErrOf};
ghost use Rattle.lp_model.specs.Outside.{Rose};
ghost use Rattle.text_output.specs.Output.{kind_of};
ghost use Rattle.column_kinds.specs.Past.{Past};
ghost use Rattle.column_kinds.specs.Sampling.{Holds};
ghost use Rattle.column_kinds.specs.Sampling.{Rules as SampleRules};
ghost use Rattle.sampled_run.specs.declared.row_maker.RowMaker.{RowMaker};
ghost use Rattle.sampled_run.specs.Kinds.{writer_kind, run_rules, Fits};
ghost use Rattle.sampled_run.specs.Ran.{IsOfEnd, IsStoppedBy, IsWritten, ended_by, fault_of};

use crate::fault::refused_in;
use crate::{RowMaker, SampleFault};
use column_kinds::{Sampled, Stop};
use lp_outside::Stage;
use query_run::Writer;
use row_output::{Finished, OutputFault, Refused, RowOutput};
use sampled_table::SampledPicker;
use std::alloc::Global;
use std::mem::replace;

/// Why a writer's output was refused, if that is so.
pub(crate) fn why_refused<P: Drop>(mut writer: Writer<P>) -> Option<Refused>
    ensures { result ≡ writer.refused }
{
    let refused = replace(&mut writer.refused, None);
    drop(writer);
    refused
}

// A writer's way of rows to outputs.
fn output_of<P: Drop>(writer: Writer<P>) -> RowOutput
    ensures { result ≡ writer.output }
{
    let Writer { output, .. } = writer;
    output
}

// Why a run stops at its end, where no writer took all records.
fn fault_of<P: Drop>(stop: Stop<Writer<P>>) -> SampleFault
    ensures { result ≡ fault_of stop }
{
    match stop {
        Stop::Refused(fault) => SampleFault::Plan(fault),
        Stop::Stopped(writer) => refused_in(why_refused(writer)),
        Stop::Failed => SampleFault::Output,
        Stop::Memory => SampleFault::Memory,
    }
}

// Why a run stops at its end, where its outputs did.
fn ended_by(fault: OutputFault) -> SampleFault
    ensures { result ≡ ended_by fault }
{
    match fault {
        OutputFault::Refused(why) => SampleFault::Refused(why),
        OutputFault::Failed => SampleFault::Output,
        OutputFault::Memory => SampleFault::Memory,
    }
}

/// Ends a run: makes the writer where that wasn't done yet, and ends its outputs.
pub(crate) fn finish_run<'a, G: Stage>(
    alloc: Global,
    sampled: Sampled<'a, RowMaker<'a, G>, Writer<SampledPicker<'a>>>,
    stage: &mut G,
) -> Result<Finished, SampleFault>
    ensures written { IfOk result (λ finished. (rules : SampleRules (RowMaker G)) (begin : G) (past : Past) → Fits rules
        → Holds (writer_kind (kind_of G.state G.ended)) rules begin past sampled.entry stage.old → IsWritten (kind_of G.state G.ended) (run_rules rules) begin past finished.rows finished.outputs stage.new) }
    ensures stopped { IfErr result (λ fault. (rules : SampleRules (RowMaker G)) (begin : G) (past : Past) → Fits rules
        → Holds (writer_kind (kind_of G.state G.ended)) rules begin past sampled.entry stage.old → IsStoppedBy (kind_of G.state G.ended) (run_rules rules) begin past fault stage.new) }
    ensures ended { IfErr result IsOfEnd }
    ensures goes { G.goes stage.old stage.new }
    ensures later { G.faults stage.old ≤ G.faults stage.new }
    ensures failed { IsErrOf result SampleFault.Output → Rose (G.faults stage.old) (G.faults stage.new) }
{
    match sampled.finish(alloc, stage) {
        Ok(writer) => {
            let mut output = output_of(writer);
            let finished = output.finish(stage);
            drop(output);
            match finished {
                Ok(finished) => Ok(finished),
                Err(fault) => Err(ended_by(fault)),
            }
        }
        Err(stop) => Err(fault_of(stop)),
    }
}
