// The end of a run.
ghost use Rattle.std.specs.Prelude.{◌≡◌, ◌≤◌, [], length, OnErr, IfOk, IfErr, IsErrOf};
ghost use Rattle.lp_model.specs.Outside.{Rose};
ghost use Rattle.text_output.specs.Output.{kind_of};
ghost use Rattle.row_output.specs.Asked.{left_of};
ghost use Rattle.row_output.specs.FileRows.{OnRefused};
ghost use Rattle.row_output.specs.Kept.{HasRows, asked_of};
ghost use Rattle.row_output.specs.Rows.{IsRefused, Stops};
ghost use Rattle.row_output.specs.Rows.{Holds as HoldsRows};
ghost use Rattle.row_steps.specs.Rows.{OnGroups};
ghost use Rattle.column_kinds.specs.Past.{Past};
ghost use Rattle.column_kinds.specs.Sampling.{Holds};
ghost use Rattle.column_kinds.specs.Sampling.{Rules as SampleRules};
ghost use Rattle.sampled_run.specs.Ran.{IsOfEnd, ended_by, refused_in};
ghost use Rattle.sampled_groups.specs.declared.group_maker.GroupMaker.{GroupMaker};
ghost use Rattle.sampled_groups.specs.Kinds.{group_kind, run_rules, Fits};
ghost use Rattle.sampled_groups.specs.Ran.{IsStoppedBy, IsWritten, fault_of};

use crate::{GroupMaker, GroupTaker};
use column_kinds::{Sampled, Stop};
use lp_outside::Stage;
use query_run::Picker;
use row_output::{Finished, OutputFault, Refused, RowOutput};
use row_steps::{GroupRows, finish_groups};
use sampled_run::SampleFault;
use std::alloc::Global;
use std::mem::replace;

/// An output was refused for this, or memory was.
pub(crate) fn refused_in(refused: Option<Refused>) -> SampleFault
    ensures { result ≡ refused_in refused }
{
    match refused {
        Some(why) => SampleFault::Refused(why),
        None => SampleFault::Memory,
    }
}

/// Why a taker's output was refused, if that is so.
pub(crate) fn why_refused<'a>(mut taker: GroupTaker<'a>) -> Option<Refused>
    ensures { result ≡ taker.entry.refused }
{
    let refused = replace(&mut taker.refused, None);
    drop(taker);
    refused
}

// Why a run stops at its end, where no taker took all records.
fn fault_of<'a>(stop: Stop<GroupTaker<'a>>) -> SampleFault
    ensures { result ≡ fault_of stop.entry }
{
    match stop {
        Stop::Refused(fault) => SampleFault::Plan(fault),
        Stop::Stopped(taker) => refused_in(why_refused(taker)),
        Stop::Failed => SampleFault::Output,
        Stop::Memory => SampleFault::Memory,
    }
}

// Why a run stops at its end, where its outputs did.
fn ended_by(fault: OutputFault) -> SampleFault
    ensures { result ≡ ended_by fault }
{
    match fault {
        OutputFault::Refused(why) => SampleFault::Refused(why),
        OutputFault::Failed => SampleFault::Output,
        OutputFault::Memory => SampleFault::Memory,
    }
}

// Opens the output of a name without stars where that wasn't done yet, puts the rows of all groups, and ends the outputs.
fn put_groups<P: Picker + Drop, G: Stage>(
    alloc: Global,
    rows: &GroupRows<P>,
    output: &mut RowOutput,
    stage: &mut G,
) -> Result<Finished, OutputFault>
    requires { output.old.put ≡ 0 }
    ensures holds { IfOk result (λ finished. (start : G) → HasRows (kind_of G.state G.ended) output.old start [] stage.old
        → OnGroups rows.now.plan.plan rows.now.groups (λ out. HoldsRows (kind_of G.state G.ended) (asked_of output.old) start out finished.outputs stage.new)) }
    ensures rows { IfOk result (λ finished. (start : G) → HasRows (kind_of G.state G.ended) output.old start [] stage.old
        → OnGroups rows.now.plan.plan rows.now.groups (λ out. finished.rows ≡ length (left_of (asked_of output.old) out))) }
    ensures stops { OnErr result ((start : G) → HasRows (kind_of G.state G.ended) output.old start [] stage.old
        → OnGroups rows.now.plan.plan rows.now.groups (λ out. Stops (kind_of G.state G.ended) (asked_of output.old) start out stage.new)) }
    ensures refused { IfErr result (OnRefused (λ why. (start : G) → HasRows (kind_of G.state G.ended) output.old start [] stage.old
        → OnGroups rows.now.plan.plan rows.now.groups (λ out. IsRefused (asked_of output.old) out why))) }
    ensures goes { G.goes stage.old stage.new }
    ensures later { G.faults stage.old ≤ G.faults stage.new }
    ensures failed { IsErrOf result OutputFault.Failed → Rose (G.faults stage.old) (G.faults stage.new) }
{
    match output.open(stage) {
        Ok(()) => finish_groups(alloc, rows, output, stage),
        Err(fault) => Err(fault),
    }
}

/// Ends a run: makes the taker where that wasn't done yet, and puts the rows of its groups.
pub(crate) fn finish_run<'a, G: Stage>(
    alloc: Global,
    sampled: Sampled<'a, GroupMaker<'a, G>, GroupTaker<'a>>,
    stage: &mut G,
) -> Result<Finished, SampleFault>
    ensures written { IfOk result (λ finished. (rules : SampleRules (GroupMaker G)) (begin : G) (past : Past) → Fits rules
        → Holds (group_kind (kind_of G.state G.ended)) rules begin past sampled.entry stage.old → IsWritten (kind_of G.state G.ended) (run_rules rules) begin past finished.rows finished.outputs stage.new) }
    ensures stopped { IfErr result (λ fault. (rules : SampleRules (GroupMaker G)) (begin : G) (past : Past) → Fits rules
        → Holds (group_kind (kind_of G.state G.ended)) rules begin past sampled.entry stage.old → IsStoppedBy (kind_of G.state G.ended) (run_rules rules) begin past fault stage.new) }
    ensures ended { IfErr result IsOfEnd }
    ensures goes { G.goes stage.old stage.new }
    ensures later { G.faults stage.old ≤ G.faults stage.new }
    ensures failed { IsErrOf result SampleFault.Output → Rose (G.faults stage.old) (G.faults stage.new) }
{
    match sampled.finish(alloc, stage) {
        Ok(taker) => {
            let GroupTaker {
                rows,
                mut output,
                refused,
                ..
            } = taker;
            let finished = put_groups(alloc, &rows, &mut output, stage);
            drop(rows);
            drop(output);
            drop(refused);
            match finished {
                Ok(finished) => Ok(finished),
                Err(fault) => Err(ended_by(fault)),
            }
        }
        Err(stop) => Err(fault_of(stop)),
    }
}
