// The groups of a query to its outputs.
ghost use Rattle.std.specs.Prelude.{◌≡◌, ◌≤◌, [], length, OnErr, IfOk, IfErr, IsErrOf};
ghost use Rattle.lp_model.specs.Outside.{Rose};
ghost use Rattle.text_output.specs.Output.{kind_of};
ghost use Rattle.row_output.specs.Asked.{left_of};
ghost use Rattle.row_output.specs.FileRows.{OnRefused};
ghost use Rattle.row_output.specs.Kept.{HasRows, asked_of};
ghost use Rattle.row_output.specs.Rows.{Holds, IsRefused, Stops};
ghost use Rattle.row_steps.specs.Rows.{OnGroups};

use crate::GroupRows;
use crate::handing::put_groups;
use lp_outside::Stage;
use query_run::Picker;
use row_output::{Finished, OutputFault, RowOutput};
use std::alloc::Global;

/// Puts what HAVING and SELECT make of the groups, and ends the outputs.
pub fn finish_groups<P: Picker + Drop, G: Stage>(
    alloc: Global,
    rows: &GroupRows<P>,
    output: &mut RowOutput,
    stage: &mut G,
) -> Result<Finished, OutputFault>
    requires { output.old.put ≡ 0 }
    ensures holds { IfOk result (λ finished. (start : G) → HasRows (kind_of G.state G.ended) output.old start [] stage.old
        → OnGroups rows.now.plan.plan rows.now.groups (λ out. Holds (kind_of G.state G.ended) (asked_of output.old) start out finished.outputs stage.new)) }
    ensures rows { IfOk result (λ finished. (start : G) → HasRows (kind_of G.state G.ended) output.old start [] stage.old
        → OnGroups rows.now.plan.plan rows.now.groups (λ out. finished.rows ≡ length (left_of (asked_of output.old) out))) }
    ensures stops { OnErr result ((start : G) → HasRows (kind_of G.state G.ended) output.old start [] stage.old
        → OnGroups rows.now.plan.plan rows.now.groups (λ out. Stops (kind_of G.state G.ended) (asked_of output.old) start out stage.new)) }
    ensures refused { IfErr result (OnRefused (λ why. (start : G) → HasRows (kind_of G.state G.ended) output.old start [] stage.old
        → OnGroups rows.now.plan.plan rows.now.groups (λ out. IsRefused (asked_of output.old) out why))) }
    ensures goes { G.goes stage.old stage.new }
    ensures later { G.faults stage.old ≤ G.faults stage.new }
    ensures failed { IsErrOf result OutputFault.Failed → Rose (G.faults stage.old) (G.faults stage.new) }
{
    let Ok(mut groups) = rows.groups.rows() else {
        return Err(OutputFault::Memory);
    };
    put_groups(alloc, &rows.plan, &mut groups, output, stage)?;
    output.finish(stage)
}
