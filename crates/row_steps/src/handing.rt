// Groups to outputs, one after the other.
ghost use Rattle.std.specs.Prelude.{◌≡◌, ◌≤◌, ◌<◌, ◌+◌, ◌^◌, ◌∷◌, [], if◌then◌else◌, OnOk, IfOk, IfErr, IsErrOf};
ghost use Rattle.lp_model.specs.Outside.{Rose};
ghost use Rattle.text_output.specs.Output.{kind_of};
ghost use Rattle.row_steps.specs.Grouped.{group_output};
ghost use Rattle.row_steps.specs.Rows.{PutsRows, StopsBy};

use crate::group_row::group_row;
use lp_outside::Stage;
use lp_values::{GroupRow, GroupRows as GroupRowList, ValueList};
use plan_rows::ReadyPlan;
use row_output::{OutputFault, RowOutput};
use std::alloc::{AllocError, Global};

// Outputs take no more rows than this. A list is shorter.
const MOST_ROWS: usize = 1 << 63;

/// Makes in `row` the output row that SELECT takes of a group, and tells whether HAVING keeps it.
fn output_row(
    alloc: Global,
    plan: &ReadyPlan,
    group: GroupRow,
    row: &mut ValueList,
) -> Result<bool, AllocError>
    ensures { IfOk result (λ kept. group_output plan.now.plan (group ∷ []) ≡ (if kept then row.new ∷ [] else [])) }
{
    let mut values = group_row(group)?;
    let is_kept = plan.keeps(alloc, &values)?;
    if !is_kept {
        return Ok(false);
    }
    plan.select(alloc, &mut values, row)?;
    Ok(true)
}

/// Puts the output row of a group, where HAVING keeps it. `row` is room for it.
fn put_group<G: Stage>(
    alloc: Global,
    plan: &ReadyPlan,
    group: GroupRow,
    row: &mut ValueList,
    output: &mut RowOutput,
    stage: &mut G,
) -> Result<(), OutputFault>
    requires room { output.old.put < 2 ^ 63 }
    ensures puts { OnOk result (PutsRows (kind_of G.state G.ended) (group_output plan.now.plan (group ∷ [])) output.old stage.old output.new stage.new) }
    ensures stops { IfErr result (λ fault. StopsBy (kind_of G.state G.ended) (group_output plan.now.plan (group ∷ [])) output.old stage.old fault stage.new) }
    ensures count { OnOk result (output.new.put ≤ output.old.put + 1) }
    ensures goes { G.goes stage.old stage.new }
    ensures later { G.faults stage.old ≤ G.faults stage.new }
    ensures failed { IsErrOf result OutputFault.Failed → Rose (G.faults stage.old) (G.faults stage.new) }
{
    match output_row(alloc, plan, group, row) {
        Err(_) => Err(OutputFault::Memory),
        Ok(false) => Ok(()),
        Ok(true) => output.put(row, stage),
    }
}

// A group of nothing, to stand where another one was.
fn no_group(alloc: Global) -> GroupRow {
    GroupRow {
        keys: ValueList::new(alloc),
        dropped: 0,
        aggregates: ValueList::new(alloc),
    }
}

/// Puts the output rows of groups.
pub(crate) fn put_groups<G: Stage>(
    alloc: Global,
    plan: &ReadyPlan,
    groups: &mut GroupRowList,
    output: &mut RowOutput,
    stage: &mut G,
) -> Result<(), OutputFault>
    requires { output.old.put ≡ 0 }
    ensures puts { OnOk result (PutsRows (kind_of G.state G.ended) (group_output plan.now.plan groups.old) output.old stage.old output.new stage.new) }
    ensures stops { IfErr result (λ fault. StopsBy (kind_of G.state G.ended) (group_output plan.now.plan groups.old) output.old stage.old fault stage.new) }
    ensures goes { G.goes stage.old stage.new }
    ensures later { G.faults stage.old ≤ G.faults stage.new }
    ensures failed { IsErrOf result OutputFault.Failed → Rose (G.faults stage.old) (G.faults stage.new) }
{
    if groups.len() > MOST_ROWS {
        return Err(OutputFault::Memory);
    }
    let mut row = ValueList::new(alloc);
    for index in 0..groups.len() {
        let group = groups.replace(index, no_group(alloc));
        put_group(alloc, plan, group, &mut row, output, stage)?;
    }
    Ok(())
}
