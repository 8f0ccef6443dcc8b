// A plan made ready for rows.
ghost use Rattle.std.specs.Prelude.{◌≡◌, List, length, option_map, IfOk};
ghost use Rattle.lp_values.specs.declared.value.Value.{Value};
ghost use Rattle.query_types.specs.Conditions.{filter_of};
ghost use Rattle.query_types.specs.Planned.{Covers};
ghost use Rattle.row_engine.specs.Rows.{keeps, selected_in};
ghost use Rattle.row_engine.specs.Uses.{last_uses};
ghost use Rattle.plan_rows.specs.Picks.{Parted};

use crate::parting::{Parts, part_columns};
use lp_values::ValueList;
use query_types::Plan;
use row_engine::{LastUses, last_uses, passes, select_row, settled};
use std::alloc::{AllocError, Global};

/// A plan, the columns that it uses in two parts, and what is the same in each row worked out.
#[derive(Drop)]
pub struct ReadyPlan {
    pub plan: Plan,
    pub columns: Parts,
    settled: Plan,
    last: LastUses,
    ghost keeps_alike: { (row : List Value) → keeps (option_map filter_of settled.condition) row ≡ keeps (option_map filter_of plan.condition) row },
    ghost selects_alike: { (row : List Value) → selected_in row settled.items ≡ selected_in row plan.items },
    ghost uses: { last ≡ last_uses settled.items },
    ghost parted: { Parted (length plan.used) columns.asked columns.rest plan.items (option_map filter_of plan.condition) },
}

// A plan in which what is the same in each row is worked out, and its last uses of columns.
fn settle(alloc: Global, plan: &Plan) -> Result<(Plan, LastUses), AllocError>
    ensures keeps { IfOk result (λ settled. (row : List Value) → keeps (option_map filter_of settled.0.condition) row ≡ keeps (option_map filter_of plan.now.condition) row) }
    ensures selects { IfOk result (λ settled. (row : List Value) → selected_in row settled.0.items ≡ selected_in row plan.now.items) }
    ensures uses { IfOk result (λ settled. settled.1 ≡ last_uses settled.0.items) }
{
    let settled = settled(alloc, plan)?;
    let last = last_uses(alloc, &settled)?;
    Ok((settled, last))
}

impl ReadyPlan {
    ghost use Rattle.std.specs.Prelude.{OnOk};

    /// Makes a plan ready.
    pub fn new(alloc: Global, plan: Plan) -> Result<ReadyPlan, AllocError>
        requires { Covers plan.used plan.items (option_map filter_of plan.condition) }
        ensures { IfOk result (λ ready. ready.plan ≡ plan) }
    {
        let columns = part_columns(alloc, &plan)?;
        let (settled, last) = settle(alloc, &plan)?;
        Ok(ReadyPlan {
            plan,
            columns,
            settled,
            last,
        })
    }

    /// Whether WHERE keeps a row.
    pub fn keeps(&self, alloc: Global, values: &ValueList) -> Result<bool, AllocError>
        ensures { IfOk result (λ kept. kept ≡ keeps (option_map filter_of self.now.plan.condition) values.now) }
    {
        passes(alloc, &self.settled, values)
    }

    /// Makes in `row` the output row that SELECT takes of a row's values, which it moves out where it can.
    pub fn select(
        &self,
        alloc: Global,
        values: &mut ValueList,
        row: &mut ValueList,
    ) -> Result<(), AllocError>
        ensures { OnOk result (row.new ≡ selected_in values.old self.now.plan.items) }
    {
        select_row(alloc, &self.settled, &self.last, values, row)
    }
}
