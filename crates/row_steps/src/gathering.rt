// A taker that gathers groups.
ghost use Rattle.std.specs.Prelude.{◌≡◌, ◌≤◌, ◌+◌, [], length, IfOk};
ghost use Rattle.group_rollup.specs.Tables.{Holds};
ghost use Rattle.row_steps.specs.Grouped.{HasWidth};

use group_rollup::Groups;
use lp_values::ValueList;
use plan_rows::{PlanPicker, ReadyPlan};
use query_run::Picker;
use query_types::GroupShape;
use std::alloc::{AllocError, Global};

/// Adds the rows that a picker makes, each its keys and behind them the arguments of the aggregates, to groups.
#[derive(Drop)]
pub struct GroupRows<P: Picker> {
    pub picker: P,
    /// HAVING and SELECT, over the row of a group.
    pub plan: ReadyPlan,
    /// How many keys a row begins with.
    pub width: u32,
    pub groups: Groups,
    /// Room for the values of the record at hand.
    pub values: ValueList,
    /// The row at hand, and its two parts.
    pub row: ValueList,
    pub keys: ValueList,
    pub arguments: ValueList,
    pub taken: u64,
    ghost same_width: { groups.width ≡ width },
    ghost wide: { HasWidth (P.picks picker) (width + length groups.kinds) },
    ghost few: { groups.records ≤ taken },
}

impl<P: Picker + Drop> GroupRows<P> {
    /// The taker before the first record. The picker's rows have a value for each key and for each aggregate.
    pub fn new(
        alloc: Global,
        picker: P,
        shape: &GroupShape,
        plan: ReadyPlan,
    ) -> Result<GroupRows<P>, AllocError>
        requires { HasWidth (P.picks picker) (shape.now.keys + length shape.now.aggregates) }
        ensures holds { IfOk result (λ rows. Holds shape.now.keys shape.now.aggregates shape.now.rollup rows.groups []) }
        ensures picker { IfOk result (λ rows. rows.picker ≡ picker) }
        ensures plan { IfOk result (λ rows. rows.plan ≡ plan) }
        ensures none { IfOk result (λ rows. rows.taken ≡ 0) }
    {
        let groups = Groups::new(alloc, shape.keys, &shape.aggregates, shape.rollup)?;
        Ok(GroupRows {
            picker,
            plan,
            width: shape.keys,
            groups,
            values: ValueList::new(alloc),
            row: ValueList::new(alloc),
            keys: ValueList::new(alloc),
            arguments: ValueList::new(alloc),
            taken: 0,
        })
    }
}

/// The taker of a plan over a table's row, whose items are the keys and behind them the arguments.
pub fn plan_groups(
    alloc: Global,
    picker: PlanPicker,
    shape: &GroupShape,
    plan: ReadyPlan,
) -> Result<GroupRows<PlanPicker>, AllocError>
    requires { length picker.ready.plan.items ≡ shape.now.keys + length shape.now.aggregates }
    ensures holds { IfOk result (λ rows. Holds shape.now.keys shape.now.aggregates shape.now.rollup rows.groups []) }
    ensures picker { IfOk result (λ rows. rows.picker ≡ picker) }
    ensures plan { IfOk result (λ rows. rows.plan ≡ plan) }
    ensures none { IfOk result (λ rows. rows.taken ≡ 0) }
{
    GroupRows::new(alloc, picker, shape, plan)
}
