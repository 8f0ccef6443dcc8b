// The taker of a grouped query's records, made once the logs have told their columns.
ghost use Rattle.std.specs.Prelude.{◌≡◌, ◌+◌, Ok, length, option_map, IfOk, IfErr};
ghost use Rattle.any_format.specs.Wanted.{IsMoment, wanted_text};
ghost use Rattle.query_tree.specs.Views.{query_of};
ghost use Rattle.query_types.specs.Conditions.{filter_of};
ghost use Rattle.query_types.specs.Planned.{Covers, planned_in};
ghost use Rattle.group_planning.specs.Groups.{group_plan_of, grouped_in};
ghost use Rattle.column_kinds.specs.Judged.{table_of};
ghost use Rattle.row_output.specs.Kept.{IsNew, asked_of};
ghost use Rattle.row_output.specs.Sinks.{IsUnplaced, files_for};
ghost use Rattle.sampled_run.specs.Finishes.{asked_by};
ghost use Rattle.sampled_run.specs.Plans.{unplanned};
ghost use Rattle.sampled_groups.specs.Made.{IsMade, IsReady, IsUnplanned};
ghost use Rattle.sampled_groups.specs.Plans.{IsFaultOf};

use crate::{GroupMaker, GroupTaker};
use any_format::Wanted;
use column_kinds::{Judged, Maker, Unmade, table_of};
use group_planning::{GroupPlan, plan_groups};
use lp_outside::Stage;
use lp_time::Pattern;
use plan_rows::ReadyPlan;
use query_tree::Query;
use query_types::{Plan, TypeFault};
use row_output::{Into, RowOutput};
use row_steps::GroupRows;
use sampled_run::{Moment, output_of_rows};
use sampled_table::SampledPicker;
use std::alloc::{AllocError, Global};

// Why a plan isn't made.
fn unplanned(fault: TypeFault) -> Unmade
    ensures { result ≡ unplanned fault }
{
    match fault {
        TypeFault::Memory => Unmade::Memory,
        fault => Unmade::Refused(fault),
    }
}

// The plan over the columns that the logs tell.
fn plan_over(
    alloc: Global,
    moment: Moment,
    query: &Query,
    told: &Judged,
) -> Result<GroupPlan, Unmade>
    ensures planned { IfOk result (λ plan. group_plan_of (table_of told.now) moment.seconds (query_of query.now) ≡ Ok (grouped_in plan)) }
    ensures size { IfOk result (λ plan. length plan.rows.used ≡ length told.now.columns + 2) }
    ensures covers { IfOk result (λ plan. Covers plan.rows.used plan.rows.items (option_map filter_of plan.rows.condition)) }
    ensures wide { IfOk result (λ plan. length plan.rows.items ≡ plan.shape.keys + length plan.shape.aggregates) }
    ensures unused { IfOk result (λ plan. Covers plan.groups.used plan.groups.items (option_map filter_of plan.groups.condition)) }
    ensures fault { IfErr result (IsFaultOf (group_plan_of (table_of told.now) moment.seconds (query_of query.now))) }
{
    let Ok(table) = table_of(alloc, told) else {
        return Err(Unmade::Memory);
    };
    match plan_groups(alloc, query, &table, moment.seconds) {
        Ok(plan) => Ok(plan),
        Err(fault) => Err(unplanned(fault)),
    }
}

// A plan made ready: what picks the rows that groups are made of, and what is asked of a group's row.
fn make_ready<'a>(
    alloc: Global,
    pattern: &'a Pattern,
    told: Judged,
    rows: Plan,
    groups: Plan,
) -> Result<(SampledPicker<'a>, ReadyPlan), AllocError>
    requires size { length rows.used ≡ length told.columns + 2 }
    requires covers { Covers rows.used rows.items (option_map filter_of rows.condition) }
    requires unused { Covers groups.used groups.items (option_map filter_of groups.condition) }
    ensures rows { IfOk result (λ made. made.0.ready.plan ≡ rows) }
    ensures told { IfOk result (λ made. made.0.told ≡ told) }
    ensures pattern { IfOk result (λ made. made.0.pattern.now ≡ pattern.now) }
    ensures groups { IfOk result (λ made. made.1.plan ≡ groups) }
{
    let picker = match SampledPicker::new(alloc, rows, pattern, told) {
        Ok(picker) => picker,
        Err(error) => {
            drop(groups);
            return Err(error);
        }
    };
    match ReadyPlan::new(alloc, groups) {
        Ok(ready) => Ok((picker, ready)),
        Err(error) => {
            drop(picker);
            Err(error)
        }
    }
}

// The taker of a plan, before the first record.
fn taker_over<'a>(
    alloc: Global,
    pattern: &'a Pattern,
    told: Judged,
    plan: GroupPlan,
    output: RowOutput,
) -> Result<GroupTaker<'a>, Unmade>
    requires size { length plan.rows.used ≡ length told.columns + 2 }
    requires covers { Covers plan.rows.used plan.rows.items (option_map filter_of plan.rows.condition) }
    requires wide { length plan.rows.items ≡ plan.shape.keys + length plan.shape.aggregates }
    requires unused { Covers plan.groups.used plan.groups.items (option_map filter_of plan.groups.condition) }
    requires new { IsNew output }
    ensures ready { IfOk result (IsReady pattern.now told plan (asked_of output)) }
    ensures none { IfOk result (λ taker. taker.rows.taken ≡ 0) }
    ensures fault { IfErr result (λ unmade. unmade ≡ Unmade.Memory) }
{
    let GroupPlan {
        rows,
        shape,
        groups,
    } = plan;
    let Ok((picker, ready)) = make_ready(alloc, pattern, told, rows, groups) else {
        drop(shape);
        drop(output);
        return Err(Unmade::Memory);
    };
    match GroupRows::new(alloc, picker, &shape, ready) {
        Ok(rows) => Ok(GroupTaker {
            rows,
            output,
            opened: false,
            refused: None,
        }),
        Err(_) => {
            drop(output);
            Err(Unmade::Memory)
        }
    }
}

// The taker of a plan, and the outputs of its rows.
fn taker_into<'a>(
    alloc: Global,
    pattern: &'a Pattern,
    moment: Moment,
    wanted: Wanted,
    into: Into,
    query: &Query,
    told: Judged,
    plan: GroupPlan,
) -> Result<GroupTaker<'a>, Unmade>
    requires moment { IsMoment moment.seconds }
    requires none { IsUnplaced into }
    requires size { length plan.rows.used ≡ length told.columns + 2 }
    requires covers { Covers plan.rows.used plan.rows.items (option_map filter_of plan.rows.condition) }
    requires wide { length plan.rows.items ≡ plan.shape.keys + length plan.shape.aggregates }
    requires unused { Covers plan.groups.used plan.groups.items (option_map filter_of plan.groups.condition) }
    ensures ready { IfOk result (IsReady pattern.now told plan (asked_by (files_for into) (wanted_text wanted moment.seconds) (query_of query.now) (planned_in plan.groups))) }
    ensures none { IfOk result (λ taker. taker.rows.taken ≡ 0) }
    ensures fault { IfErr result (λ unmade. unmade ≡ Unmade.Memory) }
{
    match output_of_rows(alloc, wanted, moment, into, query, &plan.groups) {
        Ok(output) => taker_over(alloc, pattern, told, plan, output),
        Err(_) => {
            drop(told);
            drop(plan);
            Err(Unmade::Memory)
        }
    }
}

impl<'a, G: Stage> Maker<GroupTaker<'a>, G> for GroupMaker<'a, G> {
    ghost makes = { λ maker told taker. IsMade maker told taker };

    ghost refuses = { λ maker told fault. IsUnplanned maker told fault };

    fn make(self, alloc: Global, told: Judged) -> Result<GroupTaker<'a>, Unmade> {
        let GroupMaker {
            pattern,
            moment,
            query,
            wanted,
            into,
            stage: _,
        } = self;
        match plan_over(alloc, moment, query, &told) {
            Ok(plan) => taker_into(alloc, pattern, moment, wanted, into, query, told, plan),
            Err(unmade) => {
                drop(wanted);
                drop(into);
                drop(told);
                Err(unmade)
            }
        }
    }
}
