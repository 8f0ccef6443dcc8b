// The plan of a query over the columns of its logs.
ghost use Rattle.std.specs.Prelude.{◌≡◌, true, false, IfOk};
ghost use Rattle.any_format.specs.Wanted.{wanted_text};
ghost use Rattle.query_tree.specs.Views.{query_of};
ghost use Rattle.query_types.specs.Built.{is_built};
ghost use Rattle.query_types.specs.Meanings.{Answers};
ghost use Rattle.input_tables.specs.Tables.{table_of};
ghost use Rattle.row_output.specs.Kept.{IsNew, asked_of};
ghost use Rattle.row_output.specs.Sinks.{IsUnplaced, files_for};
ghost use Rattle.execution.specs.Executed.{IsMoment};
ghost use Rattle.execution.specs.Fitting.{Fits, planned_query};
ghost use Rattle.execution.specs.Plans.{asked_for, query_plan};

use any_format::Wanted;
use group_planning::{GroupPlan, plan_groups};
use input_tables::{TableFormat, table_of};
use query_tree::Query;
use query_types::{Plan, TableColumns, TypeFault};
use row_output::{Into, RowOutput};
use row_planning::{is_built, plan};
use sampled_run::{Moment, output_of_rows};
use std::alloc::{AllocError, Global};

/// The plan of a query.
#[derive(Drop)]
pub enum QueryPlan {
    /// Over the rows of the table.
    Rows(Plan),
    /// Over groups of them.
    Groups(GroupPlan),
}

// The plan of a query without groups over the table of a format.
fn plan_of_rows(
    alloc: Global,
    format: TableFormat,
    query: &Query,
    table: &TableColumns,
    moment: i64,
) -> Result<QueryPlan, TypeFault>
    requires table { table.now ≡ table_of format }
    requires built { is_built (query_of query.now) ≡ true }
    ensures plan { Answers planned_query result (query_plan table.now moment (query_of query.now)) }
    ensures fits { IfOk result (Fits format) }
{
    match plan(alloc, query, table, moment) {
        Ok(plan) => Ok(QueryPlan::Rows(plan)),
        Err(fault) => Err(fault),
    }
}

// The plan of a query with groups.
fn plan_of_groups(
    alloc: Global,
    format: TableFormat,
    query: &Query,
    table: &TableColumns,
    moment: i64,
) -> Result<QueryPlan, TypeFault>
    requires table { table.now ≡ table_of format }
    requires built { is_built (query_of query.now) ≡ false }
    ensures plan { Answers planned_query result (query_plan table.now moment (query_of query.now)) }
    ensures fits { IfOk result (Fits format) }
{
    match plan_groups(alloc, query, table, moment) {
        Ok(plan) => Ok(QueryPlan::Groups(plan)),
        Err(fault) => Err(fault),
    }
}

/// The plan of a query over the table of a format, in a run of this moment.
pub(crate) fn plan_over(
    alloc: Global,
    format: TableFormat,
    query: &Query,
    moment: Moment,
) -> Result<QueryPlan, TypeFault>
    ensures plan { Answers planned_query result (query_plan (table_of format) moment.seconds (query_of query.now)) }
    ensures fits { IfOk result (Fits format) }
{
    let Ok(table) = table_of(alloc, format) else {
        return Err(TypeFault::Memory);
    };
    if is_built(query) {
        plan_of_rows(alloc, format, query, &table, moment.seconds)
    } else {
        plan_of_groups(alloc, format, query, &table, moment.seconds)
    }
}

/// The way of a plan's output rows to the outputs of its query, before the first row.
pub(crate) fn output_over(
    alloc: Global,
    wanted: Wanted,
    moment: Moment,
    into: Into,
    query: &Query,
    plan: &QueryPlan,
) -> Result<RowOutput, AllocError>
    requires moment { IsMoment moment.seconds }
    requires none { IsUnplaced into }
    ensures asked { IfOk result (λ output. asked_of output ≡ asked_for (files_for into) (wanted_text wanted moment.seconds) (query_of query.now) (planned_query plan.now)) }
    ensures new { IfOk result IsNew }
{
    match plan {
        QueryPlan::Rows(plan) => output_of_rows(alloc, wanted, moment, into, query, plan),
        QueryPlan::Groups(plan) => {
            output_of_rows(alloc, wanted, moment, into, query, &plan.groups)
        }
    }
}
