// What a query asks of the rows of its plan.
ghost use Rattle.std.specs.Prelude.{◌≡◌, ◌≤◌, [], IfOk};
ghost use Rattle.any_format.specs.Wanted.{IsMoment, wanted_text};
ghost use Rattle.query_tree.specs.Views.{query_of};
ghost use Rattle.query_types.specs.Planned.{planned_in};
ghost use Rattle.row_output.specs.Kept.{IsNew, asked_of};
ghost use Rattle.row_output.specs.Sinks.{IsUnplaced, files_for};
ghost use Rattle.sampled_run.specs.Finishes.{asked_by, finish_of};

use crate::Moment;
use any_format::Wanted;
use lp_values::copy_texts;
use query_tree::Query;
use query_types::Plan;
use row_output::{Into, Order, RowOutput};
use std::alloc::{AllocError, Global};

// What a query asks of the rows of its plan.
fn order_of(alloc: Global, query: &Query, plan: &Plan) -> Result<Order, AllocError>
    ensures { IfOk result (λ order. order ≡ finish_of (query_of query.now) (planned_in plan.now)) }
{
    let places = plan.order.as_slice();
    let mut columns = Vec::with_capacity(alloc, places.len())?;
    columns.extend_from_slice(places)?;
    Ok(Order {
        columns,
        descending: query.descending,
        distinct: query.distinct,
        top: query.top,
    })
}

/// The way of a plan's rows to the outputs of its query, before the first row.
pub fn output_of_rows(
    alloc: Global,
    wanted: Wanted,
    moment: Moment,
    into: Into,
    query: &Query,
    plan: &Plan,
) -> Result<RowOutput, AllocError>
    requires moment { IsMoment moment.seconds }
    requires none { IsUnplaced into }
    ensures asked { IfOk result (λ output. asked_of output ≡ asked_by (files_for into) (wanted_text wanted moment.seconds) (query_of query.now) (planned_in plan.now)) }
    ensures new { IfOk result IsNew }
{
    let order = match order_of(alloc, query, plan) {
        Ok(order) => order,
        Err(refused) => {
            drop(wanted);
            drop(into);
            return Err(refused);
        }
    };
    match copy_texts(alloc, &plan.names) {
        Ok(names) => RowOutput::new(alloc, wanted, moment.seconds, into, order, names),
        Err(refused) => {
            drop(wanted);
            drop(into);
            Err(refused)
        }
    }
}
