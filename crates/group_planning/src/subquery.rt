// The plan of a subquery over a table.
ghost use Rattle.std.specs.Prelude.{◌≡◌, ◌≤◌, [], IfOk, length, map, option_map, take};
ghost use Rattle.query_tree.specs.Views.{query_of};
ghost use Rattle.query_types.specs.Conditions.{filter_of};
ghost use Rattle.query_types.specs.Meanings.{Answers};
ghost use Rattle.query_types.specs.Parts.{parts_of};
ghost use Rattle.query_types.specs.Planned.{Covers, planned_in};
ghost use Rattle.senses.specs.Senses.{sense_of};
ghost use Rattle.sensing.specs.Sensing.{named_of};
ghost use Rattle.senses.specs.Checks.{check_of};
ghost use Rattle.group_planning.specs.Clauses.{with_all_named};
ghost use Rattle.group_planning.specs.Subquery.{grouping_among, grouping_in, grouping_place, subquery_plan_of};

use crate::planning::aliases_of;
use crate::selecting::items_sensed;
use judging::{all_misplaced, maybe_misplaced};
use lp_values::Value;
use query_tree::Query;
use query_types::{Plan, TableColumns, TypeFault, moment_value};
use row_planning::{is_built, plan};
use senses::{SenseCheck, SenseForm};
use sensing::{SenseAlias, maybe_checked};
use std::alloc::Global;

// The place of the first GROUPING among items and in WHERE.
fn grouping_place(items: &[SenseForm], condition: &Option<SenseCheck>) -> u32
    ensures { result ≡ grouping_place (map sense_of items.now) (option_map check_of condition.now) }
{
    let among = all_misplaced(items, &[], true);
    match among.or(maybe_misplaced(condition, &[], true)) {
        None => 0,
        Some(at) => at,
    }
}

// The same in a query where aggregates may not stand, or its first other fault; of all its aliases so many are those of USING.
fn grouping_among(
    alloc: Global,
    table: &TableColumns,
    moment: &Value,
    before: usize,
    all: &[SenseAlias],
    query: &Query,
) -> Result<u32, TypeFault>
    requires before { before ≤ length all.now }
    requires all { map named_of all.now ≡ with_all_named table.now moment.now (take before (map named_of all.now)) (parts_of query.now).items }
    ensures { Answers (λ at. at) result (grouping_among table.now moment.now (parts_of query.now) (take before (map named_of all.now)) (map named_of all.now)) }
{
    let items = items_sensed(alloc, false, table, moment, before, all, &query.items)?;
    let condition = maybe_checked(alloc, false, table, moment, all, &query.condition)?;
    Ok(grouping_place(items.items.as_slice(), &condition))
}

// The same in a run of this moment.
fn grouping_in(
    alloc: Global,
    query: &Query,
    table: &TableColumns,
    moment: i64,
) -> Result<u32, TypeFault>
    ensures { Answers (λ at. at) result (grouping_in table.now moment (query_of query.now)) }
{
    let now = moment_value(moment);
    let (aliases, before) = aliases_of(alloc, table, &now, query)?;
    grouping_among(alloc, table, &now, before, aliases.as_slice(), query)
}

/// The plan of a subquery over a table in a run of this moment, or its first fault: those of SELECT and then of WHERE, of which an
/// aggregate is one, and behind them GROUPING.
pub fn plan_subquery(
    alloc: Global,
    query: &Query,
    table: &TableColumns,
    moment: i64,
) -> Result<Plan, TypeFault>
    ensures plan { Answers planned_in result (subquery_plan_of table.now moment (query_of query.now)) }
    ensures size { IfOk result (λ plan. length plan.used ≡ length table.now.columns) }
    ensures covers { IfOk result (λ plan. Covers plan.used plan.items (option_map filter_of plan.condition)) }
{
    if is_built(query) {
        return plan(alloc, query, table, moment);
    }
    let at = grouping_in(alloc, query, table, moment)?;
    Err(TypeFault::NotGrouped { at })
}
