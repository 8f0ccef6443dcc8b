// The plan of a grouped query over a table.
ghost use Rattle.std.specs.Prelude.{◌≡◌, ◌≤◌, ◌+◌, [], IfOk, length, map, option_map, take};
ghost use Rattle.query_tree.specs.Views.{query_of};
ghost use Rattle.query_types.specs.Conditions.{filter_of};
ghost use Rattle.query_types.specs.Meanings.{Answers};
ghost use Rattle.query_types.specs.Parts.{parts_of};
ghost use Rattle.query_types.specs.Planned.{Covers};
ghost use Rattle.senses.specs.Clauses.{clauses_of};
ghost use Rattle.sensing.specs.Sensing.{named_of};
ghost use Rattle.seating.specs.GroupPlans.{grouped_in};
ghost use Rattle.group_planning.specs.Clauses.{with_all_named};
ghost use Rattle.group_planning.specs.Groups.{group_plan_of, groups_behind};

use crate::clauses::clauses_sensed;
use crate::selecting::add_all_named;
use judging::{is_grouped, judged};
use lp_values::Value;
use query_tree::Query;
use query_types::{TableColumns, TypeFault, moment_value};
use row_planning::has_too_few;
use seating::{GroupPlan, groups_of};
use senses::SenseClauses;
use sensing::SenseAlias;
use std::alloc::{AllocError, Global};

// The plan behind the first pass over the clauses.
fn groups_behind(
    alloc: Global,
    grouped: bool,
    query: &Query,
    table: &TableColumns,
    moment: &Value,
    clauses: &SenseClauses,
) -> Result<GroupPlan, TypeFault>
    ensures plan { Answers grouped_in result (groups_behind grouped table.now moment.now (parts_of query.now) (clauses_of clauses.now)) }
    ensures size { IfOk result (λ plan. length plan.rows.used ≡ length table.now.columns) }
    ensures covers { IfOk result (λ plan. Covers plan.rows.used plan.rows.items (option_map filter_of plan.rows.condition)) }
    ensures wide { IfOk result (λ plan. length plan.rows.items ≡ plan.shape.keys + length plan.shape.aggregates) }
    ensures unused { IfOk result (λ plan. Covers plan.groups.used plan.groups.items (option_map filter_of plan.groups.condition)) }
{
    let order = judged(alloc, grouped, query, clauses)?;
    if let Some(into) = &query.into
        && has_too_few(clauses.items.items.len(), into)
    {
        return Err(TypeFault::TooFewColumns { at: into.at });
    }
    Ok(groups_of(alloc, table, moment, query, clauses, order)?)
}

/// The aliases of USING and of SELECT, and how many are those of USING.
pub(crate) fn aliases_of(
    alloc: Global,
    table: &TableColumns,
    moment: &Value,
    query: &Query,
) -> Result<(Vec<SenseAlias>, usize), AllocError>
    ensures before { IfOk result (λ made. made.1 ≤ length made.0.items) }
    ensures using { IfOk result (λ made. take made.1 (map named_of made.0.items) ≡ with_all_named table.now moment.now [] (parts_of query.now).aliases) }
    ensures all { IfOk result (λ made. map named_of made.0.items ≡ with_all_named table.now moment.now (take made.1 (map named_of made.0.items)) (parts_of query.now).items) }
{
    let mut aliases = Vec::new(alloc);
    add_all_named(alloc, table, moment, &mut aliases, &query.aliases)?;
    let before = aliases.as_slice().len();
    add_all_named(alloc, table, moment, &mut aliases, &query.items)?;
    Ok((aliases, before))
}

/// The plan of a grouped query over a table in a run of this moment, or its first fault: those of USING, SELECT, WHERE, GROUP BY, HAVING
/// and ORDER BY, each from left to right; in the same order the first that isn't there in each group, or isn't selected; and then INTO.
/// HAVING and GROUPING without groups are among these faults; a query that isn't grouped and has neither is `query_types::plan`'s.
pub fn plan_groups(
    alloc: Global,
    query: &Query,
    table: &TableColumns,
    moment: i64,
) -> Result<GroupPlan, TypeFault>
    ensures plan { Answers grouped_in result (group_plan_of table.now moment (query_of query.now)) }
    ensures size { IfOk result (λ plan. length plan.rows.used ≡ length table.now.columns) }
    ensures covers { IfOk result (λ plan. Covers plan.rows.used plan.rows.items (option_map filter_of plan.rows.condition)) }
    ensures wide { IfOk result (λ plan. length plan.rows.items ≡ plan.shape.keys + length plan.shape.aggregates) }
    ensures unused { IfOk result (λ plan. Covers plan.groups.used plan.groups.items (option_map filter_of plan.groups.condition)) }
{
    let now = moment_value(moment);
    let (aliases, before) = aliases_of(alloc, table, &now, query)?;
    let grouped = is_grouped(query);
    let all = aliases.as_slice();
    let clauses = clauses_sensed(alloc, grouped, table, &now, before, all, query)?;
    groups_behind(alloc, grouped, query, table, &now, &clauses)
}
