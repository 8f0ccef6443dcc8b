// What the clauses of a grouped query ask of rows and of groups.
ghost use Rattle.std.specs.Prelude.{◌≡◌, ◌+◌, ◌++◌, [], IfOk, OnOk, length, map, option_map};
ghost use Rattle.query_types.specs.Conditions.{filter_of};
ghost use Rattle.query_types.specs.Parts.{parts_of};
ghost use Rattle.query_types.specs.Planned.{Covers, planned_in};
ghost use Rattle.senses.specs.Senses.{sense_of};
ghost use Rattle.senses.specs.Clauses.{clauses_of};
ghost use Rattle.seating.specs.Gathered.{aggregates_of, counted_of, seated};
ghost use Rattle.seating.specs.GroupPlans.{grouped_in, groups_of, groups_planned, output_names, row_items, rows_planned, rows_with};

use crate::gathering::{Aggregate, aggregates_of};
use crate::plan::GroupPlan;
use crate::seating::{seat, seat_all, seat_maybe};
use column_naming::{add_aliases, item_names};
use lp_values::{AggList, TextList, Value};
use query_tree::Query;
use query_types::{
    AliasList, Condition, GroupShape, KindList, MeaningList, PlaceList, Plan, TableColumns,
    UsedList, used_columns,
};
use senses::{SenseClauses, SenseForm, kinds_of_senses};
use std::alloc::{AllocError, Global};

// Adds the arguments of aggregates over a table's row.
fn add_arguments(
    alloc: Global,
    found: &[Aggregate],
    items: &mut MeaningList,
) -> Result<(), AllocError>
    ensures { OnOk result (items.new ≡ items.old ++ map (λ one. seated [] [] one.of) (map counted_of found.now)) }
{
    for one in found {
        items.push(seat(alloc, &[], &[], &one.of)?)?;
    }
    Ok(())
}

// The keys and the arguments over a table's row.
fn row_items(
    alloc: Global,
    clauses: &SenseClauses,
    found: &[Aggregate],
) -> Result<MeaningList, AllocError>
    requires { map counted_of found.now ≡ aggregates_of (clauses_of clauses.now) }
    ensures { IfOk result (λ items. items ≡ row_items (clauses_of clauses.now)) }
{
    let mut items = seat_all(alloc, &[], &[], clauses.keys.items.as_slice())?;
    add_arguments(alloc, found, &mut items)?;
    Ok(items)
}

// What is asked of a table's row, of these items and this condition.
fn rows_with(
    alloc: Global,
    table: &TableColumns,
    aliases: &[SenseForm],
    items: MeaningList,
    condition: Option<Condition>,
) -> Result<Plan, AllocError>
    ensures plan { IfOk result (λ plan. planned_in plan ≡ rows_with table.now (map sense_of aliases.now) items (option_map filter_of condition)) }
    ensures size { IfOk result (λ plan. length plan.used ≡ length table.now.columns) }
    ensures covers { IfOk result (λ plan. Covers plan.used plan.items (option_map filter_of plan.condition)) }
{
    let using = seat_all(alloc, &[], &[], aliases)?;
    let used = used_columns(alloc, table, &using, &items, &condition)?;
    Ok(Plan {
        items,
        names: TextList::new(alloc),
        kinds: KindList::new(alloc),
        condition,
        used,
        order: PlaceList::new(alloc),
    })
}

// What is asked of a table's row: WHERE, keys and arguments.
fn rows_planned(
    alloc: Global,
    table: &TableColumns,
    clauses: &SenseClauses,
    found: &[Aggregate],
) -> Result<Plan, AllocError>
    requires { map counted_of found.now ≡ aggregates_of (clauses_of clauses.now) }
    ensures plan { IfOk result (λ plan. planned_in plan ≡ rows_planned table.now (clauses_of clauses.now)) }
    ensures size { IfOk result (λ plan. length plan.used ≡ length table.now.columns) }
    ensures covers { IfOk result (λ plan. Covers plan.used plan.items (option_map filter_of plan.condition)) }
{
    let items = row_items(alloc, clauses, found)?;
    let condition = seat_maybe(alloc, &[], &[], &clauses.condition)?;
    rows_with(
        alloc,
        table,
        clauses.using.items.as_slice(),
        items,
        condition,
    )
}

// The names of the output columns.
fn names_of(
    alloc: Global,
    table: &TableColumns,
    moment: &Value,
    query: &Query,
) -> Result<TextList, AllocError>
    ensures { IfOk result (λ names. names ≡ output_names table.now moment.now (parts_of query.now)) }
{
    let mut aliases = AliasList::new(alloc);
    add_aliases(alloc, table, moment, &mut aliases, &query.aliases)?;
    add_aliases(alloc, table, moment, &mut aliases, &query.items)?;
    item_names(alloc, table, aliases.as_slice(), &query.items)
}

// What is asked of a group's row: HAVING and SELECT.
fn groups_planned(
    alloc: Global,
    table: &TableColumns,
    clauses: &SenseClauses,
    found: &[Aggregate],
    names: TextList,
    order: PlaceList,
) -> Result<Plan, AllocError>
    requires { map counted_of found.now ≡ aggregates_of (clauses_of clauses.now) }
    ensures { IfOk result (λ plan. planned_in plan ≡ groups_planned table.now (clauses_of clauses.now) names order) }
{
    let keys = clauses.keys.items.as_slice();
    let kinds = kinds_of_senses(alloc, table, clauses.items.items.as_slice())?;
    let items = seat_all(alloc, keys, found, clauses.items.items.as_slice())?;
    let condition = seat_maybe(alloc, keys, found, &clauses.having)?;
    Ok(Plan {
        items,
        names,
        kinds,
        condition,
        used: UsedList::new(alloc),
        order,
    })
}

// Which groups are asked for.
fn shape_of(
    alloc: Global,
    keys: usize,
    found: &[Aggregate],
    rollup: bool,
) -> Result<GroupShape, AllocError>
    ensures keys { IfOk result (λ shape. shape.keys ≡ keys) }
    ensures aggregates { IfOk result (λ shape. shape.aggregates ≡ map (λ one. one.how) (map counted_of found.now)) }
    ensures rollup { IfOk result (λ shape. shape.rollup ≡ rollup) }
{
    let Ok(keys) = u32::try_from(keys) else {
        return Err(AllocError);
    };
    let mut aggregates = AggList::new(alloc);
    for one in found {
        aggregates.push(one.how)?;
    }
    Ok(GroupShape {
        keys,
        aggregates,
        rollup,
    })
}

// What is asked of groups, and which groups.
fn groups_shaped(
    alloc: Global,
    table: &TableColumns,
    moment: &Value,
    query: &Query,
    clauses: &SenseClauses,
    found: &[Aggregate],
    order: PlaceList,
) -> Result<(GroupShape, Plan), AllocError>
    requires { map counted_of found.now ≡ aggregates_of (clauses_of clauses.now) }
    ensures keys { IfOk result (λ made. made.0.keys ≡ length (clauses_of clauses.now).keys) }
    ensures aggregates { IfOk result (λ made. made.0.aggregates ≡ map (λ one. one.how) (aggregates_of (clauses_of clauses.now))) }
    ensures rollup { IfOk result (λ made. made.0.rollup ≡ (parts_of query.now).rollup) }
    ensures plan { IfOk result (λ made. planned_in made.1 ≡ groups_planned table.now (clauses_of clauses.now) (output_names table.now moment.now (parts_of query.now)) order) }
{
    let shape = shape_of(alloc, clauses.keys.items.len(), found, query.rollup)?;
    let names = names_of(alloc, table, moment, query)?;
    let plan = groups_planned(alloc, table, clauses, found, names, order)?;
    Ok((shape, plan))
}

/// The plan of what was found.
pub fn groups_of(
    alloc: Global,
    table: &TableColumns,
    moment: &Value,
    query: &Query,
    clauses: &SenseClauses,
    order: PlaceList,
) -> Result<GroupPlan, AllocError>
    ensures plan { IfOk result (λ plan. grouped_in plan ≡ groups_of table.now moment.now (parts_of query.now) (clauses_of clauses.now) order) }
    ensures size { IfOk result (λ plan. length plan.rows.used ≡ length table.now.columns) }
    ensures covers { IfOk result (λ plan. Covers plan.rows.used plan.rows.items (option_map filter_of plan.rows.condition)) }
    ensures wide { IfOk result (λ plan. length plan.rows.items ≡ plan.shape.keys + length plan.shape.aggregates) }
    ensures unused { IfOk result (λ plan. Covers plan.groups.used plan.groups.items (option_map filter_of plan.groups.condition)) }
{
    let found = aggregates_of(alloc, clauses)?;
    let rows = rows_planned(alloc, table, clauses, found.as_slice())?;
    let (shape, groups) = groups_shaped(
        alloc,
        table,
        moment,
        query,
        clauses,
        found.as_slice(),
        order,
    )?;
    Ok(GroupPlan {
        rows,
        shape,
        groups,
    })
}
