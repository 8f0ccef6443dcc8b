// The plan of a query over a table.
ghost use Rattle.std.specs.Prelude.{◌≡◌, ◌≤◌, true, Some, IfOk, map, option_map, length, take};
ghost use Rattle.grammar.specs.Trees.{Query as query};
ghost use Rattle.query_tree.specs.Views.{test_of, placed_of, items_of, query_of};
ghost use Rattle.query_types.specs.Meanings.{Answers, kind_meant};
ghost use Rattle.query_types.specs.Conditions.{filter_of};
ghost use Rattle.query_types.specs.Built.{is_built};
ghost use Rattle.query_types.specs.Parts.{parts_of};
ghost use Rattle.query_types.specs.Planned.{Covers, filter_and_order, plan_behind, used_from, where_meant, list_meant, list_names, has_too_few, with_aliases, plan_of, planned_in};

use crate::conditions::filtered;
use crate::selecting::{every_column, selected};
use column_naming::{add_aliases, column_names, item_names};
use lp_values::{TextList, Value};
use query_tree::{Cond, Placed, Query};
use query_types::{
    Alias, AliasList, Condition, KindList, MeaningList, PlaceList, Plan, TableColumns, TypeFault,
    moment_value, places_asked, used_columns,
};
use std::alloc::{AllocError, Global};

// What WHERE means.
fn where_meant(
    alloc: Global,
    table: &TableColumns,
    moment: &Value,
    aliases: &[Alias],
    condition: &Option<Cond>,
) -> Result<Option<Condition>, TypeFault>
    ensures { Answers (λ found. option_map filter_of found) result (where_meant table.now moment.now aliases.now (option_map test_of condition.now)) }
{
    match condition {
        None => Ok(None),
        Some(condition) => {
            let condition = filtered(alloc, table, moment, aliases, condition)?;
            Ok(Some(condition))
        }
    }
}

/// Whether an INTO name has a star for each output column, or more.
pub fn has_too_few(columns: usize, into: &Placed) -> bool
    ensures { result ≡ has_too_few columns (Some (placed_of into.now)) }
{
    let stars = into
        .text
        .as_str()
        .as_bytes()
        .iter()
        .filter(|byte| **byte == b'*')
        .count();
    columns <= stars
}

// The kinds of output columns.
fn kinds_of(
    alloc: Global,
    table: &TableColumns,
    items: &MeaningList,
) -> Result<KindList, AllocError>
    ensures { IfOk result (λ kinds. kinds ≡ map (kind_meant table.now.columns) items.now) }
{
    let mut kinds = KindList::new(alloc);
    for item in items.as_slice() {
        kinds.push(item.kind(table))?;
    }
    Ok(kinds)
}

// What is selected, of aliases of which so many are those of USING.
fn list_meant(
    alloc: Global,
    table: &TableColumns,
    moment: &Value,
    before: usize,
    all: &[Alias],
    query: &Query,
) -> Result<MeaningList, TypeFault>
    requires before { before ≤ length all.now }
    requires all { all.now ≡ with_aliases table.now moment.now (take before all.now) (parts_of query.now).items }
    ensures { Answers (λ items. items) result (list_meant table.now moment.now (take before all.now) all.now (parts_of query.now).star (parts_of query.now).items) }
{
    match query.star {
        Some(_) => Ok(every_column(alloc, table)?),
        None => selected(alloc, table, moment, before, all, &query.items),
    }
}

// The names of what is selected.
fn list_names(
    alloc: Global,
    table: &TableColumns,
    all: &[Alias],
    query: &Query,
) -> Result<TextList, AllocError>
    ensures { IfOk result (λ names. names ≡ list_names table.now all.now (parts_of query.now).star (parts_of query.now).items) }
{
    match query.star {
        Some(_) => column_names(alloc, table),
        None => item_names(alloc, table, all, &query.items),
    }
}

// What WHERE means, and where the expressions of ORDER BY stand among the items.
fn filter_and_order(
    alloc: Global,
    table: &TableColumns,
    moment: &Value,
    all: &[Alias],
    query: &Query,
    items: &MeaningList,
) -> Result<(Option<Condition>, PlaceList), TypeFault>
    ensures { Answers (λ found. (option_map filter_of found.0, found.1)) result (filter_and_order table.now moment.now all.now (parts_of query.now) items.now) }
{
    let condition = where_meant(alloc, table, moment, all, &query.condition)?;
    let order = places_asked(alloc, table, moment, all, items, &query.order)?;
    Ok((condition, order))
}

// The plan of what was found.
fn planned(
    alloc: Global,
    table: &TableColumns,
    names: TextList,
    aliased: &MeaningList,
    items: MeaningList,
    condition: Option<Condition>,
    order: PlaceList,
) -> Result<Plan, AllocError>
    ensures items { IfOk result (λ plan. plan.items ≡ items) }
    ensures names { IfOk result (λ plan. plan.names ≡ names) }
    ensures kinds { IfOk result (λ plan. plan.kinds ≡ map (kind_meant table.now.columns) items) }
    ensures condition { IfOk result (λ plan. option_map filter_of plan.condition ≡ option_map filter_of condition) }
    ensures used { IfOk result (λ plan. plan.used ≡ used_from 0 table.now.columns aliased.now items (option_map filter_of condition)) }
    ensures order { IfOk result (λ plan. plan.order ≡ order) }
    ensures size { IfOk result (λ plan. length plan.used ≡ length table.now.columns) }
    ensures covers { IfOk result (λ plan. Covers plan.used plan.items (option_map filter_of plan.condition)) }
{
    let kinds = kinds_of(alloc, table, &items)?;
    let used = used_columns(alloc, table, aliased, &items, &condition)?;
    Ok(Plan {
        items,
        names,
        kinds,
        condition,
        used,
        order,
    })
}

// The plan behind USING: what SELECT, WHERE, ORDER BY and INTO say, where all aliases are known.
fn plan_behind(
    alloc: Global,
    query: &Query,
    table: &TableColumns,
    moment: &Value,
    aliased: &MeaningList,
    before: usize,
    all: &[Alias],
) -> Result<Plan, TypeFault>
    requires before { before ≤ length all.now }
    requires all { all.now ≡ with_aliases table.now moment.now (take before all.now) (parts_of query.now).items }
    ensures plan { Answers planned_in result (plan_behind table.now moment.now (take before all.now) all.now (parts_of query.now) aliased.now) }
    ensures size { IfOk result (λ plan. length plan.used ≡ length table.now.columns) }
    ensures covers { IfOk result (λ plan. Covers plan.used plan.items (option_map filter_of plan.condition)) }
{
    let items = list_meant(alloc, table, moment, before, all, query)?;
    let (condition, order) = filter_and_order(alloc, table, moment, all, query, &items)?;
    if let Some(into) = &query.into
        && has_too_few(items.len(), into)
    {
        return Err(TypeFault::TooFewColumns { at: into.at });
    }
    let names = list_names(alloc, table, all, query)?;
    Ok(planned(alloc, table, names, aliased, items, condition, order)?)
}

/// The plan of a query over a table in a run of this moment, or the first fault of its clauses: USING, SELECT, WHERE, ORDER BY, each
/// from left to right, then the first expression of ORDER BY that isn't selected, and then INTO.
pub fn plan(
    alloc: Global,
    query: &Query,
    table: &TableColumns,
    moment: i64,
) -> Result<Plan, TypeFault>
    requires { is_built (query_of query.now) ≡ true }
    ensures plan { Answers planned_in result (plan_of table.now moment (query_of query.now)) }
    ensures size { IfOk result (λ plan. length plan.used ≡ length table.now.columns) }
    ensures covers { IfOk result (λ plan. Covers plan.used plan.items (option_map filter_of plan.condition)) }
{
    let now = moment_value(moment);
    let mut aliases = AliasList::new(alloc);
    add_aliases(alloc, table, &now, &mut aliases, &query.aliases)?;
    let before = aliases.len();
    let aliased = selected(alloc, table, &now, 0, aliases.as_slice(), &query.aliases)?;
    add_aliases(alloc, table, &now, &mut aliases, &query.items)?;
    plan_behind(
        alloc,
        query,
        table,
        &now,
        &aliased,
        before,
        aliases.as_slice(),
    )
}
