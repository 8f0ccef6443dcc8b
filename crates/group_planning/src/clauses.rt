// What the clauses of a query mean.
ghost use Rattle.std.specs.Prelude.{◌≡◌, ◌≤◌, false, [], length, map, option_map, take};
ghost use Rattle.grammar.specs.Trees.{trees_of as listed};
ghost use Rattle.query_tree.specs.Views.{test_of, trees_of};
ghost use Rattle.query_types.specs.Meanings.{Answers};
ghost use Rattle.query_types.specs.Parts.{parts_of};
ghost use Rattle.senses.specs.Senses.{listed_senses};
ghost use Rattle.sensing.specs.Sensing.{named_of};
ghost use Rattle.senses.specs.Checks.{check_of};
ghost use Rattle.senses.specs.Clauses.{clauses_of};
ghost use Rattle.group_planning.specs.Clauses.{checked_list, clauses_behind, clauses_sensed, items_sensed, list_sensed, selected_clauses, with_all_named};

use crate::selecting::{all_sensed, columns_sensed, front, items_sensed};
use lp_values::Value;
use query_tree::{Cond, ExprList, Query};
use query_types::{TableColumns, TypeFault};
use senses::{SenseCheck, SenseClauses, SenseList};
use sensing::{SenseAlias, maybe_checked};
use std::alloc::Global;

// What is selected, of aliases of which so many are those of USING.
fn list_sensed(
    alloc: Global,
    grouped: bool,
    table: &TableColumns,
    moment: &Value,
    before: usize,
    all: &[SenseAlias],
    query: &Query,
) -> Result<SenseList, TypeFault>
    requires before { before ≤ length all.now }
    requires all { map named_of all.now ≡ with_all_named table.now moment.now (take before (map named_of all.now)) (parts_of query.now).items }
    ensures { Answers listed_senses result (list_sensed grouped table.now moment.now (take before (map named_of all.now)) (map named_of all.now) (parts_of query.now).star (parts_of query.now).items) }
{
    match query.star {
        Some(star) if grouped => Err(TypeFault::StarWithGroups { at: star }),
        Some(star) => Ok(columns_sensed(alloc, table, star)?),
        None => items_sensed(alloc, true, table, moment, before, all, &query.items),
    }
}

// What USING means.
fn using_sensed(
    alloc: Global,
    table: &TableColumns,
    moment: &Value,
    before: usize,
    all: &[SenseAlias],
    query: &Query,
) -> Result<SenseList, TypeFault>
    requires before { before ≤ length all.now }
    requires using { take before (map named_of all.now) ≡ with_all_named table.now moment.now [] (parts_of query.now).aliases }
    ensures { Answers listed_senses result (items_sensed false table.now moment.now [] (take before (map named_of all.now)) (parts_of query.now).aliases) }
{
    let using = front(all, before);
    items_sensed(alloc, false, table, moment, 0, using, &query.aliases)
}

// What USING and SELECT mean.
fn selected_clauses(
    alloc: Global,
    grouped: bool,
    table: &TableColumns,
    moment: &Value,
    before: usize,
    all: &[SenseAlias],
    query: &Query,
) -> Result<(SenseList, SenseList), TypeFault>
    requires before { before ≤ length all.now }
    requires using { take before (map named_of all.now) ≡ with_all_named table.now moment.now [] (parts_of query.now).aliases }
    requires all { map named_of all.now ≡ with_all_named table.now moment.now (take before (map named_of all.now)) (parts_of query.now).items }
    ensures { Answers (λ found. (listed_senses found.0, listed_senses found.1)) result (selected_clauses table.now moment.now (parts_of query.now) (take before (map named_of all.now)) (map named_of all.now) grouped) }
{
    let using = using_sensed(alloc, table, moment, before, all, query)?;
    let items = list_sensed(alloc, grouped, table, moment, before, all, query)?;
    Ok((using, items))
}

// What a condition means, and the values behind it.
fn checked_list(
    alloc: Global,
    wide: bool,
    table: &TableColumns,
    moment: &Value,
    all: &[SenseAlias],
    condition: &Option<Cond>,
    values: &ExprList,
) -> Result<(Option<SenseCheck>, SenseList), TypeFault>
    ensures { Answers (λ found. (option_map check_of found.0, listed_senses found.1)) result (checked_list wide table.now moment.now (map named_of all.now) (option_map test_of condition.now) (listed (trees_of values.now))) }
{
    let check = maybe_checked(alloc, wide, table, moment, all, condition)?;
    match all_sensed(alloc, wide, table, moment, all, values) {
        Ok(senses) => Ok((check, senses)),
        Err(fault) => {
            drop(check);
            Err(fault)
        }
    }
}

// What the clauses behind SELECT mean, with what those before mean.
fn clauses_behind(
    alloc: Global,
    table: &TableColumns,
    moment: &Value,
    all: &[SenseAlias],
    query: &Query,
    aliased: SenseList,
    items: SenseList,
) -> Result<SenseClauses, TypeFault>
    ensures { Answers clauses_of result (clauses_behind table.now moment.now (parts_of query.now) (map named_of all.now) (listed_senses aliased) (listed_senses items)) }
{
    match checked_list(
        alloc,
        false,
        table,
        moment,
        all,
        &query.condition,
        &query.keys,
    ) {
        Ok((condition, keys)) => {
            match checked_list(alloc, true, table, moment, all, &query.having, &query.order) {
                Ok((having, order)) => Ok(SenseClauses {
                    using: aliased,
                    items,
                    condition,
                    keys,
                    having,
                    order,
                }),
                Err(fault) => {
                    drop(aliased);
                    drop(items);
                    drop(condition);
                    drop(keys);
                    Err(fault)
                }
            }
        }
        Err(fault) => {
            drop(aliased);
            drop(items);
            Err(fault)
        }
    }
}

/// What the clauses of a query mean, of all of whose aliases so many are those of USING.
pub(crate) fn clauses_sensed(
    alloc: Global,
    grouped: bool,
    table: &TableColumns,
    moment: &Value,
    before: usize,
    all: &[SenseAlias],
    query: &Query,
) -> Result<SenseClauses, TypeFault>
    requires before { before ≤ length all.now }
    requires using { take before (map named_of all.now) ≡ with_all_named table.now moment.now [] (parts_of query.now).aliases }
    requires all { map named_of all.now ≡ with_all_named table.now moment.now (take before (map named_of all.now)) (parts_of query.now).items }
    ensures { Answers clauses_of result (clauses_sensed table.now moment.now (parts_of query.now) (take before (map named_of all.now)) (map named_of all.now) grouped) }
{
    let (using, items) = selected_clauses(alloc, grouped, table, moment, before, all, query)?;
    clauses_behind(alloc, table, moment, all, query, using, items)
}
