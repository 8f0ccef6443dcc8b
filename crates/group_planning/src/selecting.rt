// What the items of a list mean, and the aliases that they make.
ghost use Rattle.std.specs.Prelude.{◌≡◌, ◌≤◌, ◌<◌, ◌+◌, ◌^◌, true, false, OnOk, IfOk, map, take, length};
ghost use Rattle.grammar.specs.Trees.{trees_of as listed};
ghost use Rattle.query_tree.specs.Views.{tree_of, trees_of, items_of};
ghost use Rattle.query_types.specs.Meanings.{Answers};
ghost use Rattle.query_types.specs.Planned.{columns_from, count_alias};
ghost use Rattle.senses.specs.Senses.{field, listed_senses};
ghost use Rattle.sensing.specs.Sensing.{all_sensed, named_of, result_of, sensed};
ghost use Rattle.group_planning.specs.Clauses.{items_sensed, names_in_force, with_all_named, with_named};

use lp_values::{Text, Value};
use query_tree::{Expr, ExprList, Item, ItemList};
use query_types::{Meaning, TableColumns, TypeFault};
use senses::{SenseForm, SenseList};
use sensing::{SenseAlias, sensed};
use std::alloc::{AllocError, Global};

// What an expression means, or its first fault, to be kept.
fn kept(
    alloc: Global,
    wide: bool,
    table: &TableColumns,
    moment: &Value,
    aliases: &[SenseAlias],
    value: &Expr,
) -> Result<Result<SenseForm, TypeFault>, AllocError>
    ensures { IfOk result (λ sense. result_of sense ≡ sensed wide table.now moment.now (map named_of aliases.now) (tree_of value.now)) }
{
    match sensed(alloc, wide, table, moment, aliases, value) {
        Err(TypeFault::Memory) => Err(AllocError),
        sense => Ok(sense),
    }
}

// An alias of an expression, which may use those before it.
fn alias_of(
    alloc: Global,
    table: &TableColumns,
    moment: &Value,
    aliases: &[SenseAlias],
    name: &Text,
    value: &Expr,
) -> Result<SenseAlias, AllocError>
    ensures name { IfOk result (λ alias. alias.name ≡ name.now) }
    ensures wide { IfOk result (λ alias. result_of alias.wide ≡ sensed true table.now moment.now (map named_of aliases.now) (tree_of value.now)) }
    ensures narrow { IfOk result (λ alias. result_of alias.narrow ≡ sensed false table.now moment.now (map named_of aliases.now) (tree_of value.now)) }
{
    let name = name.copy(alloc)?;
    let wide = kept(alloc, true, table, moment, aliases, value)?;
    let narrow = kept(alloc, false, table, moment, aliases, value)?;
    Ok(SenseAlias { name, wide, narrow })
}

// Adds an item's alias, where it has one.
fn add_alias(
    alloc: Global,
    table: &TableColumns,
    moment: &Value,
    aliases: &mut Vec<SenseAlias>,
    item: &Item,
) -> Result<(), AllocError>
    ensures { OnOk result (map named_of aliases.new.items ≡ with_named table.now moment.now (map named_of aliases.old.items) item.now.alias (tree_of item.now.value)) }
{
    match &item.alias {
        None => Ok(()),
        Some(name) => {
            let alias = alias_of(alloc, table, moment, aliases.as_slice(), name, &item.value)?;
            aliases.push(alias)?;
            Ok(())
        }
    }
}

/// Adds the aliases of items, each of which may use those before it.
pub(crate) fn add_all_named(
    alloc: Global,
    table: &TableColumns,
    moment: &Value,
    aliases: &mut Vec<SenseAlias>,
    items: &ItemList,
) -> Result<(), AllocError>
    ensures { OnOk result (map named_of aliases.new.items ≡ with_all_named table.now moment.now (map named_of aliases.old.items) (items_of items.now)) }
{
    for item in &items.items {
        add_alias(alloc, table, moment, aliases, item)?;
    }
    Ok(())
}

/// The first so many of all aliases.
pub(crate) fn front<'a>(all: &'a [SenseAlias], before: usize) -> &'a [SenseAlias]
    requires { before ≤ length all.now }
    ensures { map named_of result.now ≡ take before (map named_of all.now) }
{
    &all[..before]
}

// The aliases in force in an item, of which so many stand before it.
fn names_in_force<'a>(item: &Item, before: usize, all: &'a [SenseAlias]) -> &'a [SenseAlias]
    requires { before ≤ length all.now }
    ensures { map named_of result.now ≡ names_in_force item.now.alias (take before (map named_of all.now)) (map named_of all.now) }
{
    match &item.alias {
        None => all,
        Some(_) => front(all, before),
    }
}

// How many aliases stand before the next item.
fn behind(item: &Item, before: usize) -> usize
    requires { before + count_alias item.now.alias < 2 ^ 64 }
    ensures { result ≡ before + count_alias item.now.alias }
{
    match &item.alias {
        None => before,
        Some(_) => before + 1,
    }
}

/// What items mean. Of all aliases so many stand before those of the items.
pub(crate) fn items_sensed(
    alloc: Global,
    wide: bool,
    table: &TableColumns,
    moment: &Value,
    before: usize,
    all: &[SenseAlias],
    items: &ItemList,
) -> Result<SenseList, TypeFault>
    requires before { before ≤ length all.now }
    requires all { map named_of all.now ≡ with_all_named table.now moment.now (take before (map named_of all.now)) (items_of items.now) }
    ensures { Answers listed_senses result (items_sensed wide table.now moment.now (take before (map named_of all.now)) (map named_of all.now) (items_of items.now)) }
{
    let mut senses = Vec::new(alloc);
    let mut before = before;
    for item in &items.items {
        let names = names_in_force(item, before, all);
        let sense = sensed(alloc, wide, table, moment, names, &item.value)?;
        senses.push(sense)?;
        before = behind(item, before);
    }
    Ok(SenseList { items: senses })
}

/// Each column of a table, at the place of `*`.
pub(crate) fn columns_sensed(
    alloc: Global,
    table: &TableColumns,
    star: u32,
) -> Result<SenseList, AllocError>
    ensures { IfOk result (λ senses. listed_senses senses ≡ map (field star) (columns_from 0 table.now.columns)) }
{
    let mut senses = Vec::new(alloc);
    for index in 0..table.columns.len() {
        let meaning = Meaning::column(index);
        senses.push(SenseForm::Field { at: star, meaning })?;
    }
    Ok(SenseList { items: senses })
}

/// What expressions mean.
pub(crate) fn all_sensed(
    alloc: Global,
    wide: bool,
    table: &TableColumns,
    moment: &Value,
    aliases: &[SenseAlias],
    values: &ExprList,
) -> Result<SenseList, TypeFault>
    ensures { Answers listed_senses result (all_sensed wide table.now moment.now (map named_of aliases.now) (listed (trees_of values.now))) }
{
    let mut senses = Vec::new(alloc);
    for value in &values.items {
        let sense = sensed(alloc, wide, table, moment, aliases, value)?;
        senses.push(sense)?;
    }
    Ok(SenseList { items: senses })
}
