// What the items of a list mean.
ghost use Rattle.std.specs.Prelude.{◌≡◌, ◌≤◌, ◌<◌, ◌+◌, ◌^◌, OnOk, IfOk, take, length};
ghost use Rattle.query_tree.specs.Views.{tree_of, items_of};
ghost use Rattle.query_types.specs.Meanings.{Answers, meant};
ghost use Rattle.query_types.specs.Planned.{with_aliases, in_force, selected, columns_from, count_alias};

use lp_values::{Text, Value};
use query_tree::{Expr, Item, ItemList};
use query_types::{Alias, AliasList, Meaning, MeaningList, TableColumns, TypeFault, meant};
use std::alloc::{AllocError, Global};

// The aliases in force in an item, of which so many stand before it.
fn in_force<'a>(item: &Item, before: usize, all: &'a [Alias]) -> &'a [Alias]
    requires { before ≤ length all.now }
    ensures { result.now ≡ in_force item.now.alias (take before all.now) all.now }
{
    match &item.alias {
        None => all,
        Some(_) => &all[..before],
    }
}

// How many aliases stand before the next item.
fn behind(item: &Item, before: usize) -> usize
    requires { before + count_alias item.now.alias < 2 ^ 64 }
    ensures { result ≡ before + count_alias item.now.alias }
{
    match &item.alias {
        None => before,
        Some(_) => before + 1,
    }
}

/// What items mean. Of all aliases so many stand before those of the items.
pub fn selected(
    alloc: Global,
    table: &TableColumns,
    moment: &Value,
    before: usize,
    all: &[Alias],
    items: &ItemList,
) -> Result<MeaningList, TypeFault>
    requires before { before ≤ length all.now }
    requires all { all.now ≡ with_aliases table.now moment.now (take before all.now) (items_of items.now) }
    ensures { Answers (λ meanings. meanings) result (selected table.now moment.now (take before all.now) all.now (items_of items.now)) }
{
    let mut meanings = MeaningList::new(alloc);
    let mut before = before;
    for item in &items.items {
        let meaning = meant(
            alloc,
            table,
            moment,
            in_force(item, before, all),
            &item.value,
        )?;
        meanings.push(meaning)?;
        before = behind(item, before);
    }
    Ok(meanings)
}

/// Each column of a table.
pub fn every_column(alloc: Global, table: &TableColumns) -> Result<MeaningList, AllocError>
    ensures { IfOk result (λ meanings. meanings ≡ columns_from 0 table.now.columns) }
{
    let mut meanings = MeaningList::new(alloc);
    for index in 0..table.columns.len() {
        meanings.push(Meaning::column(index))?;
    }
    Ok(meanings)
}
