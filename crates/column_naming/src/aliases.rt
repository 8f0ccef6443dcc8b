// The aliases that the items of a list make.
ghost use Rattle.std.specs.Prelude.{◌≡◌, OnOk, IfOk};
ghost use Rattle.query_tree.specs.Views.{tree_of, items_of};
ghost use Rattle.query_types.specs.Meanings.{meant};
ghost use Rattle.query_types.specs.Planned.{with_alias, with_aliases};

use lp_values::{Text, Value};
use query_tree::{Expr, Item, ItemList};
use query_types::{Alias, AliasList, TableColumns, TypeFault, meant};
use std::alloc::{AllocError, Global};

// An alias of an expression, which may use those before it.
fn alias_of(
    alloc: Global,
    table: &TableColumns,
    moment: &Value,
    aliases: &[Alias],
    name: &Text,
    value: &Expr,
) -> Result<Alias, AllocError>
    ensures name { IfOk result (λ alias. alias.name ≡ name.now) }
    ensures meaning { IfOk result (λ alias. alias.meaning ≡ meant table.now moment.now aliases.now (tree_of value.now)) }
{
    let name = name.copy(alloc)?;
    match meant(alloc, table, moment, aliases, value) {
        Err(TypeFault::Memory) => Err(AllocError),
        meaning => Ok(Alias { name, meaning }),
    }
}

// Adds an item's alias, where it has one.
fn add_alias(
    alloc: Global,
    table: &TableColumns,
    moment: &Value,
    aliases: &mut AliasList,
    item: &Item,
) -> Result<(), AllocError>
    ensures { OnOk result (aliases.new ≡ with_alias table.now moment.now aliases.old item.now.alias (tree_of item.now.value)) }
{
    match &item.alias {
        None => Ok(()),
        Some(name) => {
            let alias = alias_of(alloc, table, moment, aliases.as_slice(), name, &item.value)?;
            aliases.push(alias)
        }
    }
}

/// Adds the aliases of items, each of which may use those before it.
pub fn add_aliases(
    alloc: Global,
    table: &TableColumns,
    moment: &Value,
    aliases: &mut AliasList,
    items: &ItemList,
) -> Result<(), AllocError>
    ensures { OnOk result (aliases.new ≡ with_aliases table.now moment.now aliases.old (items_of items.now)) }
{
    for item in &items.items {
        add_alias(alloc, table, moment, aliases, item)?;
    }
    Ok(())
}
