// The names of output columns.
ghost use Rattle.std.specs.Prelude.{◌≡◌, IfOk, map};
ghost use Rattle.query_tree.specs.Views.{tree_of};
ghost use Rattle.query_tree.specs.Views.{items_of};
ghost use Rattle.query_types.specs.Names.{item_name, spelled};
ghost use Rattle.query_types.specs.Planned.{names_of};

use crate::spelling::spell_expression;
use lp_values::{Bytes, Text, TextList};
use query_tree::{Expr, Item, ItemList};
use query_types::{Alias, TableColumns};
use std::alloc::{AllocError, Global};
use std::str;

// Bytes that are a text.
fn text_of(alloc: Global, bytes: &Bytes) -> Result<Text, AllocError>
    ensures { IfOk result (λ text. text ≡ bytes.now) }
{
    match str::from_utf8(bytes.as_slice()) {
        Ok(text) => Text::from_str(alloc, text),
        // Never: texts and printed values are UTF-8.
        Err(_) => Err(AllocError),
    }
}

// An expression as the name of its column.
fn spelled(
    alloc: Global,
    table: &TableColumns,
    aliases: &[Alias],
    expr: &Expr,
) -> Result<Text, AllocError>
    ensures { IfOk result (λ text. text ≡ spelled table.now aliases.now (tree_of expr.now)) }
{
    let mut bytes = Bytes::new(alloc);
    spell_expression(table, aliases, expr, &mut bytes)?;
    text_of(alloc, &bytes)
}

// The name of an item: its alias, or else its expression.
fn item_name(
    alloc: Global,
    table: &TableColumns,
    aliases: &[Alias],
    item: &Item,
) -> Result<Text, AllocError>
    ensures { IfOk result (λ text. text ≡ item_name table.now aliases.now item.now.alias (tree_of item.now.value)) }
{
    match &item.alias {
        Some(name) => name.copy(alloc),
        None => spelled(alloc, table, aliases, &item.value),
    }
}

/// The names of items.
pub fn item_names(
    alloc: Global,
    table: &TableColumns,
    aliases: &[Alias],
    items: &ItemList,
) -> Result<TextList, AllocError>
    ensures { IfOk result (λ names. names ≡ names_of table.now aliases.now (items_of items.now)) }
{
    let mut names = TextList::new(alloc);
    for item in &items.items {
        names.push(item_name(alloc, table, aliases, item)?)?;
    }
    Ok(names)
}

/// The names of a table's columns.
pub fn column_names(alloc: Global, table: &TableColumns) -> Result<TextList, AllocError>
    ensures { IfOk result (λ names. names ≡ map (λ column. column.name) table.now.columns) }
{
    let mut names = TextList::new(alloc);
    for column in table.columns.as_slice() {
        names.push(column.name.copy(alloc)?)?;
    }
    Ok(names)
}
