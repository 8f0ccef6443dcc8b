// A subquery of its parts.
ghost use Rattle.std.specs.Prelude.{◌≡◌, IfOk, option_map};
ghost use Rattle.query_tree.specs.Views.{query_of, tree_of, items_of, placed_all, test_of};
ghost use Rattle.query_parser.specs.Conditions.{items_with, subquery_with};

use query_tree::{Cond, Expr, ExprList, Item, ItemList, PlacedList, Query, QueryList};
use std::alloc::{AllocError, Global};

/// An expression without an alias, as the one item.
pub fn item_alone(alloc: Global, value: Expr) -> Result<ItemList, AllocError>
    ensures { IfOk result (λ items. items_of items ≡ items_with (tree_of value)) }
{
    let mut items = ItemList::new(alloc);
    items.push(Item { value, alias: None })?;
    Ok(items)
}

/// A subquery: its DISTINCT, its item, its names and its condition.
pub fn subquery_of(
    alloc: Global,
    distinct: bool,
    items: ItemList,
    names: PlacedList,
    condition: Option<Cond>,
) -> Query
    ensures { query_of result ≡ subquery_with distinct (items_of items) (placed_all names) (option_map test_of condition) }
{
    Query {
        top: None,
        distinct,
        star: None,
        items,
        aliases: ItemList::new(alloc),
        into: None,
        names,
        condition,
        keys: ExprList::new(alloc),
        rollup: false,
        having: None,
        order: ExprList::new(alloc),
        descending: false,
        subqueries: QueryList::new(alloc),
    }
}
