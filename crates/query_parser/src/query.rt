// A query whole.
ghost use Rattle.std.specs.Prelude.{◌≡◌, ◌++◌, [], length, true, IfOk, option_map};
ghost use Rattle.grammar.specs.Forms.{Opt, Ref};
ghost use Rattle.grammar.specs.Forms.{Rule as rule};
ghost use Rattle.grammar.specs.Rules.{having, sourced, ended};
ghost use Rattle.query_tree.specs.Views.{query_of, numbers_of, items_of, trees_of};
ghost use Rattle.query_tree.specs.declared.query.QueryList.{out-QueryList};
ghost use Rattle.query_parser.specs.Answers.{Gives};
ghost use Rattle.query_parser.specs.Conditions.{Asks, conditions_with, count_from};
ghost use Rattle.query_parser.specs.Queries.{sourced_of, ended_of, query_with, asked_in, numbers_in_query};
ghost use Rattle.query_parser.specs.Clauses.{keys_of};
ghost use Rattle.grammar.specs.Trees as model;

use crate::clauses::{Keys, Selected};
use crate::conditions::Parser;
use crate::fault::Stop;
use grammar::Class;
use query_tree::{Cond, ExprList, ItemList, Placed, PlacedList, Query, QueryList};
use std::alloc::Global;
use std::mem;

/// What stands from USING to WHERE.
#[derive(Drop)]
pub struct Sourced {
    pub aliases: Option<ItemList>,
    pub into: Option<Placed>,
    pub names: PlacedList,
    pub condition: Option<Cond>,
}

/// What stands from GROUP BY on.
#[derive(Drop)]
pub struct Ended {
    pub keys: Option<Keys>,
    pub having: Option<Cond>,
    pub order: Option<Keys>,
}

/// Items, or none.
fn items_or_none(alloc: Global, items: Option<ItemList>) -> ItemList
    ensures { items_of result ≡ model.items_of (option_map items_of items) }
{
    match items {
        Some(items) => items,
        None => ItemList::new(alloc),
    }
}

/// Keys, or none that are not marked.
fn keys_or_none(alloc: Global, keys: Option<Keys>) -> Keys
    ensures items { trees_of result.items ≡ model.keys_of (option_map keys_of keys) }
    ensures marked { result.marked ≡ model.mark_of (option_map keys_of keys) }
{
    match keys {
        Some(keys) => keys,
        None => Keys {
            items: ExprList::new(alloc),
            marked: false,
        },
    }
}

/// Queries as a list of queries.
fn query_list(subqueries: Vec<Query>) -> QueryList
    ensures { (out-QueryList result).items.items ≡ subqueries.items }
{
    QueryList { items: subqueries }
}

/// A query of its parts.
fn query_of_parts(
    alloc: Global,
    selected: Selected,
    sourced: Sourced,
    ended: Ended,
    subqueries: Vec<Query>,
) -> Query
    ensures query { query_of result ≡ query_with selected sourced ended subqueries.items }
    ensures condition { numbers_in_query result ≡ numbers_of sourced.condition ++ numbers_of ended.having }
    ensures count { length (asked_in result) ≡ length subqueries.items }
{
    let Selected {
        top,
        distinct,
        columns,
    } = selected;
    let Sourced {
        aliases,
        into,
        names,
        condition,
    } = sourced;
    let Ended {
        keys,
        having,
        order,
    } = ended;
    let aliases = items_or_none(alloc, aliases);
    let keys = keys_or_none(alloc, keys);
    let order = keys_or_none(alloc, order);
    Query {
        top,
        distinct,
        star: columns.star,
        items: columns.items,
        aliases,
        into,
        names,
        condition,
        keys: keys.items,
        rollup: keys.marked,
        having,
        order: order.items,
        descending: order.marked,
        subqueries: query_list(subqueries),
    }
}

impl<'a> Parser<'a> {
    /// USING to WHERE.
    fn sourced(&mut self, left: u32) -> Result<Sourced, Stop>
        ensures { Asks true left sourced self.old.cursor.rest.now self.new.cursor.rest.now self.old.subqueries.items self.new.subqueries.items sourced_of (λ s. numbers_of s.condition) result }
    {
        let aliases = self.cursor.usings(left)?;
        let into = self.cursor.into_name()?;
        let names = self.cursor.from()?;
        let condition = self.where_part(true, left)?;
        Ok(Sourced {
            aliases,
            into,
            names,
            condition,
        })
    }

    /// HAVING and its condition, where it stands there.
    fn having(&mut self, left: u32) -> Result<Option<Cond>, Stop>
        ensures { Asks true left (Opt having) self.old.cursor.rest.now self.new.cursor.rest.now self.old.subqueries.items self.new.subqueries.items conditions_with numbers_of result }
    {
        if !self.cursor.next_is(Class::Having) {
            return Ok(None);
        }
        let _having = self.cursor.take(Class::Having)?;
        let test = self.cond(true, left)?;
        Ok(Some(test))
    }

    /// GROUP BY to the end.
    fn ended(&mut self, left: u32) -> Result<Ended, Stop>
        ensures { Asks true left ended self.old.cursor.rest.now self.new.cursor.rest.now self.old.subqueries.items self.new.subqueries.items ended_of (λ e. numbers_of e.having) result }
    {
        let keys = self.cursor.keys(left)?;
        let having = self.having(left)?;
        match self.cursor.order(left) {
            Ok(order) => {
                let _semicolon = self.cursor.skip(Class::Semicolon);
                Ok(Ended {
                    keys,
                    having,
                    order,
                })
            }
            Err(stop) => {
                drop(having);
                Err(stop)
            }
        }
    }

    /// A query, where no subquery was read before.
    pub fn query(&mut self, left: u32) -> Result<Query, Stop>
        requires { self.old.subqueries.items ≡ [] }
        ensures exact { Gives left (Ref rule.query_rule) self.old.cursor.rest.now self.new.cursor.rest.now query_of result }
        ensures numbered { IfOk result (λ q. numbers_in_query q ≡ count_from 0 (length (asked_in q))) }
    {
        let selected = self.cursor.selected(left)?;
        let sourced = self.sourced(left)?;
        match self.ended(left) {
            Ok(ended) => {
                let alloc = self.cursor.alloc;
                let subqueries = mem::replace(&mut self.subqueries, Vec::new(alloc));
                Ok(query_of_parts(alloc, selected, sourced, ended, subqueries))
            }
            Err(stop) => {
                drop(sourced);
                Err(stop)
            }
        }
    }
}
