// A query with its clauses.
ghost use Rattle.std.specs.Prelude.{◌≡◌, List, [], ◌∷◌, ◌+◌, ◌++◌, length, map, option_map, slice_get, option_copied, IfOk, OnOk, OnErr};
ghost use Rattle.grammar.specs.Filled.{asked_places, filled, filled_test, given_bad, given_logs, maybe_asked, maybe_bad, maybe_logs};
ghost use Rattle.query_tree.specs.Views.{placed_given, query_of, test_of};
ghost use Rattle.query_tree.specs.declared.query.Query.{out-Query};
ghost use Rattle.query_tree.specs.declared.query.QueryList.{out-QueryList};

use crate::given::sum;
use crate::{Cond, Expr, ExprList, PlaceList, Placed, PlacedGiven, PlacedList};
use lp_values::{Text, TextList};
use std::alloc::{AllocError, Global};

/// An expression, and the alias that AS gives it.
#[derive(Drop)]
pub struct Item {
    pub value: Expr,
    pub alias: Option<Text>,
}

/// Items in order.
#[derive(Drop)]
pub struct ItemList {
    pub items: Vec<Item>,
}

impl ItemList {
    pub fn new(alloc: Global) -> Self
        ensures { result.items.items ≡ [] }
    {
        ItemList {
            items: Vec::new(alloc),
        }
    }

    pub fn len(&self) -> usize
        ensures { result ≡ length self.now.items.items }
    {
        self.items.len()
    }

    pub fn get(&self, index: usize) -> Option<&Item>
        ensures { option_copied result ≡ slice_get self.now.items.items index }
    {
        self.items.get(index)
    }

    /// Adds one at the end. An `Err` changes nothing, and the one is gone.
    pub fn push(&mut self, item: Item) -> Result<(), AllocError>
        ensures ok { OnOk result (self.new.items.items ≡ self.old.items.items ++ item ∷ []) }
        ensures err { OnErr result (self.new.items.items ≡ self.old.items.items) }
    {
        self.items.push(item)?;
        Ok(())
    }
}

/// A query, or a subquery, which has no parts but `distinct`, one item, `names` and `condition`.
#[derive(Drop)]
#[cycle(queries)]
pub struct Query {
    pub top: Option<u64>,
    pub distinct: bool,
    /// The place of `*`; `None` where items stand.
    pub star: Option<u32>,
    pub items: ItemList,
    /// The items of USING.
    pub aliases: ItemList,
    pub into: Option<Placed>,
    /// The names of FROM.
    pub names: PlacedList,
    pub condition: Option<Cond>,
    pub keys: ExprList,
    pub rollup: bool,
    pub having: Option<Cond>,
    pub order: ExprList,
    pub descending: bool,
    /// The subqueries in the order of the text.
    pub subqueries: QueryList,
}

impl Query {
    /// The subquery of this number, from 0 in the order of the text.
    pub fn subquery(&self, index: usize) -> Option<&Query>
        ensures { option_copied result ≡ slice_get (out-QueryList (out-Query self.now).subqueries).items.items index }
    {
        self.subqueries.items.get(index)
    }

    /// Tells each IN over a subquery what was given for its place.
    pub fn fill(&mut self, givens: &[PlacedGiven]) -> Result<(), AllocError>
        ensures { OnOk result (query_of self.new ≡ filled (map placed_given givens.now) (query_of self.old)) }
    {
        fill_maybe(&mut self.condition, givens)?;
        fill_maybe(&mut self.having, givens)
    }

    /// Adds the names of the logs that its subqueries read.
    pub fn add_given_logs(&self, alloc: Global, names: &mut TextList) -> Result<(), AllocError>
        ensures { OnOk result (names.new ≡ names.old ++ given_logs (query_of self.now)) }
    {
        add_maybe_logs(alloc, &self.condition, names)?;
        add_maybe_logs(alloc, &self.having, names)
    }

    /// How many bad lines the logs of its subqueries have; want of memory where that is no number of 64 bits.
    pub fn given_bad(&self) -> Result<u64, AllocError>
        ensures { IfOk result (λ bad. bad ≡ given_bad (query_of self.now)) }
    {
        sum(maybe_bad(&self.condition)?, maybe_bad(&self.having)?)
    }

    /// The places of its INs over subqueries, in the order of the subqueries.
    pub fn asked_places(&self, alloc: Global) -> Result<PlaceList, AllocError>
        ensures { IfOk result (λ places. places ≡ asked_places (query_of self.now)) }
    {
        let mut places = PlaceList::new(alloc);
        add_maybe_asked(&self.condition, &mut places)?;
        add_maybe_asked(&self.having, &mut places)?;
        Ok(places)
    }
}

// The names of the logs that the subqueries of WHERE or HAVING read.
fn add_maybe_logs(
    alloc: Global,
    condition: &Option<Cond>,
    names: &mut TextList,
) -> Result<(), AllocError>
    ensures { OnOk result (names.new ≡ names.old ++ maybe_logs (option_map test_of condition.now)) }
{
    match condition {
        None => Ok(()),
        Some(condition) => condition.add_logs(alloc, names),
    }
}

// How many bad lines these logs have.
fn maybe_bad(condition: &Option<Cond>) -> Result<u64, AllocError>
    ensures { IfOk result (λ bad. bad ≡ maybe_bad (option_map test_of condition.now)) }
{
    match condition {
        None => Ok(0),
        Some(condition) => condition.given_bad(),
    }
}

// Tells the INs of WHERE or HAVING.
fn fill_maybe(condition: &mut Option<Cond>, givens: &[PlacedGiven]) -> Result<(), AllocError>
    ensures { OnOk result (option_map test_of condition.new ≡ option_map (filled_test (map placed_given givens.now)) (option_map test_of condition.old)) }
{
    match condition {
        None => Ok(()),
        Some(condition) => condition.fill(givens),
    }
}

// Adds the places of the INs of WHERE or HAVING.
fn add_maybe_asked(condition: &Option<Cond>, places: &mut PlaceList) -> Result<(), AllocError>
    ensures { OnOk result (places.new ≡ places.old ++ maybe_asked (option_map test_of condition.now)) }
{
    match condition {
        None => Ok(()),
        Some(condition) => condition.add_asked(places),
    }
}

/// Queries in order.
#[derive(Drop)]
#[cycle(queries)]
pub struct QueryList {
    pub items: Vec<Query>,
}

impl QueryList {
    pub fn new(alloc: Global) -> Self
        ensures { (out-QueryList result).items.items ≡ [] }
    {
        QueryList {
            items: Vec::new(alloc),
        }
    }

    pub fn len(&self) -> usize
        ensures { result ≡ length (out-QueryList self.now).items.items }
    {
        self.items.len()
    }

    pub fn get(&self, index: usize) -> Option<&Query>
        ensures { option_copied result ≡ slice_get (out-QueryList self.now).items.items index }
    {
        self.items.get(index)
    }

    /// Adds one at the end. An `Err` changes nothing, and the one is gone.
    pub fn push(&mut self, item: Query) -> Result<(), AllocError>
        ensures ok { OnOk result ((out-QueryList self.new).items.items ≡ (out-QueryList self.old).items.items ++ item ∷ []) }
        ensures err { OnErr result ((out-QueryList self.new).items.items ≡ (out-QueryList self.old).items.items) }
    {
        self.items.push(item)?;
        Ok(())
    }
}
