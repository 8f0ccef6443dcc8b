// The rows of a query on their way to its finish.
ghost use Rattle.std.specs.Prelude.{◌≡◌, ◌≤◌, ◌<◌, ◌+◌, ◌^◌, ◌++◌, ◌∷◌, [], List, length, IfOk, IsOk, OnOk, OnErr, IfSome, IsTrue, true};
ghost use Rattle.std.specs.List.{list_any};
ghost use Rattle.order_top.specs.Finish.{Row, same_row, keys_at, finished};
ghost use Rattle.order_top.specs.Ordering.{StandsFor, is_past};

use crate::all_rows::AllRows;
use crate::distinct_rows::DistinctRows;
use crate::first_distinct::FirstDistinct;
use crate::first_rows::FirstRows;
use lp_values::{RowList, Value, ValueList};
use std::alloc::{AllocError, Global};
use std::marker::Model;

#[derive(Drop)]
enum Store {
    All(AllRows),
    Distinct(DistinctRows),
    First(FirstRows),
    FirstDistinct(FirstDistinct),
}

/// DISTINCT, ORDER BY and TOP over rows that come one by one.
#[derive(Drop)]
pub struct Orderer {
    alloc: Global,
    store: Store,
}

impl Model for Orderer {
    ghost use Rattle.order_top.specs.Ordering.{Ordering};
    ghost use Rattle.order_top.specs.Stores.{shown};

    ghost Value = { Ordering };

    ghost view = { λ o. shown o.store };
}

impl Orderer {
    /// The columns are places in a row; without any the rows stay in their order.
    pub fn new(
        alloc: Global,
        columns: Vec<usize>,
        descending: bool,
        distinct: bool,
        top: Option<u64>,
    ) -> Orderer
        ensures finish { result.finish ≡ record { columns = columns.items; descending = descending; distinct = distinct; top = top } }
        ensures places { result.places ≡ 0 }
        ensures stands { StandsFor result [] }
    {
        let store = match top {
            None if distinct => Store::Distinct(DistinctRows::new(alloc, columns, descending)),
            None => Store::All(AllRows::new(alloc, columns, descending)),
            Some(limit) if distinct => {
                Store::FirstDistinct(FirstDistinct::new(alloc, columns, descending, limit))
            }
            Some(limit) => Store::First(FirstRows::new(alloc, columns, descending, limit)),
        };
        Orderer { alloc, store }
    }

    /// Takes the next row. An `Err` changes nothing, and the row is gone.
    pub fn put(&mut self, row: ValueList) -> Result<(), AllocError>
        requires { self.old.places < 2 ^ 63 }
        ensures finish { self.new.finish ≡ self.old.finish }
        ensures places { self.new.places ≤ self.old.places + 1 }
        ensures stands { OnOk result ((rows : List Row) → StandsFor self.old rows → StandsFor self.new (rows ++ row ∷ [])) }
        ensures err { OnErr result (self.new ≡ self.old) }
        // A row that goes behind as many as are wanted fails for no want of memory, and leaves all as it is.
        ensures past { is_past self.old.finish (keys_at self.old.finish.columns row) self.old.kept ≡ true → IsOk result × (self.new ≡ self.old) }
        // A row that is there already fails for no want of memory, and leaves all as it is.
        ensures known { self.old.finish.distinct ≡ true → list_any (same_row row) self.old.kept ≡ true → IsOk result × (self.new ≡ self.old) }
    {
        let alloc = self.alloc;
        match &mut self.store {
            Store::All(rows) => rows.put(row),
            Store::Distinct(rows) => rows.put(row),
            Store::First(rows) => rows.add(alloc, row),
            Store::FirstDistinct(rows) => rows.add(alloc, row),
        }
    }

    /// Whether a row with these keys may be left out, since it goes behind n rows under TOP n.
    pub fn would_drop(&self, keys: &[Value]) -> bool
        ensures exact { result ≡ is_past self.now.finish keys.now self.now.kept }
        ensures left_out { IsTrue result → (row : Row) → keys_at self.now.finish.columns row ≡ keys.now → (rows : List Row) → StandsFor self.now rows → StandsFor self.now (rows ++ row ∷ []) }
    {
        match &self.store {
            Store::All(rows) => rows.is_past(keys),
            Store::Distinct(rows) => rows.is_past(keys),
            Store::First(rows) => rows.is_past(keys),
            Store::FirstDistinct(rows) => rows.is_past(keys),
        }
    }

    /// How many rows are kept.
    pub fn held(&self) -> u64
        ensures exact { result ≡ length self.now.kept }
        ensures few { (rows : List Row) → StandsFor self.now rows → result ≤ length rows }
        ensures top { (rows : List Row) → StandsFor self.now rows → IfSome self.now.finish.top (λ n. result ≤ n) }
    {
        let length = match &self.store {
            Store::All(rows) => rows.len(),
            Store::Distinct(rows) => rows.len(),
            Store::First(rows) => rows.len(),
            Store::FirstDistinct(rows) => rows.len(),
        };
        length as u64
    }

    /// The rows of the finish. Where there is an `Err` they are gone.
    pub fn into_rows(self) -> Result<RowList, AllocError>
        ensures { IfOk result (λ list. (rows : List Row) → StandsFor self rows → list ≡ finished self.finish rows) }
    {
        let Orderer { alloc, store } = self;
        match store {
            Store::All(rows) => rows.into_rows(),
            Store::Distinct(rows) => rows.into_rows(alloc),
            Store::First(rows) => rows.into_rows(alloc),
            Store::FirstDistinct(rows) => rows.into_rows(alloc),
        }
    }
}
