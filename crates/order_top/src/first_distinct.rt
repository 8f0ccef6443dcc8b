// The first distinct rows.
ghost use Rattle.std.specs.Prelude.{◌≡◌, ◌≤◌, ◌++◌, ◌∷◌, ◌<◌, ◌^◌, ◌+◌, [], List, Some, true, false, length, if◌then◌else◌, IfOk, IsOk, OnOk, OnErr};
ghost use Rattle.std.specs.List.{list_any};
ghost use Rattle.order_top.specs.Finish.{Row, same_row, keys_at, precedes, finished};
ghost use Rattle.order_top.specs.Lists.{first_items, with_later};
ghost use Rattle.order_top.specs.Mirrors.{Mirrors, is_gone};
ghost use Rattle.order_top.specs.Ordering.{StandsFor, is_past};

use crate::first_rows::FirstRows;
use indexmap::IndexSet;
use lp_values::{RowList, Value, ValueList, copy_values};
use std::alloc::{AllocError, Global};
use std::marker::Model;

type RowSet = IndexSet<ValueList>;

// Whether a row is among them.
fn has_row(seen: &RowSet, row: &ValueList) -> bool
    ensures { result ≡ list_any (same_row row.now) seen.now.keys }
{
    seen.contains(row)
}

// Takes a row out of the set, where there is one.
fn forget(seen: &mut RowSet, row: Option<ValueList>)
    ensures { (q : Row) → list_any (same_row q) seen.new.keys ≡ (if is_gone row q then false else list_any (same_row q) seen.old.keys) }
{
    match row {
        Some(row) => {
            seen.swap_remove(&row);
        }
        None => {}
    }
}

// Puts a row that isn't among them.
fn put_new(
    first: &mut FirstRows,
    seen: &mut RowSet,
    keys: ValueList,
    row: ValueList,
    copy: ValueList,
) -> Result<(), AllocError>
    requires keys { keys ≡ keys_at first.old.finish.columns row }
    requires places { first.old.places < 2 ^ 63 }
    requires copy { copy ≡ row }
    requires new { list_any (same_row row) seen.old.keys ≡ false }
    requires mirrors { Mirrors seen.old.keys first.old.kept }
    ensures ok { OnOk result (first.new ≡ record first.old { kept = first_items first.old.finish.top (with_later (precedes first.old.finish) row first.old.kept); places = first.old.places + 1 }) }
    ensures err { OnErr result (first.new ≡ first.old) }
    ensures mirrors { Mirrors seen.new.keys first.new.kept }
{
    seen.insert(copy)?;
    match first.put(keys, row) {
        Ok(gone) => {
            forget(seen, gone);
            Ok(())
        }
        Err(fault) => {
            seen.pop();
            Err(fault)
        }
    }
}

/// At most so many distinct rows, those that are first in order.
#[derive(Drop)]
pub struct FirstDistinct {
    first: FirstRows,
    seen: RowSet,
}

impl Model for FirstDistinct {
    ghost use Rattle.std.specs.Prelude.{◌≡◌, true, is_some};
    ghost use Rattle.order_top.specs.Mirrors.{Mirrors};
    ghost use Rattle.order_top.specs.Ordering.{Ordering, under_distinct};

    ghost Value = { Ordering };

    ghost view = { λ f. under_distinct f.first };

    ghost invariant = { λ f. Mirrors f.seen.keys f.first.kept × (is_some f.first.finish.top ≡ true) };
}

impl FirstDistinct {
    pub fn new(alloc: Global, columns: Vec<usize>, descending: bool, limit: u64) -> FirstDistinct
        ensures { result ≡ record { finish = record { columns = columns.items; descending = descending; distinct = true; top = Some limit }; kept = []; places = 0 } }
    {
        FirstDistinct {
            first: FirstRows::new(alloc, columns, descending, limit),
            seen: IndexSet::new(alloc),
        }
    }

    pub fn is_past(&self, keys: &[Value]) -> bool
        ensures { result ≡ is_past self.now.finish keys.now self.now.kept }
    {
        self.first.is_past(keys)
    }

    pub fn len(&self) -> usize
        ensures { result ≡ length self.now.kept }
    {
        self.first.len()
    }

    /// Takes a row that isn't among them, or lets it go where it goes behind as many as are wanted.
    pub fn add(&mut self, alloc: Global, row: ValueList) -> Result<(), AllocError>
        requires { self.old.places < 2 ^ 63 }
        ensures finish { self.new.finish ≡ self.old.finish }
        ensures places { self.new.places ≤ self.old.places + 1 }
        ensures stands { OnOk result ((rows : List Row) → StandsFor self.old rows → StandsFor self.new (rows ++ row ∷ [])) }
        ensures err { OnErr result (self.new ≡ self.old) }
        // A row that goes behind as many as are wanted fails for no want of memory, and leaves all as it is.
        ensures past { is_past self.old.finish (keys_at self.old.finish.columns row) self.old.kept ≡ true → IsOk result × (self.new ≡ self.old) }
        // A row that is there already fails for no want of memory, and leaves all as it is.
        ensures known { list_any (same_row row) self.old.kept ≡ true → IsOk result × (self.new ≡ self.old) }
    {
        if self.first.is_past_row(&row) {
            return Ok(());
        }
        if has_row(&self.seen, &row) {
            return Ok(());
        }
        let keys = self.first.keys_of(alloc, &row)?;
        let copy = copy_values(alloc, &row)?;
        put_new(&mut self.first, &mut self.seen, keys, row, copy)
    }

    pub fn into_rows(self, alloc: Global) -> Result<RowList, AllocError>
        ensures { IfOk result (λ list. (rows : List Row) → StandsFor self rows → list ≡ finished self.finish rows) }
    {
        let FirstDistinct { first, seen: _ } = self;
        first.into_rows(alloc)
    }
}
