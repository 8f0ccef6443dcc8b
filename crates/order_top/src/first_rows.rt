// The first rows, by rank.
ghost use Rattle.std.specs.Prelude.{◌≡◌, ◌≤◌, ◌<◌, ◌+◌, ◌^◌, ◌++◌, ◌∷◌, [], List, Some, false, length, take, OnOk, OnErr, IfOk, IsOk, true};
ghost use Rattle.std.specs.BTreeMap.{insert_entry};
ghost use Rattle.std.specs.Map.{values_of};
ghost use Rattle.std.specs.Option.{option_to_list};
ghost use Rattle.order_top.specs.Finish.{Row, keys_at, precedes, finished};
ghost use Rattle.order_top.specs.Lists.{first_items, with_later};
ghost use Rattle.order_top.specs.Ordering.{StandsFor, is_past};

use crate::comparing::{compare_rows, copy_keys};
use crate::rank::Rank;
use lp_values::{RowList, Value, ValueList};
use std::alloc::{AllocError, Global};
use std::collections::BTreeMap;
use std::marker::Model;

type RankedRows = BTreeMap<Rank, ValueList>;

// Lets the last row go where there are more than the limit.
fn cut(rows: &mut RankedRows, limit: u64) -> Option<ValueList>
    requires { length rows.old.entries ≤ limit + 1 }
    ensures first { rows.new.entries ≡ take limit rows.old.entries }
    ensures gone { values_of rows.old.entries ≡ values_of rows.new.entries ++ option_to_list result }
{
    if rows.len() as u64 > limit {
        match rows.pop_last() {
            Some((_, row)) => Some(row),
            None => None,
        }
    } else {
        None
    }
}

// Puts a row in its place among at most `limit` rows. It answers the row that is one too many.
fn put_ranked(
    rows: &mut RankedRows,
    rank: Rank,
    row: ValueList,
    limit: u64,
) -> Result<Option<ValueList>, AllocError>
    requires { length rows.old.entries ≤ limit }
    ensures ok { OnOk result (rows.new.entries ≡ take limit (insert_entry ⟦<Rank as Ord>⟧.cmp rows.old.entries rank row)) }
    ensures gone { IfOk result (λ gone. values_of (insert_entry ⟦<Rank as Ord>⟧.cmp rows.old.entries rank row) ≡ values_of rows.new.entries ++ option_to_list gone) }
    ensures err { OnErr result (rows.new.entries ≡ rows.old.entries) }
{
    rows.insert(rank, row)?;
    Ok(cut(rows, limit))
}

// The rows in the order of their ranks.
fn rows_in_order(alloc: Global, ranked: RankedRows) -> Result<Vec<ValueList>, AllocError>
    ensures { IfOk result (λ rows. rows.items ≡ values_of ranked.entries) }
{
    let mut rows = Vec::with_capacity(alloc, ranked.len())?;
    for row in ranked.into_values() {
        rows.push(row)?;
    }
    Ok(rows)
}

/// At most `limit` rows, those that are first in order.
#[derive(Drop)]
pub struct FirstRows {
    columns: Vec<usize>,
    descending: bool,
    limit: u64,
    places: u64,
    rows: RankedRows,
}

impl Model for FirstRows {
    ghost use Rattle.std.specs.Prelude.{◌≤◌, length, false, Some};
    ghost use Rattle.std.specs.Map.{values_of};
    ghost use Rattle.order_top.specs.Ordering.{Ordering};
    ghost use Rattle.order_top.specs.Ranks.{AreRanked};

    ghost Value = { Ordering };

    ghost view = { λ f. record { finish = record { columns = f.columns.items; descending = f.descending; distinct = false; top = Some f.limit }; kept = values_of f.rows.entries; places = f.places } };

    ghost invariant = { λ f. AreRanked f.columns.items f.descending f.places f.rows.entries × (length f.rows.entries ≤ f.limit) };
}

impl FirstRows {
    pub fn new(alloc: Global, columns: Vec<usize>, descending: bool, limit: u64) -> FirstRows
        ensures { result ≡ record { finish = record { columns = columns.items; descending = descending; distinct = false; top = Some limit }; kept = []; places = 0 } }
    {
        FirstRows {
            columns,
            descending,
            limit,
            places: 0,
            rows: BTreeMap::new(alloc),
        }
    }

    /// Whether a row with these keys goes behind as many rows as are wanted.
    pub fn is_past(&self, keys: &[Value]) -> bool
        ensures { result ≡ is_past self.now.finish keys.now self.now.kept }
    {
        if (self.rows.len() as u64) < self.limit {
            return false;
        }
        match self.rows.last_key_value() {
            Some((rank, _)) => !rank.is_after(keys),
            None => true,
        }
    }

    /// Whether this row does.
    pub fn is_past_row(&self, row: &ValueList) -> bool
        ensures { result ≡ is_past self.now.finish (keys_at self.now.finish.columns row.now) self.now.kept }
    {
        if (self.rows.len() as u64) < self.limit {
            return false;
        }
        match self.rows.last_key_value() {
            Some((_, last)) => {
                !compare_rows(self.columns.as_slice(), self.descending, row, last).is_lt()
            }
            None => true,
        }
    }

    /// Copies of a row's keys.
    pub fn keys_of(&self, alloc: Global, row: &ValueList) -> Result<ValueList, AllocError>
        ensures { IfOk result (λ keys. keys ≡ keys_at self.now.finish.columns row.now) }
    {
        copy_keys(alloc, self.columns.as_slice(), row)
    }

    pub fn len(&self) -> usize
        ensures { result ≡ length self.now.kept }
    {
        self.rows.len()
    }

    /// Puts a row with its keys in its place. It answers the row that is one too many; an `Err` changes nothing.
    pub fn put(&mut self, keys: ValueList, row: ValueList) -> Result<Option<ValueList>, AllocError>
        requires keys { keys ≡ keys_at self.old.finish.columns row }
        requires places { self.old.places < 2 ^ 63 }
        ensures ok { OnOk result (self.new ≡ record self.old { kept = first_items self.old.finish.top (with_later (precedes self.old.finish) row self.old.kept); places = self.old.places + 1 }) }
        ensures gone { IfOk result (λ gone. with_later (precedes self.old.finish) row self.old.kept ≡ self.new.kept ++ option_to_list gone) }
        ensures err { OnErr result (self.new ≡ self.old) }
    {
        let rank = Rank::new(self.descending, keys, self.places);
        let gone = put_ranked(&mut self.rows, rank, row, self.limit)?;
        self.places += 1;
        Ok(gone)
    }

    /// Takes a row, or lets it go where it goes behind as many as are wanted.
    pub fn add(&mut self, alloc: Global, row: ValueList) -> Result<(), AllocError>
        requires { self.old.places < 2 ^ 63 }
        ensures finish { self.new.finish ≡ self.old.finish }
        ensures places { self.new.places ≤ self.old.places + 1 }
        ensures stands { OnOk result ((rows : List Row) → StandsFor self.old rows → StandsFor self.new (rows ++ row ∷ [])) }
        ensures err { OnErr result (self.new ≡ self.old) }
        // A row that goes behind as many as are wanted fails for no want of memory, and leaves all as it is.
        ensures past { is_past self.old.finish (keys_at self.old.finish.columns row) self.old.kept ≡ true → IsOk result × (self.new ≡ self.old) }
        // No row is left out for being there already.
        ensures plain { self.old.finish.distinct ≡ false }
    {
        if self.is_past_row(&row) {
            return Ok(());
        }
        let keys = copy_keys(alloc, self.columns.as_slice(), &row)?;
        self.put(keys, row)?;
        Ok(())
    }

    pub fn into_rows(self, alloc: Global) -> Result<RowList, AllocError>
        ensures rows { IfOk result (λ list. list ≡ self.kept) }
        ensures finished { IfOk result (λ list. (rows : List Row) → StandsFor self rows → list ≡ finished self.finish rows) }
    {
        let FirstRows {
            columns: _,
            descending: _,
            limit: _,
            places: _,
            rows,
        } = self;
        Ok(RowList::from_vec(rows_in_order(alloc, rows)?))
    }
}
