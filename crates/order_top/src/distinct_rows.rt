// Rows without those that came before, sorted at the end.
ghost use Rattle.std.specs.Prelude.{◌≡◌, ◌++◌, ◌∷◌, [], List, None, true, length, IfOk, IsOk, OnOk, OnErr};
ghost use Rattle.std.specs.List.{list_any};
ghost use Rattle.indexmap.specs.IndexSet.{insert_key};
ghost use Rattle.order_top.specs.Finish.{Row, keys_at, same_row, finished};
ghost use Rattle.order_top.specs.Ordering.{StandsFor, is_past};

use crate::all_rows::sort_rows;
use indexmap::IndexSet;
use lp_values::{RowList, Value, ValueList};
use std::alloc::{AllocError, Global};
use std::marker::Model;

type RowSet = IndexSet<ValueList>;

// The rows of a set, in their order.
fn rows_of(alloc: Global, set: RowSet) -> Result<Vec<ValueList>, AllocError>
    ensures { IfOk result (λ rows. rows.items ≡ set.keys) }
{
    let mut rows = Vec::with_capacity(alloc, set.len())?;
    for row in set {
        rows.push(row)?;
    }
    Ok(rows)
}

/// Rows of a query with DISTINCT and without TOP.
#[derive(Drop)]
pub struct DistinctRows {
    columns: Vec<usize>,
    descending: bool,
    rows: RowSet,
}

impl Model for DistinctRows {
    ghost use Rattle.std.specs.Prelude.{None, true};
    ghost use Rattle.order_top.specs.Ordering.{Ordering};

    ghost Value = { Ordering };

    ghost view = { λ d. record { finish = record { columns = d.columns.items; descending = d.descending; distinct = true; top = None }; kept = d.rows.keys; places = 0 } };
}

impl DistinctRows {
    pub fn new(alloc: Global, columns: Vec<usize>, descending: bool) -> DistinctRows
        ensures { result ≡ record { finish = record { columns = columns.items; descending = descending; distinct = true; top = None }; kept = []; places = 0 } }
    {
        DistinctRows {
            columns,
            descending,
            rows: IndexSet::new(alloc),
        }
    }

    /// No row is left out, since all are wanted.
    pub fn is_past(&self, _keys: &[Value]) -> bool
        ensures { result ≡ is_past self.now.finish _keys.now self.now.kept }
    {
        let _ = &self.rows;
        false
    }

    pub fn len(&self) -> usize
        ensures { result ≡ length self.now.kept }
    {
        self.rows.len()
    }

    pub fn put(&mut self, row: ValueList) -> Result<(), AllocError>
        ensures ok { OnOk result (self.new ≡ record self.old { kept = insert_key same_row self.old.kept row }) }
        ensures finish { self.new.finish ≡ self.old.finish }
        ensures places { self.new.places ≡ self.old.places }
        ensures stands { OnOk result ((rows : List Row) → StandsFor self.old rows → StandsFor self.new (rows ++ row ∷ [])) }
        ensures err { OnErr result (self.new ≡ self.old) }
        // A row that goes behind as many as are wanted fails for no want of memory, and leaves all as it is.
        ensures past { is_past self.old.finish (keys_at self.old.finish.columns row) self.old.kept ≡ true → IsOk result × (self.new ≡ self.old) }
        // A row that is there already fails for no want of memory, and leaves all as it is.
        ensures known { list_any (same_row row) self.old.kept ≡ true → IsOk result × (self.new ≡ self.old) }
    {
        self.rows.insert(row)?;
        Ok(())
    }

    pub fn into_rows(self, alloc: Global) -> Result<RowList, AllocError>
        ensures { IfOk result (λ list. (rows : List Row) → StandsFor self rows → list ≡ finished self.finish rows) }
    {
        let DistinctRows {
            columns,
            descending,
            rows,
        } = self;
        let mut rows = rows_of(alloc, rows)?;
        sort_rows(&mut rows, columns.as_slice(), descending)?;
        Ok(RowList::from_vec(rows))
    }
}
