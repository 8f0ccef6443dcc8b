// All rows, sorted at the end.
ghost use Rattle.std.specs.Prelude.{◌≡◌, ◌++◌, ◌∷◌, [], List, None, true, false, length, IfOk, IsOk, OnOk, OnErr};
ghost use Rattle.order_top.specs.Finish.{Row, keys_at, row_before, finished};
ghost use Rattle.order_top.specs.Lists.{ordered};
ghost use Rattle.order_top.specs.Ordering.{StandsFor, is_past};

use crate::comparing::compare_rows;
use lp_values::{RowList, Value, ValueList};
use std::alloc::{AllocError, Global};
use std::marker::Model;

/// Sorts rows by some columns; ties stay where they stood.
pub fn sort_rows(
    rows: &mut Vec<ValueList>,
    columns: &[usize],
    descending: bool,
) -> Result<(), AllocError>
    ensures { OnOk result (rows.new.items ≡ ordered (row_before descending columns.now) rows.old.items) }
{
    rows.sort_by(|a, b| compare_rows(columns, descending, a, b))
}

/// Rows of a query without DISTINCT and TOP.
#[derive(Drop)]
pub struct AllRows {
    columns: Vec<usize>,
    descending: bool,
    rows: Vec<ValueList>,
}

impl Model for AllRows {
    ghost use Rattle.std.specs.Prelude.{None, false};
    ghost use Rattle.order_top.specs.Ordering.{Ordering};

    ghost Value = { Ordering };

    ghost view = { λ a. record { finish = record { columns = a.columns.items; descending = a.descending; distinct = false; top = None }; kept = a.rows.items; places = 0 } };
}

impl AllRows {
    pub fn new(alloc: Global, columns: Vec<usize>, descending: bool) -> AllRows
        ensures { result ≡ record { finish = record { columns = columns.items; descending = descending; distinct = false; top = None }; kept = []; places = 0 } }
    {
        AllRows {
            columns,
            descending,
            rows: Vec::new(alloc),
        }
    }

    /// No row is left out, since all are wanted.
    pub fn is_past(&self, _keys: &[Value]) -> bool
        ensures { result ≡ is_past self.now.finish _keys.now self.now.kept }
    {
        let _ = &self.rows;
        false
    }

    pub fn len(&self) -> usize
        ensures { result ≡ length self.now.kept }
    {
        self.rows.len()
    }

    pub fn put(&mut self, row: ValueList) -> Result<(), AllocError>
        ensures ok { OnOk result (self.new ≡ record self.old { kept = self.old.kept ++ row ∷ [] }) }
        ensures finish { self.new.finish ≡ self.old.finish }
        ensures places { self.new.places ≡ self.old.places }
        ensures stands { OnOk result ((rows : List Row) → StandsFor self.old rows → StandsFor self.new (rows ++ row ∷ [])) }
        ensures err { OnErr result (self.new ≡ self.old) }
        // A row that goes behind as many as are wanted fails for no want of memory, and leaves all as it is.
        ensures past { is_past self.old.finish (keys_at self.old.finish.columns row) self.old.kept ≡ true → IsOk result × (self.new ≡ self.old) }
        // No row is left out for being there already.
        ensures plain { self.old.finish.distinct ≡ false }
    {
        self.rows.push(row)?;
        Ok(())
    }

    pub fn into_rows(self) -> Result<RowList, AllocError>
        ensures { IfOk result (λ list. (rows : List Row) → StandsFor self rows → list ≡ finished self.finish rows) }
    {
        let AllRows {
            columns,
            descending,
            rows,
        } = self;
        let mut rows = rows;
        sort_rows(&mut rows, columns.as_slice(), descending)?;
        Ok(RowList::from_vec(rows))
    }
}
