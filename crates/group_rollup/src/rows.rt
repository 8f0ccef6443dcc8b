// Keys in the order in which they first came, each with its place in the columns.
ghost use Rattle.std.specs.Prelude.{◌≡◌, ◌<◌, ◌≤◌, ◌∷◌, ◌++◌, [], ℕ, length, map, take, false, OnOk, OnErr, IfOk};
ghost use Rattle.std.specs.List.{list_any};
ghost use Rattle.group_rollup.specs.Columns.{no_column, begun, AllHave, changes_by, changes_from};
ghost use Rattle.group_rollup.specs.Groups.{is_same};
ghost use Rattle.group_rollup.specs.Tables.{IsPlace, IsPut, IsAdded};

use crate::changes::Change;
use crate::column::AggregateColumn;
use crate::columns::{all_changes, all_changes_from, apply_all, begin_all, cut_all, new_columns};
use indexmap::IndexSet;
use lp_values::{AggKind, Value, ValueList, copy_values};
use std::alloc::{AllocError, Global};

/// `changes` is used again for each record, so that a list of keys that is there takes no memory.
#[derive(Drop)]
pub(crate) struct Rows {
    pub alloc: Global,
    pub keys: IndexSet<ValueList>,
    pub columns: Vec<AggregateColumn>,
    changes: Vec<Change>,
}

#[tactic(auto, using(crate::proofs::TableLemmas::insert_absent))]
fn insert_new(set: &mut IndexSet<ValueList>, keys: ValueList) -> Result<(), AllocError>
    requires absent { list_any (⟦<ValueList as PartialEq>⟧.eq keys) set.old.keys ≡ false }
    ensures ok { OnOk result (set.new.keys ≡ set.old.keys ++ keys ∷ []) }
    ensures err { OnErr result (set.new.keys ≡ set.old.keys) }
{
    match set.insert(keys) {
        Ok(_) => Ok(()),
        Err(_) => Err(AllocError),
    }
}

impl Rows {
    pub fn new(alloc: Global, kinds: &[AggKind]) -> Result<Rows, AllocError>
        ensures keys { IfOk result (λ rows. rows.keys.keys ≡ []) }
        ensures columns { IfOk result (λ rows. rows.columns.items ≡ map no_column kinds.now) }
    {
        Ok(Rows {
            alloc,
            keys: IndexSet::new(alloc),
            columns: new_columns(alloc, kinds)?,
            changes: Vec::new(alloc),
        })
    }

    /// Where these keys stand, or are to stand.
    fn place(&self, keys: &ValueList) -> usize
        ensures { IsPlace self.now.keys.keys keys.now result }
    {
        let count = self.keys.len();
        match self.keys.get_index_of(keys) {
            Some(index) => index,
            None => count,
        }
    }

    /// Puts a new list of keys last, with no records yet.
    fn begin(&mut self, keys: ValueList) -> Result<(), AllocError>
        requires absent { list_any (is_same keys) self.old.keys.keys ≡ false }
        requires wide { AllHave (length self.old.keys.keys) self.old.columns.items }
        ensures keys { OnOk result (self.new.keys.keys ≡ self.old.keys.keys ++ keys ∷ []) }
        ensures columns { OnOk result (self.new.columns.items ≡ map begun self.old.columns.items) }
        ensures changes { self.new.changes ≡ self.old.changes }
        ensures err { OnErr result ((self.new.keys.keys ≡ self.old.keys.keys) × (self.new.columns.items ≡ self.old.columns.items)) }
    {
        let count = self.keys.len();
        begin_all(self.alloc, &mut self.columns, count)?;
        match insert_new(&mut self.keys, keys) {
            Ok(()) => Ok(()),
            Err(fault) => {
                cut_all(self.alloc, &mut self.columns, count);
                Err(fault)
            }
        }
    }

    /// Makes the changes that are at hand, at a place.
    fn settle(&mut self, place: usize, keys: &ValueList) -> Result<(), AllocError>
        requires place { IsPlace self.old.keys.keys keys.now place }
        requires wide { AllHave (length self.old.keys.keys) self.old.columns.items }
        requires changes { length self.old.changes.items ≡ length self.old.columns.items }
        ensures ok { OnOk result (IsPut self.old.keys.keys self.old.columns.items keys.now place self.old.changes.items self.new.keys.keys self.new.columns.items) }
        ensures err { OnErr result ((self.new.keys.keys ≡ self.old.keys.keys) × (self.new.columns.items ≡ self.old.columns.items)) }
    {
        if place == self.keys.len() {
            let copy = copy_values(self.alloc, keys)?;
            self.begin(copy)?;
        }
        apply_all(&mut self.columns, place, &mut self.changes);
        Ok(())
    }

    /// Adds a record.
    #[tactic(auto, using(crate::proofs::ColumnLemmas::length_changes))]
    pub fn add(&mut self, keys: &ValueList, arguments: &[Value]) -> Result<(), AllocError>
        requires arguments { length arguments.now ≡ length self.old.columns.items }
        requires wide { AllHave (length self.old.keys.keys) self.old.columns.items }
        ensures ok { OnOk result (IsAdded self.old.keys.keys self.old.columns.items keys.now (λ index. changes_by self.old.columns.items index arguments.now) self.new.keys.keys self.new.columns.items) }
        ensures err { OnErr result ((self.new.keys.keys ≡ self.old.keys.keys) × (self.new.columns.items ≡ self.old.columns.items)) }
    {
        let place = self.place(keys);
        all_changes(
            self.alloc,
            &self.columns,
            place,
            arguments,
            &mut self.changes,
        )?;
        self.settle(place, keys)
    }

    /// Adds a group of another table.
    #[tactic(auto, using(crate::proofs::ColumnLemmas::length_changes_from))]
    pub fn absorb(
        &mut self,
        keys: &ValueList,
        others: &[AggregateColumn],
        at: usize,
    ) -> Result<(), AllocError>
        requires others { length others.now ≡ length self.old.columns.items }
        requires wide { AllHave (length self.old.keys.keys) self.old.columns.items }
        ensures ok { OnOk result (IsAdded self.old.keys.keys self.old.columns.items keys.now (λ index. changes_from self.old.columns.items index others.now at) self.new.keys.keys self.new.columns.items) }
        ensures err { OnErr result ((self.new.keys.keys ≡ self.old.keys.keys) × (self.new.columns.items ≡ self.old.columns.items)) }
    {
        let place = self.place(keys);
        all_changes_from(
            self.alloc,
            &self.columns,
            place,
            others,
            at,
            &mut self.changes,
        )?;
        self.settle(place, keys)
    }
}
