// The groups of shorter lists of keys.
ghost use Rattle.std.specs.Prelude.{◌≡◌, ◌≤◌, ◌++◌, ℕ, List, length, take, IfOk, OnOk};
ghost use Rattle.group_rollup.specs.Groups.{Record, shorter};
ghost use Rattle.group_rollup.specs.HandedOut.{handed};
ghost use Rattle.group_rollup.specs.Tables.{Keeps, Stands};

use crate::rows::Rows;
use lp_values::{AggKind, GroupRows, Value, ValueList};
use std::alloc::{AllocError, Global};

/// The first keys.
fn front(keys: &ValueList, count: usize) -> &[Value]
    ensures { result.now ≡ take count keys.now }
{
    let keys = keys.as_slice();
    if count < keys.len() {
        &keys[..count]
    } else {
        keys
    }
}

fn copy_slice(alloc: Global, values: &[Value]) -> Result<ValueList, AllocError>
    ensures { IfOk result (λ copy. copy ≡ values.now) }
{
    let mut copy = ValueList::with_capacity(alloc, values.len())?;
    for value in values {
        copy.push(value.copy(alloc)?)?;
    }
    Ok(copy)
}

impl Rows {
    /// Appends the rows of a table of the first keys; of no keys there is one group, even without records.
    pub fn hand_out_level(
        &self,
        kinds: &[AggKind],
        all: u64,
        count: u32,
        dropped: u32,
        rows: &mut GroupRows,
    ) -> Result<(), AllocError>
        requires { length self.now.columns.items ≡ length kinds.now }
        ensures { OnOk result (rows.new ≡ rows.old ++ handed count dropped kinds.now all self.now.columns.items self.now.keys.keys) }
    {
        if count == 0 && self.keys.is_empty() {
            rows.push(self.row_of_none(kinds, all, dropped)?)
        } else {
            self.hand_out(kinds, all, dropped, rows)
        }
    }

    /// A table of the first keys, made of the groups of all keys, not of the records.
    fn level(&self, kinds: &[AggKind], count: u32) -> Result<Rows, AllocError>
        requires { length self.now.columns.items ≡ length kinds.now }
        ensures columns { IfOk result (λ level. length level.columns.items ≡ length kinds.now) }
        ensures keeps { IfOk result (λ level. (width all : ℕ) (records : List Record) → count ≤ width → Stands width kinds.now self.now.keys.keys self.now.columns.items all records → Keeps count kinds.now level.keys.keys level.columns.items records) }
    {
        let mut level = Rows::new(self.alloc, kinds)?;
        for index in 0..self.keys.len() {
            let keys = self.keys.get_index(index).unwrap();
            let prefix = copy_slice(self.alloc, front(keys, count as usize))?;
            level.absorb(&prefix, &self.columns, index)?;
        }
        Ok(level)
    }

    /// Appends the rows of each shorter list of keys, the longer ones first.
    pub fn roll_up(
        &self,
        kinds: &[AggKind],
        all: u64,
        width: u32,
        rows: &mut GroupRows,
    ) -> Result<(), AllocError>
        requires { length self.now.columns.items ≡ length kinds.now }
        ensures { OnOk result ((records : List Record) → Stands width kinds.now self.now.keys.keys self.now.columns.items all records → rows.new ≡ rows.old ++ shorter width kinds.now records width) }
    {
        let mut left = width;
        while left > 0 {
            left -= 1;
            let level = self.level(kinds, left)?;
            level.hand_out_level(kinds, all, left, width - left, rows)?;
        }
        Ok(())
    }
}
