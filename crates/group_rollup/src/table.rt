// Groups of records.
ghost use Rattle.std.specs.Prelude.{◌≡◌, ◌<◌, ◌+◌, ◌^◌, ◌∷◌, ◌++◌, [], ℕ, Bool, List, length, OnOk, OnErr, IfOk};
ghost use Rattle.lp_values.specs.declared.group.AggKind.{AggKind as Asks};
ghost use Rattle.group_rollup.specs.Groups.{Record, grouped, keys_of};
ghost use Rattle.group_rollup.specs.Tables.{Holds};

use crate::column::are_small;
use crate::rows::Rows;
use lp_values::{AggKind, AggList, GroupRows, ValueList};
use std::alloc::{AllocError, Global};
use std::marker::Model;

/// The groups of the records that were added: each list of keys, in the order in which they first came.
#[derive(Drop)]
pub struct Groups {
    width: u32,
    kinds: Vec<AggKind>,
    rollup: bool,
    rows: Rows,
    records: u64,
}

impl Model for Groups {
    ghost use Rattle.std.specs.Prelude.{◌≡◌, ◌<◌, ◌^◌, length};
    ghost use Rattle.group_rollup.specs.Columns.{AllHave};
    ghost use Rattle.group_rollup.specs.Tables.{Table};

    ghost Value = { Table };

    ghost view = { λ g. record { width = g.width; kinds = g.kinds.items; rollup = g.rollup; keys = g.rows.keys.keys; columns = g.rows.columns.items; records = g.records } };

    ghost invariant = { λ g. AllHave (length g.rows.keys.keys) g.rows.columns.items × (length g.rows.columns.items ≡ length g.kinds.items) × (g.records < 2 ^ 63) };
}

fn copy_kinds(alloc: Global, kinds: &AggList) -> Result<Vec<AggKind>, AllocError>
    ensures { IfOk result (λ copy. copy.items ≡ kinds.now) }
{
    kinds.as_slice().to_vec(alloc)
}

impl Groups {
    /// With rollup there are the groups of each shorter list of keys too.
    pub fn new(
        alloc: Global,
        keys: u32,
        aggregates: &AggList,
        rollup: bool,
    ) -> Result<Groups, AllocError>
        ensures { IfOk result (λ groups. Holds keys aggregates.now rollup groups []) }
    {
        Ok(Groups {
            width: keys,
            kinds: copy_kinds(alloc, aggregates)?,
            rollup,
            rows: Rows::new(alloc, aggregates.as_slice())?,
            records: 0,
        })
    }

    /// Adds a record. A list of keys that is there is found without a copy of it.
    pub fn add(&mut self, keys: &ValueList, arguments: &ValueList) -> Result<(), AllocError>
        requires keys { length keys.now ≡ self.old.width }
        requires arguments { length arguments.now ≡ length self.old.kinds }
        requires few { self.old.records + 1 < 2 ^ 63 }
        ensures ok { OnOk result ((width : ℕ) (kinds : List Asks) (rollup : Bool) (records : List Record) → Holds width kinds rollup self.old records → Holds width kinds rollup self.new (records ++ (keys.now, arguments.now) ∷ [])) }
        ensures shape { (self.new.width ≡ self.old.width) × (self.new.kinds ≡ self.old.kinds) }
        ensures count { OnOk result (self.new.records ≡ self.old.records + 1) }
        ensures err { OnErr result (self.new ≡ self.old) }
    {
        are_small(arguments.as_slice());
        self.rows.add(keys, arguments.as_slice())?;
        self.records += 1;
        Ok(())
    }

    /// The groups of all keys in the order in which they first came, and with rollup those of each shorter list of keys.
    pub fn rows(&self) -> Result<GroupRows, AllocError>
        ensures { IfOk result (λ rows. (width : ℕ) (kinds : List Asks) (rollup : Bool) (records : List Record) → Holds width kinds rollup self.now records → rows ≡ grouped width kinds rollup records) }
    {
        let mut rows = GroupRows::new(self.rows.alloc);
        self.rows
            .hand_out_level(&self.kinds, self.records, self.width, 0, &mut rows)?;
        if !self.rollup {
            return Ok(rows);
        }
        self.rows
            .roll_up(&self.kinds, self.records, self.width, &mut rows)?;
        Ok(rows)
    }

    /// How many distinct lists of keys were added.
    pub fn held(&self) -> u64
        ensures { (width : ℕ) (kinds : List Asks) (rollup : Bool) (records : List Record) → Holds width kinds rollup self.now records → result ≡ length (keys_of width records) }
    {
        self.rows.keys.len() as u64
    }
}
