// What is remembered of values that come one by one.
ghost use Rattle.std.specs.Prelude.{◌≡◌, [], true, IfOk, IsOk, OnOk};
ghost use Rattle.std.specs.List.{list_any};
ghost use Rattle.indexmap.specs.IndexSet.{insert_key};
ghost use Rattle.list_run.specs.Keeping.{same_value};
ghost use Rattle.list_run.specs.Gathering.{keep_in, kept_more, list_in, remembered_of, remembering};
ghost use Rattle.list_run.specs.declared.keep.Keep.TheVariants as K;

use crate::Keep;
use in_set::InSet;
use indexmap::IndexSet;
use lp_values::{Value, ValueList};
use std::alloc::{AllocError, Global};
use std::marker::Model;

type ValueSet = IndexSet<Value>;

#[derive(Drop)]
enum Store {
    Nothing,
    All(ValueList),
    Distinct(ValueSet),
}

// Puts a value among others, unless it stands there.
fn put_first(seen: &mut ValueSet, alloc: Global, value: &Value) -> Result<(), AllocError>
    ensures put { OnOk result (seen.new.keys ≡ insert_key same_value seen.old.keys value.now) }
    // A value that stands there fails for no want of memory: it is looked up before it is copied.
    ensures known { list_any (same_value value.now) seen.old.keys ≡ true → IsOk result × (seen.new.keys ≡ seen.old.keys) }
{
    if seen.contains(value) {
        return Ok(());
    }
    seen.insert(value.copy(alloc)?)?;
    Ok(())
}

// The values of a set, in their order.
fn values_in(alloc: Global, seen: ValueSet) -> Result<ValueList, AllocError>
    ensures { IfOk result (λ list. list ≡ seen.keys) }
{
    let mut list = ValueList::with_capacity(alloc, seen.len())?;
    for value in seen {
        list.push(value)?;
    }
    Ok(list)
}

impl Store {
    fn put(&mut self, alloc: Global, value: &Value) -> Result<(), AllocError>
        ensures keep { keep_in self.new ≡ keep_in self.old }
        ensures list { OnOk result (list_in self.new ≡ kept_more (keep_in self.old) (list_in self.old) value.now) }
        ensures known { keep_in self.old ≡ K.Distinct → list_any (same_value value.now) (list_in self.old) ≡ true → IsOk result × (list_in self.new ≡ list_in self.old) }
    {
        match self {
            Store::Nothing => Ok(()),
            Store::All(list) => {
                list.push(value.copy(alloc)?)?;
                Ok(())
            }
            Store::Distinct(seen) => put_first(seen, alloc, value),
        }
    }

    fn into_list(self, alloc: Global) -> Result<ValueList, AllocError>
        ensures { IfOk result (λ list. list ≡ list_in self) }
    {
        match self {
            Store::Nothing => Ok(ValueList::new(alloc)),
            Store::All(list) => Ok(list),
            Store::Distinct(seen) => values_in(alloc, seen),
        }
    }
}

/// The set of the values that a subquery gives, and the list of them that is kept.
#[derive(Drop)]
pub struct Gathered {
    values: InSet,
    store: Store,
}

impl Model for Gathered {
    ghost use Rattle.list_run.specs.Gathering.{Remembered, keep_in, list_in};

    ghost Value = { Remembered };

    ghost view = { λ g. record { facts = g.values; keep = keep_in g.store; list = list_in g.store } };
}

impl Gathered {
    /// Nothing yet.
    pub fn new(alloc: Global, keep: Keep) -> Gathered
        ensures { result ≡ remembered_of keep [] }
    {
        let store = match keep {
            Keep::Nothing => Store::Nothing,
            Keep::All => Store::All(ValueList::new(alloc)),
            Keep::Distinct => Store::Distinct(IndexSet::new(alloc)),
        };
        Gathered {
            values: InSet::new(alloc),
            store,
        }
    }

    /// Takes one value more.
    pub fn add(&mut self, alloc: Global, value: Value) -> Result<(), AllocError>
        ensures { OnOk result (self.new ≡ remembering self.old value) }
    {
        self.store.put(alloc, &value)?;
        self.values.add(value)
    }

    /// The set, and the list that is kept.
    pub fn into_parts(self, alloc: Global) -> Result<(InSet, ValueList), AllocError>
        ensures values { IfOk result (λ parts. parts.0 ≡ self.facts) }
        ensures kept { IfOk result (λ parts. parts.1 ≡ self.list) }
    {
        let Gathered { values, store } = self;
        let list = store.into_list(alloc)?;
        Ok((values, list))
    }
}
