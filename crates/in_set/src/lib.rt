//! Whether a value is in a list, as IN asks.
//!
//! `InSet` takes values one by one, and `holds` answers exactly the OR of the equalities with each of them, by three-valued truth:
//! Yes where one is equal, else Unknown where one can't be compared, else No; of no values No. It looks up by hashing, so a long
//! list takes no longer than a short one. A refused `add` changes nothing.
#![tactic(auto)]

ghost use Rattle.std.specs.Prelude.{◌≡◌, ◌++◌, ◌∷◌, [], List, false, ◌||◌, OnOk, OnErr};
ghost use Rattle.std.specs.List.{list_any};
ghost use Rattle.lp_values.specs.declared.value.Value.{Value as Seen};
ghost use Rattle.std.specs.Ordering.{int_eq};
ghost use Rattle.in_set.specs.Facts.{StandsFor, facts_of, found, in_list, verdict, with_value, has_any};

use indexmap::IndexSet;
use lp_values::{Text, Truth, Value};
use std::alloc::{AllocError, Global};
use std::marker::Model;

/// The values of a list, each once; NULLs are one fact.
#[derive(Drop)]
pub struct InSet {
    numbers: IndexSet<i128>,
    texts: IndexSet<Text>,
    stamps: IndexSet<i64>,
    nulls: bool,
}

impl Model for InSet {
    ghost use Rattle.in_set.specs.Facts.{Facts};

    ghost Value = { Facts };

    ghost view = { λ s. record { numbers = s.numbers.keys; texts = s.texts.keys; stamps = s.stamps.keys; nulls = s.nulls } };
}

fn verdict(equal: bool, others: bool) -> Truth
    ensures { result ≡ verdict equal others }
{
    if equal {
        Truth::Yes
    } else if others {
        Truth::Unknown
    } else {
        Truth::No
    }
}

impl InSet {
    pub fn new(alloc: Global) -> InSet
        ensures stands { StandsFor result [] }
        ensures none { result ≡ facts_of [] }
    {
        InSet {
            numbers: IndexSet::new(alloc),
            texts: IndexSet::new(alloc),
            stamps: IndexSet::new(alloc),
            nulls: false,
        }
    }

    /// Takes one value more. An `Err` changes nothing.
    pub fn add(&mut self, value: Value) -> Result<(), AllocError>
        ensures stands { OnOk result ((values : List Seen) → StandsFor self.old values → StandsFor self.new (values ++ value ∷ [])) }
        ensures one { OnOk result (self.new ≡ with_value self.old value) }
        ensures err { OnErr result (self.new ≡ self.old) }
    {
        self.remember(value)
    }

    fn remember(&mut self, value: Value) -> Result<(), AllocError>
        ensures ok { OnOk result (self.new ≡ with_value self.old value) }
        ensures err { OnErr result (self.new ≡ self.old) }
    {
        match value {
            Value::Null => self.nulls = true,
            Value::Int(number) => {
                self.numbers.insert(i128::from(number) * 1_000_000)?;
            }
            Value::Real(number) => {
                self.numbers.insert(i128::from(number.millionths))?;
            }
            Value::Text(text) => {
                self.texts.insert(text)?;
            }
            Value::Stamp(stamp) => {
                self.stamps.insert(stamp.seconds)?;
            }
        }
        Ok(())
    }

    fn has_number(&self, number: i128) -> Truth
        ensures { result ≡ verdict (list_any (int_eq number) self.now.numbers) (self.now.nulls || (has_any self.now.texts || has_any self.now.stamps)) }
    {
        verdict(
            self.numbers.contains(&number),
            self.nulls || !self.texts.is_empty() || !self.stamps.is_empty(),
        )
    }

    /// The OR of the equalities with each value.
    pub fn holds(&self, value: &Value) -> Truth
        ensures holds { (values : List Seen) → StandsFor self.now values → result ≡ in_list value.now values }
        ensures found { result ≡ found self.now value.now }
    {
        self.find(value)
    }

    fn find(&self, value: &Value) -> Truth
        ensures { result ≡ found self.now value.now }
    {
        match value {
            Value::Null => verdict(
                false,
                self.nulls
                    || !self.numbers.is_empty()
                    || !self.texts.is_empty()
                    || !self.stamps.is_empty(),
            ),
            Value::Int(number) => self.has_number(i128::from(*number) * 1_000_000),
            Value::Real(number) => self.has_number(i128::from(number.millionths)),
            Value::Text(text) => verdict(
                self.texts.contains(text),
                self.nulls || !self.numbers.is_empty() || !self.stamps.is_empty(),
            ),
            Value::Stamp(stamp) => verdict(
                self.stamps.contains(&stamp.seconds),
                self.nulls || !self.numbers.is_empty() || !self.texts.is_empty(),
            ),
        }
    }
}
