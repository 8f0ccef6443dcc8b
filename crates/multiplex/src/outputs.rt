// The outputs of a pattern, by the rows that were placed.
ghost use Rattle.std.specs.Prelude.{◌≡◌, ◌⊎◌, ◌<◌, ◌≤◌, ◌++◌, ◌∷◌, [], List, false, length, OnOk, OnErr, IfOk, IfErr, None, Some, slice_get, option_copied};
ghost use Rattle.lp_outside.specs.NameFault.{name_fault};
ghost use Rattle.lp_values.specs.declared.value.Value.{Value};
ghost use Rattle.indexmap.specs.IndexMap.{keys, values};
ghost use Rattle.log_listing.specs.Firsts.{is_among, with_name};
ghost use Rattle.multiplex.specs.Naming.{filled, stars};
ghost use Rattle.multiplex.specs.declared.place_fault.PlaceFault.TheVariants.{Memory};
ghost use Rattle.multiplex.specs.Placing.{index_among, after_row, IsNewName, CanBeAdded, IsReason, HasNoOutput, IsNoName, IsTaken, StandFor, indices_of};

use crate::PlaceFault;
use crate::output_name::OutputName;
use indexmap::{IndexMap, IndexSet};
use lp_outside::Name;
use lp_values::{Bytes, Text, Value, ValueList};
use std::alloc::{AllocError, Global};
use std::marker::Model;

// The most outputs of a query.
const MOST: usize = 10_000;

/// The outputs whose names rows make of a pattern with stars. What it is seen as is its pattern, the names that no output may
/// have, and the outputs' names by index.
#[derive(Drop)]
pub struct Outputs {
    alloc: Global,
    pattern: Text,
    forbidden: IndexSet<Text>,
    /// The outputs' names by index, each found under its own bytes.
    names: IndexMap<OutputName, Name>,
    /// The name of the row that is placed, and a value of it as it is printed; used again for each row.
    name: OutputName,
    printed: Bytes,
}

impl Model for Outputs {
    ghost use Rattle.std.specs.Prelude.{◌≡◌, ◌≤◌, length};
    ghost use Rattle.indexmap.specs.IndexMap.{keys, values};
    ghost use Rattle.multiplex.specs.Placing.{Numbering};

    ghost Value = { Numbering };

    ghost view = { λ o. record { pattern = o.pattern; forbidden = o.forbidden.keys; names = keys o.names } };

    ghost invariant = { λ o. (length (keys o.names) ≤ 10_000) × (values o.names ≡ keys o.names) };
}

// Whether an output may have a name.
fn check_free(alloc: Global, forbidden: &IndexSet<Text>, name: &str) -> Result<(), PlaceFault>
    ensures ok { OnOk result (is_among forbidden.now.keys name.now ≡ false) }
    ensures err { IfErr result (IsTaken forbidden.now.keys name.now) }
{
    let Ok(name) = Text::from_str(alloc, name) else {
        return Err(PlaceFault::Memory);
    };
    if forbidden.contains(&name) {
        return Err(PlaceFault::NameClash(name));
    }
    Ok(())
}

// How many values a pattern takes.
fn count_stars(pattern: &[u8]) -> usize
    ensures { result ≡ stars pattern.now }
{
    pattern.iter().filter(|byte| **byte == b'*').count()
}

// Reads bytes as a name. A name that values make of a text is UTF-8, as they are, but no clause of a value says so: bytes that
// aren't are answered as want of memory.
fn read_name(bytes: &[u8]) -> Result<Name, PlaceFault>
    ensures ok { IfOk result (λ name. (name ≡ bytes.now) × (name_fault bytes.now ≡ None)) }
    ensures err { IfErr result (IsNoName bytes.now) }
{
    let Ok(text) = str::from_utf8(bytes) else {
        return Err(PlaceFault::Memory);
    };
    match Name::read(text) {
        Ok(name) => Ok(name),
        Err(fault) => Err(PlaceFault::BadName(fault)),
    }
}

// Puts a name behind the others.
fn add_last(
    alloc: Global,
    names: &mut IndexMap<OutputName, Name>,
    key: &OutputName,
    name: Name,
) -> Result<u32, AllocError>
    requires new { is_among (keys names.old) key.now ≡ false }
    requires room { length (keys names.old) < 10_000 }
    ensures index { IfOk result (λ index. index ≡ length (keys names.old)) }
    ensures ok { OnOk result (names.new.entries ≡ names.old.entries ++ (key.now, name) ∷ []) }
    ensures err { OnErr result (names.new.entries ≡ names.old.entries) }
{
    let (index, _) = names.insert_full(key.copy(alloc)?, name)?;
    Ok(index as u32)
}

// Adds a new name, if it may be one.
fn add_name(
    alloc: Global,
    forbidden: &IndexSet<Text>,
    names: &mut IndexMap<OutputName, Name>,
    key: &OutputName,
) -> Result<u32, PlaceFault>
    requires new { is_among (keys names.old) key.now ≡ false }
    ensures index { IfOk result (λ index. index ≡ length (keys names.old)) }
    ensures names { OnOk result (names.new.entries ≡ names.old.entries ++ (key.now, key.now) ∷ []) }
    ensures may { OnOk result (CanBeAdded forbidden.now.keys (keys names.old) key.now) }
    ensures err { OnErr result (names.new.entries ≡ names.old.entries) }
    ensures why { IfErr result (IsReason forbidden.now.keys (keys names.old) key.now) }
{
    if names.len() >= MOST {
        return Err(PlaceFault::TooManyOutputs);
    }
    let name = read_name(key.as_slice())?;
    check_free(alloc, forbidden, name.as_str())?;
    match add_last(alloc, names, key, name) {
        Ok(index) => Ok(index),
        Err(_) => Err(PlaceFault::Memory),
    }
}

// The index of a name, which is added where it is new and may be one.
fn find_or_add(
    alloc: Global,
    forbidden: &IndexSet<Text>,
    names: &mut IndexMap<OutputName, Name>,
    key: &OutputName,
) -> Result<u32, PlaceFault>
    requires most { length (keys names.old) ≤ 10_000 }
    requires own { values names.old ≡ keys names.old }
    ensures index { IfOk result (λ index. index ≡ index_among (keys names.old) key.now) }
    ensures named { IfOk result (λ index. slice_get (keys names.new) index ≡ Some key.now) }
    ensures names { OnOk result (keys names.new ≡ with_name (keys names.old) key.now) }
    ensures own { values names.new ≡ keys names.new }
    ensures most { length (keys names.new) ≤ 10_000 }
    ensures new { OnOk result (is_among (keys names.old) key.now ≡ false → CanBeAdded forbidden.now.keys (keys names.old) key.now) }
    ensures err { OnErr result (names.new.entries ≡ names.old.entries) }
    ensures why { IfErr result (λ fault. (fault ≡ Memory) ⊎ ((is_among (keys names.old) key.now ≡ false) × IsReason forbidden.now.keys (keys names.old) key.now fault)) }
{
    match names.get_index_of(key) {
        Some(index) => Ok(index as u32),
        None => add_name(alloc, forbidden, names, key),
    }
}

impl Outputs {
    /// The outputs of a pattern, none yet.
    pub fn new(alloc: Global, pattern: &str) -> Result<Outputs, AllocError>
        ensures stand { IfOk result (λ outputs. StandFor outputs []) }
        ensures exact { IfOk result (λ outputs. outputs ≡ record { pattern = pattern.now; forbidden = []; names = [] }) }
    {
        Ok(Outputs {
            alloc,
            pattern: Text::from_str(alloc, pattern)?,
            forbidden: IndexSet::new(alloc),
            names: IndexMap::new(alloc),
            name: OutputName::new(alloc),
            printed: Bytes::new(alloc),
        })
    }

    /// No output may have this name from now on.
    pub fn forbid(&mut self, name: &Name) -> Result<(), AllocError>
        ensures ok { OnOk result (self.new ≡ record { pattern = self.old.pattern; forbidden = with_name self.old.forbidden name.now; names = self.old.names }) }
        ensures err { OnErr result (self.new ≡ self.old) }
    {
        self.forbidden
            .insert(Text::from_str(self.alloc, name.as_str())?)?;
        Ok(())
    }

    /// The name of an output.
    pub fn name(&self, index: u32) -> Option<&Name>
        ensures { option_copied result ≡ slice_get self.now.names index }
    {
        match self.names.get_index(index as usize) {
            Some((_, name)) => Some(name),
            None => None,
        }
    }

    /// How many outputs there are.
    pub fn len(&self) -> u32
        ensures { result ≡ length self.now.names }
    {
        self.names.len() as u32
    }

    /// How many values the name of an output takes.
    pub fn stars(&self) -> usize
        ensures { result ≡ stars self.now.pattern }
    {
        count_stars(self.pattern.as_str().as_bytes())
    }

    /// The index of the output of a row, of which these are the values for the stars. A new name gets the next index, if it may
    /// be one. A name that is known takes no memory, once the buffers have room.
    pub fn place(&mut self, row: &ValueList) -> Result<u32, PlaceFault>
        ensures index { IfOk result (λ index. index ≡ index_among self.old.names (filled self.old.pattern row.now)) }
        ensures named { IfOk result (λ index. slice_get self.new.names index ≡ Some (filled self.old.pattern row.now)) }
        ensures ok { OnOk result (self.new ≡ after_row self.old (filled self.old.pattern row.now)) }
        ensures new { OnOk result (IsNewName self.old (filled self.old.pattern row.now) → CanBeAdded self.old.forbidden self.old.names (filled self.old.pattern row.now)) }
        ensures err { OnErr result (self.new ≡ self.old) }
        ensures why { IfErr result (HasNoOutput self.old (filled self.old.pattern row.now)) }
        // The outputs stand for the rows so far, and the indices of those that were placed before stay.
        ensures stand { OnOk result ((rows : List (List Value)) → StandFor self.old rows → StandFor self.new (rows ++ row.now ∷ [])) }
        ensures indices { IfOk result (λ index. (rows : List (List Value)) → StandFor self.old rows → indices_of self.new (rows ++ row.now ∷ []) ≡ indices_of self.old rows ++ index ∷ []) }
    {
        self.place_values(row.as_slice())
    }

    /// The same, where the values stand in front of others, so that a row needs no copy.
    pub fn place_values(&mut self, values: &[Value]) -> Result<u32, PlaceFault>
        ensures index { IfOk result (λ index. index ≡ index_among self.old.names (filled self.old.pattern values.now)) }
        ensures named { IfOk result (λ index. slice_get self.new.names index ≡ Some (filled self.old.pattern values.now)) }
        ensures ok { OnOk result (self.new ≡ after_row self.old (filled self.old.pattern values.now)) }
        ensures new { OnOk result (IsNewName self.old (filled self.old.pattern values.now) → CanBeAdded self.old.forbidden self.old.names (filled self.old.pattern values.now)) }
        ensures err { OnErr result (self.new ≡ self.old) }
        ensures why { IfErr result (HasNoOutput self.old (filled self.old.pattern values.now)) }
    {
        let pattern = self.pattern.as_str().as_bytes();
        match self.name.fill(&mut self.printed, pattern, values) {
            Ok(()) => find_or_add(self.alloc, &self.forbidden, &mut self.names, &self.name),
            Err(_) => Err(PlaceFault::Memory),
        }
    }
}
