// The kept places of a ledger.
ghost use Rattle.std.specs.Prelude.{◌≡◌, ℕ, List, [], ◌∷◌, ◌++◌, length, flat_map, None, MatchResult};
ghost use Rattle.std.specs.List.{AllByRecursion};
ghost use Rattle.std.specs.Option.{option_copied};
ghost use Rattle.ledger_model.specs.Entries.{Entry};
ghost use Rattle.ledger_model.specs.Ledgers.{Pair, IsPair, spelled_pair};
ghost use Rattle.ledger.specs.Reader.{Rests, Holds, left_of};
ghost use Rattle.ledger.specs.Walking.{IsEnd};
ghost use Rattle.positions.specs.Faults.{IsNoFault, HasLoadReason};
ghost use Rattle.positions.specs.Places.{Keeps, kept_of, place_in};
ghost use Rattle.positions.specs.Loads.{entries_of, KeepsLedger, RefusedLoad};

use crate::entries::take_entry;
use crate::fields::take_number;
use crate::places::Places;
use crate::{LoadFault, Place};
use ledger::{End, EntryReader, walk};
use lp_outside::{Disk, Name};
use lp_values::Bytes;
use std::alloc::Global;
use std::marker::Model;

/// The bytes of a ledger in front of its first pair.
const FIRST: u64 = 16;

/// The bytes of a pair in front of its body: the gate and the done byte.
const GATE: u64 = 2;

/// Where runs left their logs, and how they read them.
#[derive(Drop)]
pub struct Positions {
    pub(crate) input: Option<Bytes>,
    pub(crate) places: Places,
}

impl Model for Positions {
    ghost use Rattle.positions.specs.Places.{Kept};

    ghost Value = { Kept };

    ghost view = { λ p. record { input = p.input; places = p.places.entries } };
}

// Takes the places of the entry at a place, and answers the place behind it.
fn take_pair<D: Disk>(
    alloc: Global,
    disk: &mut D,
    ledger: &Name,
    place: u64,
    to: u64,
    input: &mut Option<Bytes>,
    places: &mut Places,
) -> Result<u64, LoadFault>
    ensures takes { (file : List ℕ) (entries : List Entry) (pair : Pair) (more : List ℕ) → Holds (D.state disk.old) ledger.now file → IsPair pair → Keeps entries (kept_of input.old places.old.entries) → left_of file to place ≡ spelled_pair pair ++ more
        → MatchResult result (λ next. (left_of file to next ≡ more) × Keeps (entries ++ pair.entry ∷ []) (kept_of input.new places.new.entries)) IsNoFault }
    ensures rests { Rests (D.state disk.old) (D.state disk.new) }
    ensures reason { HasLoadReason (D.faults disk.old) (D.faults disk.new) result }
{
    let mut reader = EntryReader::new(place.saturating_add(GATE), to);
    let size = take_number(disk, ledger, &mut reader)?;
    let next = reader.place().saturating_add(size);
    take_entry(alloc, disk, ledger, &mut reader, to, input, places)?;
    Ok(next)
}

// Takes the places of so many entries, which end at a place.
fn take_pairs<D: Disk>(
    alloc: Global,
    disk: &mut D,
    ledger: &Name,
    count: u64,
    to: u64,
    input: &mut Option<Bytes>,
    places: &mut Places,
) -> Result<(), LoadFault>
    ensures takes { (file : List ℕ) (pairs : List Pair) → Holds (D.state disk.old) ledger.now file → AllByRecursion IsPair pairs → length pairs ≡ count → Keeps [] (kept_of input.old places.old.entries) → left_of file to 16 ≡ flat_map spelled_pair pairs
        → MatchResult result (λ _. Keeps (entries_of pairs) (kept_of input.new places.new.entries)) IsNoFault }
    ensures rests { Rests (D.state disk.old) (D.state disk.new) }
    ensures reason { HasLoadReason (D.faults disk.old) (D.faults disk.new) result }
{
    let mut place = FIRST;
    for _index in 0..count {
        place = take_pair(alloc, disk, ledger, place, to, input, places)?;
    }
    Ok(())
}

impl Positions {
    /// The kept places of a ledger. Its entries are read once more behind the walk that tells whether it is whole; memory is
    /// asked for behind that walk, so want of it is told only of a ledger that fits.
    pub fn load<D: Disk>(alloc: Global, disk: &mut D, ledger: &Name) -> Result<Positions, LoadFault>
        ensures loads { (file : List ℕ) → Holds (D.state disk.old) ledger.now file → MatchResult result (KeepsLedger file) (RefusedLoad file) }
        ensures rests { Rests (D.state disk.old) (D.state disk.new) }
        ensures reason { HasLoadReason (D.faults disk.old) (D.faults disk.new) result }
    {
        let end = walk(disk, ledger)?;
        Positions::load_up_to(alloc, disk, ledger, end)
    }

    /// The kept places of a ledger whose end is known, which isn't walked: only the fields up to its entries' spans are read.
    pub fn load_up_to<D: Disk>(
        alloc: Global,
        disk: &mut D,
        ledger: &Name,
        end: End,
    ) -> Result<Positions, LoadFault>
        ensures loads { (file : List ℕ) → Holds (D.state disk.old) ledger.now file → IsEnd file end → MatchResult result (KeepsLedger file) (RefusedLoad file) }
        ensures rests { Rests (D.state disk.old) (D.state disk.new) }
        ensures reason { HasLoadReason (D.faults disk.old) (D.faults disk.new) result }
    {
        let mut input = None;
        let mut places = Places::new(alloc);
        take_pairs(
            alloc,
            disk,
            ledger,
            end.entries,
            end.pair,
            &mut input,
            &mut places,
        )?;
        Ok(Positions { input, places })
    }

    /// How the first run of the ledger read its logs.
    pub fn input(&self) -> Option<&[u8]>
        ensures { option_copied result ≡ self.now.input }
    {
        match &self.input {
            Some(input) => Some(input.as_slice()),
            None => None,
        }
    }

    /// Where the last run that read a log left it.
    pub fn place(&self, identity: &Name) -> Option<&Place>
        ensures { option_copied result ≡ place_in self.now.places identity.now }
    {
        match self.places.get(identity) {
            Some(Some(place)) => Some(place),
            _ => None,
        }
    }
}
