// The rotated files of a stem that are there.
ghost use Rattle.std.specs.Prelude.{◌≡◌, ◌≤◌, ◌<◌, ◌^◌, ℕ, IfOk, OnOk, IfErr, IsErrOf};
ghost use Rattle.lp_model.specs.Outside.{OnlyGrow, Rose, Told};
ghost use Rattle.generations.specs.Ranges.{Has};
ghost use Rattle.generations.specs.There.{AreNumbers, AddsName, AreThere, IsUnlisted};
ghost use Rattle.generations.specs.declared.there.ThereFault.TheVariants as F;

use crate::generation_of;
use lp_outside::{Logs, LogsError, Name, NameFault, NameList};
use lp_values::bytes_to;
use std::alloc::{AllocError, AllocFailed, Global};
use std::collections::BTreeSet;

/// Numbers of rotated files.
pub type Numbers = BTreeSet<u64>;

/// Why the rotated files of a stem can't be listed.
#[derive(Drop)]
pub enum ThereFault {
    /// The names of its rotated files would be too long.
    BadName(NameFault),
    /// A call of the logs failed.
    Logs,
    /// Memory was refused.
    Memory,
}

impl From<AllocError> for ThereFault {
    ghost from_gives = { λ _ e. e ≡ F.Memory };

    fn from(_: AllocError) -> Self {
        ThereFault::Memory
    }
}

impl<T: Drop> From<AllocFailed<T>> for ThereFault {
    ghost from_gives = { λ _ e. e ≡ F.Memory };

    fn from(_: AllocFailed<T>) -> Self {
        ThereFault::Memory
    }
}

// Adds the number of a name, if it is that of a generation.
fn add_number(front: &[u8], name: &Name, numbers: &mut Numbers) -> Result<(), AllocError>
    ensures { OnOk result (AddsName front.now name.now numbers.old numbers.new) }
{
    match generation_of(front, name) {
        Some(number) => {
            numbers.insert(number)?;
            Ok(())
        }
        None => Ok(()),
    }
}

// The numbers of the generations among some names.
fn numbers_in(alloc: Global, front: &[u8], names: &NameList) -> Result<Numbers, AllocError>
    ensures { IfOk result (AreNumbers front.now names.now) }
{
    let mut numbers = Numbers::new(alloc);
    for name in names.as_slice() {
        add_number(front, name, &mut numbers)?;
    }
    Ok(numbers)
}

/// The numbers of a stem's rotated files that are there, all found by one call, however many there are.
pub fn numbers_there<L: Logs>(
    alloc: Global,
    logs: &mut L,
    stem: &Name,
) -> Result<Numbers, ThereFault>
    ensures grows { OnlyGrow (L.folder logs.old) (L.folder logs.new) }
    ensures given { L.given logs.new ≡ L.given logs.old }
    ensures later { L.faults logs.old ≤ L.faults logs.new }
    ensures steady { OnOk result (L.faults logs.new ≡ L.faults logs.old) }
    ensures ok { IfOk result (λ numbers. Told (L.folder logs.new) (λ folder. AreThere folder stem.now numbers)) }
    ensures bounded { IfOk result (λ numbers. (number : ℕ) → Has numbers number → (0 < number) × (number < 2 ^ 63)) }
    ensures unlisted { IfErr result (IsUnlisted stem.now) }
    ensures failed { IsErrOf result F.Logs → Rose (L.faults logs.old) (L.faults logs.new) }
    ensures wants { IsErrOf result F.Memory → L.faults logs.new ≡ L.faults logs.old }
{
    let pattern = match stem.with_suffix(".*") {
        Ok(pattern) => pattern,
        Err(fault) => return Err(ThereFault::BadName(fault)),
    };
    let found = match logs.names(alloc, &pattern) {
        Ok(found) => found,
        Err(LogsError::Failed) => return Err(ThereFault::Logs),
        Err(LogsError::Memory) => return Err(ThereFault::Memory),
    };
    let bytes = pattern.as_str().as_bytes();
    match numbers_in(alloc, bytes_to(bytes, bytes.len() - 1), &found) {
        Ok(numbers) => Ok(numbers),
        Err(_) => Err(ThereFault::Memory),
    }
}
