// Logs and how long they are.
ghost use Rattle.std.specs.Prelude.{◌≡◌, ◌≤◌, ◌^◌, ◌∷◌, [], IfOk, IfErr, IsErrOf};
ghost use Rattle.lp_model.specs.Outside.{OnlyGrow, Rose};
ghost use Rattle.log_listing.specs.Lengths.{AreLengths, IsLengthNow, IsGone};
ghost use Rattle.log_listing.specs.declared.fault.ListFault.TheVariants as F;

use crate::ListFault;
use lp_outside::{Logs, Name, NameList};
use lp_values::ListOf;
use std::alloc::Global;

/// A log, and how long it is.
#[derive(Drop)]
pub struct NameLength {
    pub name: Name,
    pub length: u64,
}

/// Logs, in an order of their own.
pub type NameLengths = ListOf<NameLength>;

// How long a log is.
fn length_of<L: Logs>(logs: &mut L, name: &Name) -> Result<u64, ListFault>
    ensures grows { OnlyGrow (L.folder logs.old) (L.folder logs.new) }
    ensures given { L.given logs.new ≡ L.given logs.old }
    ensures later { L.faults logs.old ≤ L.faults logs.new }
    ensures ok { IfOk result (IsLengthNow (L.folder logs.new) name.now) }
    ensures bounded { IfOk result (λ count. count ≤ 2 ^ 46) }
    ensures gone { IfErr result (IsGone (L.folder logs.new) (name.now ∷ [])) }
    ensures failed { IsErrOf result F.Logs → Rose (L.faults logs.old) (L.faults logs.new) }
{
    match logs.length(name) {
        Ok(Some(length)) => Ok(length),
        Ok(None) => Err(ListFault::NoSuchLog(name.copy())),
        Err(_) => Err(ListFault::Logs),
    }
}

/// The names with their lengths.
pub fn lengths_of<L: Logs>(
    alloc: Global,
    logs: &mut L,
    names: &NameList,
) -> Result<NameLengths, ListFault>
    ensures grows { OnlyGrow (L.folder logs.old) (L.folder logs.new) }
    ensures given { L.given logs.new ≡ L.given logs.old }
    ensures later { L.faults logs.old ≤ L.faults logs.new }
    ensures ok { IfOk result (AreLengths (L.folder logs.old) (L.folder logs.new) names.now) }
    ensures gone { IfErr result (IsGone (L.folder logs.new) names.now) }
    ensures failed { IsErrOf result F.Logs → Rose (L.faults logs.old) (L.faults logs.new) }
{
    let mut list = NameLengths::new(alloc);
    for name in names.as_slice() {
        let length = length_of(logs, name)?;
        list.push(NameLength {
            name: name.copy(),
            length,
        })?;
    }
    Ok(list)
}
