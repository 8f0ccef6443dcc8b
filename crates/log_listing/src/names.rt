// The names behind FROM, and the logs that they list.
ghost use Rattle.std.specs.Prelude.{◌≡◌, ◌≤◌, length, OnOk, IfOk, IfErr, IsErrOf, All};
ghost use Rattle.lp_model.specs.Outside.{OnlyGrow, Rose, Told};
ghost use Rattle.lp_outside.specs.Matching.{AreMatches};
ghost use Rattle.log_listing.specs.Firsts.{Knows};
ghost use Rattle.log_listing.specs.Listed.{Adds, StopsAt, Lists, Stops, IsFailure, IsListFault};
ghost use Rattle.log_listing.specs.Lengths.{IsLength, names_in};
ghost use Rattle.log_listing.specs.declared.fault.ListFault.TheVariants as F;

use crate::lengths::lengths_of;
use crate::listing::{FullFault, Listing};
use crate::{ListFault, NameLengths};
use lp_outside::{Logs, LogsError, Name, NameList};
use lp_values::TextList;
use std::alloc::Global;

// The files that a name matches.
fn matches_of<L: Logs>(alloc: Global, logs: &mut L, name: &Name) -> Result<NameList, ListFault>
    ensures grows { OnlyGrow (L.folder logs.old) (L.folder logs.new) }
    ensures given { L.given logs.new ≡ L.given logs.old }
    ensures later { L.faults logs.old ≤ L.faults logs.new }
    ensures ok { IfOk result (λ found. Told (L.folder logs.new) (λ files. AreMatches files name.now found)) }
    ensures stops { IfErr result IsFailure }
    ensures failed { IsErrOf result F.Logs → Rose (L.faults logs.old) (L.faults logs.new) }
{
    match logs.names(alloc, name) {
        Ok(found) => Ok(found),
        Err(LogsError::Failed) => Err(ListFault::Logs),
        Err(LogsError::Memory) => Err(ListFault::Memory),
    }
}

// Adds the logs that a text lists.
fn add_text<L: Logs>(
    alloc: Global,
    logs: &mut L,
    text: &str,
    listing: &mut Listing,
) -> Result<(), ListFault>
    requires knows { Knows listing.old.seen listing.old.names }
    requires few { length listing.old.names ≤ 100000 }
    ensures grows { OnlyGrow (L.folder logs.old) (L.folder logs.new) }
    ensures given { L.given logs.new ≡ L.given logs.old }
    ensures later { L.faults logs.old ≤ L.faults logs.new }
    ensures ok { OnOk result (Adds (L.folder logs.new) text.now listing.old.names listing.new.names) }
    ensures knows { OnOk result (Knows listing.new.seen listing.new.names) }
    ensures few { OnOk result (length listing.new.names ≤ 100000) }
    ensures stops { IfErr result (StopsAt (L.folder logs.new) text.now listing.old.names) }
    ensures failed { IsErrOf result F.Logs → Rose (L.faults logs.old) (L.faults logs.new) }
{
    let name = match Name::read(text) {
        Ok(name) => name,
        Err(fault) => return Err(ListFault::BadName(fault)),
    };
    let found = matches_of(alloc, logs, &name)?;
    if found.len() == 0 {
        return Err(ListFault::NoSuchLog(name));
    }
    match listing.add_all(&found) {
        Ok(()) => Ok(()),
        Err(FullFault::TooMany) => Err(ListFault::TooManyLogs),
        Err(FullFault::Memory) => Err(ListFault::Memory),
    }
}

// The logs that texts list.
fn names_of<L: Logs>(alloc: Global, logs: &mut L, texts: &TextList) -> Result<NameList, ListFault>
    ensures grows { OnlyGrow (L.folder logs.old) (L.folder logs.new) }
    ensures given { L.given logs.new ≡ L.given logs.old }
    ensures later { L.faults logs.old ≤ L.faults logs.new }
    ensures ok { IfOk result (Lists (L.folder logs.new) texts.now) }
    ensures few { IfOk result (λ names. length names ≤ 100000) }
    ensures stops { IfErr result (Stops (L.folder logs.new) texts.now) }
    ensures failed { IsErrOf result F.Logs → Rose (L.faults logs.old) (L.faults logs.new) }
{
    let mut listing = Listing::new(alloc);
    for text in texts.as_slice() {
        add_text(alloc, logs, text.as_str(), &mut listing)?;
    }
    let Listing { names, seen: _ } = listing;
    Ok(names)
}

/// Lists the logs that texts behind FROM name, one after the other, each log at its first place, with its length.
pub fn list_logs<L: Logs>(
    alloc: Global,
    logs: &mut L,
    texts: &TextList,
) -> Result<NameLengths, ListFault>
    ensures grows { OnlyGrow (L.folder logs.old) (L.folder logs.new) }
    ensures given { L.given logs.new ≡ L.given logs.old }
    ensures later { L.faults logs.old ≤ L.faults logs.new }
    ensures listed { IfOk result (λ found. Lists (L.folder logs.new) texts.now (names_in found)) }
    ensures few { IfOk result (λ found. length found ≤ 100000) }
    ensures lengths { IfOk result (All (IsLength (L.folder logs.old) (L.folder logs.new))) }
    ensures refused { IfErr result (IsListFault (L.folder logs.new) texts.now) }
    ensures failed { IsErrOf result F.Logs → Rose (L.faults logs.old) (L.faults logs.new) }
{
    let names = names_of(alloc, logs, texts)?;
    lengths_of(alloc, logs, &names)
}
