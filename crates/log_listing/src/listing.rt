// Names, each once.
ghost use Rattle.std.specs.Prelude.{◌≡◌, ◌≤◌, ◌<◌, [], length, OnOk, IsErrOf};
ghost use Rattle.log_listing.specs.Firsts.{with_name, with_names, Knows};
ghost use Rattle.log_listing.specs.declared.listing.FullFault.TheVariants as F;

use lp_outside::{Name, NameList};
use std::alloc::{AllocError, AllocFailed, Global};
use std::collections::BTreeSet;

// The most logs of a list.
const MOST_LOGS: usize = 100_000;

/// Why a name isn't added.
#[derive(Drop)]
pub enum FullFault {
    /// There are 100,000 others.
    TooMany,
    /// Memory was refused.
    Memory,
}

impl From<AllocError> for FullFault {
    ghost from_gives = { λ _ e. e ≡ F.Memory };

    fn from(_: AllocError) -> Self {
        FullFault::Memory
    }
}

impl<T: Drop> From<AllocFailed<T>> for FullFault {
    ghost from_gives = { λ _ e. e ≡ F.Memory };

    fn from(_: AllocFailed<T>) -> Self {
        FullFault::Memory
    }
}

/// Names, each once, in the order in which they came.
#[derive(Drop)]
pub struct Listing {
    pub names: NameList,
    // The same names, to be looked up.
    pub seen: BTreeSet<Name>,
}

impl Listing {
    pub fn new(alloc: Global) -> Listing
        ensures names { result.names ≡ [] }
        ensures knows { Knows result.seen result.names }
    {
        Listing {
            names: NameList::new(alloc),
            seen: BTreeSet::new(alloc),
        }
    }

    // Adds a name, unless it is there.
    fn add(&mut self, name: &Name) -> Result<(), FullFault>
        requires knows { Knows self.old.seen self.old.names }
        requires few { length self.old.names ≤ 100000 }
        ensures ok { OnOk result (self.new.names ≡ with_name self.old.names name.now) }
        ensures knows { OnOk result (Knows self.new.seen self.new.names) }
        ensures few { OnOk result (length self.new.names ≤ 100000) }
        ensures many { IsErrOf result F.TooMany → 100000 < length (with_name self.old.names name.now) }
    {
        if !self.seen.insert(name.copy())? {
            return Ok(());
        }
        if self.names.len() >= MOST_LOGS {
            return Err(FullFault::TooMany);
        }
        self.names.push(name.copy())?;
        Ok(())
    }

    /// Adds names, each unless it is there.
    pub fn add_all(&mut self, names: &NameList) -> Result<(), FullFault>
        requires knows { Knows self.old.seen self.old.names }
        requires few { length self.old.names ≤ 100000 }
        ensures ok { OnOk result (self.new.names ≡ with_names self.old.names names.now) }
        ensures knows { OnOk result (Knows self.new.seen self.new.names) }
        ensures few { OnOk result (length self.new.names ≤ 100000) }
        ensures many { IsErrOf result F.TooMany → 100000 < length (with_names self.old.names names.now) }
    {
        for name in names.as_slice() {
            self.add(name)?;
        }
        Ok(())
    }
}
