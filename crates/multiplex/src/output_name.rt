// The name of an output, as it is looked up.
ghost use Rattle.std.specs.Prelude.{◌≡◌, ℕ, List, [], nat_eq, IfOk, OnOk};
ghost use Rattle.std.proofs.Common.{rules};
ghost use Rattle.std.specs.Cmp.{partial_equiv_from_equiv};
ghost use Rattle.std.specs.Cmp.Lexicographic.{pointwise, nat_list_eq_equiv};
ghost use Rattle.std.specs.Cmp.Rules.{hashing};
ghost use Rattle.std.specs.Hash as fed;
ghost use Rattle.multiplex.specs.Naming.{filled};

use crate::filling::fill;
use lp_values::{Bytes, Value};
use std::alloc::{AllocError, Global};
use std::hash::{Hash, Hasher};
use std::marker::Model;

/// The name of an output, equal and hashed by its bytes. One is filled again for each row, so that a name that is known is
/// looked up without a copy.
#[derive(Drop)]
pub struct OutputName {
    bytes: Bytes,
}

impl Model for OutputName {
    ghost Value = { List ℕ };

    ghost view = { λ o. o.bytes };
}

impl OutputName {
    pub fn new(alloc: Global) -> OutputName
        ensures { result ≡ [] }
    {
        OutputName {
            bytes: Bytes::new(alloc),
        }
    }

    /// Makes it the name that values make of a pattern.
    pub fn fill(
        &mut self,
        printed: &mut Bytes,
        pattern: &[u8],
        values: &[Value],
    ) -> Result<(), AllocError>
        ensures { OnOk result (self.new ≡ filled pattern.now values.now) }
    {
        fill(&mut self.bytes, printed, pattern, values)
    }

    pub fn copy(&self, alloc: Global) -> Result<OutputName, AllocError>
        ensures { IfOk result (λ copy. copy ≡ self.now) }
    {
        let mut bytes = Bytes::new(alloc);
        bytes.add(self.bytes.as_slice())?;
        Ok(OutputName { bytes })
    }

    pub fn as_slice(&self) -> &[u8]
        ensures { result.now ≡ self.now }
    {
        self.bytes.as_slice()
    }
}

impl PartialEq for OutputName {
    ghost eq = { pointwise nat_eq };

    ghost laws = { partial_equiv_from_equiv nat_list_eq_equiv };

    fn eq(&self, other: &Self) -> bool {
        self.as_slice() == other.as_slice()
    }
}

impl Eq for OutputName {
    ghost laws = { nat_list_eq_equiv };
}

impl Hash for OutputName {
    ghost hash_input = { fed.slice fed.u8 };

    ghost respects_eq = { Prim.search (hashing, rules) };

    fn hash<H: Hasher>(&self, state: &mut H) {
        self.as_slice().hash(state);
    }
}
