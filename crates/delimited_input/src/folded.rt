// The name of a column, as it is looked up.
ghost use Rattle.std.specs.Prelude.{◌≡◌, ℕ, List, map, nat_eq, IfOk};
ghost use Rattle.std.proofs.Common.{rules};
ghost use Rattle.std.specs.Char.{to_ascii_lowercase};
ghost use Rattle.std.specs.Cmp.{partial_equiv_from_equiv};
ghost use Rattle.std.specs.Cmp.Lexicographic.{pointwise, nat_list_eq_equiv};
ghost use Rattle.std.specs.Cmp.Rules.{hashing};
ghost use Rattle.std.specs.Hash as fed;

use std::alloc::{AllocError, Global};
use std::hash::{Hash, Hasher};
use std::marker::Model;

/// A name in small letters, equal and hashed by its bytes.
#[derive(Drop)]
pub(crate) struct FoldedName {
    bytes: Vec<u8>,
}

impl Model for FoldedName {
    ghost Value = { List ℕ };

    ghost view = { λ n. n.bytes.items };
}

// Bytes with small letters in place of capital ones.
fn folded(alloc: Global, name: &[u8]) -> Result<Vec<u8>, AllocError>
    ensures { IfOk result (λ bytes. bytes.items ≡ map to_ascii_lowercase name.now) }
{
    let mut bytes = Vec::new(alloc);
    for byte in name {
        bytes.push(byte.to_ascii_lowercase())?;
    }
    Ok(bytes)
}

impl FoldedName {
    pub fn of(alloc: Global, name: &[u8]) -> Result<FoldedName, AllocError>
        ensures { IfOk result (λ folded. folded ≡ map to_ascii_lowercase name.now) }
    {
        Ok(FoldedName {
            bytes: folded(alloc, name)?,
        })
    }
}

impl PartialEq for FoldedName {
    ghost eq = { pointwise nat_eq };

    ghost laws = { partial_equiv_from_equiv nat_list_eq_equiv };

    fn eq(&self, other: &Self) -> bool {
        self.bytes.as_slice() == other.bytes.as_slice()
    }
}

impl Eq for FoldedName {
    ghost laws = { nat_list_eq_equiv };
}

impl Hash for FoldedName {
    ghost hash_input = { fed.slice fed.u8 };

    ghost respects_eq = { Prim.search (hashing, rules) };

    fn hash<H: Hasher>(&self, state: &mut H) {
        self.bytes.as_slice().hash(state);
    }
}
