// Texts with their places.
ghost use Rattle.std.specs.Prelude.{◌≡◌, List, [], ◌∷◌, ◌++◌, length, slice_get, option_copied, OnOk, OnErr};

use lp_values::Text;
use std::alloc::{AllocError, Global};

/// A text, and where it stands in the query, in bytes.
#[derive(Drop)]
pub struct Placed {
    pub at: u32,
    pub text: Text,
}

/// Texts with their places, in order.
#[derive(Drop)]
pub struct PlacedList {
    pub items: Vec<Placed>,
}

impl PlacedList {
    pub fn new(alloc: Global) -> Self
        ensures { result.items.items ≡ [] }
    {
        PlacedList {
            items: Vec::new(alloc),
        }
    }

    pub fn len(&self) -> usize
        ensures { result ≡ length self.now.items.items }
    {
        self.items.len()
    }

    pub fn get(&self, index: usize) -> Option<&Placed>
        ensures { option_copied result ≡ slice_get self.now.items.items index }
    {
        self.items.get(index)
    }

    /// Adds one at the end. An `Err` changes nothing, and the one is gone.
    pub fn push(&mut self, item: Placed) -> Result<(), AllocError>
        ensures ok { OnOk result (self.new.items.items ≡ self.old.items.items ++ item ∷ []) }
        ensures err { OnErr result (self.new.items.items ≡ self.old.items.items) }
    {
        self.items.push(item)?;
        Ok(())
    }
}
