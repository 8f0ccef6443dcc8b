// Where a part of a line stands.
ghost use Rattle.std.specs.Prelude.{◌≡◌, Some, IfOk};
ghost use Rattle.line_input.specs.Taken.{part_of, slot_bytes};
ghost use Rattle.line_input.specs.Parts.{is_dash};

use crate::Slot;
use lp_values::Bytes;
use std::alloc::{AllocError, Global};

/// The bytes of a line from one place up to another.
#[derive(Clone, Copy, Debug, PartialEq, Eq)]
pub struct Extent {
    pub from: usize,
    pub to: usize,
}

fn is_dash(field: &[u8]) -> bool
    ensures { result ≡ is_dash field.now }
{
    match field {
        [b'-'] => true,
        _ => false,
    }
}

impl Extent {
    ghost use Rattle.line_input.specs.Parts.{field_of};

    /// The bytes, as far as the line has them.
    #[inline]
    pub fn of(self, line: &[u8]) -> &[u8]
        ensures { result.now ≡ part_of line.now self.from self.to }
    {
        let to = self.to.min(line.len());
        let from = self.from.min(to);
        &line[from..to]
    }

    /// The bytes as a field of a row, where `-` alone is none.
    pub fn field(self, alloc: Global, line: &[u8]) -> Result<Slot, AllocError>
        ensures { IfOk result (λ slot. slot_bytes line.now slot ≡ field_of (part_of line.now self.from self.to)) }
    {
        if is_dash(self.of(line)) {
            return Ok(Slot::Absent);
        }
        self.slot(alloc, line)
    }

    /// The bytes as a field of a row: their places, unless these pass 32 bits.
    pub fn slot(self, alloc: Global, line: &[u8]) -> Result<Slot, AllocError>
        ensures { IfOk result (λ slot. slot_bytes line.now slot ≡ Some (part_of line.now self.from self.to)) }
    {
        match (u32::try_from(self.from), u32::try_from(self.to)) {
            (Ok(from), Ok(to)) => Ok(Slot::Part { from, to }),
            _ => {
                let mut own = Bytes::new(alloc);
                own.add(self.of(line))?;
                Ok(Slot::Own(own))
            }
        }
    }
}
