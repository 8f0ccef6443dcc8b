// Why bytes are no template.

use std::alloc::AllocError;

#[derive(Clone, Copy, Debug, PartialEq, Eq)]
pub enum TemplateFault {
    /// A section's opening mark without its end.
    Unclosed { at: u32 },
    /// A section's mark out of place.
    Misplaced { at: u32 },
    /// A byte outside the sections that is no blank.
    OutsideText { at: u32 },
    /// The first byte that is one too many.
    TooLarge { at: u32 },
    Memory,
}

impl From<AllocError> for TemplateFault {
    ghost use Rattle.std.specs.Prelude.{◌≡◌};
    ghost use Rattle.tpl_output.specs.declared.fault.TemplateFault.TheVariants.{Memory};

    ghost from_gives = { λ _ e. e ≡ Memory };

    fn from(_error: AllocError) -> Self {
        TemplateFault::Memory
    }
}
