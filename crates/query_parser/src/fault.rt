// Why tokens are not read.
ghost use Rattle.std.specs.Prelude.{◌≡◌};
ghost use Rattle.query_parser.specs.declared.fault.Stop.TheVariants.{Memory};

use std::alloc::{AllocError, AllocFailed};
use thiserror::Error;

/// Why tokens are not read: the first bad token is told by how many tokens stand from it on.
#[derive(Clone, Copy, Debug, PartialEq, Eq)]
pub enum Stop {
    Syntax(usize),
    TooDeep(usize),
    Memory,
}

impl From<AllocError> for Stop {
    ghost from_gives = { λ _ e. e ≡ Memory };

    fn from(_: AllocError) -> Self {
        Stop::Memory
    }
}

impl<T: Drop> From<AllocFailed<T>> for Stop {
    ghost from_gives = { λ _ e. e ≡ Memory };

    fn from(_: AllocFailed<T>) -> Self {
        Stop::Memory
    }
}

/// Why tokens are no query; `at` is the place of the first bad token in the text, in bytes.
#[derive(Clone, Copy, Debug, PartialEq, Eq, Error)]
pub enum ParseFault {
    /// No query begins with the tokens up to and including this one.
    #[error("syntax at {at}")]
    Syntax { at: u32 },
    /// This token opens level 65.
    #[error("too deep at {at}")]
    TooDeep { at: u32 },
    /// There was no memory.
    #[error("out of memory")]
    Memory,
}
