// Why a text has no tokens.
ghost use Rattle.std.specs.Prelude.{◌≡◌};
ghost use Rattle.query_lexer.specs.declared.fault.LexFault.TheVariants.{Memory};

use std::alloc::{AllocError, AllocFailed};
use thiserror::Error;

/// A fault of a text; `at` is its place, in bytes from the text's start.
#[derive(Clone, Copy, Debug, PartialEq, Eq, Error)]
pub enum LexFault {
    /// No token begins with what stands there.
    #[error("bad character at {at}")]
    BadCharacter { at: u32 },
    /// The string that begins there has no end.
    #[error("open string at {at}")]
    OpenString { at: u32 },
    /// The bracket that opens there is not closed.
    #[error("open bracket at {at}")]
    OpenBracket { at: u32 },
    /// The number that begins there is outside its range.
    #[error("number too large at {at}")]
    NumberTooLarge { at: u32 },
    /// There was no memory.
    #[error("out of memory")]
    Memory,
}

impl From<AllocError> for LexFault {
    ghost from_gives = { λ _ e. e ≡ Memory };

    fn from(_: AllocError) -> Self {
        LexFault::Memory
    }
}

impl<T: Drop> From<AllocFailed<T>> for LexFault {
    ghost from_gives = { λ _ e. e ≡ Memory };

    fn from(_: AllocFailed<T>) -> Self {
        LexFault::Memory
    }
}
