// Why logs can't be listed.
ghost use Rattle.std.specs.Prelude.{◌≡◌};
ghost use Rattle.log_listing.specs.declared.fault.ListFault.TheVariants.{Memory};

use lp_outside::{Name, NameFault};
use std::alloc::AllocError;

/// Why logs can't be listed.
#[derive(Drop)]
pub enum ListFault {
    /// A text is no name.
    BadName(NameFault),
    /// No file has this name, or matches it.
    NoSuchLog(Name),
    /// More than 100,000 logs.
    TooManyLogs,
    /// A call of the logs failed.
    Logs,
    /// Memory was refused.
    Memory,
}

impl From<AllocError> for ListFault {
    ghost from_gives = { λ _ e. e ≡ Memory };

    fn from(_: AllocError) -> Self {
        ListFault::Memory
    }
}
