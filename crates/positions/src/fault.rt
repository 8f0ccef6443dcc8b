// Why kept places can't be loaded.
ghost use Rattle.std.specs.Prelude.{◌≡◌};

use ledger::{LedgerRefused, Part2, TextRefused};
use std::alloc::{AllocError, AllocFailed};
use thiserror::Error;

/// Why the kept places of a ledger can't be loaded.
#[derive(Clone, Copy, Debug, PartialEq, Eq, Error)]
pub enum LoadFault {
    #[error("a disk failed")]
    DiskFault,
    // A field that doesn't fit, by its place in the file in bytes.
    #[error("damaged at {at}")]
    LedgerFault { part: Part2, at: u64 },
    #[error("out of memory")]
    Memory,
}

impl From<LedgerRefused> for LoadFault {
    ghost use Rattle.std.specs.Prelude.{◌≡◌};
    ghost use Rattle.positions.specs.Faults.{of_ledger};

    ghost from_gives = { λ refused fault. fault ≡ of_ledger refused };

    fn from(refused: LedgerRefused) -> LoadFault {
        match refused {
            LedgerRefused::DiskFault => LoadFault::DiskFault,
            LedgerRefused::LedgerFault { part, at } => LoadFault::LedgerFault { part, at },
        }
    }
}

impl From<TextRefused> for LoadFault {
    ghost use Rattle.std.specs.Prelude.{◌≡◌};
    ghost use Rattle.positions.specs.Faults.{of_text};

    ghost from_gives = { λ refused fault. fault ≡ of_text refused };

    fn from(refused: TextRefused) -> LoadFault {
        match refused {
            TextRefused::DiskFault => LoadFault::DiskFault,
            TextRefused::LedgerFault { part, at } => LoadFault::LedgerFault { part, at },
            TextRefused::Memory => LoadFault::Memory,
        }
    }
}

impl From<AllocError> for LoadFault {
    ghost use Rattle.std.specs.Prelude.{◌≡◌};
    ghost use Rattle.positions.specs.declared.fault.LoadFault.TheVariants.{Memory};

    ghost from_gives = { λ _ fault. fault ≡ Memory };

    fn from(_: AllocError) -> LoadFault {
        LoadFault::Memory
    }
}
