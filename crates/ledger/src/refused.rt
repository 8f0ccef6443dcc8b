// Why a ledger can't be read.
ghost use Rattle.std.specs.Prelude.{◌≡◌};
ghost use Rattle.ledger.specs.Reader.{moved_to};

use thiserror::Error;

/// Which file is damaged.
#[derive(Clone, Copy, Debug, PartialEq, Eq)]
pub enum Part2 {
    Ledger,
    Stage,
}

#[derive(Clone, Copy, Debug, PartialEq, Eq, Error)]
pub enum LedgerRefused {
    #[error("a disk failed")]
    DiskFault,
    // A field that doesn't fit, by its place in the file in bytes.
    #[error("damaged at {at}")]
    LedgerFault { part: Part2, at: u64 },
}

#[derive(Clone, Copy, Debug, PartialEq, Eq, Error)]
pub enum TextRefused {
    #[error("a disk failed")]
    DiskFault,
    // A field that doesn't fit, by its place in the file in bytes.
    #[error("damaged at {at}")]
    LedgerFault { part: Part2, at: u64 },
    #[error("out of memory")]
    Memory,
}

impl From<lp_outside::DiskFailed> for LedgerRefused {
    ghost use Rattle.std.specs.Prelude.{◌≡◌};
    ghost use Rattle.ledger.specs.declared.refused.LedgerRefused.TheVariants.{DiskFault};

    ghost from_gives = { λ _ refused. refused ≡ DiskFault };

    fn from(_failed: lp_outside::DiskFailed) -> LedgerRefused {
        LedgerRefused::DiskFault
    }
}

/// The refusal at a place of the ledger.
pub(crate) fn damaged(place: u64) -> LedgerRefused
    ensures { result ≡ LedgerRefused.LedgerFault Part2.Ledger place }
{
    LedgerRefused::LedgerFault {
        part: Part2::Ledger,
        at: place,
    }
}

/// A refusal, where it is one of the ledger, at the place where a field begins.
pub(crate) fn moved(refused: LedgerRefused, place: u64) -> LedgerRefused
    ensures { result ≡ moved_to refused place }
{
    match refused {
        LedgerRefused::DiskFault => LedgerRefused::DiskFault,
        LedgerRefused::LedgerFault { .. } => damaged(place),
    }
}
