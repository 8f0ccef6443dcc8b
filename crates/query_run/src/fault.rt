// Why a run stops.
use lp_outside::Name;
use row_output::Refused;

/// Why a run stops.
#[derive(Drop)]
pub enum WriteFault {
    Memory,
    /// A call of the logs failed.
    Logs,
    /// A call of the stage failed.
    Output,
    /// An output of a row is refused.
    Refused(Refused),
    /// A bad line is one too many: the log's identity, and the line's number.
    Bad { log: Name, row: u64 },
}
