// Why a subquery gives nothing.
use lp_outside::{Name, NameFault};
use query_types::TypeFault;

/// Why a subquery gives nothing. The fault of a plan is never want of memory.
#[derive(Drop)]
pub enum SubqueryFault {
    /// A text behind FROM is no name.
    BadName(NameFault),
    /// No file matches a name.
    NoSuchLog(Name),
    /// The names list more than 100,000 logs.
    TooManyLogs,
    /// A log is the ledger or the stage of the run's checkpoint.
    Clash(Name),
    /// The subquery doesn't fit the columns of its logs.
    Plan(TypeFault),
    /// A bad line is one too many: the log's name, and the line's number.
    Bad { log: Name, row: u64 },
    /// A call of the logs failed.
    Logs,
    /// Memory was refused.
    Memory,
}
