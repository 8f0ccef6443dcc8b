// How a run of a query ends.
use log_reading::TookList;
use lp_outside::Name;
use query_run::Counts;
use query_types::TypeFault;
use row_output::Refused;
use text_output::OutputList;

/// What a run did.
#[derive(Drop)]
pub struct Ran {
    pub counts: Counts,
    /// The outputs that have the text, in order, without those whose files were left alone.
    pub outputs: OutputList,
    /// What was taken of each span, in order.
    pub took: TookList,
}

/// Why a run of a query stops. The fault of a plan is never want of memory.
#[derive(Drop)]
pub enum RunFault {
    /// The query doesn't fit the columns of the logs.
    Plan(TypeFault),
    /// An output is refused.
    Refused(Refused),
    /// A call of the logs failed.
    LogsFault,
    /// A call of the stage failed.
    StageFault,
    /// A bad line is one too many: the log's identity, and the line's number.
    ParseErrors { log: Name, row: u64 },
    /// Memory was refused.
    Memory,
}
