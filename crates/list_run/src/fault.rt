// Why a subquery gives no values.
ghost use Rattle.std.specs.Prelude.{◌≡◌};
ghost use Rattle.list_run.specs.Faults.{read_fault};

use log_reading::RunFault;
use lp_outside::Name;
use query_types::TypeFault;

/// Why a subquery gives no values.
#[derive(Drop)]
pub enum ListFault {
    /// The subquery has no plan over the columns of its logs.
    Plan(TypeFault),
    /// A call of the logs failed.
    Logs,
    /// A bad line is one too many: the log's identity, and the line's number.
    Bad { log: Name, row: u64 },
    /// Memory was refused.
    Memory,
}

/// Why a subquery gives no values, where the reading of its logs stopped. A collector writes nothing, and wants all rows.
pub(crate) fn read_fault(fault: RunFault) -> ListFault
    ensures { result ≡ read_fault fault }
{
    match fault {
        RunFault::Logs => ListFault::Logs,
        RunFault::Bad { log, row } => ListFault::Bad { log, row },
        RunFault::Memory => ListFault::Memory,
        RunFault::Output => ListFault::Memory,
        RunFault::Stopped => ListFault::Memory,
    }
}
