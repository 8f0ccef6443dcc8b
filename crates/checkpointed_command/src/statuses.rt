// What each fault of a run is as its answer.
ghost use Rattle.std.specs.Prelude.{◌≡◌, ◌⊎◌};
ghost use Rattle.reports.specs.declared.status.Status.TheVariants as S;
ghost use Rattle.checkpointed_command.specs.Statuses.{stopped, unasked, untemplated, unplaced, unsettled, unloaded, unspanned, IsAnswerTo, IsBrokenOff, IsUngivenAs};

use checkpointed_run::{LedgerStop, RunFault, RunStop, SubqueryFault};
use commit::CommitFault;
use lp_outside::Name;
use lp_values::Text;
use positions::{LoadFault, SpanFault};
use query_text::QueryFault;
use reports::Status;
use requests::{NoTemplate, RequestFault};
use row_output::Refused;
use std::alloc::Global;

/// What a refusal of the words or the query is.
pub fn unasked(fault: RequestFault) -> Status
    ensures { result ≡ unasked fault }
{
    match fault {
        RequestFault::Usage(fault) => Status::Usage(fault),
        RequestFault::BadName(fault) => Status::BadName(fault),
        RequestFault::NoSuchLog(name) => Status::NoSuchLog(name),
        RequestFault::Query(fault) => Status::Query(fault),
        RequestFault::Logs => Status::LogsFault,
        RequestFault::Memory => Status::Memory,
    }
}

/// What a refusal of a template is.
pub fn untemplated(fault: NoTemplate) -> Status
    ensures { result ≡ untemplated fault }
{
    match fault {
        NoTemplate::NoSuchLog(name) => Status::NoSuchLog(name),
        NoTemplate::Fault(fault) => Status::Template(fault),
        NoTemplate::Logs => Status::LogsFault,
        NoTemplate::Memory => Status::Memory,
    }
}

// Why an output is refused.
fn unplaced(why: Refused) -> Status
    ensures { result ≡ unplaced why }
{
    match why {
        Refused::TooManyOutputs => Status::TooManyOutputs,
        Refused::BadName(fault) => Status::BadName(fault),
        Refused::NameClash(name) => Status::NameClash(name),
    }
}

/// What a run of a query is that stopped, whose rows go to standard output or not.
pub fn stopped(standard: bool, fault: RunFault) -> Status
    ensures { result ≡ stopped standard fault }
{
    match fault {
        RunFault::Plan(fault) => Status::Query(QueryFault::Plan(fault)),
        RunFault::Refused(why) => unplaced(why),
        RunFault::LogsFault => Status::LogsFault,
        RunFault::StageFault => {
            if standard {
                Status::SinkFault
            } else {
                Status::DiskFault
            }
        }
        RunFault::ParseErrors { log, row } => Status::ParseErrors { log, row },
        RunFault::Memory => Status::Memory,
    }
}

/// What a fault of a phase of the commit is.
pub(crate) fn unsettled(fault: CommitFault) -> Status
    ensures { result ≡ unsettled fault }
{
    match fault {
        CommitFault::DiskFault => Status::DiskFault,
        CommitFault::LedgerFault { part, at } => Status::LedgerFault { part, at },
    }
}

// Why a ledger isn't loaded.
fn unloaded(fault: LoadFault) -> Status
    ensures { result ≡ unloaded fault }
{
    match fault {
        LoadFault::DiskFault => Status::DiskFault,
        LoadFault::LedgerFault { part, at } => Status::LedgerFault { part, at },
        LoadFault::Memory => Status::Memory,
    }
}

// Why the logs behind FROM have no spans.
fn unspanned(fault: SpanFault) -> Status
    ensures { result ≡ unspanned fault }
{
    match fault {
        SpanFault::NoSuchLog(name) => Status::NoSuchLog(name),
        SpanFault::LostLog(stem, number) => Status::LostLog { stem, number },
        SpanFault::Shrunk { name, kept, found } => Status::Shrunk { name, kept, found },
        SpanFault::InputChanged { kept, given } => Status::InputChanged { kept, given },
        SpanFault::TooManyLogs => Status::TooManyLogs,
        SpanFault::LogsFault => Status::LogsFault,
        SpanFault::BadName(fault) => Status::BadName(fault),
        SpanFault::Memory => Status::Memory,
    }
}

// A log that has the name of the ledger or the stage.
fn clash(alloc: Global, name: &Name) -> Status
    ensures { (result ≡ S.NameClash name.now) ⊎ (result ≡ S.Memory) }
{
    match Text::from_str(alloc, name.as_str()) {
        Ok(name) => Status::NameClash(name),
        Err(_) => Status::Memory,
    }
}

// Why a subquery gives nothing.
fn ungiven(alloc: Global, fault: SubqueryFault) -> Status
    ensures { IsUngivenAs fault result }
{
    match fault {
        SubqueryFault::BadName(fault) => Status::BadName(fault),
        SubqueryFault::NoSuchLog(name) => Status::NoSuchLog(name),
        SubqueryFault::TooManyLogs => Status::TooManyLogs,
        SubqueryFault::Clash(name) => clash(alloc, &name),
        SubqueryFault::Plan(fault) => Status::Query(QueryFault::Plan(fault)),
        SubqueryFault::Bad { log, row } => Status::ParseErrors { log, row },
        SubqueryFault::Logs => Status::LogsFault,
        SubqueryFault::Memory => Status::Memory,
    }
}

// Why a run over spans stopped.
fn broken_off(alloc: Global, stop: RunStop) -> Status
    ensures { IsBrokenOff stop result }
{
    match stop {
        RunStop::Subquery(fault) => ungiven(alloc, fault),
        RunStop::Refused(fault) => stopped(false, fault),
        RunStop::BeforeGate(fault) => unsettled(fault),
        RunStop::FromGate(fault) => unsettled(fault),
    }
}

/// Why a run over a ledger gives no counts.
pub(crate) fn uncounted(alloc: Global, stop: LedgerStop) -> Status
    ensures { IsAnswerTo stop result }
{
    match stop {
        LedgerStop::Ledger(fault) => unloaded(fault),
        LedgerStop::Logs(fault) => unspanned(fault),
        LedgerStop::Clash(name) => clash(alloc, &name),
        LedgerStop::Run(stop) => broken_off(alloc, stop),
        LedgerStop::Memory => Status::Memory,
    }
}
