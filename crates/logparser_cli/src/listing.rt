// The logs that a query reads.
ghost use Rattle.std.specs.Prelude.{◌≡◌, ◌≤◌, false, length, IfOk, IfErr, IsErrOf};
ghost use Rattle.lp_model.specs.Outside.{OnlyGrow, Rose, Told, bytes_in};
ghost use Rattle.query_tree.specs.Views.{query_of};
ghost use Rattle.query_text.specs.Stdin.{names_in};
ghost use Rattle.checkpointed_command.specs.Built.{reads_stdin};
ghost use Rattle.log_reading.specs.Spans.{AllSpans, IsSpan};
ghost use Rattle.reports.specs.declared.status.Status.TheVariants as S;
ghost use Rattle.logparser_cli.specs.Logs.{AreSpans, IsUnlisted, unlisted};

use checkpoint::{Spans, whole_spans};
use checkpointed_command::texts_of;
use log_listing::{ListFault, list_logs};
use lp_outside::Logs;
use query_tree::Query;
use reports::Status;
use std::alloc::Global;

// What a refusal of the list of logs is.
fn unlisted(fault: ListFault) -> Status
    ensures { result ≡ unlisted fault }
{
    match fault {
        ListFault::BadName(fault) => Status::BadName(fault),
        ListFault::NoSuchLog(name) => Status::NoSuchLog(name),
        ListFault::TooManyLogs => Status::TooManyLogs,
        ListFault::Logs => Status::LogsFault,
        ListFault::Memory => Status::Memory,
    }
}

/// The spans of the logs of the FROM names, each whole; or why these list no logs.
pub(crate) fn find_spans<L: Logs>(
    alloc: Global,
    logs: &mut L,
    query: &Query,
) -> Result<Spans, Status>
    requires files { reads_stdin (names_in (query_of query.now)) ≡ false }
    ensures grows { OnlyGrow (L.folder logs.old) (L.folder logs.new) }
    ensures later { L.faults logs.old ≤ L.faults logs.new }
    ensures found { IfOk result (AreSpans (L.folder logs.old) (L.folder logs.new) (query_of query.now)) }
    ensures few { IfOk result (λ spans. length spans ≤ 100000) }
    ensures spans { IfOk result (λ spans. AllSpans spans IsSpan) }
    ensures there { IfOk result (λ spans. Told (L.folder logs.new) (λ folder. AllSpans spans (λ span. span.listed ≤ length (bytes_in folder span.name)))) }
    ensures refused { IfErr result (IsUnlisted (L.folder logs.new) (query_of query.now)) }
    ensures failed { IsErrOf result S.LogsFault → Rose (L.faults logs.old) (L.faults logs.new) }
    ensures given { L.given logs.new ≡ L.given logs.old }
{
    let Ok(texts) = texts_of(alloc, &query.names) else {
        return Err(Status::Memory);
    };
    let list = match list_logs(alloc, logs, &texts) {
        Ok(list) => list,
        Err(fault) => return Err(unlisted(fault)),
    };
    match whole_spans(alloc, &list) {
        Ok(spans) => Ok(spans),
        Err(_) => Err(Status::Memory),
    }
}
