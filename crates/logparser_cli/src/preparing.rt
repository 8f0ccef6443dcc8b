// What is done for the subqueries of a query before it is run, without a checkpoint.
ghost use Rattle.std.specs.Prelude.{◌≡◌, ◌⊎◌, ◌≤◌, false, None, OnOk, IfErr, IsErrOf};
ghost use Rattle.lp_model.specs.Outside.{OnlyGrow, Rose};
ghost use Rattle.command_words.specs.Table.{IsInRange};
ghost use Rattle.query_tree.specs.Views.{query_of};
ghost use Rattle.query_text.specs.Stdin.{names_in};
ghost use Rattle.checkpointed_command.specs.Built.{reads_stdin};
ghost use Rattle.reports.specs.declared.status.Status.TheVariants as S;
ghost use Rattle.checkpointed_command.specs.Giving.{subqueries_of};
ghost use Rattle.checkpointed_command.specs.SubqueriesReading.{ReadsAll};
ghost use Rattle.logparser_cli.specs.Logs.{IsUnlisted};
ghost use Rattle.logparser_cli.specs.Subqueries.{IsFilled, IsListedFirst, IsPlainFault, IsRefusedAs, IsRefusedBehind, ungiven};

use crate::listing::find_spans;
use checkpointed_command::{SubqueryFault, reads_stdin, run_subqueries};
use command_words::Spec;
use lp_outside::Logs;
use query_text::QueryFault;
use query_tree::Query;
use reports::Status;
use std::alloc::Global;

// What the refusal of a subquery is, in a run that keeps no file for itself.
fn ungiven(fault: SubqueryFault) -> Status
    requires plain { IsPlainFault fault }
    ensures { result ≡ ungiven fault }
{
    match fault {
        SubqueryFault::BadName(fault) => Status::BadName(fault),
        SubqueryFault::NoSuchLog(name) => Status::NoSuchLog(name),
        SubqueryFault::TooManyLogs => Status::TooManyLogs,
        SubqueryFault::Clash(_) => unreachable!(),
        SubqueryFault::Plan(fault) => Status::Query(QueryFault::Plan(fault)),
        SubqueryFault::Bad { log, row } => Status::ParseErrors { log, row },
        SubqueryFault::Logs => Status::LogsFault,
        SubqueryFault::Memory => Status::Memory,
    }
}

// The logs of a query with subqueries are listed before these are run, so that a name without logs is told first.
fn check_logs<L: Logs>(alloc: Global, logs: &mut L, query: &Query) -> Result<(), Status>
    requires files { reads_stdin (names_in (query_of query.now)) ≡ false }
    ensures grows { OnlyGrow (L.folder logs.old) (L.folder logs.new) }
    ensures later { L.faults logs.old ≤ L.faults logs.new }
    ensures found { OnOk result (IsListedFirst (subqueries_of (query_of query.now)) (L.folder logs.old) (L.folder logs.new) (query_of query.now)) }
    ensures refused { IfErr result (IsUnlisted (L.folder logs.new) (query_of query.now)) }
    ensures failed { IsErrOf result S.LogsFault → Rose (L.faults logs.old) (L.faults logs.new) }
    ensures given { L.given logs.new ≡ L.given logs.old }
{
    if query.subqueries.items.is_empty() {
        return Ok(());
    }
    match find_spans(alloc, logs, query) {
        Ok(spans) => {
            drop(spans);
            Ok(())
        }
        Err(status) => Err(status),
    }
}

// Runs the subqueries of a query, and tells it what they gave.
fn give<L: Logs>(
    alloc: Global,
    spec: &Spec,
    query: &mut Query,
    moment: i64,
    logs: &mut L,
) -> Result<(), Status>
    requires range { IsInRange spec.now }
    requires plain { spec.now.checkpoint ≡ None }
    ensures grows { OnlyGrow (L.folder logs.old) (L.folder logs.new) }
    ensures later { L.faults logs.old ≤ L.faults logs.new }
    ensures fills { OnOk result (IsFilled spec.now moment (L.folder logs.old) (L.folder logs.new) (query_of query.old) (query_of query.new)) }
    ensures refused { IfErr result (IsRefusedAs spec.now moment (L.folder logs.old) (L.folder logs.new) (query_of query.old)) }
    ensures failed { IsErrOf result S.LogsFault → Rose (L.faults logs.old) (L.faults logs.new) }
    ensures read { ReadsAll (L.folder logs.new) (subqueries_of (query_of query.old)) (L.given logs.old) (L.given logs.new) }
{
    let given = match run_subqueries(alloc, spec, query, moment, logs) {
        Ok(given) => given,
        Err(fault) => return Err(ungiven(fault)),
    };
    match query.fill(given.givens.as_slice()) {
        Ok(()) => Ok(()),
        Err(_) => Err(ungiven(SubqueryFault::Memory)),
    }
}

/// Lists the logs of a query with subqueries, runs these, and tells the query what they gave; or why that can't be.
pub(crate) fn prepare<L: Logs>(
    alloc: Global,
    spec: &Spec,
    query: &mut Query,
    moment: i64,
    logs: &mut L,
) -> Result<(), Status>
    requires range { IsInRange spec.now }
    requires plain { spec.now.checkpoint ≡ None }
    ensures grows { OnlyGrow (L.folder logs.old) (L.folder logs.new) }
    ensures later { L.faults logs.old ≤ L.faults logs.new }
    ensures fills { OnOk result (IsFilled spec.now moment (L.folder logs.old) (L.folder logs.new) (query_of query.old) (query_of query.new)) }
    ensures refused { IfErr result (λ status. IsUnlisted (L.folder logs.new) (query_of query.old) status × (L.given logs.new ≡ L.given logs.old) ⊎ IsRefusedBehind spec.now moment (L.folder logs.old) (L.folder logs.new) (query_of query.old) status) }
    ensures failed { IsErrOf result S.LogsFault → Rose (L.faults logs.old) (L.faults logs.new) }
    ensures read { ReadsAll (L.folder logs.new) (subqueries_of (query_of query.old)) (L.given logs.old) (L.given logs.new) }
{
    if reads_stdin(&query.names) {
        return give(alloc, spec, query, moment, logs);
    }
    match check_logs(alloc, logs, query) {
        Ok(()) => give(alloc, spec, query, moment, logs),
        Err(status) => Err(status),
    }
}
