// The query, and whether it may run with a checkpoint.
ghost use Rattle.std.specs.Prelude.{◌≡◌, ◌≤◌, ◌⊎◌, IfOk, IfErr, IsErrOf, MatchResult};
ghost use Rattle.lp_model.specs.Outside.{OnlyGrow, Rose};
ghost use Rattle.query_tree.specs.Views.{placed_all, query_of};
ghost use Rattle.reports.specs.declared.status.Status.TheVariants as S;
ghost use Rattle.requests.specs.Given.{ReadsOnce, query_files};
ghost use Rattle.requests.specs.Texts.{HoldsQuery};
ghost use Rattle.checkpointed_command.specs.Asked.{IsFit, IsUnfit, stdin_alone};
ghost use Rattle.checkpointed_command.specs.Refusals.{IsUnread, IsUnsuited};

use crate::statuses::unasked;
use checkpointed_run::is_standard;
use command_words::Spec;
use lp_outside::Logs;
use query_text::{QueryFault, is_stdin};
use query_tree::{PlacedList, Query};
use reports::Status;
use requests::{WrittenQuery, read_query_word};
use std::alloc::Global;

// Where STDIN stands as the only name; beside another one no query has it.
fn stdin_alone(names: &PlacedList) -> Option<u32>
    ensures { result ≡ stdin_alone (placed_all names.now) }
{
    match names.items.as_slice() {
        [name] if is_stdin(name.text.as_str()) => Some(name.at),
        _ => None,
    }
}

// Whether a query may run with a checkpoint: standard input has no place that could be kept, and standard output none that
// could be opened with the ledger.
fn check_fit(query: &Query) -> Result<(), Status>
    ensures { MatchResult result (λ unit. IsFit (query_of query.now)) (IsUnfit (query_of query.now)) }
{
    match stdin_alone(&query.names) {
        Some(at) => Err(Status::Query(QueryFault::StdinMisplaced(at))),
        None if is_standard(query) => Err(Status::IntoNeeded),
        None => Ok(()),
    }
}

/// The query of the words with its text, which may run with a checkpoint; or why there is none.
pub(crate) fn ask_query<L: Logs>(
    alloc: Global,
    spec: &Spec,
    logs: &mut L,
) -> Result<WrittenQuery, Status>
    ensures grows { OnlyGrow (L.folder logs.old) (L.folder logs.new) }
    ensures query { IfOk result (λ written. HoldsQuery (L.folder logs.old) (L.folder logs.new) spec.now.query written.text (query_of written.query)) }
    ensures fit { IfOk result (λ written. IsFit (query_of written.query)) }
    ensures refused { IfErr result (λ status. IsUnread (L.folder logs.old) (L.folder logs.new) spec.now status ⊎ IsUnsuited (L.folder logs.old) (L.folder logs.new) spec.now status) }
    ensures given { ReadsOnce (L.folder logs.new) (query_files spec.now.query) (L.given logs.old) (L.given logs.new) }
    ensures later { L.faults logs.old ≤ L.faults logs.new }
    ensures failed { IsErrOf result S.LogsFault → Rose (L.faults logs.old) (L.faults logs.new) }
    ensures disk { IsErrOf result S.DiskFault → ⊥ }
{
    let written = match read_query_word(alloc, logs, spec.query.as_str()) {
        Ok(written) => written,
        Err(fault) => return Err(unasked(fault)),
    };
    match check_fit(&written.query) {
        Ok(()) => Ok(written),
        Err(status) => {
            drop(written);
            Err(status)
        }
    }
}
