// What the subqueries of a query give before its run.
ghost use Rattle.std.specs.Prelude.{◌≡◌, ◌≤◌, ◌++◌, codes, None, IfOk, IfErr, IfSome, IsErrOf};
ghost use Rattle.lp_model.specs.Outside.{OnlyGrow, Rose};
ghost use Rattle.lp_outside.specs.NameFault.{name_fault};
ghost use Rattle.command_words.specs.Table.{IsInRange};
ghost use Rattle.query_tree.specs.Views.{query_of};
ghost use Rattle.run_entry.specs.Giving.{subqueries_of};
ghost use Rattle.run_entry.specs.SubqueriesReading.{ReadsAll};
ghost use Rattle.run_entry.specs.Refusing.{StopsBy};
ghost use Rattle.checkpointed_run.specs.Staged.{IsGiven};

use command_words::Spec;
use lp_outside::Logs;
use lp_values::RowList;
use query_tree::Query;
use run_entry::{SubqueryFault, run_subqueries};
use std::alloc::Global;

/// Runs the subqueries of a query, and tells it what they gave: the lists that are kept of them.
pub(crate) fn give_lists<L: Logs>(
    alloc: Global,
    spec: &Spec,
    query: &mut Query,
    moment: i64,
    logs: &mut L,
) -> Result<RowList, SubqueryFault>
    requires range { IsInRange spec.now }
    requires stage { IfSome spec.now.checkpoint (λ ledger. name_fault (ledger ++ codes ".stage") ≡ None) }
    ensures grows { OnlyGrow (L.folder logs.old) (L.folder logs.new) }
    ensures later { L.faults logs.old ≤ L.faults logs.new }
    ensures gives { IfOk result (IsGiven spec.now moment (L.folder logs.old) (L.folder logs.new) (query_of query.old) (query_of query.new)) }
    ensures stops { IfErr result (StopsBy spec.now moment (L.folder logs.old) (L.folder logs.new) (query_of query.old)) }
    ensures failed { IsErrOf result SubqueryFault.Logs → Rose (L.faults logs.old) (L.faults logs.new) }
    ensures read { ReadsAll (L.folder logs.new) (subqueries_of (query_of query.old)) (L.given logs.old) (L.given logs.new) }
{
    let given = match run_subqueries(alloc, spec, query, moment, logs) {
        Ok(given) => given,
        Err(fault) => return Err(fault),
    };
    match query.fill(given.givens.as_slice()) {
        Ok(()) => Ok(given.lists),
        Err(_) => Err(SubqueryFault::Memory),
    }
}
