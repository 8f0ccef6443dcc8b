// A run with a checkpoint, step by step.
ghost use Rattle.std.specs.Prelude.{◌≡◌, ◌⊎◌, ◌≤◌, ◌++◌, ℕ, Option, codes, map, true, None, Some, IfOk, IfErr, IfSome, IsErrOf, IsSome};
ghost use Rattle.lp_model.specs.Outside.{Rose, OnlyGrow, Folder};
ghost use Rattle.command_words.specs.Table.{IsInRange};
ghost use Rattle.command_words.specs.declared.formats.OutputFormat.TheVariants as O;
ghost use Rattle.commit.specs.Known.{IsLow, IsReadSince};
ghost use Rattle.commit.specs.Resume.{CanSettle, Settles};
ghost use Rattle.checkpointed_run.specs.Executed.{IsMoment};
ghost use Rattle.checkpointed_run.specs.Texts.{has_text, output_of, sections_in};
ghost use Rattle.grammar.specs.Trees as model;
ghost use Rattle.ledger_model.specs.Inputs.{input_text};
ghost use Rattle.lp_outside.specs.NameFault.{name_fault};
ghost use Rattle.positions.specs.Spanning.{rule_of};
ghost use Rattle.checkpointed_run.specs.Gives.{HasTemplate};
ghost use Rattle.checkpointed_run.specs.Inputs.{input_for};
ghost use Rattle.query_text.specs.Stdin.{names_in};
ghost use Rattle.query_tree.specs.Views.{query_of};
ghost use Rattle.reports.specs.declared.status.Status.TheVariants as S;
ghost use Rattle.requests.specs.Given.{ReadsOnce, query_files};
ghost use Rattle.requests.specs.Texts.{HoldsQuery};
ghost use Rattle.checkpointed_run.specs.Begun.{GivesSpans};
ghost use Rattle.checkpointed_run.specs.Counted.{HasRun};
ghost use Rattle.checkpointed_run.specs.Staged.{request_of};
ghost use Rattle.checkpointed_command.specs.Asked.{IsFit};
ghost use Rattle.checkpointed_command.specs.Counted.{IsCounted, IsWhole};
ghost use Rattle.checkpointed_command.specs.Given.{ReadsBehind, ReadsKept};
ghost use Rattle.checkpointed_command.specs.Refusals.{IsCountless, IsCallRefused, IsRefusedBehind};
ghost use Rattle.checkpointed_command.specs.Steps.{TakesStepWith, TakesSteps};

use crate::asking::ask_query;
use crate::names::{files_of, sources_of};
use crate::settling::settle_ledger;
use crate::statuses::{uncounted, untemplated};
use crate::template::{RunTemplate, find_template};
use checkpointed_run::run_over_ledger;
use command_words::Spec;
use ledger::End;
use lp_outside::{Disk, Logs, Name};
use lp_values::Text;
use query_run::Counts;
use query_tree::Query;
use reports::Status;
use requests::WrittenQuery;
use std::alloc::Global;

// Runs a query that was read over the logs behind FROM. It speaks of the disk as it was when the end of its ledger was known, since
// when it was only read; and also of an earlier one that was settled since, and of earlier logs that have grown since.
fn run_prepared<L: Logs, D: Disk>(
    alloc: Global,
    spec: &Spec,
    ledger: &Name,
    known: Option<End>,
    moment: i64,
    logs: &mut L,
    disk: &mut D,
    query: &mut Query,
    text: Text,
    template: RunTemplate,
) -> Result<Counts, Status>
    requires moment { IsMoment moment }
    requires range { IsInRange spec.now }
    requires ledger { spec.now.checkpoint ≡ Some ledger.now }
    requires stage { name_fault (ledger.now ++ codes ".stage") ≡ None }
    requires template { output_of spec.now (query_of query.old) ≡ O.Tpl → IsSome template.shared }
    requires sections { HasTemplate spec.now (query_of query.old) template.bytes (sections_in (λ t. t.value) template.shared) }
    requires fit { IsFit (query_of query.old) }
    requires low { IfSome known IsLow }
    ensures grows { OnlyGrow (L.folder logs.old) (L.folder logs.new) }
    ensures step { (read : D) → IsReadSince (D.state read) (D.state disk.old) ledger.now known → (earlier : D) (since : Option Folder) → (CanSettle (D.state earlier) ledger.now (ledger.now ++ codes ".stage") → Settles (D.state earlier) (D.state read) ledger.now (ledger.now ++ codes ".stage")) → OnlyGrow since (L.folder logs.old)
        → TakesStepWith result (request_of spec.now (query_of query.old) text template.bytes moment) ledger.now (ledger.now ++ codes ".stage") since (L.folder logs.new) (D.state earlier) (D.state disk.new) }
    ensures ran { (read : D) → IsReadSince (D.state read) (D.state disk.old) ledger.now known → IfOk result (HasRun D.state (D.state read) ledger.now (ledger.now ++ codes ".stage") (rule_of spec.now.rotation) (input_text (input_for spec.now (query_of query.old))) (map (λ name. name.text) (names_in (query_of query.old))) (request_of spec.now (query_of query.old) text template.bytes moment) (sections_in (λ t. t.value) template.shared) (L.folder logs.old) (L.folder logs.new)) }
    ensures refused { (read : D) → IsReadSince (D.state read) (D.state disk.old) ledger.now known → IfErr result (λ status. IsCountless D.state (D.state read) ledger.now (ledger.now ++ codes ".stage") (L.folder logs.old) (L.folder logs.new) (request_of spec.now (query_of query.old) text template.bytes moment) (sections_in (λ t. t.value) template.shared) status ⊎ (status ≡ S.Memory)) }
    ensures given { (read : D) → IsReadSince (D.state read) (D.state disk.old) ledger.now known → GivesSpans (D.state read) ledger.now (ledger.now ++ codes ".stage") (rule_of spec.now.rotation) (input_text (input_for spec.now (query_of query.old))) (map (λ name. name.text) (names_in (query_of query.old))) (query_of query.old) (L.folder logs.old) (L.folder logs.new) (L.given logs.old) (L.given logs.new) }
    ensures later_logs { L.faults logs.old ≤ L.faults logs.new }
    ensures later { D.faults disk.old ≤ D.faults disk.new }
    ensures logs { IsErrOf result S.LogsFault → Rose (L.faults logs.old) (L.faults logs.new) }
    ensures disk { IsErrOf result S.DiskFault → Rose (D.faults disk.old) (D.faults disk.new) }
{
    let RunTemplate { shared, bytes } = template;
    let sources = match sources_of(alloc, spec, query) {
        Ok(sources) => sources,
        Err(_) => return Err(Status::Memory),
    };
    match run_over_ledger(
        alloc,
        spec,
        query,
        text,
        shared,
        bytes,
        moment,
        logs,
        &sources,
        files_of(ledger),
        known,
        disk,
    ) {
        Ok(counts) => Ok(counts),
        Err(stop) => Err(uncounted(alloc, stop)),
    }
}

// Finds the template of a query, and runs it. It speaks of earlier disks and earlier logs too.
fn run_query<L: Logs, D: Disk>(
    alloc: Global,
    spec: &Spec,
    ledger: &Name,
    known: Option<End>,
    moment: i64,
    logs: &mut L,
    disk: &mut D,
    query: &mut Query,
    text: Text,
) -> Result<Counts, Status>
    requires moment { IsMoment moment }
    requires range { IsInRange spec.now }
    requires ledger { spec.now.checkpoint ≡ Some ledger.now }
    requires stage { name_fault (ledger.now ++ codes ".stage") ≡ None }
    requires text { has_text spec.now (output_of spec.now (query_of query.old)) ≡ true }
    requires fit { IsFit (query_of query.old) }
    requires low { IfSome known IsLow }
    ensures grows { OnlyGrow (L.folder logs.old) (L.folder logs.new) }
    ensures step { (read : D) → IsReadSince (D.state read) (D.state disk.old) ledger.now known → (earlier : D) (since : Option Folder) → (CanSettle (D.state earlier) ledger.now (ledger.now ++ codes ".stage") → Settles (D.state earlier) (D.state read) ledger.now (ledger.now ++ codes ".stage")) → OnlyGrow since (L.folder logs.old) → HoldsQuery since (L.folder logs.old) spec.now.query text (query_of query.old)
        → TakesSteps spec.now ledger.now (ledger.now ++ codes ".stage") moment since (L.folder logs.new) (D.state earlier) (D.state disk.new) result }
    ensures ran { (read : D) → IsReadSince (D.state read) (D.state disk.old) ledger.now known → IfOk result (λ counts. (since : Option Folder) → OnlyGrow since (L.folder logs.old) → HoldsQuery since (L.folder logs.old) spec.now.query text (query_of query.old) → IsCounted D.state (D.state read) ledger.now (ledger.now ++ codes ".stage") since (L.folder logs.new) spec.now moment counts) }
    ensures refused { (read : D) → IsReadSince (D.state read) (D.state disk.old) ledger.now known → IfErr result (λ status. (since : Option Folder) → OnlyGrow since (L.folder logs.old) → HoldsQuery since (L.folder logs.old) spec.now.query text (query_of query.old) → IsRefusedBehind D.state (D.state read) ledger.now (ledger.now ++ codes ".stage") since (L.folder logs.new) spec.now moment status) }
    ensures given { (read : D) → IsReadSince (D.state read) (D.state disk.old) ledger.now known → (since : Option Folder) (given : ℕ) → OnlyGrow since (L.folder logs.old) → HoldsQuery since (L.folder logs.old) spec.now.query text (query_of query.old) → ReadsOnce (L.folder logs.old) (query_files spec.now.query) given (L.given logs.old)
        → ReadsBehind (D.state read) ledger.now (ledger.now ++ codes ".stage") since (L.folder logs.new) spec.now given (L.given logs.new) }
    ensures later_logs { L.faults logs.old ≤ L.faults logs.new }
    ensures later { D.faults disk.old ≤ D.faults disk.new }
    ensures logs { IsErrOf result S.LogsFault → Rose (L.faults logs.old) (L.faults logs.new) }
    ensures disk { IsErrOf result S.DiskFault → Rose (D.faults disk.old) (D.faults disk.new) }
{
    let template = match find_template(alloc, logs, spec, query) {
        Ok(template) => template,
        Err(fault) => return Err(untemplated(fault)),
    };
    run_prepared(
        alloc, spec, ledger, known, moment, logs, disk, query, text, template,
    )
}

/// Runs the query of the words with a checkpoint: settles the disk, reads the query and its template, and takes of each log behind
/// FROM the complete lines behind its kept place; the outputs and the run's entry are committed together. Or why there are no
/// counts. `input` is left as it is, and of the logs no more is read than stands behind the kept places, beside those of
/// subqueries.
pub fn run_with_checkpoint<L: Logs, D: Disk>(
    alloc: Global,
    spec: &Spec,
    ledger: &Name,
    moment: i64,
    logs: &mut L,
    disk: &mut D,
) -> Result<Counts, Status>
    requires moment { IsMoment moment }
    requires range { IsInRange spec.now }
    requires ledger { spec.now.checkpoint ≡ Some ledger.now }
    requires stage { name_fault (ledger.now ++ codes ".stage") ≡ None }
    // Whatever the query, a template is named where the output is by one.
    requires texts { (q : model.Query) → has_text spec.now (output_of spec.now q) ≡ true }
    ensures grows { OnlyGrow (L.folder logs.old) (L.folder logs.new) }
    ensures step { TakesSteps spec.now ledger.now (ledger.now ++ codes ".stage") moment (L.folder logs.old) (L.folder logs.new) (D.state disk.old) (D.state disk.new) result }
    ensures whole { IfOk result (IsWhole D.state disk.old ledger.now (ledger.now ++ codes ".stage") (L.folder logs.old) (L.folder logs.new) spec.now moment) }
    ensures refused { IfErr result (IsCallRefused D.state disk.old ledger.now (ledger.now ++ codes ".stage") (L.folder logs.old) (L.folder logs.new) spec.now moment) }
    ensures given { ReadsKept D.state disk.old ledger.now (ledger.now ++ codes ".stage") (L.folder logs.old) (L.folder logs.new) spec.now (L.given logs.old) (L.given logs.new) }
    ensures later_logs { L.faults logs.old ≤ L.faults logs.new }
    ensures later { D.faults disk.old ≤ D.faults disk.new }
    ensures logs { IsErrOf result S.LogsFault → Rose (L.faults logs.old) (L.faults logs.new) }
    ensures disk { IsErrOf result S.DiskFault → Rose (D.faults disk.old) (D.faults disk.new) }
{
    let known = match settle_ledger(disk, files_of(ledger)) {
        Ok(known) => known,
        Err(status) => return Err(status),
    };
    let WrittenQuery { query, text } = match ask_query(alloc, spec, logs) {
        Ok(written) => written,
        Err(status) => return Err(status),
    };
    let mut query = query;
    let counted = run_query(
        alloc, spec, ledger, known, moment, logs, disk, &mut query, text,
    );
    drop(query);
    counted
}
