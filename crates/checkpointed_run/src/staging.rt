// The rows of a run in a stage, and the entry of the run.
ghost use Rattle.std.specs.Prelude.{◌≡◌, ◌≤◌, ◌+◌, ◌++◌, true, length, codes, None, IfOk, IfErr, IfSome, IsSome, IsErrOf};
ghost use Rattle.lp_model.specs.Outside.{Rose, OnlyGrow, Told, bytes_in};
ghost use Rattle.command_words.specs.Table.{IsInRange};
ghost use Rattle.command_words.specs.declared.formats.OutputFormat.TheVariants as O;
ghost use Rattle.commit.specs.Phases.{Goes};
ghost use Rattle.run_entry.specs.Executed.{IsMoment};
ghost use Rattle.run_entry.specs.Texts.{output_of, sections_in};
ghost use Rattle.ledger.specs.Written.{entry_of};
ghost use Rattle.lp_outside.specs.NameFault.{name_fault};
ghost use Rattle.log_reading.specs.Spans.{AllSpans, IsSpan, spans_size};
ghost use Rattle.query_tree.specs.Views.{query_of};
ghost use Rattle.checkpointed_run.specs.Reading.{ReadsThen};
ghost use Rattle.checkpointed_run.specs.Reasons.{RefusedFor, StopsFor};
ghost use Rattle.checkpointed_run.specs.Staged.{HasEntryFor, HasStagedRun, request_of};
ghost use Rattle.checkpointed_run.specs.Stops.{HasReason, IsFromGate, IsDamagedStop};

use crate::RunStop;
use crate::fitting::make_entry;
use crate::giving::give_lists;
use checkpoint::Spans;
use command_words::Spec;
use commit::Commit;
use ledger::Entry;
use lp_outside::{Disk, Logs};
use lp_values::{Bytes, RowList, Text};
use query_run::Counts;
use query_tree::Query;
use run_entry::{RunFault, execute};
use std::alloc::Global;
use std::rc::Rc;
use tpl_output::Template;

/// A run that stands in the stage: its entry, and its counts.
#[derive(Drop)]
pub struct StagedRun {
    pub entry: Entry,
    pub counts: Counts,
}

// Puts the rows of a query that has what its subqueries gave into the stage, of each span the lines that LF ends, and makes the
// run's entry, which keeps their lists.
fn stage_filled<'d, L: Logs, D: Disk>(
    alloc: Global,
    spec: &Spec,
    query: &Query,
    lists: RowList,
    text: Text,
    template: Option<Rc<Template>>,
    bytes: Bytes,
    moment: i64,
    logs: &mut L,
    spans: &Spans,
    commit: &mut Commit<'d, D>,
) -> Result<StagedRun, RunFault>
    requires moment { IsMoment moment }
    requires range { IsInRange spec.now }
    requires template { output_of spec.now (query_of query.now) ≡ O.Tpl → IsSome template }
    requires stage { IfSome spec.now.checkpoint (λ ledger. name_fault (ledger ++ codes ".stage") ≡ None) }
    requires few { length spans.now ≤ 100000 }
    requires spans { AllSpans spans.now IsSpan }
    requires there { Told (L.folder logs.old) (λ folder. AllSpans spans.now (λ span. span.listed ≤ length (bytes_in folder span.name))) }
    ensures grows { OnlyGrow (L.folder logs.old) (L.folder logs.new) }
    ensures staged { IfOk result (λ run. HasEntryFor D.state (request_of spec.now (query_of query.now) text bytes moment) lists (sections_in (λ t. t.value) template) (L.folder logs.new) spans.now commit.old commit.new (entry_of run.entry) run.counts) }
    ensures refused { IfErr result (RefusedFor (request_of spec.now (query_of query.now) text bytes moment) (sections_in (λ t. t.value) template) (L.folder logs.new) spans.now) }
    ensures given { L.given logs.new ≤ L.given logs.old + spans_size spans.now }
    ensures later_logs { L.faults logs.old ≤ L.faults logs.new }
    ensures logs { IsErrOf result RunFault.LogsFault → Rose (L.faults logs.old) (L.faults logs.new) }
    ensures goes { Goes D.state commit.old commit.new }
    ensures later { D.faults commit.old.disk.now ≤ D.faults commit.new.disk.now }
    ensures stage { IsErrOf result RunFault.StageFault → Rose (D.faults commit.old.disk.now) (D.faults commit.new.disk.now) }
{
    let ran = match execute(
        alloc, spec, query, template, moment, logs, spans, true, commit,
    ) {
        Ok(ran) => ran,
        Err(fault) => return Err(fault),
    };
    match make_entry(
        alloc,
        spec,
        query,
        lists,
        text,
        bytes,
        moment,
        &ran,
        commit.staged(),
    ) {
        Ok(entry) => Ok(StagedRun {
            entry,
            counts: ran.counts,
        }),
        Err(_) => Err(RunFault::Memory),
    }
}

/// Empties the stage, runs the subqueries of a query and tells it what they gave, puts its rows over spans of logs into the stage,
/// of each span the lines that LF ends, and makes the run's entry.
pub fn stage_run<'d, L: Logs, D: Disk>(
    alloc: Global,
    spec: &Spec,
    query: &mut Query,
    text: Text,
    template: Option<Rc<Template>>,
    bytes: Bytes,
    moment: i64,
    logs: &mut L,
    spans: &Spans,
    commit: &mut Commit<'d, D>,
) -> Result<StagedRun, RunStop>
    requires moment { IsMoment moment }
    requires range { IsInRange spec.now }
    requires template { output_of spec.now (query_of query.old) ≡ O.Tpl → IsSome template }
    requires stage { IfSome spec.now.checkpoint (λ ledger. name_fault (ledger ++ codes ".stage") ≡ None) }
    requires few { length spans.now ≤ 100000 }
    requires spans { AllSpans spans.now IsSpan }
    requires there { Told (L.folder logs.old) (λ folder. AllSpans spans.now (λ span. span.listed ≤ length (bytes_in folder span.name))) }
    ensures grows { OnlyGrow (L.folder logs.old) (L.folder logs.new) }
    ensures staged { IfOk result (λ run. HasStagedRun D.state (request_of spec.now (query_of query.old) text bytes moment) (sections_in (λ t. t.value) template) (L.folder logs.old) (L.folder logs.new) spans.now commit.old commit.new (entry_of run.entry) run.counts) }
    ensures refused { IfErr result (StopsFor (request_of spec.now (query_of query.old) text bytes moment) (sections_in (λ t. t.value) template) (L.folder logs.old) (L.folder logs.new) spans.now) }
    // It is stopped before the gate, and no damage is found.
    ensures before { IfErr result (λ stop. IsFromGate stop → ⊥) }
    ensures undamaged { IfErr result (λ stop. IsDamagedStop stop → ⊥) }
    ensures given { ReadsThen (L.folder logs.new) (query_of query.old) (spans_size spans.now) (L.given logs.old) (L.given logs.new) }
    ensures later_logs { L.faults logs.old ≤ L.faults logs.new }
    ensures goes { Goes D.state commit.old commit.new }
    ensures later { D.faults commit.old.disk.now ≤ D.faults commit.new.disk.now }
    ensures reason { IfErr result (HasReason (Rose (L.faults logs.old) (L.faults logs.new)) (Rose (D.faults commit.old.disk.now) (D.faults commit.new.disk.now))) }
{
    match commit.start() {
        Ok(()) => {}
        Err(_) => return Err(RunStop::Refused(RunFault::StageFault)),
    }
    let lists = match give_lists(alloc, spec, query, moment, logs) {
        Ok(lists) => lists,
        Err(fault) => return Err(RunStop::Subquery(fault)),
    };
    match stage_filled(
        alloc, spec, query, lists, text, template, bytes, moment, logs, spans, commit,
    ) {
        Ok(run) => Ok(run),
        Err(fault) => Err(RunStop::Refused(fault)),
    }
}
