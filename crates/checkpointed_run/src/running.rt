// A run over a ledger: settled, staged, sealed, opened and finished.
ghost use Rattle.std.specs.Prelude.{◌≡◌, ◌≤◌, ◌++◌, length, codes, None, OnOk, IfOk, IfErr, IfSome, IsSome};
ghost use Rattle.lp_model.specs.Outside.{Rose, OnlyGrow, Told, bytes_in};
ghost use Rattle.command_words.specs.Table.{IsInRange};
ghost use Rattle.command_words.specs.declared.formats.OutputFormat.TheVariants as O;
ghost use Rattle.commit.specs.Known.{IsLow, IsReadSince};
ghost use Rattle.commit.specs.Phases.{disk_of, ledger_of, stage_of, Same, SettlesHeld, Unsettled};
ghost use Rattle.run_entry.specs.Executed.{IsMoment};
ghost use Rattle.run_entry.specs.Texts.{output_of, sections_in};
ghost use Rattle.lp_outside.specs.NameFault.{name_fault};
ghost use Rattle.log_reading.specs.Spans.{AllSpans, IsSpan, spans_size};
ghost use Rattle.query_tree.specs.Views.{query_of};
ghost use Rattle.checkpointed_run.specs.Committed.{IsCommitted, StopsAtGate};
ghost use Rattle.checkpointed_run.specs.Phases.{as_of};
ghost use Rattle.checkpointed_run.specs.Reading.{ReadsThen};
ghost use Rattle.checkpointed_run.specs.Reasons.{FitsAsRead, StopsAtDamage, StopsFor};
ghost use Rattle.checkpointed_run.specs.Staged.{request_of};
ghost use Rattle.checkpointed_run.specs.Stops.{IsBeforeGate, IsDamagedStop, IsFromGate, HasReason};

use crate::staging::stage_run;
use checkpoint::Spans;
use command_words::Spec;
use commit::{Commit, CommitFault};
use ledger::End;
use lp_outside::{Disk, Logs};
use lp_values::{Bytes, Text};
use query_run::Counts;
use query_tree::Query;
use run_entry::{RunFault, SubqueryFault};
use std::alloc::Global;
use std::rc::Rc;
use tpl_output::Template;

/// Why a run over a ledger stops.
#[derive(Drop)]
pub enum RunStop {
    /// Before the gate: a subquery of the query.
    Subquery(SubqueryFault),
    /// Before the gate: the query, its logs, its outputs or memory.
    Refused(RunFault),
    /// Before the gate: the disk failed, or the ledger or the stage that it found is damaged.
    BeforeGate(CommitFault),
    /// At the gate or behind it.
    FromGate(CommitFault),
}

/// Runs a query over spans of logs: settles the disk, runs the query's subqueries and tells it what they gave, stages the rows and
/// seals the run's entry, opens its gate and writes its outputs. The ledger isn't walked where its end is known from an earlier
/// moment, since when the disk was only read: what is said of a disk that was found is said of it as it was then.
pub fn commit_run<'d, L: Logs, D: Disk>(
    alloc: Global,
    spec: &Spec,
    query: &mut Query,
    text: Text,
    template: Option<Rc<Template>>,
    bytes: Bytes,
    moment: i64,
    logs: &mut L,
    spans: &Spans,
    known: Option<End>,
    commit: &mut Commit<'d, D>,
) -> Result<Counts, RunStop>
    requires moment { IsMoment moment }
    requires range { IsInRange spec.now }
    requires template { output_of spec.now (query_of query.old) ≡ O.Tpl → IsSome template }
    requires stage { IfSome spec.now.checkpoint (λ ledger. name_fault (ledger ++ codes ".stage") ≡ None) }
    requires few { length spans.now ≤ 100000 }
    requires spans { AllSpans spans.now IsSpan }
    requires there { Told (L.folder logs.old) (λ folder. AllSpans spans.now (λ span. span.listed ≤ length (bytes_in folder span.name))) }
    requires low { IfSome known IsLow }
    ensures grows { OnlyGrow (L.folder logs.old) (L.folder logs.new) }
    ensures same { Same commit.old commit.new }
    ensures committed { (earlier : D) → IsReadSince (D.state earlier) (disk_of D.state commit.old) (ledger_of commit.old) known → IfOk result (IsCommitted D.state (request_of spec.now (query_of query.old) text bytes moment) (sections_in (λ t. t.value) template) (L.folder logs.old) (L.folder logs.new) spans.now (as_of earlier commit.old) commit.new) }
    ensures before { (earlier : D) → IsReadSince (D.state earlier) (disk_of D.state commit.old) (ledger_of commit.old) known → IfErr result (λ stop. IsBeforeGate stop → Unsettled D.state (as_of earlier commit.old) → SettlesHeld D.state (as_of earlier commit.old) commit.new) }
    ensures behind { (earlier : D) → IsReadSince (D.state earlier) (disk_of D.state commit.old) (ledger_of commit.old) known → IfErr result (λ stop. IsFromGate stop → StopsAtGate D.state (request_of spec.now (query_of query.old) text bytes moment) (sections_in (λ t. t.value) template) (L.folder logs.old) (L.folder logs.new) spans.now (as_of earlier commit.old) commit.new stop) }
    // No damage is told of a disk that may be settled.
    ensures undamaged { (earlier : D) → IsReadSince (D.state earlier) (disk_of D.state commit.old) (ledger_of commit.old) known → IfErr result (λ stop. IsBeforeGate stop → IsDamagedStop stop → Unsettled D.state (as_of earlier commit.old) → ⊥) }
    ensures refused { IfErr result (StopsFor (request_of spec.now (query_of query.old) text bytes moment) (sections_in (λ t. t.value) template) (L.folder logs.old) (L.folder logs.new) spans.now) }
    // What a read gave fits, or the damage is told before anything else.
    ensures fits { (earlier : D) → IsReadSince (D.state earlier) (disk_of D.state commit.old) (ledger_of commit.old) known → OnOk result (FitsAsRead (D.state earlier) (ledger_of commit.old) (stage_of commit.old)) }
    ensures damaged { (earlier : D) → IsReadSince (D.state earlier) (disk_of D.state commit.old) (ledger_of commit.old) known → IfErr result (StopsAtDamage (D.state earlier) (ledger_of commit.old) (stage_of commit.old)) }
    ensures given { ReadsThen (L.folder logs.new) (query_of query.old) (spans_size spans.now) (L.given logs.old) (L.given logs.new) }
    ensures later_logs { L.faults logs.old ≤ L.faults logs.new }
    ensures later { D.faults commit.old.disk.now ≤ D.faults commit.new.disk.now }
    ensures reason { IfErr result (HasReason (Rose (L.faults logs.old) (L.faults logs.new)) (Rose (D.faults commit.old.disk.now) (D.faults commit.new.disk.now))) }
{
    match commit.settle_known(known) {
        Ok(_) => {}
        Err(fault) => return Err(RunStop::BeforeGate(fault)),
    }
    let run = match stage_run(
        alloc, spec, query, text, template, bytes, moment, logs, spans, commit,
    ) {
        Ok(run) => run,
        Err(stop) => return Err(stop),
    };
    match commit.seal(&run.entry) {
        Ok(()) => {}
        Err(_) => return Err(RunStop::BeforeGate(CommitFault::DiskFault)),
    }
    match commit.open_gate() {
        Ok(()) => {}
        Err(_) => return Err(RunStop::FromGate(CommitFault::DiskFault)),
    }
    match commit.finish() {
        Ok(()) => Ok(run.counts),
        Err(fault) => Err(RunStop::FromGate(fault)),
    }
}
