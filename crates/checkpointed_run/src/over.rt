// A run over the logs behind FROM, from where the runs of a ledger left them.
ghost use Rattle.std.specs.Prelude.{◌≡◌, ◌≤◌, ◌+◌, ◌++◌, ℕ, true, List, length, map, codes, None, Some, Option, OnOk, IfOk, IfErr, IfSome, IsSome, MatchResult};
ghost use Rattle.lp_model.specs.Outside.{Folder, Rose, OnlyGrow, Told, bytes_in};
ghost use Rattle.command_words.specs.Table.{IsInRange};
ghost use Rattle.command_words.specs.declared.formats.OutputFormat.TheVariants as O;
ghost use Rattle.commit.specs.Known.{IsLow, IsReadSince};
ghost use Rattle.commit.specs.Resume.{CanSettle, Settles};
ghost use Rattle.run_entry.specs.Executed.{IsMoment};
ghost use Rattle.run_entry.specs.Texts.{output_of, sections_in};
ghost use Rattle.ledger.specs.Reader.{Holds, Rests};
ghost use Rattle.ledger_model.specs.Inputs.{input_text};
ghost use Rattle.log_reading.specs.Spans.{AllSpans, IsSpan, spans_size};
ghost use Rattle.lp_outside.specs.NameFault.{name_fault};
ghost use Rattle.positions.specs.Faults.{HasLoadReason};
ghost use Rattle.positions.specs.Loads.{KeepsLedger, RefusedLoad};
ghost use Rattle.positions.specs.Spanning.{rule_of};
ghost use Rattle.run_entry.specs.Gives.{HasTemplate};
ghost use Rattle.run_entry.specs.Inputs.{input_for};
ghost use Rattle.query_text.specs.Stdin.{names_in};
ghost use Rattle.query_tree.specs.Views.{query_of};
ghost use Rattle.checkpointed_run.specs.Begun.{GivesSpans, HasSpans};
ghost use Rattle.checkpointed_run.specs.Counted.{HasRun};
ghost use Rattle.checkpointed_run.specs.Clash.{first_clash};
ghost use Rattle.checkpointed_run.specs.Reading.{ReadsThen};
ghost use Rattle.checkpointed_run.specs.Reasons.{FitsAsRead, StopsAtDamage, StopsFor};
ghost use Rattle.checkpointed_run.specs.Refusals.{HasCauses, IsAtDamage, IsNotBegun, IsStoppedBefore, IsWithoutCounts};
ghost use Rattle.checkpointed_run.specs.Runs.{RunsOver};
ghost use Rattle.checkpointed_run.specs.Staged.{request_of};
ghost use Rattle.checkpointed_run.specs.Steps.{TakesStep};
ghost use Rattle.checkpointed_run.specs.Stops.{HasReason};

use crate::{RunStop, commit_run};
use checkpoint::{Sources, Spans};
use command_words::Spec;
use commit::{Commit, CommitFiles};
use ledger::End;
use lp_outside::{Disk, Logs, Name};
use lp_values::{Bytes, Text};
use positions::{LoadFault, Positions, SpanFault};
use query_run::Counts;
use query_tree::Query;
use run_entry::{input_text, input_texts_tell_their_format};
use std::alloc::Global;
use std::rc::Rc;
use tpl_output::Template;

/// Why a run over the logs behind FROM gives no counts.
#[derive(Drop)]
pub enum LedgerStop {
    /// The ledger isn't loaded.
    Ledger(LoadFault),
    /// The logs have no spans, or the ledger's runs read them otherwise.
    Logs(SpanFault),
    /// A log is the ledger or the stage: the name of the first such span's file.
    Clash(Name),
    /// The run was stopped.
    Run(RunStop),
    /// Want of memory.
    Memory,
}

// The kept places of a ledger, which isn't walked where its end is known. The disk is only read.
fn load_known<D: Disk>(
    alloc: Global,
    disk: &mut D,
    ledger: &Name,
    known: Option<End>,
) -> Result<Positions, LoadFault>
    ensures loads { (earlier : D) (file : List ℕ) → IsReadSince (D.state earlier) (D.state disk.old) ledger.now known → Holds (D.state earlier) ledger.now file → MatchResult result (KeepsLedger file) (RefusedLoad file) }
    ensures rests { Rests (D.state disk.old) (D.state disk.new) }
    ensures reason { HasLoadReason (D.faults disk.old) (D.faults disk.new) result }
{
    match known {
        Some(end) => Positions::load_up_to(alloc, disk, ledger, end),
        None => Positions::load(alloc, disk, ledger),
    }
}

// What a run reads of each log behind FROM. The disk is only read.
fn spans_over<L: Logs, D: Disk>(
    alloc: Global,
    spec: &Spec,
    query: &Query,
    logs: &mut L,
    sources: &Sources,
    ledger: &Name,
    known: Option<End>,
    disk: &mut D,
) -> Result<Spans, LedgerStop>
    requires range { IsInRange spec.now }
    ensures grows { OnlyGrow (L.folder logs.old) (L.folder logs.new) }
    ensures rests { Rests (D.state disk.old) (D.state disk.new) }
    ensures spans { (read : D) → IsReadSince (D.state read) (D.state disk.old) ledger.now known → IfOk result (HasSpans (D.state read) ledger.now (rule_of sources.now.rotation) (input_text (input_for spec.now (query_of query.now))) sources.now.names (L.folder logs.old) (L.folder logs.new)) }
    ensures low { IfOk result (λ spans. AllSpans spans IsSpan) }
    ensures few { IfOk result (λ spans. length spans ≤ 100_000) }
    ensures there { IfOk result (λ spans. Told (L.folder logs.new) (λ folder. AllSpans spans (λ span. span.listed ≤ length (bytes_in folder span.name)))) }
    ensures not_begun { (read : D) → IsReadSince (D.state read) (D.state disk.old) ledger.now known → IfErr result (IsNotBegun (D.state read) ledger.now (rule_of sources.now.rotation) (input_text (input_for spec.now (query_of query.now))) sources.now.names (L.folder logs.old) (L.folder logs.new)) }
    ensures given { L.given logs.new ≡ L.given logs.old }
    ensures later_logs { L.faults logs.old ≤ L.faults logs.new }
    ensures later { D.faults disk.old ≤ D.faults disk.new }
    ensures reason { IfErr result (HasCauses (Rose (L.faults logs.old) (L.faults logs.new)) (Rose (D.faults disk.old) (D.faults disk.new))) }
{
    let kept = match load_known(alloc, disk, ledger, known) {
        Ok(kept) => kept,
        Err(fault) => return Err(LedgerStop::Ledger(fault)),
    };
    let read_by = match input_text(alloc, spec, query) {
        Ok(read_by) => read_by,
        Err(_) => return Err(LedgerStop::Memory),
    };
    match kept.span(alloc, logs, sources, &read_by) {
        Ok(spans) => Ok(spans),
        Err(fault) => Err(LedgerStop::Logs(fault)),
    }
}

// A name has no fault.
fn name_is_good(name: &Name)
    ensures { name_fault name.now ≡ None }
{
    let _text = name.as_str();
}

// Runs a query over spans, over the two files of a disk.
fn run_over_spans<L: Logs, D: Disk>(
    alloc: Global,
    spec: &Spec,
    query: &mut Query,
    text: Text,
    template: Option<Rc<Template>>,
    bytes: Bytes,
    moment: i64,
    logs: &mut L,
    spans: &Spans,
    files: CommitFiles,
    known: Option<End>,
    disk: &mut D,
) -> Result<Counts, RunStop>
    requires moment { IsMoment moment }
    requires range { IsInRange spec.now }
    requires template { output_of spec.now (query_of query.old) ≡ O.Tpl → IsSome template }
    requires ledger { spec.now.checkpoint ≡ Some files.ledger }
    requires stage { files.stage ≡ files.ledger ++ codes ".stage" }
    requires few { length spans.now ≤ 100_000 }
    requires low { AllSpans spans.now IsSpan }
    requires there { Told (L.folder logs.old) (λ folder. AllSpans spans.now (λ span. span.listed ≤ length (bytes_in folder span.name))) }
    requires known { IfSome known IsLow }
    ensures grows { OnlyGrow (L.folder logs.old) (L.folder logs.new) }
    ensures runs { (read : D) → IsReadSince (D.state read) (D.state disk.old) files.ledger known → RunsOver D.state (request_of spec.now (query_of query.old) text bytes moment) (sections_in (λ t. t.value) template) (L.folder logs.old) (L.folder logs.new) spans.now files read disk.new result }
    ensures refused { IfErr result (StopsFor (request_of spec.now (query_of query.old) text bytes moment) (sections_in (λ t. t.value) template) (L.folder logs.old) (L.folder logs.new) spans.now) }
    ensures fits { (read : D) → IsReadSince (D.state read) (D.state disk.old) files.ledger known → OnOk result (FitsAsRead (D.state read) files.ledger files.stage) }
    ensures damaged { (read : D) → IsReadSince (D.state read) (D.state disk.old) files.ledger known → IfErr result (StopsAtDamage (D.state read) files.ledger files.stage) }
    ensures given { ReadsThen (L.folder logs.new) (query_of query.old) (spans_size spans.now) (L.given logs.old) (L.given logs.new) }
    ensures later_logs { L.faults logs.old ≤ L.faults logs.new }
    ensures later { D.faults disk.old ≤ D.faults disk.new }
    ensures reason { IfErr result (HasReason (Rose (L.faults logs.old) (L.faults logs.new)) (Rose (D.faults disk.old) (D.faults disk.new))) }
{
    name_is_good(&files.stage);
    let mut commit = Commit::new(disk, files);
    commit_run(
        alloc,
        spec,
        query,
        text,
        template,
        bytes,
        moment,
        logs,
        spans,
        known,
        &mut commit,
    )
}

// The name of the first span whose file is the ledger or the stage. It takes no memory.
fn clash_in(ledger: &Name, stage: &Name, spans: &Spans) -> Option<Name>
    ensures { result ≡ first_clash ledger.now stage.now spans.now }
{
    let found = spans
        .as_slice()
        .iter()
        .find(|span| span.name.is(ledger) || span.name.is(stage));
    match found {
        Some(span) => Some(span.name.copy()),
        None => None,
    }
}

/// Runs a query over the logs behind FROM, of each the complete lines behind its kept place, its subqueries before it, and commits
/// its outputs and its entry together. The ledger isn't walked where its end is known from an earlier moment, since when the disk was
/// only read: what is said of the disk that was found is said of it as it was then.
pub fn run_over_ledger<L: Logs, D: Disk>(
    alloc: Global,
    spec: &Spec,
    query: &mut Query,
    text: Text,
    template: Option<Rc<Template>>,
    bytes: Bytes,
    moment: i64,
    logs: &mut L,
    sources: &Sources,
    files: CommitFiles,
    known: Option<End>,
    disk: &mut D,
) -> Result<Counts, LedgerStop>
    requires moment { IsMoment moment }
    requires range { IsInRange spec.now }
    requires template { output_of spec.now (query_of query.old) ≡ O.Tpl → IsSome template }
    // The bytes are those of the template.
    requires sections { HasTemplate spec.now (query_of query.old) bytes (sections_in (λ t. t.value) template) }
    requires names { sources.now.names ≡ map (λ name. name.text) (names_in (query_of query.old)) }
    requires rotation { sources.now.rotation ≡ spec.now.rotation }
    requires ledger { spec.now.checkpoint ≡ Some files.ledger }
    requires stage { files.stage ≡ files.ledger ++ codes ".stage" }
    requires low { IfSome known IsLow }
    ensures grows { OnlyGrow (L.folder logs.old) (L.folder logs.new) }
    // It is a step of the world from any earlier moment on, since when the disk was settled at most and the logs only grew.
    ensures step { (read : D) → IsReadSince (D.state read) (D.state disk.old) files.ledger known → (earlier : D) (since : Option Folder) → (CanSettle (D.state earlier) files.ledger files.stage → Settles (D.state earlier) (D.state read) files.ledger files.stage) → OnlyGrow since (L.folder logs.old)
        → TakesStep result (request_of spec.now (query_of query.old) text bytes moment) files.ledger files.stage since (L.folder logs.new) (D.state earlier) (D.state disk.new) }
    // What it did where it came to counts.
    ensures ran { (read : D) → IsReadSince (D.state read) (D.state disk.old) files.ledger known → IfOk result (HasRun D.state (D.state read) files.ledger files.stage (rule_of sources.now.rotation) (input_text (input_for spec.now (query_of query.old))) sources.now.names (request_of spec.now (query_of query.old) text bytes moment) (sections_in (λ t. t.value) template) (L.folder logs.old) (L.folder logs.new)) }
    // Why there are no counts.
    ensures refused { (read : D) → IsReadSince (D.state read) (D.state disk.old) files.ledger known → IfErr result (IsWithoutCounts D.state (D.state read) files.ledger files.stage (rule_of sources.now.rotation) (input_text (input_for spec.now (query_of query.old))) sources.now.names (request_of spec.now (query_of query.old) text bytes moment) (sections_in (λ t. t.value) template) (L.folder logs.old) (L.folder logs.new)) }
    // Up to its gate the disk was settled at most.
    ensures before { (read : D) → IsReadSince (D.state read) (D.state disk.old) files.ledger known → IfErr result (λ stop. IsStoppedBefore stop → CanSettle (D.state read) files.ledger files.stage → Settles (D.state read) (D.state disk.new) files.ledger files.stage) }
    // What a read gave fits, or settling the disk finds a damage of the stage or of the ledger, which is told before anything else of the run.
    ensures fits { (read : D) → IsReadSince (D.state read) (D.state disk.old) files.ledger known → OnOk result (FitsAsRead (D.state read) files.ledger files.stage) }
    ensures damaged { (read : D) → IsReadSince (D.state read) (D.state disk.old) files.ledger known → IfErr result (IsAtDamage (D.state read) files.ledger files.stage) }
    // A fault of the disk or of the logs is one that was counted in the call.
    ensures reason { IfErr result (HasCauses (Rose (L.faults logs.old) (L.faults logs.new)) (Rose (D.faults disk.old) (D.faults disk.new))) }
    // What the logs gave lies in those of the subqueries and in the spans.
    ensures given { (read : D) → IsReadSince (D.state read) (D.state disk.old) files.ledger known → GivesSpans (D.state read) files.ledger files.stage (rule_of sources.now.rotation) (input_text (input_for spec.now (query_of query.old))) sources.now.names (query_of query.old) (L.folder logs.old) (L.folder logs.new) (L.given logs.old) (L.given logs.new) }
    ensures later_logs { L.faults logs.old ≤ L.faults logs.new }
    ensures later { D.faults disk.old ≤ D.faults disk.new }
{
    // A law, which costs nothing: the logs are read in the format that the ledger's text of them tells.
    input_texts_tell_their_format();
    let spans = match spans_over(
        alloc,
        spec,
        query,
        logs,
        sources,
        &files.ledger,
        known,
        disk,
    ) {
        Ok(spans) => spans,
        Err(stop) => return Err(stop),
    };
    if let Some(name) = clash_in(&files.ledger, &files.stage, &spans) {
        return Err(LedgerStop::Clash(name));
    }
    match run_over_spans(
        alloc, spec, query, text, template, bytes, moment, logs, &spans, files, known, disk,
    ) {
        Ok(counts) => Ok(counts),
        Err(stop) => Err(LedgerStop::Run(stop)),
    }
}
