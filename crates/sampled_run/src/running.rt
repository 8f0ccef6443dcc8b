// A query over logs whose columns they tell, by any reader of their format.
ghost use Rattle.std.specs.Prelude.{◌≡◌, ◌≤◌, ◌+◌, ◌++◌, true, length, map, OnOk, IfOk, IfErr, IsErrOf};
ghost use Rattle.lp_model.specs.Outside.{Rose, OnlyGrow, Told};
ghost use Rattle.log_reading.specs.Page.{IsTooMany, IsWithin};
ghost use Rattle.log_reading.specs.Spans.{AllSpans, AreReadable, AreKept, IsSpan, spans_bad_lines, spans_size, took_of};
ghost use Rattle.any_format.specs.Wanted.{IsMoment, wanted_text};
ghost use Rattle.text_output.specs.Output.{kind_of};
ghost use Rattle.row_output.specs.Sinks.{IsUnplaced, files_for};
ghost use Rattle.query_tree.specs.Views.{query_of};
ghost use Rattle.query_types.specs.Built.{is_built};
ghost use Rattle.column_kinds.specs.Past.{nothing};
ghost use Rattle.column_kinds.specs.Spans.{past_behind};
ghost use Rattle.sampled_run.specs.Fresh.{IsFresh};
ghost use Rattle.sampled_run.specs.Read.{HasRead};
ghost use Rattle.sampled_run.specs.Finishes.{asked_by};
ghost use Rattle.sampled_run.specs.Rules.{rules_of};
ghost use Rattle.sampled_run.specs.Kinds.{writer_kind};
ghost use Rattle.sampled_run.specs.Ran.{IsSampled, IsStoppedBy, OnBadOne, fault_in, read_fault};
ghost use Rattle.sampled_run.specs.InTurn.{ComesInTurn};

use crate::ending::{finish_run, why_refused};
use crate::fault::refused_in;
use crate::{Moment, RowMaker, SampleFault};
use any_format::Wanted;
use column_kinds::{Gathering, KeptRows, Phase, Sampled};
use line_input::{Fields, LineReader, Splitter, Standing};
use log_reading::{LogSource, Page, RunFault, Span, TookList, take_spans};
use lp_outside::Stage;
use lp_time::Pattern;
use query_run::{Counts, Writer, Written, new_chunk};
use query_tree::Query;
use row_output::{Into, Refused};
use sampled_table::SampledPicker;
use std::alloc::Global;
use std::marker::PhantomData;

type SampledPage<'a, G> = Page<Sampled<'a, RowMaker<'a, G>, Writer<SampledPicker<'a>>>>;

// Why a run stops, where the reading of its logs did, and its writer for this.
fn read_fault(fault: RunFault, refused: Option<Refused>) -> SampleFault
    ensures { result ≡ read_fault fault refused }
{
    match fault {
        RunFault::Logs => SampleFault::Logs,
        RunFault::Output => SampleFault::Output,
        RunFault::Memory => SampleFault::Memory,
        RunFault::Stopped => refused_in(refused),
        RunFault::Bad { log, row } => SampleFault::Bad { log, row },
    }
}

// Why a run stops, where the reading of its logs did.
fn fault_in<M: Drop, P: Drop>(phase: Phase<M, Writer<P>>, fault: RunFault) -> SampleFault
    ensures { result ≡ fault_in phase fault }
{
    match phase {
        Phase::Refused(fault) => SampleFault::Plan(fault),
        Phase::Taking(writer) => read_fault(fault, why_refused(writer)),
        Phase::Gathering(gathering) => {
            drop(gathering);
            read_fault(fault, None)
        }
        Phase::Lost => read_fault(fault, None),
    }
}

// How far the sample of a page has come.
fn phase_of<'a, G>(page: SampledPage<'a, G>) -> Phase<RowMaker<'a, G>, Writer<SampledPicker<'a>>>
    ensures { result ≡ page.entry.taker.phase }
{
    let Page { taker, .. } = page;
    let Sampled { phase, .. } = taker;
    phase
}

// The page before the first log.
fn first_page<'a, G>(
    alloc: Global,
    limit: u32,
    pattern: &'a Pattern,
    moment: Moment,
    query: &'a Query,
    most_bad: Option<u64>,
    wanted: Wanted,
    into: Into,
) -> SampledPage<'a, G>
    requires built { is_built (query_of query.now) ≡ true }
    requires moment { IsMoment moment.seconds }
    requires none { IsUnplaced into }
    ensures fresh { IsFresh limit pattern.now moment.seconds (query_of query.now) wanted into result.taker }
    ensures rows { result.rows ≡ 0 }
    ensures bad { result.bad ≡ 0 }
    ensures most { result.most_bad ≡ most_bad }
{
    Page {
        taker: Sampled {
            limit,
            pattern,
            phase: Phase::Gathering(Gathering {
                first: None,
                rows: KeptRows::new(alloc),
                maker: RowMaker {
                    pattern,
                    moment,
                    query,
                    wanted,
                    into,
                    stage: PhantomData,
                },
            }),
        },
        splitter: Splitter::new(alloc, 0),
        standing: Standing::new(),
        row: Fields::new(alloc),
        rows: 0,
        bad: 0,
        most_bad,
    }
}

// Reads all lines of spans, by a reader of their format.
fn read_page<'a, R: LineReader, L: LogSource, G: Stage>(
    alloc: Global,
    reader: &R,
    limit: u32,
    pattern: &'a Pattern,
    moment: Moment,
    query: &'a Query,
    most_bad: Option<u64>,
    waits: bool,
    logs: &mut L,
    spans: &[Span],
    wanted: Wanted,
    into: Into,
    took: &mut TookList,
    stage: &mut G,
) -> Result<SampledPage<'a, G>, SampleFault>
    requires built { is_built (query_of query.now) ≡ true }
    requires moment { IsMoment moment.seconds }
    requires none { IsUnplaced into }
    requires few { length spans.now ≤ 100000 }
    requires spans { AllSpans spans.now IsSpan }
    requires readable { AreReadable L.folder L.ready logs.old spans.now }
    ensures grows { OnlyGrow (L.folder logs.old) (L.folder logs.new) }
    ensures goes_logs { L.goes logs.old logs.new }
    ensures read { IfOk result (HasRead (writer_kind (kind_of G.state G.ended)) (R.format reader.now) waits (L.folder logs.new) spans.now limit pattern.now moment.seconds (query_of query.now) wanted into stage.old stage.new) }
    ensures stopped { IfErr result (λ fault. Told (L.folder logs.new) (λ folder. AreKept (R.format reader.now) waits spans.now folder
        → IsStoppedBy (kind_of G.state G.ended) (rules_of limit pattern.now moment.seconds (query_of query.now) (asked_by (files_for into) (wanted_text wanted moment.seconds) (query_of query.now))) stage.old (past_behind (R.format reader.now) waits folder nothing spans.now) fault stage.new)) }
    ensures within { IfOk result (λ page. IsWithin most_bad page.bad) }
    ensures too_many { IfErr result (λ fault. OnBadOne fault (λ line. Told (L.folder logs.new) (λ folder. AreKept (R.format reader.now) waits spans.now folder
        → IsTooMany most_bad 0 (spans_bad_lines (R.format reader.now) waits folder spans.now) line))) }
    ensures in_turn { IfErr result (λ fault. Told (L.folder logs.new) (λ folder. AreKept (R.format reader.now) waits spans.now folder
        → ComesInTurn (rules_of limit pattern.now moment.seconds (query_of query.now) (asked_by (files_for into) (wanted_text wanted moment.seconds) (query_of query.now))) stage.old (past_behind (R.format reader.now) waits folder nothing spans.now) most_bad (R.format reader.now) waits folder spans.now fault stage.new)) }
    ensures took { OnOk result (Told (L.folder logs.new) (λ folder. AreKept (R.format reader.now) waits spans.now folder
        → took.new ≡ took.old ++ map (took_of (R.format reader.now) waits folder) spans.now)) }
    ensures given { L.given logs.new ≤ L.given logs.old + spans_size spans.now }
    ensures later_logs { L.faults logs.old ≤ L.faults logs.new }
    ensures logs { IsErrOf result SampleFault.Logs → Rose (L.faults logs.old) (L.faults logs.new) }
    ensures goes { G.goes stage.old stage.new }
    ensures later { G.faults stage.old ≤ G.faults stage.new }
    ensures output { IsErrOf result SampleFault.Output → Rose (G.faults stage.old) (G.faults stage.new) }
{
    let Ok(mut chunk) = new_chunk(alloc) else {
        return Err(SampleFault::Memory);
    };
    let mut page = first_page(alloc, limit, pattern, moment, query, most_bad, wanted, into);
    match take_spans(
        alloc, reader, waits, logs, spans, &mut chunk, &mut page, took, stage,
    ) {
        Ok(()) => Ok(page),
        Err(fault) => {
            let phase = phase_of(page);
            Err(fault_in(phase, fault))
        }
    }
}

/// Writes the output rows of a query over the records of spans, joined in order, whose columns they tell, by a reader of their format.
pub(crate) fn sample_reader<'a, R: LineReader, L: LogSource, G: Stage>(
    alloc: Global,
    reader: &R,
    limit: u32,
    pattern: &'a Pattern,
    moment: Moment,
    query: &'a Query,
    most_bad: Option<u64>,
    waits: bool,
    logs: &mut L,
    spans: &[Span],
    wanted: Wanted,
    into: Into,
    took: &mut TookList,
    stage: &mut G,
) -> Result<Written, SampleFault>
    requires built { is_built (query_of query.now) ≡ true }
    requires moment { IsMoment moment.seconds }
    requires none { IsUnplaced into }
    requires few { length spans.now ≤ 100000 }
    requires spans { AllSpans spans.now IsSpan }
    requires readable { AreReadable L.folder L.ready logs.old spans.now }
    ensures grows { OnlyGrow (L.folder logs.old) (L.folder logs.new) }
    ensures goes_logs { L.goes logs.old logs.new }
    ensures ran { IfOk result (λ run. Told (L.folder logs.new) (λ folder. AreKept (R.format reader.now) waits spans.now folder
        → IsSampled (kind_of G.state G.ended) (rules_of limit pattern.now moment.seconds (query_of query.now) (asked_by (files_for into) (wanted_text wanted moment.seconds) (query_of query.now))) stage.old (past_behind (R.format reader.now) waits folder nothing spans.now) (R.format reader.now) waits folder spans.now run stage.new)) }
    ensures stopped { IfErr result (λ fault. Told (L.folder logs.new) (λ folder. AreKept (R.format reader.now) waits spans.now folder
        → IsStoppedBy (kind_of G.state G.ended) (rules_of limit pattern.now moment.seconds (query_of query.now) (asked_by (files_for into) (wanted_text wanted moment.seconds) (query_of query.now))) stage.old (past_behind (R.format reader.now) waits folder nothing spans.now) fault stage.new)) }
    ensures within { IfOk result (λ run. IsWithin most_bad run.counts.bad) }
    ensures too_many { IfErr result (λ fault. OnBadOne fault (λ line. Told (L.folder logs.new) (λ folder. AreKept (R.format reader.now) waits spans.now folder
        → IsTooMany most_bad 0 (spans_bad_lines (R.format reader.now) waits folder spans.now) line))) }
    // Of two faults the one that comes first is told: the sample is read before the query is planned, and each row put behind its line.
    ensures in_turn { IfErr result (λ fault. Told (L.folder logs.new) (λ folder. AreKept (R.format reader.now) waits spans.now folder
        → ComesInTurn (rules_of limit pattern.now moment.seconds (query_of query.now) (asked_by (files_for into) (wanted_text wanted moment.seconds) (query_of query.now))) stage.old (past_behind (R.format reader.now) waits folder nothing spans.now) most_bad (R.format reader.now) waits folder spans.now fault stage.new)) }
    ensures took { OnOk result (Told (L.folder logs.new) (λ folder. AreKept (R.format reader.now) waits spans.now folder
        → took.new ≡ took.old ++ map (took_of (R.format reader.now) waits folder) spans.now)) }
    ensures given { L.given logs.new ≤ L.given logs.old + spans_size spans.now }
    ensures later_logs { L.faults logs.old ≤ L.faults logs.new }
    ensures logs { IsErrOf result SampleFault.Logs → Rose (L.faults logs.old) (L.faults logs.new) }
    ensures goes { G.goes stage.old stage.new }
    ensures later { G.faults stage.old ≤ G.faults stage.new }
    ensures output { IsErrOf result SampleFault.Output → Rose (G.faults stage.old) (G.faults stage.new) }
{
    let page = read_page(
        alloc, reader, limit, pattern, moment, query, most_bad, waits, logs, spans, wanted, into,
        took, stage,
    )?;
    let processed = page.rows;
    let bad = page.bad;
    match finish_run(alloc, page.taker, stage) {
        Ok(finished) => Ok(Written {
            counts: Counts {
                processed,
                output: finished.rows,
                bad,
            },
            outputs: finished.outputs,
        }),
        Err(fault) => Err(fault),
    }
}
