// A query over logs to a stage.
ghost use Rattle.std.specs.Prelude.{◌≡◌, ◌⊎◌, ◌≤◌, ◌<◌, ◌^◌, ◌+◌, ◌++◌, [], List, true, length, map, OnOk, OnErr, IfOk, IfErr, IsErrOf, IsSome};
ghost use Rattle.lp_model.specs.Outside.{Rose, OnlyGrow, Told};
ghost use Rattle.log_reading.specs.Page.{IsTooMany, IsWithin};
ghost use Rattle.log_reading.specs.Spans.{AllSpans, AreReadable, IsSpan, AreKept, spans_found, spans_bad, spans_bad_lines, spans_size, took_of};
ghost use Rattle.order_top.specs.Finish.{Row};
ghost use Rattle.text_output.specs.Output.{kind_of};
ghost use Rattle.row_output.specs.Asked.{left_of};
ghost use Rattle.row_output.specs.Kept.{HasRows, IsNew, asked_of};
ghost use Rattle.row_output.specs.Rows.{Holds, IsRefused, Stops};
ghost use Rattle.row_output.specs.declared.fault.Refused.{Refused as Why};
ghost use Rattle.row_output.specs.declared.kept.RowOutput.{RowOutput};
ghost use Rattle.log_reading.specs.declared.span.RunFault.TheVariants as R;
ghost use Rattle.log_reading.specs.declared.taker.TakeFault.TheVariants as T;
ghost use Rattle.query_run.specs.Faults.{OnBad, OnRefusedOutput, ended_by, stopped_at, stopped_in};
ghost use Rattle.query_run.specs.InTurn.{BadInTurn, RefusedInTurn};
ghost use Rattle.query_run.specs.Rows.{picked};
ghost use Rattle.row_output.specs.Sinks.{HoldsNoPiece};
ghost use Rattle.query_run.specs.Ahead.{GoesAhead};
ghost use Rattle.query_run.specs.Writer.{Starts};

use crate::{Picker, WriteFault, Writer};
use line_input::{Fields, LineReader, Splitter, Standing};
use log_reading::{LogSource, Page, RunFault, Span, TakeFault, TookList, take_spans};
use lp_outside::Stage;
use row_output::{OutputFault, Refused, RowOutput};
use std::alloc::{AllocError, Global};
use std::mem::replace;
use text_output::OutputList;

const CHUNK: usize = 65536;

#[derive(Drop)]
pub struct Counts {
    pub processed: u64,
    pub output: u64,
    pub bad: u64,
}

/// What a run of a query has done.
#[derive(Drop)]
pub struct Written {
    pub counts: Counts,
    /// The outputs, in order, without those that were left alone.
    pub outputs: OutputList,
}

/// Room for what a log gives at once.
pub fn new_chunk(alloc: Global) -> Result<Vec<u8>, AllocError>
    ensures { IfOk result (λ bytes. length bytes.items ≡ 65536) }
{
    vec![in alloc; 0u8; CHUNK]
}

/// The page before the first log.
pub fn first_page<T: Drop>(alloc: Global, taker: T, most_bad: Option<u64>) -> Page<T>
    ensures taker { result.taker ≡ taker }
    ensures rows { result.rows ≡ 0 }
    ensures bad { result.bad ≡ 0 }
    ensures most { result.most_bad ≡ most_bad }
{
    Page {
        taker,
        splitter: Splitter::new(alloc, 0),
        standing: Standing::new(),
        row: Fields::new(alloc),
        rows: 0,
        bad: 0,
        most_bad,
    }
}

// Why a run stops, where its writer did.
fn stopped_at(fault: TakeFault, refused: Option<Refused>) -> WriteFault
    requires { fault ≡ T.Stopped → IsSome refused }
    ensures { result ≡ stopped_at fault refused }
{
    match fault {
        TakeFault::Memory => WriteFault::Memory,
        TakeFault::Failed => WriteFault::Output,
        TakeFault::Stopped => match refused {
            Some(why) => WriteFault::Refused(why),
            None => unreachable!(),
        },
    }
}

/// Why a run stops, where the reading of its logs did.
pub fn stopped_in(fault: RunFault, refused: Option<Refused>) -> WriteFault
    requires { fault ≡ R.Stopped → IsSome refused }
    ensures { result ≡ stopped_in fault refused }
{
    match fault {
        RunFault::Memory => WriteFault::Memory,
        RunFault::Logs => WriteFault::Logs,
        RunFault::Output => WriteFault::Output,
        RunFault::Stopped => match refused {
            Some(why) => WriteFault::Refused(why),
            None => unreachable!(),
        },
        RunFault::Bad { log, row } => WriteFault::Bad { log, row },
    }
}

/// Why a run stops at its end.
pub fn ended_by(fault: OutputFault) -> WriteFault
    ensures { result ≡ ended_by fault }
{
    match fault {
        OutputFault::Refused(why) => WriteFault::Refused(why),
        OutputFault::Failed => WriteFault::Output,
        OutputFault::Memory => WriteFault::Memory,
    }
}

// The page before the first log, with the output of a name without stars opened.
fn open_page<P: Drop, G: Stage>(
    alloc: Global,
    output: RowOutput,
    picker: P,
    most_bad: Option<u64>,
    stage: &mut G,
) -> Result<Page<Writer<P>>, WriteFault>
    requires { IsNew output }
    ensures starts { IfOk result (λ page. Starts (kind_of G.state G.ended) output picker stage.old page.taker stage.new) }
    ensures handed { IfOk result (λ page. HoldsNoPiece page.taker.output.sink) }
    ensures taken { IfOk result (λ page. page.taker.taken ≡ 0) }
    ensures rows { IfOk result (λ page. page.rows ≡ 0) }
    ensures bad { IfOk result (λ page. page.bad ≡ 0) }
    ensures most { IfOk result (λ page. page.most_bad ≡ most_bad) }
    ensures stops { OnErr result ((rows : List Row) → Stops (kind_of G.state G.ended) (asked_of output) stage.old rows stage.new) }
    ensures refused { IfErr result (OnRefusedOutput (λ why. (rows : List Row) → IsRefused (asked_of output) rows why)) }
    ensures good { IfErr result (OnBad (λ line. ⊥)) }
    ensures named { OnOk result ((why : Why) → IsRefused (asked_of output) [] why → ⊥) }
    ensures logs { IsErrOf result WriteFault.Logs → ⊥ }
    ensures goes { G.goes stage.old stage.new }
    ensures later { G.faults stage.old ≤ G.faults stage.new }
    ensures sink { IsErrOf result WriteFault.Output → Rose (G.faults stage.old) (G.faults stage.new) }
{
    let mut writer = Writer::new(alloc, output, picker);
    match writer.begin(stage) {
        Ok(()) => Ok(first_page(alloc, writer, most_bad)),
        Err(fault) => Err(stopped_at(fault, replace(&mut writer.refused, None))),
    }
}

// Ends the outputs of a run that has taken all records.
fn end_page<P: Drop, G: Stage>(
    page: &mut Page<Writer<P>>,
    stage: &mut G,
) -> Result<Written, WriteFault>
    ensures holds { IfOk result (λ written. (start : G) (rows : List Row) → HasRows (kind_of G.state G.ended) page.old.taker.output start rows stage.old → Holds (kind_of G.state G.ended) (asked_of page.old.taker.output) start rows written.outputs stage.new) }
    ensures output { IfOk result (λ written. (start : G) (rows : List Row) → HasRows (kind_of G.state G.ended) page.old.taker.output start rows stage.old → written.counts.output ≡ length (left_of (asked_of page.old.taker.output) rows)) }
    ensures processed { IfOk result (λ written. written.counts.processed ≡ page.old.rows) }
    ensures bad { IfOk result (λ written. written.counts.bad ≡ page.old.bad) }
    ensures stops { OnErr result ((start : G) (rows : List Row) → HasRows (kind_of G.state G.ended) page.old.taker.output start rows stage.old → Stops (kind_of G.state G.ended) (asked_of page.old.taker.output) start rows stage.new) }
    ensures refused { IfErr result (OnRefusedOutput (λ why. (start : G) (rows : List Row) → HasRows (kind_of G.state G.ended) page.old.taker.output start rows stage.old → IsRefused (asked_of page.old.taker.output) rows why)) }
    ensures good { IfErr result (OnBad (λ line. ⊥)) }
    ensures logs { IsErrOf result WriteFault.Logs → ⊥ }
    ensures goes { G.goes stage.old stage.new }
    ensures later { G.faults stage.old ≤ G.faults stage.new }
    ensures sink { IsErrOf result WriteFault.Output → Rose (G.faults stage.old) (G.faults stage.new) }
{
    match page.taker.output.finish(stage) {
        Ok(finished) => Ok(Written {
            counts: Counts {
                processed: page.rows,
                output: finished.rows,
                bad: page.bad,
            },
            outputs: finished.outputs,
        }),
        Err(fault) => Err(ended_by(fault)),
    }
}

// Takes the records of spans into a page that holds none, and ends its outputs.
fn write_page<R: LineReader, L: LogSource, P: Picker + Drop, G: Stage>(
    alloc: Global,
    reader: &R,
    waits: bool,
    logs: &mut L,
    spans: &[Span],
    page: &mut Page<Writer<P>>,
    took: &mut TookList,
    stage: &mut G,
) -> Result<Written, WriteFault>
    requires readable { AreReadable L.folder L.ready logs.old spans.now }
    requires spans { AllSpans spans.now IsSpan }
    requires room { spans_size spans.now + length spans.now < 2 ^ 63 }
    requires taken { page.old.taker.taken ≡ 0 }
    requires rows { page.old.rows ≡ 0 }
    requires bad { page.old.bad ≡ 0 }
    requires handed { HoldsNoPiece page.old.taker.output.sink }
    ensures grows { OnlyGrow (L.folder logs.old) (L.folder logs.new) }
    ensures goes_logs { L.goes logs.old logs.new }
    ensures goes { G.goes stage.old stage.new }
    ensures holds { IfOk result (λ written. (output : RowOutput) (picker : P) (first : G) → Starts (kind_of G.state G.ended) output picker first page.old.taker stage.old
        → Told (L.folder logs.new) (λ folder. AreKept (R.format reader.now) waits spans.now folder
        → Holds (kind_of G.state G.ended) (asked_of output) first (picked (P.picks picker) (spans_found (R.format reader.now) waits folder spans.now)) written.outputs stage.new)) }
    ensures processed { IfOk result (λ written. Told (L.folder logs.new) (λ folder. AreKept (R.format reader.now) waits spans.now folder
        → written.counts.processed ≡ length (spans_found (R.format reader.now) waits folder spans.now))) }
    ensures output { IfOk result (λ written. (output : RowOutput) (picker : P) (first : G) → Starts (kind_of G.state G.ended) output picker first page.old.taker stage.old
        → Told (L.folder logs.new) (λ folder. AreKept (R.format reader.now) waits spans.now folder
        → written.counts.output ≡ length (left_of (asked_of output) (picked (P.picks picker) (spans_found (R.format reader.now) waits folder spans.now))))) }
    ensures bad { IfOk result (λ written. Told (L.folder logs.new) (λ folder. AreKept (R.format reader.now) waits spans.now folder
        → written.counts.bad ≡ length (spans_bad (R.format reader.now) waits folder spans.now))) }
    ensures stops { OnErr result ((output : RowOutput) (picker : P) (first : G) → Starts (kind_of G.state G.ended) output picker first page.old.taker stage.old
        → Told (L.folder logs.new) (λ folder. AreKept (R.format reader.now) waits spans.now folder
        → Stops (kind_of G.state G.ended) (asked_of output) first (picked (P.picks picker) (spans_found (R.format reader.now) waits folder spans.now)) stage.new)) }
    ensures took { OnOk result (Told (L.folder logs.new) (λ folder. AreKept (R.format reader.now) waits spans.now folder
        → took.new ≡ took.old ++ map (took_of (R.format reader.now) waits folder) spans.now)) }
    ensures given { L.given logs.new ≤ L.given logs.old + spans_size spans.now }
    ensures ahead { (output : RowOutput) (picker : P) (first : G) → Starts (kind_of G.state G.ended) output picker first page.old.taker stage.old
        → GoesAhead (kind_of G.state G.ended) G.goes (asked_of output) (P.picks picker) (R.format reader.now) waits (L.folder logs.new) spans.now (L.given logs.old) (L.given logs.new) first stage.new }
    ensures later_logs { L.faults logs.old ≤ L.faults logs.new }
    ensures logs { IsErrOf result WriteFault.Logs → Rose (L.faults logs.old) (L.faults logs.new) }
    ensures later { G.faults stage.old ≤ G.faults stage.new }
    ensures within { IfOk result (λ written. IsWithin page.old.most_bad written.counts.bad) }
    ensures too_many { IfErr result (OnBad (λ line. Told (L.folder logs.new) (λ folder. AreKept (R.format reader.now) waits spans.now folder
        → IsTooMany page.old.most_bad 0 (spans_bad_lines (R.format reader.now) waits folder spans.now) line))) }
    ensures refused { IfErr result (λ fault. (output : RowOutput) (picker : P) (first : G) → Starts (kind_of G.state G.ended) output picker first page.old.taker stage.old
        → OnRefusedOutput (λ why. Told (L.folder logs.new) (λ folder. AreKept (R.format reader.now) waits spans.now folder
        → IsRefused (asked_of output) (picked (P.picks picker) (spans_found (R.format reader.now) waits folder spans.now)) why)) fault) }
    // Of two faults the one that comes first is told.
    ensures in_turn { IfErr result (λ fault. (output : RowOutput) (picker : P) (first : G) → Starts (kind_of G.state G.ended) output picker first page.old.taker stage.old
        → OnRefusedOutput (λ why. Told (L.folder logs.new) (λ folder. AreKept (R.format reader.now) waits spans.now folder
        → RefusedInTurn (asked_of output) (picked (P.picks picker)) page.old.most_bad 0 (R.format reader.now) waits folder spans.now why)) fault) }
    ensures placed { IfErr result (λ fault. (output : RowOutput) (picker : P) (first : G) → Starts (kind_of G.state G.ended) output picker first page.old.taker stage.old
        → ((why : Why) → IsRefused (asked_of output) [] why → ⊥)
        → OnBad (λ line. Told (L.folder logs.new) (λ folder. AreKept (R.format reader.now) waits spans.now folder
        → BadInTurn (asked_of output) (picked (P.picks picker)) page.old.most_bad 0 (R.format reader.now) waits folder spans.now line)) fault) }
    ensures sink { IsErrOf result WriteFault.Output → Rose (G.faults stage.old) (G.faults stage.new) }
{
    let Ok(mut chunk) = new_chunk(alloc) else {
        return Err(WriteFault::Memory);
    };
    match take_spans(
        alloc, reader, waits, logs, spans, &mut chunk, page, took, stage,
    ) {
        Ok(()) => end_page(page, stage),
        Err(fault) => Err(stopped_in(fault, replace(&mut page.taker.refused, None))),
    }
}

/// Puts the output rows of the records of spans, joined in order.
pub fn write_spans<R: LineReader, L: LogSource, P: Picker + Drop, G: Stage>(
    alloc: Global,
    reader: &R,
    waits: bool,
    logs: &mut L,
    spans: &[Span],
    output: RowOutput,
    picker: P,
    most_bad: Option<u64>,
    took: &mut TookList,
    stage: &mut G,
) -> Result<Written, WriteFault>
    requires readable { AreReadable L.folder L.ready logs.old spans.now }
    requires spans { AllSpans spans.now IsSpan }
    requires room { spans_size spans.now + length spans.now < 2 ^ 63 }
    requires new { IsNew output }
    ensures grows { OnlyGrow (L.folder logs.old) (L.folder logs.new) }
    ensures goes_logs { L.goes logs.old logs.new }
    ensures goes { G.goes stage.old stage.new }
    ensures holds { IfOk result (λ written. Told (L.folder logs.new) (λ folder. AreKept (R.format reader.now) waits spans.now folder
        → Holds (kind_of G.state G.ended) (asked_of output) stage.old (picked (P.picks picker) (spans_found (R.format reader.now) waits folder spans.now)) written.outputs stage.new)) }
    ensures processed { IfOk result (λ written. Told (L.folder logs.new) (λ folder. AreKept (R.format reader.now) waits spans.now folder
        → written.counts.processed ≡ length (spans_found (R.format reader.now) waits folder spans.now))) }
    ensures output { IfOk result (λ written. Told (L.folder logs.new) (λ folder. AreKept (R.format reader.now) waits spans.now folder
        → written.counts.output ≡ length (left_of (asked_of output) (picked (P.picks picker) (spans_found (R.format reader.now) waits folder spans.now))))) }
    ensures bad { IfOk result (λ written. Told (L.folder logs.new) (λ folder. AreKept (R.format reader.now) waits spans.now folder
        → written.counts.bad ≡ length (spans_bad (R.format reader.now) waits folder spans.now))) }
    ensures stops { OnErr result (Told (L.folder logs.new) (λ folder. AreKept (R.format reader.now) waits spans.now folder
        → Stops (kind_of G.state G.ended) (asked_of output) stage.old (picked (P.picks picker) (spans_found (R.format reader.now) waits folder spans.now)) stage.new)) }
    ensures took { OnOk result (Told (L.folder logs.new) (λ folder. AreKept (R.format reader.now) waits spans.now folder
        → took.new ≡ took.old ++ map (took_of (R.format reader.now) waits folder) spans.now)) }
    ensures given { L.given logs.new ≤ L.given logs.old + spans_size spans.now }
    // Of a log no more than a piece is read while standard output lacks a piece of the text of what was read.
    ensures ahead { GoesAhead (kind_of G.state G.ended) G.goes (asked_of output) (P.picks picker) (R.format reader.now) waits (L.folder logs.new) spans.now (L.given logs.old) (L.given logs.new) stage.old stage.new }
    ensures later_logs { L.faults logs.old ≤ L.faults logs.new }
    ensures logs { IsErrOf result WriteFault.Logs → Rose (L.faults logs.old) (L.faults logs.new) }
    ensures later { G.faults stage.old ≤ G.faults stage.new }
    ensures within { IfOk result (λ written. IsWithin most_bad written.counts.bad) }
    ensures too_many { IfErr result (OnBad (λ line. Told (L.folder logs.new) (λ folder. AreKept (R.format reader.now) waits spans.now folder
        → IsTooMany most_bad 0 (spans_bad_lines (R.format reader.now) waits folder spans.now) line))) }
    // An output of a name without stars is refused before any bad line is told.
    ensures named { IfErr result (OnBad (λ line. (why : Why) → IsRefused (asked_of output) [] why → ⊥)) }
    ensures refused { IfErr result (OnRefusedOutput (λ why. Told (L.folder logs.new) (λ folder. AreKept (R.format reader.now) waits spans.now folder
        → IsRefused (asked_of output) (picked (P.picks picker) (spans_found (R.format reader.now) waits folder spans.now)) why))) }
    // Of two faults the one that comes first is told: an output that is refused, or a bad line that is one too many.
    ensures in_turn { IfErr result (OnRefusedOutput (λ why. Told (L.folder logs.new) (λ folder. AreKept (R.format reader.now) waits spans.now folder
        → RefusedInTurn (asked_of output) (picked (P.picks picker)) most_bad 0 (R.format reader.now) waits folder spans.now why))) }
    ensures placed { IfErr result (OnBad (λ line. Told (L.folder logs.new) (λ folder. AreKept (R.format reader.now) waits spans.now folder
        → BadInTurn (asked_of output) (picked (P.picks picker)) most_bad 0 (R.format reader.now) waits folder spans.now line))) }
    // Where the output of a name without stars is refused, no log is read.
    ensures unread { IfErr result (OnRefusedOutput (λ why. IsRefused (asked_of output) [] why → L.given logs.new ≡ L.given logs.old)) }
    ensures sink { IsErrOf result WriteFault.Output → Rose (G.faults stage.old) (G.faults stage.new) }
{
    let mut page = open_page(alloc, output, picker, most_bad, stage)?;
    let written = write_page(alloc, reader, waits, logs, spans, &mut page, took, stage);
    drop(page);
    written
}
