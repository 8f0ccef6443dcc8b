// Where rows go: standard output, or files.
ghost use Rattle.std.specs.Prelude.{◌≡◌, true, ◌≤◌, ◌++◌, ◌∷◌, [], ℕ, List, OnOk, OnErr, IfOk, IfErr, IsErrOf};
ghost use Rattle.lp_model.specs.Outside.{Rose};
ghost use Rattle.any_format.specs.Formats.{text_of, format_text, HasText};
ghost use Rattle.any_format.specs.Wanted.{IsMoment, wanted_text};
ghost use Rattle.order_top.specs.Finish.{Row};
ghost use Rattle.text_output.specs.Output.{kind_of, GainsFront};
ghost use Rattle.row_output.specs.Asked.{columns_for};
ghost use Rattle.row_output.specs.Rows.{HoldsAt, IsRefusedAt, StandardHolds, StopsAt, standard_at};
ghost use Rattle.row_output.specs.Sinks.{HoldsLittle, HoldsNoPiece, IsNewSink, IsOpened, IsStandard, IsUnplaced, HasSinkRows, HasStandardRows, files_for, files_in, purpose_of, sink_text};
ghost use Rattle.row_output.specs.FileRows.{OnRefused};

use crate::fault::put_fault;
use crate::files::FileOutputs;
use crate::{Into, OutputFault};
use any_format::{Format, Wanted};
use lp_outside::{Name, Stage};
use lp_values::{Bytes, TextList, ValueList};
use std::alloc::{AllocError, Global};
use text_output::{OutputList, Target, TextOutput};

// Standard output gets its text in pieces of so many bytes.
const FULL: usize = 65536;

/// The text of rows on standard output.
#[derive(Drop)]
pub(crate) struct Standard {
    pub(crate) names: TextList,
    pub(crate) text: TextOutput<Format>,
}

/// Where rows go.
#[derive(Drop)]
pub(crate) enum Sink {
    Standard(Standard),
    Files(FileOutputs),
}

// Standard output: the first of its stage, with the name that no log has.
fn standard_output() -> Target
    ensures { IsStandard result }
{
    match Name::read("STDOUT") {
        Ok(name) => Target::new(0, name, 0),
        Err(_) => unreachable!(),
    }
}

impl Standard {
    fn new(alloc: Global, format: Format, names: TextList) -> Result<Standard, AllocError>
        ensures names { IfOk result (λ s. s.names ≡ names) }
        ensures format { IfOk result (λ s. format_text s.text.shape ≡ format_text format) }
        ensures target { IfOk result (λ s. IsStandard s.text.target) }
        ensures text { IfOk result (λ s. HasText s.text.shape true s.names [] s.text.held) }
    {
        let text = TextOutput::begin(alloc, format, &names, true, standard_output())?;
        Ok(Standard { names, text })
    }
}

impl Sink {
    /// The way to outputs, before the first row.
    pub(crate) fn new(
        alloc: Global,
        wanted: Wanted,
        moment: i64,
        into: Into,
        names: TextList,
    ) -> Result<Sink, AllocError>
        requires moment { IsMoment moment }
        requires none { IsUnplaced into }
        ensures purpose { IfOk result (λ s. purpose_of s ≡ record { files = files_for into; text = wanted_text wanted moment; columns = columns_for (files_for into) names }) }
        ensures new { IfOk result IsNewSink }
    {
        match into {
            Into::Standard => {
                let format = wanted.format(alloc, moment)?;
                drop(wanted);
                Ok(Sink::Standard(Standard::new(alloc, format, names)?))
            }
            Into::Files(outputs, mode) => {
                let files = FileOutputs::new(alloc, wanted, moment, outputs, mode, &names)?;
                drop(names);
                Ok(Sink::Files(files))
            }
        }
    }

    /// Opens the output of a name without stars, before any row.
    pub(crate) fn open<G: Stage>(&mut self, stage: &mut G) -> Result<(), OutputFault>
        ensures purpose { purpose_of self.new ≡ purpose_of self.old }
        ensures has { OnOk result ((start : G) (rows : List Row) → HasSinkRows (kind_of G.state G.ended) self.old start rows stage.old → HasSinkRows (kind_of G.state G.ended) self.new start rows stage.new) }
        ensures opened { OnOk result ((start : G) (rows : List Row) → HasSinkRows (kind_of G.state G.ended) self.old start rows stage.old → IsOpened self.new) }
        ensures stop { OnErr result ((start : G) (rows more : List Row) → HasSinkRows (kind_of G.state G.ended) self.old start rows stage.old → StopsAt (files_in self.old) (kind_of G.state G.ended) (sink_text self.old) start (rows ++ more) stage.new) }
        ensures refused { IfErr result (OnRefused (λ fault. (start : G) (rows more : List Row) → HasSinkRows (kind_of G.state G.ended) self.old start rows stage.old → IsRefusedAt (files_in self.old) (rows ++ more) fault)) }
        ensures goes { G.goes stage.old stage.new }
        ensures later { G.faults stage.old ≤ G.faults stage.new }
        ensures failed { IsErrOf result OutputFault.Failed → Rose (G.faults stage.old) (G.faults stage.new) }
    {
        match self {
            Sink::Standard(_) => Ok(()),
            Sink::Files(files) => files.open(stage),
        }
    }

    /// Takes a row. What it held may be moved.
    pub(crate) fn put<G: Stage>(
        &mut self,
        row: &mut ValueList,
        spare: &mut Bytes,
        stage: &mut G,
    ) -> Result<(), OutputFault>
        ensures purpose { purpose_of self.new ≡ purpose_of self.old }
        ensures has { OnOk result ((start : G) (rows : List Row) → HasSinkRows (kind_of G.state G.ended) self.old start rows stage.old → HasSinkRows (kind_of G.state G.ended) self.new start (rows ++ row.old ∷ []) stage.new) }
        ensures stop { OnErr result ((start : G) (rows more : List Row) → HasSinkRows (kind_of G.state G.ended) self.old start rows stage.old → StopsAt (files_in self.old) (kind_of G.state G.ended) (sink_text self.old) start (rows ++ (row.old ∷ more)) stage.new) }
        ensures refused { IfErr result (OnRefused (λ fault. (start : G) (rows more : List Row) → HasSinkRows (kind_of G.state G.ended) self.old start rows stage.old → IsRefusedAt (files_in self.old) (rows ++ (row.old ∷ more)) fault)) }
        ensures little { OnOk result ((start : G) (rows : List Row) → HasSinkRows (kind_of G.state G.ended) self.old start rows stage.old → HoldsLittle self.new) }
        ensures goes { G.goes stage.old stage.new }
        ensures later { G.faults stage.old ≤ G.faults stage.new }
        ensures failed { IsErrOf result OutputFault.Failed → Rose (G.faults stage.old) (G.faults stage.new) }
    {
        match self {
            Sink::Standard(standard) => match standard.text.row(row, FULL, spare, stage) {
                Ok(()) => Ok(()),
                Err(fault) => Err(put_fault(fault)),
            },
            Sink::Files(files) => files.put(row, spare, stage),
        }
    }

    /// Hands on the whole pieces of standard output's text. A file holds back less than one behind each row.
    pub(crate) fn hand_on<G: Stage>(
        &mut self,
        spare: &mut Bytes,
        stage: &mut G,
    ) -> Result<(), OutputFault>
        ensures purpose { purpose_of self.new ≡ purpose_of self.old }
        ensures has { OnOk result ((start : G) (rows : List Row) → HasSinkRows (kind_of G.state G.ended) self.old start rows stage.old → HasSinkRows (kind_of G.state G.ended) self.new start rows stage.new) }
        ensures stop { OnErr result ((start : G) (rows more : List Row) → HasSinkRows (kind_of G.state G.ended) self.old start rows stage.old → StopsAt (files_in self.old) (kind_of G.state G.ended) (sink_text self.old) start (rows ++ more) stage.new) }
        ensures refused { IfErr result (OnRefused (λ fault. (start : G) (rows more : List Row) → HasSinkRows (kind_of G.state G.ended) self.old start rows stage.old → IsRefusedAt (files_in self.old) (rows ++ more) fault)) }
        ensures handed { OnOk result (HoldsNoPiece self.new) }
        ensures goes { G.goes stage.old stage.new }
        ensures later { G.faults stage.old ≤ G.faults stage.new }
        ensures failed { IsErrOf result OutputFault.Failed → Rose (G.faults stage.old) (G.faults stage.new) }
    {
        match self {
            Sink::Standard(standard) => match standard.text.hand_on(spare, stage) {
                Ok(()) => Ok(()),
                Err(fault) => Err(put_fault(fault)),
            },
            Sink::Files(_) => Ok(()),
        }
    }

    /// Ends all outputs, in order.
    pub(crate) fn end<G: Stage>(
        &mut self,
        alloc: Global,
        stage: &mut G,
    ) -> Result<OutputList, OutputFault>
        ensures hold { IfOk result (λ outputs. (start : G) (rows : List Row) → HasSinkRows (kind_of G.state G.ended) self.old start rows stage.old → HoldsAt (files_in self.old) (kind_of G.state G.ended) (sink_text self.old) start rows outputs stage.new) }
        ensures stop { OnErr result ((start : G) (rows : List Row) → HasSinkRows (kind_of G.state G.ended) self.old start rows stage.old → StopsAt (files_in self.old) (kind_of G.state G.ended) (sink_text self.old) start rows stage.new) }
        ensures refused { IfErr result (OnRefused (λ fault. (start : G) (rows : List Row) → HasSinkRows (kind_of G.state G.ended) self.old start rows stage.old → IsRefusedAt (files_in self.old) rows fault)) }
        ensures goes { G.goes stage.old stage.new }
        ensures later { G.faults stage.old ≤ G.faults stage.new }
        ensures failed { IsErrOf result OutputFault.Failed → Rose (G.faults stage.old) (G.faults stage.new) }
    {
        match self {
            Sink::Standard(standard) => end_standard(alloc, standard, stage),
            Sink::Files(files) => files.end(stage),
        }
    }
}

// Ends standard output.
fn end_standard<G: Stage>(
    alloc: Global,
    standard: &mut Standard,
    stage: &mut G,
) -> Result<OutputList, OutputFault>
    ensures hold { IfOk result (λ outputs. (start : G) (rows : List Row) → HasStandardRows (kind_of G.state G.ended) standard.old start rows stage.old
        → StandardHolds (kind_of G.state G.ended) (λ fresh rows. text_of standard.old.text.shape fresh standard.old.names rows) start rows outputs stage.new) }
    ensures stop { OnErr result ((start : G) (rows : List Row) → HasStandardRows (kind_of G.state G.ended) standard.old start rows stage.old → GainsFront (standard_at (kind_of G.state G.ended) start) stage.new (text_of standard.old.text.shape true standard.old.names rows)) }
    ensures goes { G.goes stage.old stage.new }
    ensures later { G.faults stage.old ≤ G.faults stage.new }
    ensures failed { IsErrOf result OutputFault.Failed → Rose (G.faults stage.old) (G.faults stage.new) }
    ensures unrefused { IfErr result (OnRefused (λ fault. ⊥)) }
{
    let mut outputs = match OutputList::with_capacity(alloc, 1) {
        Ok(outputs) => outputs,
        Err(_) => return Err(OutputFault::Memory),
    };
    match standard.text.end(stage) {
        Ok(output) => match outputs.push(output) {
            Ok(()) => Ok(outputs),
            Err(_) => Err(OutputFault::Memory),
        },
        Err(fault) => Err(put_fault(fault)),
    }
}
