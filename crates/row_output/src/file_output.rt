// An output in a file.
ghost use Rattle.std.specs.Prelude.{◌≡◌, ◌≤◌, ◌<◌, ◌+◌, ◌^◌, ◌++◌, ◌==◌, [], ℕ, List, Option, length, slice_index_or, slice_set, OnOk, OnErr, IfOk, IsErrOf};
ghost use Rattle.std.specs.Option.{option_to_list};
ghost use Rattle.lp_model.specs.Outside.{Rose};
ghost use Rattle.any_format.specs.Formats.{text_of, HasText};
ghost use Rattle.any_format.specs.Wanted.{IsMoment, wanted_text};
ghost use Rattle.multiplex.proofs.Distinct.{Differ};
ghost use Rattle.order_top.specs.Finish.{Row};
ghost use Rattle.text_output.specs.Output.{kind_of};
ghost use Rattle.text_output.specs.declared.target.Output.{Output as Ended};
ghost use Rattle.row_output.specs.Asked.{Files};
ghost use Rattle.row_output.specs.FileTexts.{Making, IsFound, KeepsStage, AreUnderWay, StopsAmong, SparesFile, TakesRow, EndsFile, AreEnding, after_file, held_back};

use any_format::{Format, Wanted};
use command_words::FileMode;
use lp_outside::{Name, Stage};
use lp_values::{Bytes, TextList, ValueList};
use std::alloc::{AllocError, Global};
use std::mem::replace;
use text_output::{Output, OutputList, PutFault, Target, TextOutput};

// A text is put in pieces of so many bytes, so that no output holds more back.
const FULL: usize = 4096;

/// One of the outputs.
#[derive(Drop)]
pub(crate) enum FileOutput {
    /// The file holds bytes, and stays as it is.
    LeftAlone,
    Text(TextOutput<Format>),
}

// How many bytes a file holds.
fn length_of<G: Stage>(name: &Name, stage: &mut G) -> Result<u64, PutFault>
    ensures length { IfOk result (λ bytes. (G.state stage.old).is_length name.now bytes) }
    ensures kept { KeepsStage (kind_of G.state G.ended) stage.old stage.new }
    ensures goes { G.goes stage.old stage.new }
    ensures later { G.faults stage.old ≤ G.faults stage.new }
    ensures failed { IsErrOf result PutFault.Failed → Rose (G.faults stage.old) (G.faults stage.new) }
{
    match stage.held(name) {
        Ok(bytes) => Ok(bytes),
        Err(_) => Err(PutFault::Failed),
    }
}

/// Where the text of an output begins; none where its file is left alone.
pub(crate) fn find_base<G: Stage>(
    mode: FileMode,
    name: &Name,
    stage: &mut G,
) -> Result<Option<u64>, PutFault>
    ensures found { IfOk result (IsFound (kind_of G.state G.ended) mode stage.old name.now) }
    ensures kept { KeepsStage (kind_of G.state G.ended) stage.old stage.new }
    ensures goes { G.goes stage.old stage.new }
    ensures later { G.faults stage.old ≤ G.faults stage.new }
    ensures failed { IsErrOf result PutFault.Failed → Rose (G.faults stage.old) (G.faults stage.new) }
{
    match mode {
        FileMode::Append => Ok(Some(length_of(name, stage)?)),
        FileMode::Overwrite => Ok(Some(0)),
        FileMode::LeaveAlone => {
            let bytes = length_of(name, stage)?;
            if bytes == 0 { Ok(Some(0)) } else { Ok(None) }
        }
    }
}

/// A text before its first row.
pub(crate) fn begin_text(
    alloc: Global,
    wanted: &Wanted,
    moment: i64,
    columns: &TextList,
    target: Target,
) -> Result<TextOutput<Format>, AllocError>
    requires { IsMoment moment }
    ensures format { IfOk result (λ text. text_of text.shape ≡ (wanted_text wanted.now moment).of) }
    ensures target { IfOk result (λ text. text.target ≡ target) }
    ensures so_far { IfOk result (λ text. HasText text.shape (target.base == 0) columns.now [] text.held) }
{
    let shape = wanted.format(alloc, moment)?;
    let fresh = target.base == 0;
    TextOutput::begin(alloc, shape, columns, fresh, target)
}

/// Hands a row to an output.
pub(crate) fn put_row<G: Stage>(
    file: &mut FileOutput,
    row: &ValueList,
    spare: &mut Bytes,
    stage: &mut G,
) -> Result<(), PutFault>
    ensures takes { OnOk result (TakesRow (kind_of G.state G.ended) row.now file.old file.new stage.old stage.new) }
    ensures small { OnOk result (held_back file.new < 4096) }
    ensures spares { SparesFile (kind_of G.state G.ended) file.old stage.old stage.new }
    ensures goes { G.goes stage.old stage.new }
    ensures later { G.faults stage.old ≤ G.faults stage.new }
    ensures failed { IsErrOf result PutFault.Failed → Rose (G.faults stage.old) (G.faults stage.new) }
{
    match file {
        FileOutput::LeftAlone => Ok(()),
        FileOutput::Text(text) => text.row(row, FULL, spare, stage),
    }
}

// Ends an output.
fn end_file<G: Stage>(file: FileOutput, stage: &mut G) -> Result<Option<Output>, PutFault>
    ensures ends { IfOk result (λ output. EndsFile (kind_of G.state G.ended) file output stage.old stage.new) }
    ensures spares { SparesFile (kind_of G.state G.ended) file stage.old stage.new }
    ensures goes { G.goes stage.old stage.new }
    ensures later { G.faults stage.old ≤ G.faults stage.new }
    ensures failed { IsErrOf result PutFault.Failed → Rose (G.faults stage.old) (G.faults stage.new) }
{
    match file {
        FileOutput::LeftAlone => Ok(None),
        FileOutput::Text(mut text) => Ok(Some(text.end(stage)?)),
    }
}

// Ends an output, and puts it behind those before it.
fn end_next<G: Stage>(
    file: FileOutput,
    outputs: &mut OutputList,
    stage: &mut G,
) -> Result<(), PutFault>
    ensures ends { OnOk result ((output : Option Ended) × (outputs.new ≡ outputs.old ++ option_to_list output) × EndsFile (kind_of G.state G.ended) file output stage.old stage.new) }
    ensures spares { SparesFile (kind_of G.state G.ended) file stage.old stage.new }
    ensures goes { G.goes stage.old stage.new }
    ensures later { G.faults stage.old ≤ G.faults stage.new }
    ensures failed { IsErrOf result PutFault.Failed → Rose (G.faults stage.old) (G.faults stage.new) }
{
    let Some(output) = end_file(file, stage)? else {
        return Ok(());
    };
    match outputs.push(output) {
        Ok(()) => Ok(()),
        Err(_) => Err(PutFault::Memory),
    }
}

// Takes an output out of a list.
fn take_file(files: &mut Vec<FileOutput>, index: usize) -> FileOutput
    requires { index < length files.old.items }
    ensures result { result ≡ slice_index_or files.old.items index FileOutput.LeftAlone }
    ensures list { files.new.items ≡ slice_set files.old.items index FileOutput.LeftAlone }
{
    replace(&mut files[index], FileOutput::LeftAlone)
}

/// Ends outputs, in order.
pub(crate) fn end_all<G: Stage>(
    alloc: Global,
    files: &mut Vec<FileOutput>,
    stage: &mut G,
) -> Result<OutputList, PutFault>
    ensures put { IfOk result (λ outputs. (asked : Files) (making : Making) (start : G) (rows_of : List ℕ → List Row) (names : List (List ℕ)) (texts : ℕ) → asked.mode ≡ making.mode → Differ names
        → AreUnderWay (kind_of G.state G.ended) making rows_of names start files.old.items texts stage.old
        → AreEnding (kind_of G.state G.ended) asked making start rows_of names files.old.items [] outputs stage.new) }
    ensures stop { OnErr result ((asked : Files) (making : Making) (start : G) (rows_of : List ℕ → List Row) (names : List (List ℕ)) (texts : ℕ) → asked.mode ≡ making.mode → Differ names
        → AreUnderWay (kind_of G.state G.ended) making rows_of names start files.old.items texts stage.old
        → StopsAmong (kind_of G.state G.ended) making.mode names start stage.new) }
    ensures size { length files.new.items ≡ length files.old.items }
    ensures goes { G.goes stage.old stage.new }
    ensures later { G.faults stage.old ≤ G.faults stage.new }
    ensures failed { IsErrOf result PutFault.Failed → Rose (G.faults stage.old) (G.faults stage.new) }
{
    let mut outputs = OutputList::new(alloc);
    for index in 0..files.len() {
        let file = take_file(files, index);
        end_next(file, &mut outputs, stage)?;
    }
    Ok(outputs)
}

impl FileOutput {
    /// The index behind its own, which it has unless its file is left alone.
    pub(crate) fn index_behind(&self, index: u32) -> u32
        requires { index + 1 < 2 ^ 32 }
        ensures { result ≡ after_file index self.now }
    {
        match self {
            FileOutput::LeftAlone => index,
            FileOutput::Text(_) => index + 1,
        }
    }
}
