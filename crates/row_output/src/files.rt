// Rows to the files that their values name.
ghost use Rattle.std.specs.Prelude.{◌≤◌, length};
ghost use Rattle.any_format.specs.Wanted.{IsMoment};

use crate::OutputFault;
use crate::fault::{place_fault, put_fault};
use crate::file_output::{FileOutput, begin_text, end_all, find_base, put_row};
use crate::moving::{copy_behind, first_values, move_behind};
use any_format::Wanted;
use command_words::FileMode;
use lp_outside::{Name, Stage};
use lp_values::{Bytes, TextList, Value, ValueList};
use multiplex::Outputs;
use std::alloc::{AllocError, Global};
use text_output::{OutputList, PutFault, Target};

/// Outputs in files, by the rows that were put.
#[derive(Drop)]
pub(crate) struct FileOutputs {
    alloc: Global,
    pub(crate) wanted: Wanted,
    pub(crate) moment: i64,
    pub(crate) outputs: Outputs,
    pub(crate) mode: FileMode,
    /// How many leading values stand for the stars of the name.
    pub(crate) stars: usize,
    /// The columns behind these.
    pub(crate) columns: TextList,
    /// By the index of the output's name.
    pub(crate) files: Vec<FileOutput>,
    /// How many of them aren't left alone.
    pub(crate) texts: u32,
    /// A row without the values of its name, made again for each row.
    row: ValueList,
    ghost fits: { IsMoment moment },
    ghost few: { texts ≤ length files.items },
}

impl FileOutputs {
    ghost use Rattle.std.specs.Prelude.{◌≡◌, ◌≤◌, ◌<◌, ◌^◌, ◌++◌, ◌∷◌, [], ℕ, List, length, drop, slice_get, slice_set, slice_index_or, OnOk, OnErr, IfOk, IfErr, IsErrOf, Some};
    ghost use Rattle.lp_model.specs.Outside.{Rose};
    ghost use Rattle.log_listing.specs.Firsts.{with_name};
    ghost use Rattle.multiplex.specs.Naming.{stars, filled};
    ghost use Rattle.multiplex.specs.Placing.{IsNewName};
    ghost use Rattle.multiplex.specs.Splitting.{output_names};
    ghost use Rattle.order_top.specs.Finish.{Row};
    ghost use Rattle.text_output.specs.Output.{kind_of};
    ghost use Rattle.row_output.specs.declared.file_output.FileOutput.{FileOutput as O};
    ghost use Rattle.row_output.specs.Asked.{IsRefusedAs, IsRefusedBy};
    ghost use Rattle.row_output.specs.Files.{FilesHold, FilesStop};
    ghost use Rattle.row_output.specs.FileTexts.{HoldLittle, IsFile, held_back, KeepsStage, StopsAmong, StopsFree, SparesFile, TakesRow, after_file};
    ghost use Rattle.row_output.specs.FileRows.{HasFileRows, HasOutputs, HasFirst, IsNewFiles, files_of, making_of, output_text, OnRefused};

    // Opens an output under the next index, unless its file is left alone.
    fn open_file<G: Stage>(&self, name: &Name, stage: &mut G) -> Result<FileOutput, PutFault>
        ensures file { IfOk result (λ file. IsFile (kind_of G.state G.ended) (making_of self.now) stage.old stage.new self.now.texts name.now [] file) }
        ensures kept { KeepsStage (kind_of G.state G.ended) stage.old stage.new }
        ensures goes { G.goes stage.old stage.new }
        ensures later { G.faults stage.old ≤ G.faults stage.new }
        ensures failed { IsErrOf result PutFault.Failed → Rose (G.faults stage.old) (G.faults stage.new) }
    {
        let Some(base) = find_base(self.mode, name, stage)? else {
            return Ok(FileOutput::LeftAlone);
        };
        let target = Target::new(self.texts, name.copy(), base);
        match begin_text(self.alloc, &self.wanted, self.moment, &self.columns, target) {
            Ok(text) => Ok(FileOutput::Text(text)),
            Err(_) => Err(PutFault::Memory),
        }
    }

    // Opens the next of the outputs that have a name.
    fn open_next<G: Stage>(&mut self, stage: &mut G) -> Result<(), PutFault>
        requires next { length self.old.files.items < length self.old.outputs.names }
        requires few { length self.old.outputs.names < 2 ^ 32 }
        ensures same { (self.new.outputs ≡ self.old.outputs) × (self.new.stars ≡ self.old.stars) × (making_of self.new ≡ making_of self.old) }
        ensures opened { OnOk result ((name : List ℕ) × (file : O) × (slice_get self.old.outputs.names (length self.old.files.items) ≡ Some name) × (self.new.files.items ≡ self.old.files.items ++ file ∷ []) × (self.new.texts ≡ after_file self.old.texts file)
            × IsFile (kind_of G.state G.ended) (making_of self.old) stage.old stage.new self.old.texts name [] file) }
        ensures kept { KeepsStage (kind_of G.state G.ended) stage.old stage.new }
        ensures goes { G.goes stage.old stage.new }
        ensures later { G.faults stage.old ≤ G.faults stage.new }
        ensures failed { IsErrOf result PutFault.Failed → Rose (G.faults stage.old) (G.faults stage.new) }
    {
        let index = self.files.len() as u32;
        let name = self.outputs.name(index).unwrap().copy();
        let file = self.open_file(&name, stage)?;
        let texts = file.index_behind(self.texts);
        let Ok(()) = self.files.push(file) else {
            return Err(PutFault::Memory);
        };
        self.texts = texts;
        Ok(())
    }

    // Opens all outputs that have a name and aren't opened.
    fn open_all<G: Stage>(&mut self, stage: &mut G) -> Result<(), PutFault>
        ensures same { (self.new.outputs ≡ self.old.outputs) × (self.new.stars ≡ self.old.stars) × (making_of self.new ≡ making_of self.old) }
        ensures all { OnOk result (length self.new.outputs.names ≤ length self.new.files.items) }
        ensures front { OnOk result ((more : List O) × (self.new.files.items ≡ self.old.files.items ++ more)) }
        ensures has { OnOk result ((start : G) (rows : List Row) → HasFirst (kind_of G.state G.ended) self.old start rows stage.old → HasFirst (kind_of G.state G.ended) self.new start rows stage.new) }
        ensures stop { OnErr result ((start : G) (rows : List Row) → HasFirst (kind_of G.state G.ended) self.old start rows stage.old → StopsAmong (kind_of G.state G.ended) self.old.mode self.old.outputs.names start stage.new) }
        ensures goes { G.goes stage.old stage.new }
        ensures later { G.faults stage.old ≤ G.faults stage.new }
        ensures failed { IsErrOf result PutFault.Failed → Rose (G.faults stage.old) (G.faults stage.new) }
    {
        while self.files.len() < self.outputs.len() as usize {
            self.open_next(stage)?;
        }
        Ok(())
    }

    // The index of the output that values name, which is opened where it is new.
    fn place<G: Stage>(&mut self, values: &[Value], stage: &mut G) -> Result<usize, OutputFault>
        ensures same { (files_of self.new ≡ files_of self.old) × (self.new.stars ≡ self.old.stars) × (making_of self.new ≡ making_of self.old) }
        ensures names { OnOk result (self.new.outputs.names ≡ with_name self.old.outputs.names (filled self.old.outputs.pattern values.now)) }
        ensures named { IfOk result (λ index. slice_get self.new.outputs.names index ≡ Some (filled self.old.outputs.pattern values.now)) }
        ensures there { IfOk result (λ index. index < length self.new.files.items) }
        ensures front { OnOk result ((more : List O) × (self.new.files.items ≡ self.old.files.items ++ more)) }
        ensures has { OnOk result ((start : G) (rows : List Row) → HasFileRows (kind_of G.state G.ended) self.old start rows stage.old → HasOutputs (kind_of G.state G.ended) self.new start rows stage.new) }
        ensures stop { OnErr result ((start : G) (rows : List Row) → HasFileRows (kind_of G.state G.ended) self.old start rows stage.old
            → StopsFree (kind_of G.state G.ended) (files_of self.old) (with_name self.old.outputs.names (filled self.old.outputs.pattern values.now)) start stage.new) }
        ensures refused { IfErr result (OnRefused (λ fault. IsNewName self.old.outputs (filled self.old.outputs.pattern values.now)
            × IsRefusedAs self.old.outputs.forbidden self.old.outputs.names (filled self.old.outputs.pattern values.now) fault)) }
        ensures goes { G.goes stage.old stage.new }
        ensures later { G.faults stage.old ≤ G.faults stage.new }
        ensures failed { IsErrOf result OutputFault.Failed → Rose (G.faults stage.old) (G.faults stage.new) }
    {
        let index = match self.outputs.place_values(values) {
            Ok(index) => index,
            Err(fault) => return Err(place_fault(fault)),
        };
        match self.open_all(stage) {
            Ok(()) => Ok(index as usize),
            Err(fault) => Err(put_fault(fault)),
        }
    }

    // Hands a row without the values of its name to the output of an index.
    fn hand<G: Stage>(
        &mut self,
        index: usize,
        row: &mut ValueList,
        spare: &mut Bytes,
        stage: &mut G,
    ) -> Result<(), PutFault>
        requires there { index < length self.old.files.items }
        ensures same { (self.new.outputs ≡ self.old.outputs) × (self.new.stars ≡ self.old.stars) × (making_of self.new ≡ making_of self.old) × (self.new.texts ≡ self.old.texts) }
        ensures takes { OnOk result ((file : O) × (self.new.files.items ≡ slice_set self.old.files.items index file)
            × ((d : O) → TakesRow (kind_of G.state G.ended) (drop self.old.stars row.old) (slice_index_or self.old.files.items index d) file stage.old stage.new)
            × (held_back file < 4096)) }
        ensures spares { (d : O) → SparesFile (kind_of G.state G.ended) (slice_index_or self.old.files.items index d) stage.old stage.new }
        ensures goes { G.goes stage.old stage.new }
        ensures later { G.faults stage.old ≤ G.faults stage.new }
        ensures failed { IsErrOf result PutFault.Failed → Rose (G.faults stage.old) (G.faults stage.new) }
    {
        if self.stars == 0 {
            return put_row(&mut self.files[index], row, spare, stage);
        }
        match move_behind(row, self.stars, &mut self.row) {
            Ok(()) => put_row(&mut self.files[index], &self.row, spare, stage),
            Err(_) => Err(PutFault::Memory),
        }
    }

    /// Outputs of a name, none of them opened.
    pub(crate) fn new(
        alloc: Global,
        wanted: Wanted,
        moment: i64,
        outputs: Outputs,
        mode: FileMode,
        names: &TextList,
    ) -> Result<FileOutputs, AllocError>
        requires moment { IsMoment moment }
        requires none { outputs.names ≡ [] }
        ensures files { IfOk result (λ f. files_of f ≡ record { pattern = outputs.pattern; forbidden = outputs.forbidden; mode = mode }) }
        ensures format { IfOk result (λ f. (f.wanted ≡ wanted) × (f.moment ≡ moment) × (f.columns ≡ drop (stars outputs.pattern) names.now)) }
        ensures new { IfOk result IsNewFiles }
    {
        let stars = outputs.stars();
        Ok(FileOutputs {
            alloc,
            wanted,
            moment,
            outputs,
            mode,
            stars,
            columns: copy_behind(alloc, names, stars)?,
            files: Vec::new(alloc),
            texts: 0,
            row: ValueList::new(alloc),
        })
    }

    /// Opens the output of a name without stars, before any row.
    pub(crate) fn open<G: Stage>(&mut self, stage: &mut G) -> Result<(), OutputFault>
        ensures all { OnOk result ((start : G) (rows : List Row) → HasFileRows (kind_of G.state G.ended) self.old start rows stage.old → self.new.outputs.names ≡ output_names self.new.outputs.pattern rows) }
        ensures same { (files_of self.new ≡ files_of self.old) × (self.new.wanted ≡ self.old.wanted) × (self.new.moment ≡ self.old.moment) × (self.new.columns ≡ self.old.columns) }
        ensures has { OnOk result ((start : G) (rows : List Row) → HasFileRows (kind_of G.state G.ended) self.old start rows stage.old → HasFileRows (kind_of G.state G.ended) self.new start rows stage.new) }
        ensures stop { OnErr result ((start : G) (rows more : List Row) → HasFileRows (kind_of G.state G.ended) self.old start rows stage.old → FilesStop (kind_of G.state G.ended) (files_of self.old) start (rows ++ more) stage.new) }
        ensures refused { IfErr result (OnRefused (λ fault. (start : G) (rows more : List Row) → HasFileRows (kind_of G.state G.ended) self.old start rows stage.old → IsRefusedBy (files_of self.old) (rows ++ more) fault)) }
        ensures goes { G.goes stage.old stage.new }
        ensures later { G.faults stage.old ≤ G.faults stage.new }
        ensures failed { IsErrOf result OutputFault.Failed → Rose (G.faults stage.old) (G.faults stage.new) }
    {
        if self.stars > 0 {
            return Ok(());
        }
        self.place(&[], stage)?;
        Ok(())
    }

    /// Takes a row, to the output that its first values name. The output of a name without stars is opened first, where it isn't.
    /// What the row held may be moved.
    pub(crate) fn put<G: Stage>(
        &mut self,
        row: &mut ValueList,
        spare: &mut Bytes,
        stage: &mut G,
    ) -> Result<(), OutputFault>
        ensures same { (files_of self.new ≡ files_of self.old) × (self.new.wanted ≡ self.old.wanted) × (self.new.moment ≡ self.old.moment) × (self.new.columns ≡ self.old.columns) }
        ensures has { OnOk result ((start : G) (rows : List Row) → HasFileRows (kind_of G.state G.ended) self.old start rows stage.old → HasFileRows (kind_of G.state G.ended) self.new start (rows ++ row.old ∷ []) stage.new) }
        ensures small { OnOk result ((start : G) (rows : List Row) → HasFileRows (kind_of G.state G.ended) self.old start rows stage.old → HoldLittle self.new.files.items) }
        ensures stop { OnErr result ((start : G) (rows more : List Row) → HasFileRows (kind_of G.state G.ended) self.old start rows stage.old → FilesStop (kind_of G.state G.ended) (files_of self.old) start (rows ++ (row.old ∷ more)) stage.new) }
        ensures refused { IfErr result (OnRefused (λ fault. (start : G) (rows more : List Row) → HasFileRows (kind_of G.state G.ended) self.old start rows stage.old → IsRefusedBy (files_of self.old) (rows ++ (row.old ∷ more)) fault)) }
        ensures goes { G.goes stage.old stage.new }
        ensures later { G.faults stage.old ≤ G.faults stage.new }
        ensures failed { IsErrOf result OutputFault.Failed → Rose (G.faults stage.old) (G.faults stage.new) }
    {
        let index = self.place(first_values(row, self.stars), stage)?;
        match self.hand(index, row, spare, stage) {
            Ok(()) => Ok(()),
            Err(fault) => Err(put_fault(fault)),
        }
    }

    /// Ends all outputs, in order. The output of a name without stars is opened first, where it isn't.
    pub(crate) fn end<G: Stage>(&mut self, stage: &mut G) -> Result<OutputList, OutputFault>
        ensures same { (files_of self.new ≡ files_of self.old) × (self.new.wanted ≡ self.old.wanted) × (self.new.moment ≡ self.old.moment) × (self.new.columns ≡ self.old.columns) }
        ensures hold { IfOk result (λ outputs. (start : G) (rows : List Row) → HasFileRows (kind_of G.state G.ended) self.old start rows stage.old → FilesHold (kind_of G.state G.ended) (files_of self.old) (output_text self.old) start rows outputs stage.new) }
        ensures stop { OnErr result ((start : G) (rows : List Row) → HasFileRows (kind_of G.state G.ended) self.old start rows stage.old → FilesStop (kind_of G.state G.ended) (files_of self.old) start rows stage.new) }
        ensures refused { IfErr result (OnRefused (λ fault. (start : G) (rows : List Row) → HasFileRows (kind_of G.state G.ended) self.old start rows stage.old → IsRefusedBy (files_of self.old) rows fault)) }
        ensures goes { G.goes stage.old stage.new }
        ensures later { G.faults stage.old ≤ G.faults stage.new }
        ensures failed { IsErrOf result OutputFault.Failed → Rose (G.faults stage.old) (G.faults stage.new) }
    {
        self.open(stage)?;
        match end_all(self.alloc, &mut self.files, stage) {
            Ok(outputs) => Ok(outputs),
            Err(fault) => Err(put_fault(fault)),
        }
    }
}
