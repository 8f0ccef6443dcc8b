// The text of rows to one output.
ghost use Rattle.std.specs.Prelude.{◌≡◌, ◌≤◌, ◌<◌, ◌++◌, ◌∷◌, [], ℕ, List, Bool, length, OnOk, OnErr, IfOk, IsErrOf};
ghost use Rattle.lp_model.specs.Outside.{Rose};
ghost use Rattle.lp_values.specs.declared.value.Value.{Value};
ghost use Rattle.text_output.specs.Output.{kind_of, placed_at, reached, OutputAt, GainsText, GainsFront, MovesText, IsUnderWay, Spares};

use crate::putting::{PIECE, put_full};
use crate::{Output, PutFault, Target};
use lp_outside::Stage;
use lp_values::{Bytes, TextList, ValueList};
use output_formats::Shape;
use std::alloc::{AllocError, Global};

/// The text of rows in a format, on its way to an output.
#[derive(Drop)]
pub struct TextOutput<F> {
    pub shape: F,
    pub target: Target,
    /// The end of the text, which isn't put yet.
    pub held: Bytes,
}

impl<F: Shape + Drop> TextOutput<F> {
    /// The text before its first row.
    pub fn begin(
        alloc: Global,
        mut shape: F,
        names: &TextList,
        fresh: bool,
        target: Target,
    ) -> Result<TextOutput<F>, AllocError>
        ensures text { IfOk result (λ o. F.has_text o.shape fresh names.now [] o.held) }
        ensures target { IfOk result (λ o. o.target ≡ target) }
        ensures format { IfOk result (λ o. F.text o.shape ≡ F.text shape) }
        ensures at_once { IfOk result (λ o. F.at_once o.shape ≡ F.at_once shape) }
    {
        let mut held = Bytes::new(alloc);
        shape.begin(names, fresh, &mut held)?;
        Ok(TextOutput {
            shape,
            target,
            held,
        })
    }

    /// Takes a row. Whole pieces of the text are put once so many bytes are held.
    pub fn row<G: Stage>(
        &mut self,
        row: &ValueList,
        full: usize,
        spare: &mut Bytes,
        stage: &mut G,
    ) -> Result<(), PutFault>
        requires { 4096 ≤ full }
        ensures goes { G.goes stage.old stage.new }
        ensures text { OnOk result ((fresh : Bool) (names : List (List ℕ)) (rows : List (List Value)) (start : OutputAt (kind_of G.state G.ended))
            → IsUnderWay (F.has_text self.old.shape fresh names rows) start (reached (kind_of G.state G.ended) self.old.target stage.old) self.old.held
            → IsUnderWay (F.has_text self.new.shape fresh names (rows ++ row.now ∷ [])) start (reached (kind_of G.state G.ended) self.new.target stage.new) self.new.held) }
        // The same, step by step, for whoever follows what the output has in another way.
        ensures step { OnOk result ((added moved : List ℕ) × (self.old.held ++ added ≡ moved ++ self.new.held) × GainsText (reached (kind_of G.state G.ended) self.old.target stage.old) (reached (kind_of G.state G.ended) self.new.target stage.new) moved
            × ((fresh : Bool) (names : List (List ℕ)) (rows : List (List Value)) (so_far : List ℕ) → F.has_text self.old.shape fresh names rows so_far → F.has_text self.new.shape fresh names (rows ++ row.now ∷ []) (so_far ++ added))) }
        ensures front { OnErr result ((fresh : Bool) (names : List (List ℕ)) (rows more : List (List Value)) (start : OutputAt (kind_of G.state G.ended))
            → IsUnderWay (F.has_text self.old.shape fresh names rows) start (reached (kind_of G.state G.ended) self.old.target stage.old) self.old.held
            → GainsFront start stage.new (F.text self.old.shape fresh names (rows ++ (row.now ∷ more)))) }
        ensures format { F.text self.new.shape ≡ F.text self.old.shape }
        ensures at_once { F.at_once self.new.shape ≡ F.at_once self.old.shape }
        ensures small { OnOk result (length self.new.held < full) }
        // Nothing is asked of the stage before so many bytes are held.
        ensures quiet { OnOk result ((added : List ℕ) × (length (self.old.held ++ added) < full → stage.new ≡ stage.old)
            × ((fresh : Bool) (names : List (List ℕ)) (rows : List (List Value)) (so_far : List ℕ) → F.has_text self.old.shape fresh names rows so_far → F.has_text self.new.shape fresh names (rows ++ row.now ∷ []) (so_far ++ added))) }
        ensures spares { Spares (kind_of G.state G.ended) self.old.target.output self.old.target.name self.old.target.base stage.old stage.new }
        ensures output { (self.new.target.output ≡ self.old.target.output) × (self.new.target.name ≡ self.old.target.name) × (self.new.target.base ≡ self.old.target.base) }
        ensures later { G.faults stage.old ≤ G.faults stage.new }
        ensures failed { IsErrOf result PutFault.Failed → Rose (G.faults stage.old) (G.faults stage.new) }
    {
        let Ok(()) = self.shape.row(row, &mut self.held) else {
            return Err(PutFault::Memory);
        };
        put_full(&mut self.target, &mut self.held, full, spare, stage)?;
        Ok(())
    }

    /// Puts the whole pieces that are held.
    pub fn hand_on<G: Stage>(&mut self, spare: &mut Bytes, stage: &mut G) -> Result<(), PutFault>
        ensures goes { G.goes stage.old stage.new }
        ensures text { OnOk result ((fresh : Bool) (names : List (List ℕ)) (rows : List (List Value)) (start : OutputAt (kind_of G.state G.ended))
            → IsUnderWay (F.has_text self.old.shape fresh names rows) start (reached (kind_of G.state G.ended) self.old.target stage.old) self.old.held
            → IsUnderWay (F.has_text self.new.shape fresh names rows) start (reached (kind_of G.state G.ended) self.new.target stage.new) self.new.held) }
        ensures front { OnErr result ((fresh : Bool) (names : List (List ℕ)) (rows more : List (List Value)) (start : OutputAt (kind_of G.state G.ended))
            → IsUnderWay (F.has_text self.old.shape fresh names rows) start (reached (kind_of G.state G.ended) self.old.target stage.old) self.old.held
            → GainsFront start stage.new (F.text self.old.shape fresh names (rows ++ more))) }
        ensures shape { self.new.shape ≡ self.old.shape }
        ensures small { OnOk result (length self.new.held < 4096) }
        // Nothing is asked of the stage where no whole piece is held.
        ensures quiet { length self.old.held < 4096 → stage.new ≡ stage.old }
        ensures spares { Spares (kind_of G.state G.ended) self.old.target.output self.old.target.name self.old.target.base stage.old stage.new }
        ensures output { (self.new.target.output ≡ self.old.target.output) × (self.new.target.name ≡ self.old.target.name) × (self.new.target.base ≡ self.old.target.base) }
        ensures later { G.faults stage.old ≤ G.faults stage.new }
        ensures failed { IsErrOf result PutFault.Failed → Rose (G.faults stage.old) (G.faults stage.new) }
    {
        put_full(&mut self.target, &mut self.held, PIECE, spare, stage)
    }

    /// Puts what stands behind the rows, and all that is held, and ends the output.
    pub fn end<G: Stage>(&mut self, stage: &mut G) -> Result<Output, PutFault>
        ensures goes { G.goes stage.old stage.new }
        ensures text { IfOk result (λ output. (fresh : Bool) (names : List (List ℕ)) (rows : List (List Value)) (start : OutputAt (kind_of G.state G.ended))
            → IsUnderWay (F.has_text self.old.shape fresh names rows) start (reached (kind_of G.state G.ended) self.old.target stage.old) self.old.held
            → GainsText start (placed_at (kind_of G.state G.ended) self.old.target.output output stage.new) (F.text self.old.shape fresh names rows)) }
        ensures last { IfOk result (λ output. (added : List ℕ) × GainsText (reached (kind_of G.state G.ended) self.old.target stage.old) (placed_at (kind_of G.state G.ended) self.old.target.output output stage.new) (self.old.held ++ added)
            × ((fresh : Bool) (names : List (List ℕ)) (rows : List (List Value)) (so_far : List ℕ) → F.has_text self.old.shape fresh names rows so_far → F.text self.old.shape fresh names rows ≡ so_far ++ added)) }
        ensures ended { IfOk result (λ output. G.ended stage.new output.name output.base output.mark) }
        ensures front { OnErr result ((fresh : Bool) (names : List (List ℕ)) (rows : List (List Value)) (start : OutputAt (kind_of G.state G.ended))
            → IsUnderWay (F.has_text self.old.shape fresh names rows) start (reached (kind_of G.state G.ended) self.old.target stage.old) self.old.held
            → GainsFront start stage.new (F.text self.old.shape fresh names rows)) }
        ensures spares { Spares (kind_of G.state G.ended) self.old.target.output self.old.target.name self.old.target.base stage.old stage.new }
        ensures output { IfOk result (λ output. (output.name ≡ self.old.target.name) × (output.base ≡ self.old.target.base)) }
        ensures later { G.faults stage.old ≤ G.faults stage.new }
        ensures failed { IsErrOf result PutFault.Failed → Rose (G.faults stage.old) (G.faults stage.new) }
    {
        let Ok(()) = self.shape.end(&mut self.held) else {
            return Err(PutFault::Memory);
        };
        match self.target.end(stage, self.held.as_slice()) {
            Ok(mark) => Ok(Output {
                name: self.target.name.copy(),
                base: self.target.base,
                mark,
            }),
            Err(_) => Err(PutFault::Failed),
        }
    }
}
