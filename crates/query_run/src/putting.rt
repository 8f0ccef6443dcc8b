// How a writer puts rows.
ghost use Rattle.std.specs.Prelude.{◌≡◌, ◌≤◌, ◌<◌, ◌+◌, ◌^◌, [], false, true, None, OnOk, OnErr, IsErrOf, IsSome};
ghost use Rattle.lp_model.specs.Outside.{Rose};
ghost use Rattle.text_output.specs.Output.{kind_of};
ghost use Rattle.row_output.specs.Kept.{HasRows, asked_of};
ghost use Rattle.row_output.specs.Rows.{IsRefused};
ghost use Rattle.row_output.specs.Sinks.{HoldsNoPiece};
ghost use Rattle.row_output.specs.declared.fault.Refused.{Refused as Why};
ghost use Rattle.query_run.specs.Writer.{Opens, Puts, StopsAtOnce, StopsIn, refused_by, take_fault};

use crate::Writer;
use log_reading::TakeFault;
use lp_outside::Stage;
use lp_values::ValueList;
use row_output::{OutputFault, Refused, RowOutput};
use std::alloc::Global;

impl<P: Drop> Writer<P> {
    /// A writer before its first record.
    pub fn new(alloc: Global, output: RowOutput, picker: P) -> Writer<P>
        requires { output.put ≡ 0 }
        ensures output { result.output ≡ output }
        ensures picker { result.picker ≡ picker }
        ensures taken { result.taken ≡ 0 }
        ensures refused { result.refused ≡ None }
        ensures opened { result.opened ≡ false }
    {
        Writer {
            output,
            picker,
            values: ValueList::new(alloc),
            row: ValueList::new(alloc),
            taken: 0,
            opened: false,
            refused: None,
        }
    }

    /// Opens the output of a name without stars, once.
    pub fn open<G: Stage>(&mut self, stage: &mut G) -> Result<(), TakeFault>
        ensures takes { OnOk result (Opens (kind_of G.state G.ended) self.old stage.old self.new stage.new) }
        ensures stops { OnErr result (StopsAtOnce (kind_of G.state G.ended) self.old stage.old self.new stage.new) }
        ensures taken { self.new.taken ≡ self.old.taken }
        ensures goes { G.goes stage.old stage.new }
        ensures later { G.faults stage.old ≤ G.faults stage.new }
        ensures failed { IsErrOf result TakeFault.Failed → Rose (G.faults stage.old) (G.faults stage.new) }
        ensures stopped { IsErrOf result TakeFault.Stopped → IsSome self.new.refused }
        ensures opened { OnOk result (self.new.opened ≡ true) }
        ensures named { OnOk result (self.old.opened ≡ false → (start : G) → HasRows (kind_of G.state G.ended) self.old.output start [] stage.old → (why : Why) → IsRefused (asked_of self.old.output) [] why → ⊥) }
    {
        if self.opened {
            return Ok(());
        }
        match self.output.open(stage) {
            Ok(()) => {
                self.opened = true;
                Ok(())
            }
            Err(fault) => Err(told(fault, &mut self.refused)),
        }
    }

    /// Hands on the whole pieces of the text on its way to standard output.
    pub(crate) fn pass_on<G: Stage>(&mut self, stage: &mut G) -> Result<(), TakeFault>
        ensures takes { OnOk result (Opens (kind_of G.state G.ended) self.old stage.old self.new stage.new) }
        ensures stops { OnErr result (StopsAtOnce (kind_of G.state G.ended) self.old stage.old self.new stage.new) }
        ensures handed { OnOk result (HoldsNoPiece self.new.output.sink) }
        ensures taken { self.new.taken ≡ self.old.taken }
        ensures goes { G.goes stage.old stage.new }
        ensures later { G.faults stage.old ≤ G.faults stage.new }
        ensures failed { IsErrOf result TakeFault.Failed → Rose (G.faults stage.old) (G.faults stage.new) }
        ensures stopped { IsErrOf result TakeFault.Stopped → IsSome self.new.refused }
    {
        match self.output.hand_on(stage) {
            Ok(()) => Ok(()),
            Err(fault) => Err(told(fault, &mut self.refused)),
        }
    }

    /// Opens the output of a name without stars, and hands on what stands before the first row.
    pub fn begin<G: Stage>(&mut self, stage: &mut G) -> Result<(), TakeFault>
        ensures takes { OnOk result (Opens (kind_of G.state G.ended) self.old stage.old self.new stage.new) }
        ensures stops { OnErr result (StopsAtOnce (kind_of G.state G.ended) self.old stage.old self.new stage.new) }
        ensures handed { OnOk result (HoldsNoPiece self.new.output.sink) }
        ensures taken { self.new.taken ≡ self.old.taken }
        ensures goes { G.goes stage.old stage.new }
        ensures later { G.faults stage.old ≤ G.faults stage.new }
        ensures failed { IsErrOf result TakeFault.Failed → Rose (G.faults stage.old) (G.faults stage.new) }
        ensures stopped { IsErrOf result TakeFault.Stopped → IsSome self.new.refused }
        ensures opened { OnOk result (self.new.opened ≡ true) }
        ensures named { OnOk result (self.old.opened ≡ false → (start : G) → HasRows (kind_of G.state G.ended) self.old.output start [] stage.old → (why : Why) → IsRefused (asked_of self.old.output) [] why → ⊥) }
    {
        self.open(stage)?;
        self.pass_on(stage)
    }

    /// Puts the row at hand.
    pub(crate) fn put<G: Stage>(&mut self, stage: &mut G) -> Result<(), TakeFault>
        requires room { self.old.taken < 2 ^ 63 }
        ensures takes { OnOk result (Puts (kind_of G.state G.ended) self.old.row self.old stage.old self.new stage.new) }
        ensures stops { OnErr result (StopsIn (kind_of G.state G.ended) self.old.row self.old stage.old self.new stage.new) }
        ensures taken { OnOk result (self.new.taken ≡ self.old.taken + 1) }
        ensures goes { G.goes stage.old stage.new }
        ensures later { G.faults stage.old ≤ G.faults stage.new }
        ensures failed { IsErrOf result TakeFault.Failed → Rose (G.faults stage.old) (G.faults stage.new) }
        ensures stopped { IsErrOf result TakeFault.Stopped → IsSome self.new.refused }
    {
        match self.output.put(&mut self.row, stage) {
            Ok(()) => {
                self.taken += 1;
                Ok(())
            }
            Err(fault) => Err(told(fault, &mut self.refused)),
        }
    }
}

// A fault of the outputs, as one of a taker. Why an output is refused is kept.
fn told(fault: OutputFault, refused: &mut Option<Refused>) -> TakeFault
    ensures fault { result ≡ take_fault fault }
    ensures refused { refused.new ≡ refused_by refused.old fault }
{
    match fault {
        OutputFault::Refused(why) => {
            *refused = Some(why);
            TakeFault::Stopped
        }
        OutputFault::Failed => TakeFault::Failed,
        OutputFault::Memory => TakeFault::Memory,
    }
}
