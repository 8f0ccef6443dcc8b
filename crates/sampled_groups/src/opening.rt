// The output of a name without stars is opened before the first record is gathered.
ghost use Rattle.std.specs.Prelude.{◌≡◌, ◌≤◌, [], true, OnOk, OnErr, IsErrOf, IsSome};
ghost use Rattle.lp_model.specs.Outside.{Rose};
ghost use Rattle.text_output.specs.Output.{kind_of};
ghost use Rattle.query_run.specs.Writer.{refused_by, take_fault};
ghost use Rattle.sampled_groups.specs.Taking.{StopsGroups, TakesGroups};

use crate::GroupTaker;
use log_reading::TakeFault;
use lp_outside::Stage;
use row_output::{OutputFault, Refused};

impl<'a> GroupTaker<'a> {
    /// Opens the output of a name without stars, once.
    pub(crate) fn open<G: Stage>(&mut self, stage: &mut G) -> Result<(), TakeFault>
        ensures takes { OnOk result (TakesGroups (kind_of G.state G.ended) self.old stage.old [] self.new stage.new) }
        ensures opened { OnOk result (self.new.opened ≡ true) }
        ensures stops { OnErr result (StopsGroups (kind_of G.state G.ended) self.old stage.old self.new stage.new) }
        ensures rows { self.new.rows ≡ self.old.rows }
        ensures goes { G.goes stage.old stage.new }
        ensures later { G.faults stage.old ≤ G.faults stage.new }
        ensures failed { IsErrOf result TakeFault.Failed → Rose (G.faults stage.old) (G.faults stage.new) }
        ensures stopped { IsErrOf result TakeFault.Stopped → IsSome self.new.refused }
    {
        if self.opened {
            return Ok(());
        }
        match self.output.open(stage) {
            Ok(()) => {
                self.opened = true;
                Ok(())
            }
            Err(fault) => Err(told(fault, &mut self.refused)),
        }
    }
}

// A fault of the outputs, as one of a taker. Why an output is refused is kept.
fn told(fault: OutputFault, refused: &mut Option<Refused>) -> TakeFault
    ensures fault { result ≡ take_fault fault }
    ensures refused { refused.new ≡ refused_by refused.old fault }
{
    match fault {
        OutputFault::Refused(why) => {
            *refused = Some(why);
            TakeFault::Stopped
        }
        OutputFault::Failed => TakeFault::Failed,
        OutputFault::Memory => TakeFault::Memory,
    }
}
