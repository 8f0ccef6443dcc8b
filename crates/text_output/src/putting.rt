// Bytes to a stage, through a buffer.
ghost use Rattle.std.specs.Prelude.{◌≡◌, ◌≤◌, ◌<◌, length, OnOk, OnErr, IsErrOf};
ghost use Rattle.lp_model.specs.Outside.{Rose};
ghost use Rattle.text_output.specs.Output.{kind_of, reached, GainsFront, MovesText, Spares};

use crate::{PutFault, Target};
use lp_outside::Stage;
use lp_values::{Bytes, bytes_from, bytes_to};
use std::mem::swap;

/// A stage takes pieces of a multiple of so many bytes.
pub(crate) const PIECE: usize = 4096;

// Puts the whole pieces that a buffer holds, and keeps the rest, for which there is a second buffer.
fn put_pieces<G: Stage>(
    target: &mut Target,
    held: &mut Bytes,
    spare: &mut Bytes,
    stage: &mut G,
) -> Result<(), PutFault>
    ensures goes { G.goes stage.old stage.new }
    ensures moves { OnOk result (MovesText (reached (kind_of G.state G.ended) target.old stage.old) (reached (kind_of G.state G.ended) target.new stage.new) held.old held.new) }
    ensures small { OnOk result (length held.new < 4096) }
    ensures err { OnErr result (GainsFront (reached (kind_of G.state G.ended) target.old stage.old) stage.new held.old) }
    ensures spares { Spares (kind_of G.state G.ended) target.old.output target.old.name target.old.base stage.old stage.new }
    ensures output { (target.new.output ≡ target.old.output) × (target.new.name ≡ target.old.name) × (target.new.base ≡ target.old.base) }
    ensures later { G.faults stage.old ≤ G.faults stage.new }
    ensures failed { IsErrOf result PutFault.Failed → Rose (G.faults stage.old) (G.faults stage.new) }
{
    let whole = held.len() - held.len() % PIECE;
    let Ok(()) = target.put(stage, bytes_to(held.as_slice(), whole)) else {
        return Err(PutFault::Failed);
    };
    spare.clear();
    let Ok(()) = spare.add(bytes_from(held.as_slice(), whole)) else {
        return Err(PutFault::Memory);
    };
    swap(held, spare);
    Ok(())
}

/// Puts the whole pieces of a buffer that holds so many bytes.
pub(crate) fn put_full<G: Stage>(
    target: &mut Target,
    held: &mut Bytes,
    full: usize,
    spare: &mut Bytes,
    stage: &mut G,
) -> Result<(), PutFault>
    requires { 4096 ≤ full }
    ensures goes { G.goes stage.old stage.new }
    ensures moves { OnOk result (MovesText (reached (kind_of G.state G.ended) target.old stage.old) (reached (kind_of G.state G.ended) target.new stage.new) held.old held.new) }
    ensures small { OnOk result (length held.new < full) }
    ensures err { OnErr result (GainsFront (reached (kind_of G.state G.ended) target.old stage.old) stage.new held.old) }
    // Nothing is asked of the stage before so many bytes are held.
    ensures quiet { length held.old < full → stage.new ≡ stage.old }
    ensures spares { Spares (kind_of G.state G.ended) target.old.output target.old.name target.old.base stage.old stage.new }
    ensures output { (target.new.output ≡ target.old.output) × (target.new.name ≡ target.old.name) × (target.new.base ≡ target.old.base) }
    ensures later { G.faults stage.old ≤ G.faults stage.new }
    ensures failed { IsErrOf result PutFault.Failed → Rose (G.faults stage.old) (G.faults stage.new) }
{
    if held.len() >= full {
        put_pieces(target, held, spare, stage)
    } else {
        Ok(())
    }
}
