// A whole text to an output.
ghost use Rattle.std.specs.Prelude.{◌≡◌, ◌≢◌, ◌≤◌, ◌^◌, OnErr, IfOk};
ghost use Rattle.lp_model.specs.Outside.{HasCause};
ghost use Rattle.lp_outside.specs.declared.stage.Mark.{Mark};
ghost use Rattle.lp_outside.specs.Stages.{no_mark};
ghost use Rattle.lp_outside.specs.Gained.{Gained, GainedSome, HasText, SparesOthers, SparesFronts, SparesLengths, SparesEnded};

use crate::{Mark, Name, Stage, StageFailed};

/// Where an output's text begins in its file, and the mark behind its last byte.
#[derive(Clone, Copy, Debug, PartialEq, Eq)]
pub struct Placed {
    pub base: u64,
    pub mark: Mark,
}

/// Puts a text behind what an output's file holds, and ends the output.
pub fn place_text<G: Stage>(
    stage: &mut G,
    output: u32,
    name: &Name,
    text: &[u8],
) -> Result<Placed, StageFailed>
    ensures goes { G.goes stage.old stage.new }
    ensures base { IfOk result (λ placed. (G.state stage.old).is_length name.now placed.base) }
    ensures low { IfOk result (λ placed. placed.base ≤ 2 ^ 62) }
    // The output has gained the text from its first byte on, and has it.
    ensures written { IfOk result (λ placed. Gained output name.now placed.base no_mark placed.mark text.now (G.state stage.old) (G.state stage.new)) }
    ensures has { IfOk result (λ placed. (G.state stage.old).tells → HasText output name.now placed.base placed.mark text.now (G.state stage.new)) }
    ensures ended { IfOk result (λ placed. G.ended stage.new name.now placed.base placed.mark) }
    ensures others_ended { SparesEnded G.ended name.now stage.old stage.new }
    ensures others { IfOk result (λ placed. SparesOthers output name.now (G.state stage.old) (G.state stage.new)) }
    ensures fronts { IfOk result (λ placed. SparesFronts placed.base (G.state stage.old) (G.state stage.new)) }
    ensures lengths { SparesLengths name.now (G.state stage.old) (G.state stage.new) }
    ensures front { OnErr result (GainedSome name.now text.now (G.state stage.old) (G.state stage.new)) }
    ensures cause { HasCause (G.faults stage.old) (G.faults stage.new) result }
{
    let base = stage.held(name)?;
    let mut mark = Mark::none();
    stage.put(output, name, base, &mut mark, text)?;
    stage.close(name, base, &mark)?;
    Ok(Placed { base, mark })
}
