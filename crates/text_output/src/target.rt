// Where an output's text goes.
ghost use Rattle.std.specs.Prelude.{◌≡◌, ◌%◌, length, OnOk, OnErr, IfOk};
ghost use Rattle.lp_model.specs.Outside.{HasCause};
ghost use Rattle.lp_outside.specs.Stages.{no_mark};

use lp_outside::{Mark, Name, Stage, StageFailed};
use lp_values::ListOf;

/// An output of a stage, and how far its text has come. All but the last piece have a multiple of 4,096 bytes.
#[derive(Drop)]
pub struct Target {
    pub output: u32,
    pub name: Name,
    pub base: u64,
    pub mark: Mark,
    ghost whole: { mark.length % 4096 ≡ 0 },
}

/// An output whose text is whole: where the text begins in the file of that name, and the mark behind its last byte.
#[derive(Drop)]
pub struct Output {
    pub name: Name,
    pub base: u64,
    pub mark: Mark,
}

pub type OutputList = ListOf<Output>;

impl Target {
    ghost use Rattle.text_output.specs.Output.{kind_of, output_at, reached, GainsText, GainsFront, Spares};

    /// The output of an index, before its first byte.
    pub fn new(output: u32, name: Name, base: u64) -> Target
        ensures output { result.output ≡ output }
        ensures name { result.name ≡ name }
        ensures base { result.base ≡ base }
        ensures mark { result.mark ≡ no_mark }
    {
        Target {
            output,
            name,
            base,
            mark: Mark::none(),
        }
    }

    /// Puts whole pieces, and moves the mark behind them.
    pub fn put<G: Stage>(&mut self, stage: &mut G, bytes: &[u8]) -> Result<(), StageFailed>
        requires { length bytes.now % 4096 ≡ 0 }
        ensures goes { G.goes stage.old stage.new }
        ensures gained { OnOk result (GainsText (reached (kind_of G.state G.ended) self.old stage.old) (reached (kind_of G.state G.ended) self.new stage.new) bytes.now) }
        ensures front { OnErr result (GainsFront (reached (kind_of G.state G.ended) self.old stage.old) stage.new bytes.now) }
        ensures mark { OnErr result (self.new.mark ≡ self.old.mark) }
        ensures spares { Spares (kind_of G.state G.ended) self.old.output self.old.name self.old.base stage.old stage.new }
        ensures cause { HasCause (G.faults stage.old) (G.faults stage.new) result }
        ensures output { self.new.output ≡ self.old.output }
        ensures name { self.new.name ≡ self.old.name }
        ensures base { self.new.base ≡ self.old.base }
    {
        let mut mark = self.mark;
        stage.put(self.output, &self.name, self.base, &mut mark, bytes)?;
        self.mark = mark;
        Ok(())
    }

    /// Puts the last bytes, ends the output, and answers the mark behind them.
    pub fn end<G: Stage>(&self, stage: &mut G, bytes: &[u8]) -> Result<Mark, StageFailed>
        ensures goes { G.goes stage.old stage.new }
        ensures gained { IfOk result (λ mark. GainsText (reached (kind_of G.state G.ended) self.now stage.old) (output_at (kind_of G.state G.ended) self.now mark stage.new) bytes.now) }
        ensures ended { IfOk result (λ mark. G.ended stage.new self.now.name self.now.base mark) }
        ensures front { OnErr result (GainsFront (reached (kind_of G.state G.ended) self.now stage.old) stage.new bytes.now) }
        ensures spares { Spares (kind_of G.state G.ended) self.now.output self.now.name self.now.base stage.old stage.new }
        ensures cause { HasCause (G.faults stage.old) (G.faults stage.new) result }
    {
        let mut last = self.mark;
        stage.put(self.output, &self.name, self.base, &mut last, bytes)?;
        stage.close(&self.name, self.base, &last)?;
        Ok(last)
    }
}
