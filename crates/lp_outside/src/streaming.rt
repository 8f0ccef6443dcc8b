// An output stream as a stage that holds nothing back.
ghost use Rattle.std.specs.Prelude.{◌≡◌, ℕ, List, length, option_map};
ghost use Rattle.lp_outside.specs.declared.stage.Mark.{Mark};

use crate::{Mark, Name, Sink, Stage, StageFailed, write_all};

/// A piece goes on at once. The stream keeps no text by its mark: what an output has gained is what the stream has written.
impl<S: Sink> Stage for S {
    ghost use Rattle.std.specs.Bool.{⊤};
    ghost use Rattle.lp_outside.specs.Streams.{stream_state, StaysWritten, stays_here, stays_on, stays_taken};

    ghost state = { stream_state S.written };

    ghost faults = { S.faults };

    // What was written stays in front.
    ghost goes = { λ before now. StaysWritten (S.written before) (S.written now) };

    ghost ended = { λ stream name base mark. ⊤ };

    fn held(&mut self, _name: &Name) -> Result<u64, StageFailed> {
        Ok(0)
    }

    fn put(
        &mut self,
        _output: u32,
        _name: &Name,
        _base: u64,
        mark: &mut Mark,
        bytes: &[u8],
    ) -> Result<(), StageFailed> {
        match write_all(self, bytes) {
            Ok(()) => {
                mark.length = mark.length.wrapping_add(bytes.len() as u64);
                Ok(())
            }
            Err(_) => Err(StageFailed),
        }
    }

    fn close(&mut self, _name: &Name, _base: u64, _mark: &Mark) -> Result<(), StageFailed> {
        Ok(())
    }

    ghost goes_nowhere = { λ stage. stays_here (S.written stage) };

    ghost goes_on = { λ first second third one two. stays_on (S.written first) (S.written second) (S.written third) one two };

    ghost keeps_taken = { stays_taken S.written };

    ghost empty = { λ stage tells. absurd tells };

    ghost one = { λ stage tells. absurd tells };
}
