// How a writer takes rows.
ghost use Rattle.std.specs.Prelude.{◌≡◌, ◌≤◌, ◌<◌, ◌+◌, ◌^◌, ◌++◌, ◌∷◌, [], OnOk, OnErr, IsErrOf, IsSome};
ghost use Rattle.text_output.specs.Output.{kind_of};
ghost use Rattle.line_input.specs.Taken.{slots_of};
ghost use Rattle.log_reading.specs.Found.{rows_met};
ghost use Rattle.row_output.specs.Kept.{DropsAll};
ghost use Rattle.row_output.specs.Sinks.{HoldsNoPiece};
ghost use Rattle.query_run.specs.Rows.{picked};
ghost use Rattle.query_run.specs.Writer.{Opens, PutsRows, Writes, Halts};
ghost use Rattle.query_run.specs.Writing.{writes_none, writes_more, halts_here, halts_later, halts_more};

use crate::{Picker, Writer};
use line_input::{Columns, Fields};
use log_reading::{TakeFault, Taker};
use lp_outside::{Name, Stage};
use std::alloc::{AllocError, Global};

impl<P: Picker + Drop> Writer<P> {
    // Counts a record, and the row that it may give. The row isn't made, since the output would drop it.
    fn pass_over<G: Stage>(
        &mut self,
        alloc: Global,
        identity: &Name,
        number: u64,
        columns: &Option<Columns>,
        line: &[u8],
        fields: &Fields,
        stage: &G,
    ) -> Result<(), AllocError>
        requires number { number < 2 ^ 63 }
        requires room { self.old.taken < 2 ^ 63 }
        requires drops { DropsAll self.old.output }
        ensures takes { OnOk result (PutsRows (kind_of G.state G.ended) (picked (P.picks self.old.picker) (record { identity = identity.now; row = record { number = number; slots = slots_of line.now fields.now; columns = columns.now } } ∷ [])) self.old stage.now self.new stage.now) }
        ensures err { OnErr result (Opens (kind_of G.state G.ended) self.old stage.now self.new stage.now) }
        ensures taken { OnOk result (self.new.taken ≡ self.old.taken + 1) }
    {
        let gives = self.picker.gives(
            alloc,
            identity,
            number,
            columns,
            line,
            fields,
            &mut self.values,
        )?;
        self.taken += 1;
        if !gives {
            return Ok(());
        }
        self.output.skip(stage);
        Ok(())
    }
}

impl<P: Picker + Drop, G: Stage> Taker<G> for Writer<P> {
    ghost takes = { λ a u xs b v. Writes (kind_of G.state G.ended) P.picks a u (rows_met xs) b v };

    ghost stops = { λ a u xs b v. Halts (kind_of G.state G.ended) P.picks a u (rows_met xs) b v };

    ghost stopped = { λ w. IsSome w.refused };

    ghost count = { λ w. w.taken };

    ghost faults = { G.faults };

    ghost goes = { G.goes };

    // standard output holds back less than a piece
    ghost handed_on = { λ w u. HoldsNoPiece w.output.sink };

    ghost goes_nowhere = { G.goes_nowhere };

    ghost goes_on = { G.goes_on };

    fn take(
        &mut self,
        alloc: Global,
        identity: &Name,
        number: u64,
        columns: &Option<Columns>,
        line: &[u8],
        fields: &Fields,
        stage: &mut G,
    ) -> Result<(), TakeFault> {
        self.open(stage)?;
        if self.output.drops_all() {
            return match self.pass_over(alloc, identity, number, columns, line, fields, stage) {
                Ok(()) => Ok(()),
                Err(_) => Err(TakeFault::Memory),
            };
        }
        let picked = self.picker.pick(
            alloc,
            identity,
            number,
            columns,
            line,
            fields,
            &mut self.values,
            &mut self.row,
        );
        match picked {
            Err(_) => Err(TakeFault::Memory),
            Ok(false) => {
                self.taken += 1;
                Ok(())
            }
            Ok(true) => self.put(stage),
        }
    }

    fn end_log(
        &mut self,
        alloc: Global,
        identity: &Name,
        columns: &Option<Columns>,
        stage: &mut G,
    ) -> Result<(), TakeFault> {
        Ok(())
    }

    fn hand_on(&mut self, stage: &mut G) -> Result<(), TakeFault> {
        self.pass_on(stage)
    }

    ghost takes_none = { λ s w. writes_none (kind_of G.state G.ended) P.picks s w };

    ghost takes_more = { λ a b c u v w. writes_more (kind_of G.state G.ended) P.picks a b c u v w };

    ghost stops_here = { λ a b u v. halts_here (kind_of G.state G.ended) P.picks a b u v };

    ghost stops_later = { λ a b c u v w. halts_later (kind_of G.state G.ended) P.picks a b c u v w };

    ghost stops_more = { λ a c u w. halts_more (kind_of G.state G.ended) P.picks a c u w };
}
