// How a grouped query takes records.
ghost use Rattle.std.specs.Prelude.{IsSome, ⊤};
ghost use Rattle.log_reading.specs.Found.{rows_met};
ghost use Rattle.text_output.specs.Output.{kind_of};
ghost use Rattle.sampled_groups.specs.Taking.{StopsGroups, TakesGroups, more_taken, none_taken, stops_behind, stops_there};

use crate::GroupTaker;
use line_input::{Columns, Fields};
use log_reading::{TakeFault, Taker};
use lp_outside::{Name, Stage};
use std::alloc::Global;

impl<'a, G: Stage> Taker<G> for GroupTaker<'a> {
    ghost takes = { λ a u xs b v. TakesGroups (kind_of G.state G.ended) a u (rows_met xs) b v };

    // no row is put, so that it stops alike within all that it meets
    ghost stops = { λ a u xs b v. StopsGroups (kind_of G.state G.ended) a u b v };

    ghost stopped = { λ s. IsSome s.refused };

    ghost count = { λ s. s.rows.taken };

    ghost faults = { G.faults };

    ghost goes = { G.goes };

    // nothing goes on before the end
    ghost handed_on = { λ s u. ⊤ };

    ghost goes_nowhere = { G.goes_nowhere };

    ghost goes_on = { G.goes_on };

    fn take(
        &mut self,
        alloc: Global,
        identity: &Name,
        number: u64,
        columns: &Option<Columns>,
        line: &[u8],
        fields: &Fields,
        stage: &mut G,
    ) -> Result<(), TakeFault> {
        self.open(stage)?;
        self.rows
            .take(alloc, identity, number, columns, line, fields, stage)
    }

    fn end_log(
        &mut self,
        alloc: Global,
        identity: &Name,
        columns: &Option<Columns>,
        stage: &mut G,
    ) -> Result<(), TakeFault> {
        self.rows.end_log(alloc, identity, columns, stage)
    }

    fn hand_on(&mut self, stage: &mut G) -> Result<(), TakeFault> {
        Ok(())
    }

    ghost takes_none = { λ s w. none_taken (kind_of G.state G.ended) s w };

    ghost takes_more = { λ a b c u v w. more_taken (kind_of G.state G.ended) a b c u v w };

    ghost stops_here = { λ a b u v xs ys f. stops_there (kind_of G.state G.ended) a b u v (rows_met xs) f };

    ghost stops_later = { λ a b c u v w xs ys f s. stops_behind (kind_of G.state G.ended) a b c u v w (rows_met xs) f s };

    ghost stops_more = { λ a c u w xs ys s. s };
}
