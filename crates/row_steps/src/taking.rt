// How groups take records.
ghost use Rattle.std.specs.Prelude.{◌≡◌, ◌≤◌, ◌<◌, ◌+◌, ◌^◌, ◌++◌, ◌∷◌, [], ℕ, List, ⊤, OnOk, OnErr, IsErrOf};
ghost use Rattle.std.proofs.Common.{◌∙◌};
ghost use Rattle.log_reading.specs.Found.{rows_met};
ghost use Rattle.row_steps.specs.Gathered.{Gathers, gathered_at, gathers_none, gathers_more_met};

use crate::GroupRows;
use crate::cutting::add_row;
use line_input::{Columns, Fields};
use log_reading::{TakeFault, Taker};
use lp_outside::{Name, Stage};
use query_run::Picker;
use std::alloc::Global;

// Groups hold fewer records than this. A run has fewer bytes.
const MOST_RECORDS: u64 = (1 << 63) - 1;

impl<P: Picker + Drop, G: Stage> Taker<G> for GroupRows<P> {
    ghost takes = { λ a u xs b v. Gathers P.picks (gathered_at a.picker a.plan a.groups u) (rows_met xs) (gathered_at b.picker b.plan b.groups v) };

    // nothing is written, whether or not memory is refused
    ghost stops = { λ a u xs b v. v ≡ u };

    ghost stopped = { λ s. ⊥ };

    ghost count = { λ s. s.taken };

    ghost faults = { G.faults };

    ghost goes = { G.goes };

    // nothing goes on before the end
    ghost handed_on = { λ s u. ⊤ };

    ghost goes_nowhere = { G.goes_nowhere };

    ghost goes_on = { G.goes_on };

    fn take(
        &mut self,
        alloc: Global,
        identity: &Name,
        number: u64,
        columns: &Option<Columns>,
        line: &[u8],
        fields: &Fields,
        stage: &mut G,
    ) -> Result<(), TakeFault> {
        if self.taken >= MOST_RECORDS {
            return Err(TakeFault::Memory);
        }
        let picked = self.picker.pick(
            alloc,
            identity,
            number,
            columns,
            line,
            fields,
            &mut self.values,
            &mut self.row,
        );
        match picked {
            Err(_) => Err(TakeFault::Memory),
            Ok(false) => {
                self.taken += 1;
                Ok(())
            }
            Ok(true) => {
                self.taken += 1;
                match add_row(
                    &mut self.groups,
                    self.width,
                    &mut self.row,
                    &mut self.keys,
                    &mut self.arguments,
                ) {
                    Ok(()) => Ok(()),
                    Err(_) => Err(TakeFault::Memory),
                }
            }
        }
    }

    fn end_log(
        &mut self,
        alloc: Global,
        identity: &Name,
        columns: &Option<Columns>,
        stage: &mut G,
    ) -> Result<(), TakeFault> {
        Ok(())
    }

    fn hand_on(&mut self, stage: &mut G) -> Result<(), TakeFault> {
        Ok(())
    }

    ghost takes_none = { λ s w. gathers_none P.picks (gathered_at s.picker s.plan s.groups w) };

    ghost takes_more = { λ a b c u v w. gathers_more_met P.picks (gathered_at a.picker a.plan a.groups u) (gathered_at b.picker b.plan b.groups v) (gathered_at c.picker c.plan c.groups w) };

    ghost stops_here = { λ a b u v xs ys f. f.out };

    ghost stops_later = { λ a b c u v w xs ys f s. s ∙ f.out };

    ghost stops_more = { λ a c u w xs ys s. s };
}
