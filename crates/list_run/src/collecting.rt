// How a collector takes records.
ghost use Rattle.std.specs.Prelude.{◌≡◌, ◌≤◌, ◌<◌, ◌+◌, ◌^◌, ◌++◌, ◌∷◌, [], ℕ, List, ⊤, OnOk, OnErr, IsErrOf};
ghost use Rattle.log_reading.specs.Found.{rows_met};
ghost use Rattle.list_run.specs.Collected.{Collects, collects_none, collects_more};

use crate::adding::add_row;
use crate::{Collector, Gathered};
use line_input::{Columns, Fields};
use log_reading::{TakeFault, Taker};
use lp_outside::Name;
use query_run::Picker;
use std::alloc::Global;

impl<P: Picker + Drop> Taker<Gathered> for Collector<P> {
    ghost takes = { λ a u xs b v. Collects P.picks a.picker u (rows_met xs) b.picker v };

    // what lacks values is let go
    ghost stops = { λ a u xs b v. ⊤ };

    ghost stopped = { λ s. ⊥ };

    ghost count = { λ s. s.taken };

    // nothing is written
    ghost faults = { λ u. 0 };

    ghost goes = { λ u v. ⊤ };

    // nothing goes on
    ghost handed_on = { λ s u. ⊤ };

    ghost goes_nowhere = { λ u. tt };

    ghost goes_on = { λ u v w f s. tt };

    fn take(
        &mut self,
        alloc: Global,
        identity: &Name,
        number: u64,
        columns: &Option<Columns>,
        line: &[u8],
        fields: &Fields,
        gathered: &mut Gathered,
    ) -> Result<(), TakeFault> {
        let picked = self.picker.pick(
            alloc,
            identity,
            number,
            columns,
            line,
            fields,
            &mut self.values,
            &mut self.row,
        );
        match picked {
            Err(_) => Err(TakeFault::Memory),
            Ok(false) => {
                self.taken += 1;
                Ok(())
            }
            Ok(true) => {
                self.taken += 1;
                match add_row(alloc, gathered, &mut self.row) {
                    Ok(()) => Ok(()),
                    Err(_) => Err(TakeFault::Memory),
                }
            }
        }
    }

    fn end_log(
        &mut self,
        alloc: Global,
        identity: &Name,
        columns: &Option<Columns>,
        gathered: &mut Gathered,
    ) -> Result<(), TakeFault> {
        Ok(())
    }

    fn hand_on(&mut self, gathered: &mut Gathered) -> Result<(), TakeFault> {
        Ok(())
    }

    ghost takes_none = { λ s w. collects_none P.picks s.picker w };

    ghost takes_more = { λ a b c u v w. collects_more P.picks a.picker b.picker c.picker u v w };

    ghost stops_here = { λ a b u v xs ys f. tt };

    ghost stops_later = { λ a b c u v w xs ys f s. tt };

    ghost stops_more = { λ a c u w xs ys s. tt };
}
