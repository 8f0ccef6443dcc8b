// How a sample takes what is met.
ghost use Rattle.std.specs.Prelude.{◌≡◌, ◌≤◌, ◌<◌, ◌+◌, ◌^◌, ◌++◌, ◌∷◌, [], ℕ, List, ⊤, OnOk, OnErr, IsErrOf};
ghost use Rattle.lp_model.specs.Outside.{Rose};
ghost use Rattle.column_kinds.specs.Phases.{IsStoppedIn, taken_in};
ghost use Rattle.column_kinds.specs.Sampling.{kind_of};
ghost use Rattle.column_kinds.specs.Laws.{Samples, Halts, IsTaker, samples_none, samples_more, halts_here, halts_later, halts_more};

use crate::gathering::gather;
use crate::noting::note_first;
use crate::turning::turn;
use crate::{Maker, Phase, Sampled};
use line_input::{Columns, Fields};
use log_reading::{TakeFault, Taker};
use lp_outside::Name;
use std::alloc::Global;

impl<'a, M: Maker<T, O> + Drop, T: Taker<O> + Drop, O> Taker<O> for Sampled<'a, M, T> {
    ghost takes = { λ a u xs b v. Samples (kind_of M.makes M.refuses T.takes T.stops) a u xs b v };

    ghost stops = { λ a u xs b v. Halts (kind_of M.makes M.refuses T.takes T.stops) a u xs b v };

    ghost stopped = { λ s. IsStoppedIn T.stopped s.phase };

    ghost count = { λ s. taken_in T.count s.phase };

    ghost faults = { T.faults };

    ghost goes = { T.goes };

    // what is handed on is the taker's own matter
    ghost handed_on = { λ s out. ⊤ };

    ghost goes_nowhere = { T.goes_nowhere };

    ghost goes_on = { T.goes_on };

    fn take(
        &mut self,
        alloc: Global,
        identity: &Name,
        number: u64,
        columns: &Option<Columns>,
        line: &[u8],
        fields: &Fields,
        out: &mut O,
    ) -> Result<(), TakeFault> {
        match &mut self.phase {
            Phase::Taking(taker) => {
                taker.take(alloc, identity, number, columns, line, fields, out)
            }
            Phase::Gathering(gathering) => {
                match gather(
                    alloc, identity, number, columns, line, fields, self.limit, gathering,
                ) {
                    Ok(true) => turn(alloc, self.limit, self.pattern, &mut self.phase, out),
                    Ok(false) => Ok(()),
                    Err(_) => Err(TakeFault::Memory),
                }
            }
            Phase::Refused(_) => Err(TakeFault::Memory),
            Phase::Lost => Err(TakeFault::Memory),
        }
    }

    fn end_log(
        &mut self,
        alloc: Global,
        identity: &Name,
        columns: &Option<Columns>,
        out: &mut O,
    ) -> Result<(), TakeFault> {
        match note_first(alloc, identity, columns, self) {
            Ok(()) => Ok(()),
            Err(_) => Err(TakeFault::Memory),
        }
    }

    fn hand_on(&mut self, out: &mut O) -> Result<(), TakeFault> {
        match &mut self.phase {
            Phase::Taking(taker) => taker.hand_on(out),
            Phase::Gathering(_) => Ok(()),
            Phase::Refused(_) => Ok(()),
            Phase::Lost => Ok(()),
        }
    }

    ghost takes_none = { λ s w. samples_none (kind_of M.makes M.refuses T.takes T.stops) s w };

    ghost takes_more = { λ a b c u v w. samples_more (kind_of M.makes M.refuses T.takes T.stops) a b c u v w };

    ghost stops_here = { λ a b u v. halts_here (kind_of M.makes M.refuses T.takes T.stops) (record { takes_more = T.takes_more; stops_here = T.stops_here; stops_later = T.stops_later; stops_more = T.stops_more }) a b u v };

    ghost stops_later = { λ a b c u v w. halts_later (kind_of M.makes M.refuses T.takes T.stops) a b c u v w };

    ghost stops_more = { λ a c u w. halts_more (kind_of M.makes M.refuses T.takes T.stops) a c u w };
}
