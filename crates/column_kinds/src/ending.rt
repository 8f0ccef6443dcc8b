// The taker behind the last record.
ghost use Rattle.std.specs.Prelude.{◌≡◌, ◌≤◌, IfOk, IfErr, IsErrOf};
ghost use Rattle.lp_model.specs.Outside.{Rose};
ghost use Rattle.column_kinds.specs.Makers.{OnHalted};
ghost use Rattle.column_kinds.specs.Past.{Past};
ghost use Rattle.column_kinds.specs.Sampling.{kind_of, Rules, Begun, Holds, IsStop};

use crate::beginning::begin;
use crate::{Maker, Phase, Sampled, Stop};
use log_reading::Taker;
use std::alloc::Global;

impl<'a, M: Drop, T: Drop> Sampled<'a, M, T> {
    /// The taker, which has taken all records. It is made now, where the records weren't enough to tell the columns before.
    pub fn finish<O>(self, alloc: Global, out: &mut O) -> Result<T, Stop<T>>
    where
        M: Maker<T, O>,
        T: Taker<O>,
        ensures begun { IfOk result (λ taker. (rules : Rules M) (start : O) (past : Past) → Holds (kind_of M.makes M.refuses T.takes T.stops) rules start past self.entry out.old → Begun (kind_of M.makes M.refuses T.takes T.stops) rules start past taker out.new) }
        ensures stopped { IfErr result (λ stop. (rules : Rules M) (start : O) (past : Past) → Holds (kind_of M.makes M.refuses T.takes T.stops) rules start past self.entry out.old → IsStop (kind_of M.makes M.refuses T.takes T.stops) rules start past stop out.new) }
        ensures goes { T.goes out.old out.new }
        ensures later { T.faults out.old ≤ T.faults out.new }
        ensures halted { IfErr result (OnHalted T.stopped) }
        ensures failed { IsErrOf result Stop.Failed → Rose (T.faults out.old) (T.faults out.new) }
    {
        let Sampled {
            limit,
            pattern,
            phase,
        } = self;
        match phase {
            Phase::Gathering(gathering) => begin(alloc, limit, pattern, gathering, out),
            Phase::Taking(taker) => Ok(taker),
            Phase::Refused(fault) => Err(Stop::Refused(fault)),
            Phase::Lost => Err(Stop::Memory),
        }
    }
}
