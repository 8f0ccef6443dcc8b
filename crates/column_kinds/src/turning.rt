// The turn from keeping records to having them taken.
ghost use Rattle.std.specs.Prelude.{◌≡◌, ◌≤◌, OnOk, OnErr, IfSome, IsErrOf};
ghost use Rattle.lp_model.specs.Outside.{Rose};
ghost use Rattle.column_kinds.specs.Past.{Past, Later, IsTold};
ghost use Rattle.column_kinds.specs.Phases.{IsStoppedIn, kept_in, taken_in};
ghost use Rattle.column_kinds.specs.Sampling.{kind_of, Rules, Asks, PhaseHolds, PhaseKeeps, PhaseStopped};

use crate::beginning::begin;
use crate::{Gathering, Maker, Phase, Stop};
use log_reading::{TakeFault, Taker};
use lp_time::Pattern;
use std::alloc::Global;
use std::mem::replace;

// Takes what was kept out of a phase.
fn take_gathering<M: Drop, T: Drop>(phase: &mut Phase<M, T>) -> Option<Gathering<M>>
    ensures some { IfSome result (λ gathering. phase.old ≡ Phase.Gathering gathering) }
    ensures lost { phase.new ≡ Phase.Lost }
{
    match replace(phase, Phase::Lost) {
        Phase::Gathering(gathering) => Some(gathering),
        Phase::Taking(_) | Phase::Refused(_) | Phase::Lost => None,
    }
}

// Goes on to a phase.
fn set_phase<M: Drop, T: Drop>(place: &mut Phase<M, T>, phase: Phase<M, T>)
    ensures { place.new ≡ phase }
{
    *place = phase;
}

/// Makes the taker, once the records tell the columns; from then on none is kept.
pub(crate) fn turn<M: Maker<T, O> + Drop, T: Taker<O> + Drop, O>(
    alloc: Global,
    limit: u32,
    pattern: &Pattern,
    phase: &mut Phase<M, T>,
    out: &mut O,
) -> Result<(), TakeFault>
    ensures turned { OnOk result ((rules : Rules M) (start : O) (past : Past) → Asks limit pattern.now rules → PhaseKeeps rules start past phase.old out.old → IsTold rules.limit past
        → PhaseHolds (kind_of M.makes M.refuses T.takes T.stops) rules start past phase.new out.new) }
    ensures stopped { OnErr result ((rules : Rules M) (start : O) (past later : Past) → Asks limit pattern.now rules → PhaseKeeps rules start past phase.old out.old → IsTold rules.limit past → Later past later
        → PhaseStopped (kind_of M.makes M.refuses T.takes T.stops) rules start later phase.new out.new) }
    ensures count { OnOk result (taken_in T.count phase.new ≡ taken_in T.count phase.old) }
    ensures few { kept_in phase.new ≡ 0 }
    ensures goes { T.goes out.old out.new }
    ensures later { T.faults out.old ≤ T.faults out.new }
    ensures failed { IsErrOf result TakeFault.Failed → Rose (T.faults out.old) (T.faults out.new) }
    ensures refused { IsErrOf result TakeFault.Stopped → IsStoppedIn T.stopped phase.new }
{
    let Some(gathering) = take_gathering(phase) else {
        return Err(TakeFault::Memory);
    };
    match begin(alloc, limit, pattern, gathering, out) {
        Ok(taker) => {
            set_phase(phase, Phase::Taking(taker));
            Ok(())
        }
        Err(Stop::Refused(fault)) => {
            set_phase(phase, Phase::Refused(fault));
            Err(TakeFault::Stopped)
        }
        Err(Stop::Stopped(taker)) => {
            set_phase(phase, Phase::Taking(taker));
            Err(TakeFault::Stopped)
        }
        Err(Stop::Failed) => Err(TakeFault::Failed),
        Err(Stop::Memory) => Err(TakeFault::Memory),
    }
}
