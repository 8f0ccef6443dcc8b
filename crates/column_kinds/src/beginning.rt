// The taker over the columns that the records tell, and the records that were kept, to it.
ghost use Rattle.std.specs.Prelude.{◌≡◌, ◌≤◌, ◌<◌, ◌^◌, length, map, OnErr, IfOk, IfErr, IsErrOf, IsTrue};
ghost use Rattle.lp_model.specs.Outside.{Rose};
ghost use Rattle.column_kinds.specs.Judged.{judged};
ghost use Rattle.column_kinds.specs.Kept.{found_in};
ghost use Rattle.column_kinds.specs.Makers.{stop_unmade, OnHalted, OnRefused};
ghost use Rattle.column_kinds.specs.Past.{Past, Later};
ghost use Rattle.column_kinds.specs.Sampling.{kind_of, Rules, Asks, Begun, IsStop, KeepsRecords, told_by};

use crate::giving::give_kept;
use crate::{FirstLog, Gathering, KeptRows, Maker, Stop, Unmade, judge};
use log_reading::{TakeFault, Taker};
use lp_time::Pattern;
use std::alloc::Global;

// More rows than fit into memory.
const MOST: usize = 1 << 63;

// Why it stops, where no taker is made.
fn stop_unmade<T: Drop>(unmade: Unmade) -> Stop<T>
    ensures { result ≡ stop_unmade unmade }
{
    match unmade {
        Unmade::Refused(fault) => Stop::Refused(fault),
        Unmade::Memory => Stop::Memory,
    }
}

// Whether rows can be counted; more don't fit into memory.
fn is_countable(rows: &KeptRows) -> bool
    ensures { IsTrue result → length rows.now < 2 ^ 63 }
{
    rows.len() < MOST
}

// Makes the taker over the columns that the records tell.
fn make_taker<M: Maker<T, O> + Drop, T: Taker<O>, O>(
    alloc: Global,
    limit: u32,
    pattern: &Pattern,
    first: &Option<FirstLog>,
    rows: &KeptRows,
    maker: M,
) -> Result<T, Unmade>
    ensures makes { IfOk result (λ taker. M.makes maker (judged limit pattern.now first.now (map found_in rows.now)) taker) }
    ensures none { IfOk result (λ taker. T.count taker ≡ 0) }
    ensures refuses { IfErr result (λ unmade. OnRefused unmade (M.refuses maker (judged limit pattern.now first.now (map found_in rows.now)))) }
    ensures room { IfOk result (λ _. length rows.now < 2 ^ 63) }
{
    if !is_countable(rows) {
        return Err(Unmade::Memory);
    }
    let Ok(told) = judge(alloc, limit, pattern, first, rows) else {
        return Err(Unmade::Memory);
    };
    maker.make(alloc, told)
}

/// Makes the taker, and hands it the records that were kept.
pub(crate) fn begin<M: Maker<T, O> + Drop, T: Taker<O> + Drop, O>(
    alloc: Global,
    limit: u32,
    pattern: &Pattern,
    gathering: Gathering<M>,
    out: &mut O,
) -> Result<T, Stop<T>>
    ensures begun { IfOk result (λ taker. (rules : Rules M) (start : O) (past : Past) → Asks limit pattern.now rules → KeepsRecords rules start past gathering out.old
        → Begun (kind_of M.makes M.refuses T.takes T.stops) rules start past taker out.new) }
    ensures count { IfOk result (λ taker. T.count taker ≡ length gathering.rows) }
    ensures stopped { IfErr result (λ stop. (rules : Rules M) (start : O) (past later : Past) → Asks limit pattern.now rules → KeepsRecords rules start past gathering out.old
        → Later past later → told_by rules later ≡ told_by rules past → IsStop (kind_of M.makes M.refuses T.takes T.stops) rules start later stop out.new) }
    ensures goes { T.goes out.old out.new }
    ensures later { T.faults out.old ≤ T.faults out.new }
    ensures halted { IfErr result (OnHalted T.stopped) }
    ensures failed { IsErrOf result Stop.Failed → Rose (T.faults out.old) (T.faults out.new) }
{
    let Gathering { first, rows, maker } = gathering;
    let mut taker = match make_taker(alloc, limit, pattern, &first, &rows, maker) {
        Ok(taker) => taker,
        Err(unmade) => return Err(stop_unmade(unmade)),
    };
    match give_kept(alloc, &rows, &mut taker, out) {
        Ok(()) => Ok(taker),
        Err(TakeFault::Stopped) => Err(Stop::Stopped(taker)),
        Err(TakeFault::Failed) => Err(Stop::Failed),
        Err(TakeFault::Memory) => Err(Stop::Memory),
    }
}
