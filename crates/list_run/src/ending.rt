// The end of what is gathered, and of a sample.
ghost use Rattle.std.specs.Prelude.{◌≡◌, [], Err, IfOk, IfErr};
ghost use Rattle.column_kinds.specs.Past.{Past};
ghost use Rattle.column_kinds.specs.Sampling.{Holds};
ghost use Rattle.column_kinds.specs.Sampling.{Rules as SampleRules};
ghost use Rattle.list_run.specs.Faults.{IsOfEnd, OnUnplanned, fault_of};
ghost use Rattle.list_run.specs.Gathering.{Remembered, remembered_of};
ghost use Rattle.list_run.specs.Made.{Fits, list_kind, list_rules};
ghost use Rattle.list_run.specs.Rules.{IsGiven, kind_first, plan_at};
ghost use Rattle.list_run.specs.declared.keep.Keep.{Keep};
ghost use Rattle.list_run.specs.declared.list_maker.ListMaker.{ListMaker};

use crate::list_maker::ListMaker;
use crate::{Collector, Gathered, GivenValues, ListFault, SampledValues};
use column_kinds::{Sampled, Stop};
use lp_values::Kind;
use query_types::KindList;
use sampled_table::SampledPicker;
use std::alloc::Global;

// The kind of the first of some columns.
fn kind_first(kinds: &KindList) -> Kind
    ensures { result ≡ kind_first kinds.now }
{
    kinds.get(0).copied().unwrap_or(Kind::Any)
}

// Why a sample stopped at its end.
fn fault_of<T: Drop>(stop: Stop<T>) -> ListFault
    ensures { result ≡ fault_of stop }
{
    match stop {
        Stop::Refused(fault) => ListFault::Plan(fault),
        Stop::Stopped(taker) => {
            drop(taker);
            ListFault::Memory
        }
        Stop::Failed => ListFault::Memory,
        Stop::Memory => ListFault::Memory,
    }
}

/// What was gathered of all records.
pub(crate) fn end_list(
    alloc: Global,
    gathered: Gathered,
    bad: u64,
) -> Result<GivenValues, ListFault>
    ensures values { IfOk result (λ given. given.values ≡ gathered.facts) }
    ensures kept { IfOk result (λ given. given.kept ≡ gathered.list) }
    ensures bad { IfOk result (λ given. given.bad ≡ bad) }
    ensures fault { IfErr result (λ fault. fault ≡ ListFault.Memory) }
{
    match gathered.into_parts(alloc) {
        Ok((values, kept)) => Ok(GivenValues { values, kept, bad }),
        Err(_) => Err(ListFault::Memory),
    }
}

/// What a sample gave that has taken all records: the collector is made now, where that wasn't done yet.
pub(crate) fn end_sample<'a>(
    alloc: Global,
    sampled: Sampled<'a, ListMaker<'a, Gathered>, Collector<SampledPicker<'a>>>,
    mut gathered: Gathered,
    bad: u64,
) -> Result<SampledValues, ListFault>
    ensures given { IfOk result (λ list. (keep : Keep) (rules : SampleRules (ListMaker Remembered)) (past : Past) → Fits rules → Holds list_kind rules (remembered_of keep []) past sampled.entry gathered → IsGiven keep (list_rules rules) past list) }
    ensures bad { IfOk result (λ list. list.bad ≡ bad) }
    ensures unplanned { IfErr result (OnUnplanned (λ why. (keep : Keep) (rules : SampleRules (ListMaker Remembered)) (past : Past) → Fits rules → Holds list_kind rules (remembered_of keep []) past sampled.entry gathered → plan_at (list_rules rules) past ≡ Err why)) }
    ensures ended { IfErr result IsOfEnd }
{
    match sampled.finish(alloc, &mut gathered) {
        Ok(collector) => {
            let kind = kind_first(&collector.picker.ready.plan.kinds);
            drop(collector);
            match end_list(alloc, gathered, bad) {
                Ok(given) => Ok(SampledValues {
                    kind,
                    values: given.values,
                    kept: given.kept,
                    bad: given.bad,
                }),
                Err(fault) => Err(fault),
            }
        }
        Err(stop) => Err(fault_of(stop)),
    }
}
