// The collector of a subquery's values, made once the logs have told their columns.
ghost use Rattle.std.specs.Prelude.{◌≡◌, Ok, IfOk, IfErr};
ghost use Rattle.query_tree.specs.Views.{query_of};
ghost use Rattle.query_types.specs.Planned.{planned_in};
ghost use Rattle.group_planning.specs.Subquery.{subquery_plan_of};
ghost use Rattle.column_kinds.specs.Judged.{table_of};
ghost use Rattle.sampled_run.specs.Plans.{IsFaultOf};
ghost use Rattle.list_run.specs.Made.{IsMade, IsUnplanned};

use crate::list_maker::ListMaker;
use crate::{Collector, Gathered};
use column_kinds::{Judged, Maker, Unmade, table_of};
use group_planning::plan_subquery;
use lp_time::Pattern;
use query_tree::Query;
use sampled_run::{Moment, unplanned};
use sampled_table::SampledPicker;
use std::alloc::Global;

// The plan over the columns that the logs tell, as a picker.
fn picker_over<'a>(
    alloc: Global,
    pattern: &'a Pattern,
    moment: Moment,
    query: &Query,
    told: Judged,
) -> Result<SampledPicker<'a>, Unmade>
    ensures planned { IfOk result (λ picker. subquery_plan_of (table_of told) moment.seconds (query_of query.now) ≡ Ok (planned_in picker.ready.plan)) }
    ensures told { IfOk result (λ picker. picker.told ≡ told) }
    ensures pattern { IfOk result (λ picker. picker.pattern.now ≡ pattern.now) }
    ensures fault { IfErr result (IsFaultOf (subquery_plan_of (table_of told) moment.seconds (query_of query.now))) }
{
    let Ok(table) = table_of(alloc, &told) else {
        return Err(Unmade::Memory);
    };
    match plan_subquery(alloc, query, &table, moment.seconds) {
        Ok(plan) => match SampledPicker::new(alloc, plan, pattern, told) {
            Ok(picker) => Ok(picker),
            Err(_) => Err(Unmade::Memory),
        },
        Err(fault) => Err(unplanned(fault)),
    }
}

impl<'a, S> Maker<Collector<SampledPicker<'a>>, Gathered> for ListMaker<'a, S> {
    ghost makes = { λ maker told collector. IsMade maker told collector };

    ghost refuses = { λ maker told fault. IsUnplanned maker told fault };

    fn make(self, alloc: Global, told: Judged) -> Result<Collector<SampledPicker<'a>>, Unmade> {
        let ListMaker {
            pattern,
            moment,
            query,
            set: _,
        } = self;
        match picker_over(alloc, pattern, moment, query, told) {
            Ok(picker) => Ok(Collector::new(alloc, picker)),
            Err(unmade) => Err(unmade),
        }
    }
}
