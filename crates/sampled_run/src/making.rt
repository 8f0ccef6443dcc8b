// The writer of a query's rows, made once the logs have told their columns.
ghost use Rattle.std.specs.Prelude.{◌≡◌, true, false, Ok, None, IfOk, IfErr};
ghost use Rattle.any_format.specs.Wanted.{IsMoment, wanted_text};
ghost use Rattle.query_tree.specs.Views.{query_of};
ghost use Rattle.query_types.specs.Built.{is_built};
ghost use Rattle.query_types.specs.Planned.{plan_of, planned_in};
ghost use Rattle.column_kinds.specs.Judged.{table_of};
ghost use Rattle.row_output.specs.Kept.{IsNew, asked_of};
ghost use Rattle.row_output.specs.Sinks.{IsUnplaced, files_for};
ghost use Rattle.sampled_run.specs.Finishes.{asked_by};
ghost use Rattle.sampled_run.specs.Made.{IsMade, IsUnplanned};
ghost use Rattle.sampled_run.specs.Plans.{IsFaultOf, unplanned};

use crate::finishing::output_of_rows;
use crate::{Moment, RowMaker};
use any_format::Wanted;
use column_kinds::{Judged, Maker, Unmade, table_of};
use lp_outside::Stage;
use lp_time::Pattern;
use query_run::Writer;
use query_tree::Query;
use query_types::TypeFault;
use row_output::Into;
use row_planning::plan;
use sampled_table::SampledPicker;
use std::alloc::Global;

/// Why a plan isn't made.
pub fn unplanned(fault: TypeFault) -> Unmade
    ensures { result ≡ unplanned fault }
{
    match fault {
        TypeFault::Memory => Unmade::Memory,
        fault => Unmade::Refused(fault),
    }
}

// The plan over the columns that the logs tell, as a picker.
fn picker_over<'a>(
    alloc: Global,
    pattern: &'a Pattern,
    moment: Moment,
    query: &Query,
    told: Judged,
) -> Result<SampledPicker<'a>, Unmade>
    requires { is_built (query_of query.now) ≡ true }
    ensures planned { IfOk result (λ picker. plan_of (table_of told) moment.seconds (query_of query.now) ≡ Ok (planned_in picker.ready.plan)) }
    ensures told { IfOk result (λ picker. picker.told ≡ told) }
    ensures pattern { IfOk result (λ picker. picker.pattern.now ≡ pattern.now) }
    ensures fault { IfErr result (IsFaultOf (plan_of (table_of told) moment.seconds (query_of query.now))) }
{
    let Ok(table) = table_of(alloc, &told) else {
        return Err(Unmade::Memory);
    };
    match plan(alloc, query, &table, moment.seconds) {
        Ok(plan) => match SampledPicker::new(alloc, plan, pattern, told) {
            Ok(picker) => Ok(picker),
            Err(_) => Err(Unmade::Memory),
        },
        Err(fault) => Err(unplanned(fault)),
    }
}

// The writer with this picker, before its first row.
fn writer_over<'a>(
    alloc: Global,
    wanted: Wanted,
    moment: Moment,
    into: Into,
    query: &Query,
    picker: SampledPicker<'a>,
) -> Result<Writer<SampledPicker<'a>>, Unmade>
    requires moment { IsMoment moment.seconds }
    requires none { IsUnplaced into }
    ensures asked { IfOk result (λ writer. asked_of writer.output ≡ asked_by (files_for into) (wanted_text wanted moment.seconds) (query_of query.now) (planned_in picker.entry.ready.plan)) }
    ensures new { IfOk result (λ writer. IsNew writer.output) }
    ensures picker { IfOk result (λ writer. writer.picker ≡ picker.entry) }
    ensures taken { IfOk result (λ writer. writer.taken ≡ 0) }
    ensures refused { IfOk result (λ writer. writer.refused ≡ None) }
    ensures opened { IfOk result (λ writer. writer.opened ≡ false) }
    ensures fault { IfErr result (λ unmade. unmade ≡ Unmade.Memory) }
{
    match output_of_rows(alloc, wanted, moment, into, query, &picker.ready.plan) {
        Ok(output) => Ok(Writer::new(alloc, output, picker)),
        Err(_) => {
            drop(picker);
            Err(Unmade::Memory)
        }
    }
}

impl<'a, G: Stage> Maker<Writer<SampledPicker<'a>>, G> for RowMaker<'a, G> {
    ghost makes = { λ maker told writer. IsMade maker told writer };

    ghost refuses = { λ maker told fault. IsUnplanned maker told fault };

    fn make(self, alloc: Global, told: Judged) -> Result<Writer<SampledPicker<'a>>, Unmade> {
        let RowMaker {
            pattern,
            moment,
            query,
            wanted,
            into,
            stage: _,
        } = self;
        match picker_over(alloc, pattern, moment, query, told) {
            Ok(picker) => writer_over(alloc, wanted, moment, into, query, picker),
            Err(unmade) => {
                drop(wanted);
                drop(into);
                Err(unmade)
            }
        }
    }
}
