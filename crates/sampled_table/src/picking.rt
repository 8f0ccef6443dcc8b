// A plan over sampled columns as a picker.
ghost use Rattle.std.specs.Prelude.{◌≡◌, ◌+◌, ◌≤◌, ◌<◌, ◌^◌, length, option_map, IfOk, OnOk};
ghost use Rattle.line_input.specs.Taken.{slots_of};
ghost use Rattle.query_types.specs.Conditions.{filter_of};
ghost use Rattle.query_types.specs.Planned.{Covers};
ghost use Rattle.row_engine.specs.Rows.{keeps};
ghost use Rattle.plan_rows.specs.Picks.{Put};
ghost use Rattle.sampled_table.specs.Picks.{row_of, sampled_picks};

use crate::row::read_columns;
use column_kinds::Judged;
use line_input::{Columns, Fields};
use lp_outside::Name;
use lp_time::Pattern;
use lp_values::ValueList;
use plan_rows::{ReadyPlan, make_room};
use query_run::Picker;
use query_types::Plan;
use std::alloc::{AllocError, Global};

/// Makes of each record the output row of a plan over a run's columns.
#[derive(Drop)]
pub struct SampledPicker<'a> {
    pub ready: ReadyPlan,
    pub pattern: &'a Pattern,
    pub told: Judged,
    ghost fits: { length told.columns + 2 ≤ length ready.plan.used },
}

impl<'a> SampledPicker<'a> {
    /// The picker of a plan, for records of a run with these columns, whose times are read by a pattern.
    pub fn new(
        alloc: Global,
        plan: Plan,
        pattern: &'a Pattern,
        told: Judged,
    ) -> Result<SampledPicker<'a>, AllocError>
        requires covers { Covers plan.used plan.items (option_map filter_of plan.condition) }
        requires fits { length told.columns + 2 ≤ length plan.used }
        ensures plan { IfOk result (λ picker. picker.ready.plan ≡ plan) }
        ensures pattern { IfOk result (λ picker. picker.pattern.now ≡ pattern.now) }
        ensures told { IfOk result (λ picker. picker.told ≡ told) }
    {
        let ready = ReadyPlan::new(alloc, plan)?;
        Ok(SampledPicker {
            ready,
            pattern,
            told,
        })
    }
}

impl<'a> SampledPicker<'a> {
    // Whether WHERE keeps a record, of which the columns that WHERE asks are read into `values`.
    fn keeps(
        &self,
        alloc: Global,
        identity: &Name,
        number: u64,
        columns: &Option<Columns>,
        line: &[u8],
        fields: &Fields,
        values: &mut ValueList,
    ) -> Result<bool, AllocError>
        requires number { number < 2 ^ 63 }
        requires room { length values.old ≡ length self.now.ready.plan.used }
        ensures read { OnOk result (Put self.now.ready.columns.asked (row_of self.now.pattern.now self.now.told (record { identity = identity.now; row = record { number = number; slots = slots_of line.now fields.now; columns = columns.now } })) values.old values.new) }
        ensures kept { IfOk result (λ kept. kept ≡ keeps (option_map filter_of self.now.ready.plan.condition) (row_of self.now.pattern.now self.now.told (record { identity = identity.now; row = record { number = number; slots = slots_of line.now fields.now; columns = columns.now } }))) }
    {
        read_columns(
            alloc,
            &self.ready.columns.asked,
            self.pattern,
            &self.told,
            identity,
            number,
            columns,
            line,
            fields,
            values,
        )?;
        let is_kept = self.ready.keeps(alloc, values)?;
        Ok(is_kept)
    }
}

impl<'a> Picker for SampledPicker<'a> {
    ghost picks = { λ s. sampled_picks s.pattern.now s.told s.ready.plan.items (option_map filter_of s.ready.plan.condition) };

    fn gives(
        &self,
        alloc: Global,
        identity: &Name,
        number: u64,
        columns: &Option<Columns>,
        line: &[u8],
        fields: &Fields,
        values: &mut ValueList,
    ) -> Result<bool, AllocError> {
        make_room(values, self.ready.plan.used.len())?;
        self.keeps(alloc, identity, number, columns, line, fields, values)
    }

    fn pick(
        &self,
        alloc: Global,
        identity: &Name,
        number: u64,
        columns: &Option<Columns>,
        line: &[u8],
        fields: &Fields,
        values: &mut ValueList,
        row: &mut ValueList,
    ) -> Result<bool, AllocError> {
        make_room(values, self.ready.plan.used.len())?;
        let is_kept = self.keeps(alloc, identity, number, columns, line, fields, values)?;
        if !is_kept {
            return Ok(false);
        }
        read_columns(
            alloc,
            &self.ready.columns.rest,
            self.pattern,
            &self.told,
            identity,
            number,
            columns,
            line,
            fields,
            values,
        )?;
        self.ready.select(alloc, values, row)?;
        Ok(true)
    }
}
