// A plan as a picker.
ghost use Rattle.std.specs.Prelude.{◌≡◌, ◌+◌, ◌≤◌, ◌<◌, ◌^◌, ◌∷◌, length, option_map, pos, IfOk, OnOk};
ghost use Rattle.line_input.specs.Taken.{slots_of};
ghost use Rattle.lp_values.specs.declared.value.Value.TheVariants as V;
ghost use Rattle.query_types.specs.Conditions.{filter_of};
ghost use Rattle.query_types.specs.Planned.{Covers};
ghost use Rattle.row_engine.specs.Rows.{keeps};
ghost use Rattle.plan_rows.specs.Picks.{Put, fields_read, plan_picks};

use crate::ReadyPlan;
use crate::row::{make_room, read_columns};
use line_input::{Columns, Fields};
use lp_outside::Name;
use lp_values::{ListOf, ValueList};
use query_run::Picker;
use query_types::Plan;
use slot_reading::SlotReading;
use std::alloc::{AllocError, Global};

/// How the fields of a format are read, in the order of its table behind the log's name and the number.
pub type ReadingList = ListOf<SlotReading>;

/// Makes of each record the output row of a plan.
#[derive(Drop)]
pub struct PlanPicker {
    pub ready: ReadyPlan,
    pub readings: ReadingList,
    ghost fits: { length readings + 2 ≤ length ready.plan.used },
}

impl PlanPicker {
    /// The picker of a plan, for records whose fields are read so.
    pub fn new(alloc: Global, plan: Plan, readings: ReadingList) -> Result<PlanPicker, AllocError>
        requires covers { Covers plan.used plan.items (option_map filter_of plan.condition) }
        requires fits { length readings + 2 ≤ length plan.used }
        ensures plan { IfOk result (λ picker. picker.ready.plan ≡ plan) }
        ensures readings { IfOk result (λ picker. picker.readings ≡ readings) }
    {
        let ready = ReadyPlan::new(alloc, plan)?;
        Ok(PlanPicker { ready, readings })
    }
}

impl PlanPicker {
    // Whether WHERE keeps a record, of which the columns that WHERE asks are read into `values`.
    fn keeps(
        &self,
        alloc: Global,
        identity: &Name,
        number: u64,
        line: &[u8],
        fields: &Fields,
        values: &mut ValueList,
    ) -> Result<bool, AllocError>
        requires number { number < 2 ^ 63 }
        requires room { length values.old ≡ length self.now.ready.plan.used }
        ensures read { OnOk result (Put self.now.ready.columns.asked (V.Text identity.now ∷ V.Int (pos number) ∷ fields_read self.now.readings (slots_of line.now fields.now) 0) values.old values.new) }
        ensures kept { IfOk result (λ kept. kept ≡ keeps (option_map filter_of self.now.ready.plan.condition) (V.Text identity.now ∷ V.Int (pos number) ∷ fields_read self.now.readings (slots_of line.now fields.now) 0)) }
    {
        read_columns(
            alloc,
            &self.ready.columns.asked,
            &self.readings,
            identity,
            number,
            line,
            fields,
            values,
        )?;
        let is_kept = self.ready.keeps(alloc, values)?;
        Ok(is_kept)
    }
}

impl Picker for PlanPicker {
    ghost picks = { λ s. plan_picks s.readings s.ready.plan.items (option_map filter_of s.ready.plan.condition) };

    fn gives(
        &self,
        alloc: Global,
        identity: &Name,
        number: u64,
        _columns: &Option<Columns>,
        line: &[u8],
        fields: &Fields,
        values: &mut ValueList,
    ) -> Result<bool, AllocError> {
        make_room(values, self.ready.plan.used.len())?;
        self.keeps(alloc, identity, number, line, fields, values)
    }

    fn pick(
        &self,
        alloc: Global,
        identity: &Name,
        number: u64,
        _columns: &Option<Columns>,
        line: &[u8],
        fields: &Fields,
        values: &mut ValueList,
        row: &mut ValueList,
    ) -> Result<bool, AllocError> {
        make_room(values, self.ready.plan.used.len())?;
        let is_kept = self.keeps(alloc, identity, number, line, fields, values)?;
        if !is_kept {
            return Ok(false);
        }
        read_columns(
            alloc,
            &self.ready.columns.rest,
            &self.readings,
            identity,
            number,
            line,
            fields,
            values,
        )?;
        self.ready.select(alloc, values, row)?;
        Ok(true)
    }
}
