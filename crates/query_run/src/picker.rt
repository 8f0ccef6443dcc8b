// Which records are kept, and what row is made of them.
ghost use Rattle.std.specs.Prelude.{◌≡◌, ◌<◌, ◌^◌, List, Option, Some, None, IfOk, is_some, if◌then◌else◌};
ghost use Rattle.lp_values.specs.declared.value.Value.{Value};
ghost use Rattle.line_input.specs.Taken.{slots_of};
ghost use Rattle.log_reading.specs.Found.{Found};

use line_input::{Columns, Fields};
use lp_outside::Name;
use lp_values::ValueList;
use std::alloc::{AllocError, Global};

/// What a query makes of one record: an output row, or nothing.
pub trait Picker {
    /// The output row that a record gives, if it gives one.
    ghost picks: { Self → Found → Option (List Value) };

    /// Whether a record gives an output row, which isn't made. `values` is room for the record's own values.
    fn gives(
        &self,
        alloc: Global,
        identity: &Name,
        number: u64,
        columns: &Option<Columns>,
        line: &[u8],
        fields: &Fields,
        values: &mut ValueList,
    ) -> Result<bool, AllocError>
        requires { number < 2 ^ 63 }
        ensures { IfOk result (λ given. given ≡ is_some (picks self.now (record { identity = identity.now; row = record { number = number; slots = slots_of line.now fields.now; columns = columns.now } }))) };

    /// Makes the output row of a record in `row`, and tells whether there is one. `values` is room for the record's own values.
    fn pick(
        &self,
        alloc: Global,
        identity: &Name,
        number: u64,
        columns: &Option<Columns>,
        line: &[u8],
        fields: &Fields,
        values: &mut ValueList,
        row: &mut ValueList,
    ) -> Result<bool, AllocError>
        requires { number < 2 ^ 63 }
        ensures { IfOk result (λ kept. (if kept then Some row.new else None) ≡ picks self.now (record { identity = identity.now; row = record { number = number; slots = slots_of line.now fields.now; columns = columns.now } })) };
}
