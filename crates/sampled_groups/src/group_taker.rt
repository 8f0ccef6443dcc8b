// A taker that gathers groups, with the outputs of their rows.
ghost use Rattle.std.specs.Prelude.{◌≡◌};

use row_output::{Refused, RowOutput};
use row_steps::GroupRows;
use sampled_table::SampledPicker;

/// Gathers the groups of records. The output of a name without stars is opened before the first of them is gathered; no row is
/// put until the groups are whole.
#[derive(Drop)]
pub struct GroupTaker<'a> {
    pub rows: GroupRows<SampledPicker<'a>>,
    pub output: RowOutput,
    /// Whether an output of a name without stars was opened.
    pub opened: bool,
    /// Why an output was refused.
    pub refused: Option<Refused>,
    ghost none: { output.put ≡ 0 },
}
