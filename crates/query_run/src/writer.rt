// A taker that puts the rows that are kept.
ghost use Rattle.std.specs.Prelude.{◌≤◌};

use lp_values::ValueList;
use row_output::{Refused, RowOutput};

/// Puts the rows that a picker makes.
#[derive(Drop)]
pub struct Writer<P> {
    pub output: RowOutput,
    pub picker: P,
    /// Room for the values of the record at hand.
    pub values: ValueList,
    /// The output row at hand.
    pub row: ValueList,
    /// How many records were taken.
    pub taken: u64,
    /// Whether an output of a name without stars was opened.
    pub opened: bool,
    /// Why an output was refused.
    pub refused: Option<Refused>,
    ghost within: { output.put ≤ taken },
}
