//! A plan over the records of logs.
//!
//! To the crate above: [`run_plan`] puts exactly the rows that a plan makes of the records of spans, read in a format, joined in
//! order; `Stops` of row_output says what a refusal leaves.
#![tactic(auto)]

mod formats;
mod running;

pub use formats::run_plan;
pub use running::make_picker;
