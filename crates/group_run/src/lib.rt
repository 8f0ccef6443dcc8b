//! A grouped plan over the records of logs.
//!
//! To the crate above: [`run_groups`] puts exactly the rows that a grouped plan makes of the records of spans, read in a format,
//! joined in order: `specs::Rows` says which; `Stops` of row_output says what a refusal leaves.
#![tactic(auto)]

mod formats;
mod running;
mod spans;

pub use formats::run_groups;
