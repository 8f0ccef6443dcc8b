//! The rows of a query to its outputs.
//!
//! To the crates above: a [`RowOutput`] takes rows one by one and writes what DISTINCT, ORDER BY and TOP leave of them, as text
//! in a format, to standard output, or to the files that their first values name. `Holds` of specs says what stands there then,
//! `Stops` what a refusal leaves, and `IsRefused` when an output is refused.
#![tactic(auto)]

mod fault;
mod file_output;
mod files;
mod into;
mod kept;
mod moving;
mod order;
mod row_output;
mod sink;

pub use fault::{OutputFault, Refused};
pub use into::Into;
pub use kept::RowOutput;
pub use order::Order;
pub use row_output::Finished;
