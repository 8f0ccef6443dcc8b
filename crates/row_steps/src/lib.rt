//! The steps of a grouped query, from the records of logs to output rows.
//!
//! To the crate above: [`GroupRows`] is the taker that adds the rows of a picker, each cut into keys and arguments, to the
//! groups of a query, and writes nothing. [`finish_groups`] puts exactly the rows that the group's plan makes of these groups,
//! HAVING and SELECT, and ends the outputs. `specs::Grouped` says what the output rows are, over whole lists, and `Holds` and `Stops` of row_output what stands in the outputs.
#![tactic(auto)]

mod cutting;
mod finishing;
mod gathering;
mod group_row;
mod handing;
mod taking;

pub use finishing::finish_groups;
pub use gathering::{GroupRows, plan_groups};
