//! A grouped query over CSV or TSV logs, whose columns the logs tell.
//!
//! To the crate above: [`run_sampled_groups`] puts exactly the rows that the query makes of the groups of the spans' records, over the
//! table that these tell, or answers the query's typing fault, and then nothing is written; `Stops` of row_output says what any
//! other refusal leaves. [`GroupTaker`] opens the output of a name without stars before it gathers the first record, so that a
//! name that can't be an output is told before a line behind the sample; the groups' rows are put once the last record is taken.
#![tactic(auto)]

mod ending;
mod formats;
mod group_maker;
mod group_taker;
mod making;
mod opening;
mod running;
mod taking;

pub use formats::run_sampled_groups;
pub use group_maker::GroupMaker;
pub use group_taker::GroupTaker;
