//! The plan of a query over rows: what its clauses mean over a table, in the words of query_types.
//!
//! To the crates above: [`plan`] answers exactly the plan that `query_types::specs::Planned` gives a query and a table, or
//! exactly the first fault of its clauses, with its place. [`is_built`] tells which queries go over rows; those with groups are
//! group_planning's.
#![tactic(auto)]

mod built;
mod conditions;
mod planning;
mod selecting;

pub use built::is_built;
pub use planning::{has_too_few, plan};
