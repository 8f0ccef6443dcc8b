//! The plan of a grouped query: what it asks of each record, which groups, and what it asks of each group.
//!
//! To the crates above: [`plan_groups`] answers exactly the plan that `specs::Groups` gives a query and a table, or exactly the
//! first fault of its clauses, with its place. [`is_grouped`] tells which queries have groups.
//! [`plan_subquery`] answers the plan that `specs::Subquery` gives a subquery, in which aggregates and GROUPING are faults.
#![tactic(auto)]

mod clauses;
mod planning;
mod selecting;
mod subquery;

pub use judging::is_grouped;
pub use planning::plan_groups;
pub use seating::GroupPlan;
pub use subquery::plan_subquery;
