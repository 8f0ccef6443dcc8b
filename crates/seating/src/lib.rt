//! What the clauses of a grouped query ask of each record, and of each group.
//!
//! To the crate above: [`groups_of`] answers exactly the plan that `specs::GroupPlans` gives clauses whose meanings are known: of a
//! table's row the keys and the arguments of the aggregates, under WHERE; which groups; and of a group's row what SELECT and HAVING
//! make of its keys, its aggregates, each once (`specs::Gathered`), and a mark for each key. Each column that is asked of a table's
//! row is told as used.
#![tactic(auto)]

mod gathering;
mod plan;
mod planning;
mod seating;

pub use plan::GroupPlan;
pub use planning::groups_of;
