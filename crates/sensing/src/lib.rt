//! What the expressions and conditions of a query mean, where aliases are in force and aggregates may stand or not.
//!
//! To the crate above: [`sensed`] answers exactly the sense that `specs::Sensing` gives an expression over a table, or exactly its
//! first fault from the left, with its place; [`maybe_checked`] answers the same of WHERE or HAVING, by `specs::Checked`.
//! A [`SenseAlias`] holds what its expression means, or its fault, both where aggregates may stand and where they may not.
#![tactic(auto)]

mod aggregates;
mod alias;
mod calls;
mod checking;
mod fitting;
mod sensing;

pub use alias::SenseAlias;
pub use checking::maybe_checked;
pub use sensing::sensed;
