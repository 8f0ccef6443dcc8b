//! Which queries are grouped, and whether what a query asks of its groups is there in each of them.
//!
//! To the crate above: [`is_grouped`] tells exactly which queries have groups, by `specs::Asked`. [`judged`] answers exactly what
//! `specs::Judged` gives clauses whose meanings are known: the first field that may not stand where it does, GROUPING of what is no
//! key, or what ORDER BY asks and SELECT hasn't, with its place; or the places of the items that ORDER BY names.
//! [`all_misplaced`] and [`maybe_misplaced`] tell the first that is misplaced in a list and in a condition alone.
#![tactic(auto)]

mod asking;
mod judging;

pub use asking::is_grouped;
pub use judging::{all_misplaced, judged, maybe_misplaced};
