//! Groups of records by their keys, with aggregates, and the groups of shorter lists of keys above them.
//!
//! After any list of records that were added, `Groups::rows` gives exactly their groups: each list of keys once, in the order
//! in which it first came, each aggregate worked out over the records of these keys, and with rollup the same for each shorter
//! list of keys. `held` is the number of distinct full lists. A refused `add` changes nothing. `specs` has the definitions,
//! over whole lists of records.
#![tactic(auto)]

mod aggregating;
mod changes;
mod column;
mod columns;
mod rolling;
mod rows;
mod table;

pub use table::Groups;
