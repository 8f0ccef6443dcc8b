//! The names of a query's output columns, and its aliases.
//!
//! To the crates above: [`item_names`] answers exactly the names that `query_types::specs::Names` gives the items of a list,
//! and [`column_names`] those of a table's columns; [`add_aliases`] adds what AS names, with what it stands for or its fault.
#![tactic(auto)]

mod aliases;
mod naming;
mod spelling;

pub use aliases::add_aliases;
pub use naming::{column_names, item_names};
