//! The outputs of a query whose INTO name has stars.
//!
//! To the crates above this one promises of `Outputs` that a row gets the output that its values name, that outputs are
//! numbered from 0 in the order in which their names first occur, and when a new name is refused, which changes nothing;
//! that the files of a query's rows are so those of `split`, which says them over all rows at once; and that a name that is
//! known takes no memory.
#![tactic(auto)]

mod filling;
mod laws;
mod output_name;
mod outputs;
mod place_fault;

pub use laws::{names_are_of_split, rows_are_those_placed};
pub use outputs::Outputs;
pub use place_fault::PlaceFault;
