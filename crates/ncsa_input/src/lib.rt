//! Logs in the common and combined log formats of the NCSA.
//!
//! A crate above may rely on what `Ncsa` makes of each line, on the laws that say which lines are rows, by their form, and on
//! the table of fields: its names, in order, and how each is read. `specs` has the definitions.
#![tactic(auto)]

mod laws;
mod pieces;
mod reader;
mod row;
mod shape;
mod table;

pub use laws::{
    formed_lines_are_read, lines_are_parted_in_one_way, lines_that_are_read_are_formed,
    other_lines_are_passed_or_bad,
};
pub use reader::Ncsa;
pub use shape::Shape;
pub use table::{ncsa_names, ncsa_reading};
