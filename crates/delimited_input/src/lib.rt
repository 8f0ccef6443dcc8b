//! Logs of fields that one byte parts: CSV and TSV.
//!
//! A crate above may rely on what `Delimited` makes of each line under the columns in force, and on the columns that a
//! line leaves in force. `specs` has the definitions.
#![tactic(auto)]

mod broken;
mod cut;
mod folded;
mod header;
mod laws;
mod options;
mod piece;
mod reader;
mod row;
mod sampler;
mod tally;
mod values;

pub use laws::{separators_part_fields, written_fields_are_read};
pub use options::{BadOption, DelimitedOptions};
pub use reader::Delimited;
pub use sampler::{KindList, KindSampler};
pub use values::read_field;
