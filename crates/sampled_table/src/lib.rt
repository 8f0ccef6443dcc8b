//! The rows of records under the columns that CSV and TSV logs tell.
//!
//! To the crate above: [`SampledPicker`] picks exactly what `specs::Picks` says of a record's whole row, though it reads only the
//! columns that the plan uses. A record of another log than the first is read by name.
#![tactic(auto)]

mod picking;
mod row;

pub use picking::SampledPicker;
