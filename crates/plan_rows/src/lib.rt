//! A plan as a picker of rows: a record's fields are read into the values of the table's row, and the plan makes of them an
//! output row or nothing.
//!
//! To the crate above: [`PlanPicker`] picks exactly what `specs::Picks` says of the record's whole row, though it reads
//! only the columns that WHERE asks, and the others that SELECT takes only of the records that WHERE keeps. [`ReadyPlan`]
//! is what any picker of a plan needs: the two parts of its columns, its WHERE and its SELECT.
#![tactic(auto)]

mod parting;
mod picking;
mod ready;
mod row;

pub use parting::{Parts, PlaceList};
pub use picking::{PlanPicker, ReadingList};
pub use ready::ReadyPlan;
pub use row::make_room;
