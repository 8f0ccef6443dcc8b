//! How a run ends, and what it tells of itself.
//!
//! To the crate above: [`Status`], the answer of a run with what it names, and its number as an exit status; and
//! [`write_message`] and [`write_statistics`], which write exactly the line of a refusal and the counts of a run, or the front
//! of them where the output fails. Neither takes memory.
#![tactic(auto)]

mod reason;
mod report;
mod status;

pub use report::{write_message, write_statistics};
pub use status::Status;
