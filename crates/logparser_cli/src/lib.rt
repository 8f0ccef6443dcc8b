//! The command: words to a run, and a run to its status.
//!
//! To the program: [`run`] does all that the words ask for, over any logs, disk, input and outputs, and its contract says
//! what it writes at each status.
#![tactic(auto)]

mod listing;
mod preparing;
mod running;
mod template;
mod writing;

pub use reports::Status;
pub use running::run;
