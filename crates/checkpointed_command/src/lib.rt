//! A run with a checkpoint, from its words to its counts.
//!
//! To the crate above: [`run_with_checkpoint`] does the work in its order: it settles the disk, reads the query, and its template,
//! and runs the query over the logs behind FROM. Its contract says which step of the world it takes (`specs/Steps`), and why it
//! comes to no counts (`specs/Refusals`). The parts that a run without a checkpoint does too are here as well: [`find_template`],
//! [`texts_of`], and what each fault is as an answer.
#![tactic(auto)]

mod asking;
mod command;
mod names;
mod settling;
mod statuses;
mod template;

pub use checkpointed_run::{
    Ran, RunFault, SubqueryFault, execute, is_standard, reads_stdin, run_subqueries,
};
pub use command::run_with_checkpoint;
pub use names::texts_of;
pub use statuses::{stopped, unasked, untemplated};
pub use template::{RunTemplate, find_template};
