//! The subqueries of a query.
//!
//! To the crate above: [`run_subqueries`] runs each IN's subquery over its own logs, in order, and answers what they gave, by which
//! `Query::fill` makes the query one without subqueries; or why the first of them that is refused gives nothing. With a checkpoint
//! the last line of a log waits for its LF, no log may be the ledger or the stage, and the list of the values that each subquery
//! gave is kept. `specs::Giving` says what a subquery gives, `Refusing` why it doesn't. [`list_spans`] lists the logs of FROM names
//! as spans, each whole.
#![tactic(auto)]

mod clash;
mod fault;
mod given;
mod giving;
mod listing;
mod running;
mod values;

pub use execution::{Ran, RunFault, execute, input_of, is_standard, output_of, reads_stdin};
pub use fault::SubqueryFault;
pub use given::SubqueryValues;
pub use listing::list_spans;
pub use running::run_subqueries;
