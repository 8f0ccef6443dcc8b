//! A query over spans of logs, to a stage.
//!
//! To the crate above: [`execute`] writes exactly the text of the query's rows over the records of the spans, in order, or
//! answers the typing fault of the query; after a refusal the stage has the front of the text. Where unended lines wait, it
//! tells what it took of each span. [`log_format`] tells how logs are read, in the format that [`input_of`] tells.
#![tactic(auto)]

mod built;
mod carrying;
mod errors;
mod executing;
mod fault;
mod formats;
mod outputs;
mod planning;
mod sampled;
mod sampling;
mod tabled;
mod texts;

pub use built::reads_stdin;
pub use executing::execute;
pub use fault::{Ran, RunFault};
pub use formats::{LogFormat, input_of, log_format};
pub use outputs::is_standard;
pub use texts::output_of;
