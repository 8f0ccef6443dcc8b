//! The run of a query over logs, in any format of input and output.
//!
//! To the crates above: [`write_spans`] puts exactly the rows that a [`Picker`] makes of the records of spans, in order, and
//! counts them; `Holds` of row_output says what stands in the outputs then, and `Stops` what a refusal leaves. [`Writer`] is the
//! taker that does so, for a loop of another crate.
#![tactic(auto)]

mod executing;
mod fault;
mod picker;
mod putting;
mod writer;
mod writing;

pub use executing::{Counts, Written, ended_by, first_page, new_chunk, stopped_in, write_spans};
pub use fault::WriteFault;
pub use picker::Picker;
pub use writer::Writer;
