//! A query over CSV or TSV logs, whose columns the logs tell.
//!
//! To the crate above: [`run_sampled`] puts exactly the query's rows over the spans' records, over the table that these tell, or
//! answers the query's typing fault, and then nothing is written; `Stops` of row_output says what any other refusal leaves.
//! [`RowMaker`] makes the writer of these rows, once a sample has told the columns.
#![tactic(auto)]

mod ending;
mod fault;
mod finishing;
mod formats;
mod making;
mod moment;
mod row_maker;
mod running;

pub use fault::SampleFault;
pub use finishing::output_of_rows;
pub use formats::run_sampled;
pub use making::unplanned;
pub use moment::Moment;
pub use row_maker::RowMaker;
