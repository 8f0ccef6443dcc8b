//! What a subquery gives.
//!
//! To the crate above: [`gather_plan`] answers exactly the set of the values of a plan's rows over the records of spans, read in a
//! format with a table, and [`gather_sampled`] that of a subquery over CSV or TSV logs, with its kind, or its typing fault. Beside
//! the set stands what of the values is to be kept in order ([`Keep`]); [`listed_alike`] is the law that the set is also that of the
//! list which is kept. Nothing is written. [`Collector`] is the taker that gathers the values of rows ([`Gathered`]).
#![tactic(auto)]

mod adding;
mod collecting;
mod collector;
mod ending;
mod fault;
mod formats;
mod gathered;
mod given;
mod keep;
mod laws;
mod list_maker;
mod making;
mod running;
mod sampled_formats;
mod sampling;

pub use collector::Collector;
pub use fault::ListFault;
pub use formats::gather_plan;
pub use gathered::Gathered;
pub use given::{GivenValues, SampledValues};
pub use keep::Keep;
pub use laws::listed_alike;
pub use sampled_formats::gather_sampled;
