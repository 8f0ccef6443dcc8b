//! Standard input as a log of its own.
//!
//! To the crates above: [`InputLog`] gives a stream to the loop over logs as one log, which is read once and from its front on,
//! whatever it is called; [`input_spans`] is the span that a run reads of it. A stream that has given 2^40 bytes gives no more,
//! and [`InputLog::is_too_long`] tells so. `specs` says which files a stream is.
#![tactic(auto)]

mod gone;
mod log;
mod spans;

pub use log::InputLog;
pub use spans::input_spans;
