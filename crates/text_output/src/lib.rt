//! One text on its way to one output of a stage.
//!
//! To the crates above: a [`TextOutput`] gives its output exactly the text of the rows that it was given, in pieces of a
//! multiple of 4,096 bytes until its end, and holds back less than it was told to; after a refusal the output has the front of
//! that text. A [`Target`] tells where a text goes and how far it has come, an [`Output`] where a whole one stands.
#![tactic(auto)]

mod fault;
mod putting;
mod target;
mod text_output;

pub use fault::PutFault;
pub use target::{Output, OutputList, Target};
pub use text_output::TextOutput;
