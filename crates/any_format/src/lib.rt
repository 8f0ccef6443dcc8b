//! Every output format as one type, so that who writes rows chooses a format once.
//!
//! To the crates above: [`Format`] is a `Shape` whose text is that of the format that it holds, and [`Wanted`] makes as many as
//! are wanted.
#![tactic(auto)]

mod format;
mod wanted;

pub use format::Format;
pub use wanted::Wanted;
