//! A stage over the files of a disk, for runs that write their outputs at once: an output's text stands in the output's own
//! file, from its base up to its mark.
//!
//! To the crates above this one promises what the trait `Stage` says, over any disk, and besides, that a call for an output
//! changes no other file and no byte below the output's base; and that a text which `write_file` has written is what its file
//! holds behind the bytes that it held. `specs` has the definitions.
#![tactic(auto)]

mod laws;
mod putting;
mod writing;

pub use laws::files_hold_texts;
pub use putting::FileStage;
pub use writing::write_file;
