//! The entry that a ledger keeps of a run.
//!
//! To the crate above: [`entry_of_run`], the entry of a run that was carried out, and [`input_text`], the text that says how it
//! read its logs. `specs` says what an entry has of a run (`Entries`), and when it may be written (`Forms`).
#![tactic(auto)]

mod entries;
mod inputs;
mod laws;

pub use entries::entry_of_run;
pub use inputs::input_text;
pub use laws::{entries_have_their_form, input_texts_tell_their_format};
pub use program_meaning::{
    Ran, RunFault, SubqueryFault, execute, is_standard, output_of, reads_stdin, run_subqueries,
};
