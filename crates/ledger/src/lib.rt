//! The ledger: what each run keeps, written behind gates and read back. A ledger's bytes hold entries in their form, or break at the first field that doesn't fit, and each call says which.
#![tactic(auto)]

mod checking;
mod entry;
mod fields;
mod heading;
mod input_text;
mod laws;
mod outputs;
mod passing;
mod placing;
mod reader;
mod refused;
mod sizes;
mod spelling;
mod texts;
mod walking;
mod writing;

pub use entry::{Entry, EntrySpan, EntrySpanList, ListValues, Output, OutputList};
pub use input_text::InputText;
pub use laws::{ledgers_are_read_in_one_way, payloads_are_read_in_one_way};
pub use lp_outside::Mark;
pub use outputs::OutputReader;
pub use reader::EntryReader;
pub use refused::{LedgerRefused, Part2, TextRefused};
pub use walking::{End, LastEntry, walk};
pub use writing::{EntryWriter, create};
