//! Fields of a log as values.
//!
//! A crate above may rely on the exact value of each field: [`read_slot`] answers it for each way in which a column is
//! read, and the functions beside it where the way is known. `specs` has the definitions.
#![tactic(auto)]

mod names;
mod reading;
mod slots;

pub use names::is_same_name;
pub use reading::SlotReading;
pub use slots::{integer_value, read_slot, real_value, stamp_value};
