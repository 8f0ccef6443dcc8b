//! The values of a plan in a row: whether WHERE keeps the row, and what SELECT makes of it.
//!
//! To the crate above: [`passes`] tells exactly whether the condition's three-valued truth is Yes, and [`select_row`] makes
//! exactly the values of the output columns. What stands in the row or in the plan isn't copied to compare, and what is
//! selected for the last time is moved out of the row. A law ties the test of LIKE to the relation of `text_functions`.
#![tactic(auto)]

mod conditions;
mod laws;
mod seen;
mod selecting;
mod settling;
mod values;

pub use conditions::passes;
pub use laws::like_tells_likeness;
pub use selecting::{LastUses, last_uses, select_row};
pub use settling::settled;
