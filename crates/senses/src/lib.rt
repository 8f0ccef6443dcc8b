//! What expressions, conditions and clauses mean in a query with groups, with the places of their fields, aggregates and GROUPINGs.
//!
//! To the crates above: [`SenseForm`], [`SenseCheck`] and [`SenseClauses`] are these as they lie in memory, and `specs::Senses`,
//! `Checks` and `Clauses` say what they are, less where they lie. [`copied`] makes the same sense again; [`kind_of_sense`] and its
//! like tell exactly the kinds that senses have over a table; [`is_same_sense`] and its like tell exactly which senses are equal
//! by their form, wherever they stand.
#![tactic(auto)]

mod check;
mod clauses;
mod kinds;
mod sameness;
mod sense;

pub use check::SenseCheck;
pub use clauses::SenseClauses;
pub use kinds::{kind_of_case, kind_of_sense, kinds_of_senses};
pub use sameness::{first_same, is_key, is_same_aggregate, is_same_sense};
pub use sense::{SenseForm, SenseList, aggregate, copied, formed, grouping};
