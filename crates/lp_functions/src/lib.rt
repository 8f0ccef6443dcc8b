//! The functions of the query language: their names, which arguments they take, and what they give.
//!
//! A crate above may rely on the exact meaning of each call: which function a name is, the kind of a function's value over
//! arguments of such kinds, and the value of each function over each list of values. `specs` has the definitions.
#![tactic(auto)]

mod addresses;
mod applying;
mod choices;
mod counting;
mod cutting;
mod function;
mod laws;
mod making;
mod moments;
mod numbers;
mod place;
mod table;
mod texts;
mod tokens;
mod urls;

pub use applying::{apply, apply_to_one, apply_to_three, apply_to_two};
pub use function::Function;
pub use laws::{kind_is_told, written_is_text};
pub use moments::{read_as, to_date, to_time};
pub use texts::write_as;
