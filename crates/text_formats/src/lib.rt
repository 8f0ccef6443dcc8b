//! Output formats whose text is lines of fields, and tables: the texts of TSV, W3C and NAT.
//!
//! Each is a `Shape` of `output_formats`, exact against the text of its format over all rows, which `specs` has. After each
//! row what was appended is the whole text so far; of [`Nat`], which holds a block's rows until it is full, the text of
//! all complete blocks.
#![tactic(auto)]

mod cells;
mod fields;
mod line;
mod nat;
mod style;
mod table;
mod tsv;
mod w3c;

pub use nat::Nat;
pub use style::Style;
pub use tsv::TsvOut;
pub use w3c::W3cOut;
