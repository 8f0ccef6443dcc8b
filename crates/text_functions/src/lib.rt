//! The functions of the query language that work on texts.
//!
//! A crate above may rely on the exact answer of each: lengths and positions count characters, occurrences are found from
//! one side and don't overlap, and a text that is made has at most as many bytes as were asked for, or there is none.
//! `specs` has the definitions.
#![tactic(auto)]

mod characters;
mod edges;
mod laws;
mod likeness;
mod occurrences;
mod places;
mod replacing;
mod runs;
mod tokens;

pub use edges::{extract_extension, extract_filename, extract_path, ltrim, rtrim, trim};
pub use laws::{last_behind, occurrences_of_characters, one_parting};
pub use likeness::like;
pub use places::{index_of, last_index_of, strcnt, strlen, substr, substr_from};
pub use replacing::{replace_chr, replace_str, strcat, to_lowercase, to_uppercase};
pub use tokens::{extract_prefix, extract_suffix, extract_token, extract_value};
