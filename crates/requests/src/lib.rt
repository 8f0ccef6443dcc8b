//! What the words of the command line ask for: the options, the query, which stands in a word or in a file, and the template.
//!
//! To the crate above: [`read_request`] answers exactly the options and the query of the words, with the query's text, or the
//! first refusal in the order of work: of the words, of the query file, of the query. It is made of [`read_spec`], the options,
//! and [`read_query_word`], the query, for a caller that has work between the two. [`read_template`] answers exactly the sections
//! of a template's file, with the bytes that they are of, or the first fault of its bytes.
#![tactic(auto)]

mod fault;
mod file;
mod request;
mod template;
mod text;

pub use fault::{NoTemplate, RequestFault};
pub use request::{Request, WrittenQuery, read_query_word, read_request, read_spec};
pub use template::{WrittenTemplate, read_template};
