//! The finish of a query's rows: DISTINCT, then ORDER BY with ties in their earlier order, then TOP.
//!
//! `Orderer` takes rows one by one and hands out exactly the rows of the finish of all that it was given. Under TOP n it keeps at
//! most n rows, DISTINCT or not; a row that goes behind n others is let go at once, and `would_drop` tells so before the row is
//! made. A refused `put` changes nothing. Two functions without work carry the laws: rows have one ordering, and of equal rows the
//! first alone is left.
#![tactic(auto)]

mod all_rows;
mod comparing;
mod distinct_rows;
mod first_distinct;
mod first_rows;
mod laws;
mod orderer;
mod rank;

pub use laws::{first_alone, one_ordering};
pub use orderer::Orderer;
