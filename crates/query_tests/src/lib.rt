//! The tests of queries and of the words of the command line.
//!
//! Tokens, clauses and options of which a case of the program shows the answer at most, and not the tree.
//! They stand here, so that no crate with proofs is proved once more with its tests.
#![tactic(auto)]

#[cfg(test)]
mod grouping;
#[cfg(test)]
mod listing;
#[cfg(test)]
mod queries;
#[cfg(test)]
mod rows;
#[cfg(test)]
mod subquery_plans;
#[cfg(test)]
mod tokens;
#[cfg(test)]
mod words;
