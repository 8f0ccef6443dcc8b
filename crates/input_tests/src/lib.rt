//! The tests of the input formats: their lines and their columns.
//!
//! Lines and columns that no case of the program shows, each format's reader through the bound that all share.
//! They stand here, so that no crate with proofs is proved once more with its tests.
#![tactic(auto)]

#[cfg(test)]
mod columns;
#[cfg(test)]
mod lines;
