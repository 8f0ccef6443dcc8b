//! The tests of output formats: their texts of rows, worked out by hand, and the faults of templates.
//!
//! They stand here, so that no crate with proofs is proved once more with its tests.
#![tactic(auto)]

#[cfg(test)]
mod formats;
#[cfg(test)]
mod nat;
#[cfg(test)]
mod rows;
#[cfg(test)]
mod separated;
#[cfg(test)]
mod templates;
