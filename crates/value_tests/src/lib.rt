//! The tests of values, times, slots, texts and functions.
//!
//! Vectors from outside that no case of the program shows, and each public call that allocates once with ample memory.
//! They stand here, so that no crate with proofs is proved once more with its tests.
#![tactic(auto)]

#[cfg(test)]
mod functions;
#[cfg(test)]
mod texts;
#[cfg(test)]
mod times;
#[cfg(test)]
mod values;
