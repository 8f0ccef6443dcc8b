//! The tests of the outside: names, files of the machine, and objects in memory.
//!
//! What the machine does with files, which no clause can say, what a crash leaves, and each public call once.
//! They stand here, so that no crate with proofs is proved once more with its tests.
#![tactic(auto)]

#[cfg(test)]
mod calls;
#[cfg(test)]
mod counting;
#[cfg(test)]
mod disk;
#[cfg(test)]
mod files;
#[cfg(test)]
mod memory;
#[cfg(test)]
mod names;
