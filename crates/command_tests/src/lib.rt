//! The tests of the command over objects in memory.
//!
//! Worked runs at a moment that is known, and what no case of the program can show: logs, disks, outputs and messages that fail
//! at each call, and clocks of other years. Runs with a checkpoint stand in `checkpoint_tests`.
//! They stand here, so that no crate with proofs is proved once more with its tests.
#![tactic(auto)]

#[cfg(test)]
mod files;
#[cfg(test)]
mod input_stream;
#[cfg(test)]
mod messages;
#[cfg(test)]
mod outside;
#[cfg(test)]
mod query_files;
#[cfg(test)]
mod rows;
#[cfg(test)]
mod runs;
#[cfg(test)]
mod worked_rows;
