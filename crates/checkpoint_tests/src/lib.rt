//! The tests of runs with a checkpoint over objects in memory: what the headline says of any list of events, on lists that are
//! run. Logs grow and are rotated, and runs are stopped at each call of the disk, fail there, and are repeated.
//! They stand here, so that they are proved beside the other tests of the command.
#![tactic(auto)]

#[cfg(test)]
mod checkpoints;
