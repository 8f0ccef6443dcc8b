//! Tests of kept places, over a disk in memory: what a ledger keeps of each log, how a standing is written, and what a run
//! reads of the logs behind FROM.
#![tactic(auto)]

#[cfg(test)]
mod entries;
#[cfg(test)]
mod loads;
#[cfg(test)]
mod runs;
#[cfg(test)]
mod standings;
