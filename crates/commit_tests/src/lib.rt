//! Tests of the ledger and of the commit: over a disk in memory a ledger byte for byte, damage at each of its fields, and
//! runs that are stopped at each of their calls; over files of the machine two runs and what a stop leaves to be done.
#![tactic(auto)]

#[cfg(test)]
mod entries;
#[cfg(test)]
mod ledgers;
#[cfg(test)]
mod machine;
#[cfg(test)]
mod runs;
#[cfg(test)]
mod stops;
