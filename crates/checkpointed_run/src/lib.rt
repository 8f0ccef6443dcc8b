//! A run with a checkpoint, between two settled states of a ledger.
//!
//! To the crate above: [`run_over_ledger`], a run over the logs behind FROM from where the runs of a ledger left them, which is
//! a step of any world in which it may run, from any earlier moment on (`specs/Steps`); in it [`commit_run`], a run over spans
//! between two settled states, and [`stage_run`], a run up to its gate behind its subqueries, whose entry has its form
//! (`proofs/Formed`) and may come next (`proofs/Next`).
#![tactic(auto)]

mod fitting;
mod giving;
mod over;
mod running;
mod staging;

pub use over::{LedgerStop, run_over_ledger};
pub use run_entry::{
    Ran, RunFault, SubqueryFault, execute, is_standard, output_of, reads_stdin, run_subqueries,
};
pub use running::{RunStop, commit_run};
pub use staging::{StagedRun, stage_run};
