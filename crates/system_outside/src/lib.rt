//! The system as the outside: its files as logs and as a disk, its streams as an input and an output. To the program this
//! crate promises the clauses of the traits of `lp_outside`: a call fails only where the count of faults rises, and the
//! bounds on lengths and places hold. Of what files and streams hold the system tells a proof nothing; that is tested on
//! real files. Nothing but the program and tests stands on this crate.
#![tactic(auto)]

mod file_disk;
mod file_logs;
mod folders;
mod kept;
mod std_sink;
mod std_source;

pub use file_disk::FileDisk;
pub use file_logs::FileLogs;
pub use std_sink::StdSink;
pub use std_source::StdSource;
