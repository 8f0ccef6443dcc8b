//! What the program's runs mean, in the words of `run_model`: which words there are, how they say that logs are read, which
//! files a query reaches, and the outputs that it gives over the records of logs. Definitions alone; what `subqueries` and
//! `execution` have for the crates above is passed on, here and in `specs`.
#![tactic(auto)]

pub use subqueries::{
    Ran, RunFault, SubqueryFault, execute, input_of, is_standard, output_of, reads_stdin,
    run_subqueries,
};
