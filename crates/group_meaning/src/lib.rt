//! What a grouped plan makes of records: definitions alone, for the two crates that run one.
//!
//! To the crates above: `specs::Rows` has `rows_of_groups`, the output rows of a grouped plan over records.
#![tactic(auto)]
