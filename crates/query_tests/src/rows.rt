// Rows of tables: what is asked, ` => `, and what is to be told.
use std::process::Abort;

pub(crate) fn asked(row: &str) -> &str {
    match row.split_once(" => ") {
        Some((asked, _wanted)) => asked,
        None => row,
    }
}

fn wanted(row: &str) -> &str {
    match row.split_once(" => ") {
        Some((_asked, wanted)) => wanted,
        None => "no answer",
    }
}

/// Ends the test where something else was told than a row wants.
pub(crate) fn check(rt: &impl Abort, row: &str, told: &str) {
    assert!(rt; told == wanted(row), "{row}\n{told}");
}
