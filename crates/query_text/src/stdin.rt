// STDIN as a name.
ghost use Rattle.std.specs.Prelude.{◌≡◌};
ghost use Rattle.query_tree.specs.Views.{placed_all, query_of, queries_in};
ghost use Rattle.query_text.specs.Stdin.{is_stdin, stdin_among, stdin_beside, stdin_within, misplaced};

use query_tree::{PlacedList, Query, QueryList};

/// Whether a name is STDIN, whatever its case.
pub fn is_stdin(name: &str) -> bool
    ensures { result ≡ is_stdin name.now }
{
    name.eq_ignore_ascii_case("STDIN")
}

// The place of the first STDIN among names.
fn stdin_among(names: &PlacedList) -> Option<u32>
    ensures { result ≡ stdin_among (placed_all names.now) }
{
    for name in &names.items {
        if is_stdin(name.text.as_str()) {
            return Some(name.at);
        }
    }
    None
}

// The same beside another name.
fn stdin_beside(names: &PlacedList) -> Option<u32>
    ensures { result ≡ stdin_beside (placed_all names.now) }
{
    if names.items.len() < 2 {
        return None;
    }
    stdin_among(names)
}

// The place of the first STDIN among the names of queries.
fn stdin_within(queries: &QueryList) -> Option<u32>
    ensures { result ≡ stdin_within (queries_in queries.now) }
{
    for query in &queries.items {
        if let Some(at) = stdin_among(&query.names) {
            return Some(at);
        }
    }
    None
}

/// The place of the first STDIN of a query that can't stand there: beside another name, or in a subquery.
pub fn misplaced(query: &Query) -> Option<u32>
    ensures { result ≡ misplaced (query_of query.now) }
{
    match stdin_beside(&query.names) {
        Some(at) => Some(at),
        None => stdin_within(&query.subqueries),
    }
}
