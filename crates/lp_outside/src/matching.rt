// Which names a pattern matches.
ghost use Rattle.std.specs.Prelude.{◌≡◌, ◌↔◌, ◌<◌, ◌≤◌, ◌⊎◌, ℕ, List, length, drop, IsTrue, IfOk};
ghost use Rattle.lp_outside.specs.Found.{IsFound};
ghost use Rattle.lp_outside.specs.Matching.{MatchesPart, IsPartStart, Matches};

use crate::{Name, NameList};
use std::alloc::{AllocError, Global};
use std::collections::BTreeSet;

// Where a pattern was found to match a text.
enum Found {
    Here,
    // Not from the text's first byte on, but perhaps from a later one.
    NotHere,
    // Not from any byte on.
    Nowhere,
}

// Whether a pattern's byte, other than `*`, stands for a byte.
fn stands_for(byte: u8, other: u8) -> bool
    ensures { IsTrue result ↔ ((byte ≡ 63) ⊎ (other ≡ byte)) }
{
    byte == b'?' || other == byte
}

// Looks for a pattern at the front of a text. Once a later `*` was reached its answer serves for every place of an
// earlier one, so that each `*` goes through the text once.
fn find(pattern: &[u8], text: &[u8]) -> Found
    ensures { IsFound pattern.now text.now result }
{
    let [byte, rest @ ..] = pattern else {
        return if text.is_empty() {
            Found::Here
        } else {
            Found::NotHere
        };
    };
    if *byte == b'*' {
        for skipped in 0..text.len() + 1 {
            match find(rest, &text[skipped..]) {
                Found::Here => return Found::Here,
                Found::NotHere => {}
                Found::Nowhere => return Found::Nowhere,
            }
        }
        return Found::Nowhere;
    }
    match text {
        [] => Found::Nowhere,
        [first, more @ ..] if stands_for(*byte, *first) => find(rest, more),
        _ => Found::NotHere,
    }
}

/// Whether a pattern matches a text, with `*` for any bytes and `?` for one.
pub fn matches_part(pattern: &[u8], text: &[u8]) -> bool
    ensures { IsTrue result ↔ MatchesPart pattern.now text.now }
{
    match find(pattern, text) {
        Found::Here => true,
        Found::NotHere => false,
        Found::Nowhere => false,
    }
}

// Where the last part of a name begins.
fn part_start(name: &[u8]) -> usize
    ensures { IsPartStart name.now result }
{
    let mut start = name.len();
    while start > 0 && name[start - 1] != b'/' {
        start -= 1;
    }
    start
}

fn matches_bytes(pattern: &[u8], name: &[u8]) -> bool
    ensures { IsTrue result ↔ Matches pattern.now name.now }
{
    let start = part_start(pattern);
    if part_start(name) != start {
        return false;
    }
    if name[..start] != pattern[..start] {
        return false;
    }
    matches_part(&pattern[start..], &name[start..])
}

/// Whether a pattern matches a name: all before the last part is the same, and in the last part `*` stands for any bytes
/// and `?` for one.
pub fn matches(pattern: &Name, name: &Name) -> bool
    ensures { IsTrue result ↔ Matches pattern.now name.now }
{
    matches_bytes(pattern.as_str().as_bytes(), name.as_str().as_bytes())
}

/// Names of a set, in their order.
pub fn in_order(alloc: Global, names: BTreeSet<Name>) -> Result<NameList, AllocError>
    ensures { IfOk result (λ list. list ≡ names.keys) }
{
    let mut list = NameList::new(alloc);
    for name in names {
        list.push(name)?;
    }
    Ok(list)
}
