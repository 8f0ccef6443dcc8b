// Names that may be too long, and patterns.
use crate::calls::name;
use lp_outside::{Name, NameFault, matches};
use std::alloc::Global;

// Why there is no such name with a suffix.
fn fault(text: &str, suffix: &str) -> Option<NameFault> {
    let name = Name::read(text).ok()?;
    match name.with_suffix(suffix) {
        Err(fault) => Some(fault),
        Ok(_) => None,
    }
}

// Whether a name with a suffix is this one, and the same as its copy.
fn is_longer(text: &str, suffix: &str, want: &str) -> Option<bool> {
    let longer = Name::read(text).ok()?.with_suffix(suffix).ok()?;
    Some(longer.as_str() == want && longer.is(&longer.copy()))
}

fn longest_fault(alloc: Global) -> Option<NameFault> {
    let longest = "a".repeat(alloc, 512).ok()?;
    fault(longest.as_str(), "b")
}

#[test]
fn names_have_suffixes(rt: HostRuntime) {
    assert!(rt; fault("/logs/.x..", "/..") == Some(NameFault::BadPart));
    assert!(rt; is_longer("/logs/.x..", ".stage", "/logs/.x...stage") == Some(true));
    assert!(rt; longest_fault(rt.alloc()) == Some(NameFault::TooLong));
}

const ROWS: &str = "\
* d/a.log false
d/?.log d/a.log true
?.log .log false
a*b*c aXbXXbc true
a*b*c aXbXXb false
*a? aab true
*/a d/a false";

fn is_match(row: &str) -> Option<bool> {
    let pattern = name(row, 0)?;
    let of = name(row, 1)?;
    Some(matches(&pattern, &of))
}

#[test]
fn patterns_match_names(rt: HostRuntime) {
    for row in ROWS.lines() {
        assert!(rt; is_match(row) == Some(row.ends_with("true")), "{row}");
    }
}
