// Patterns of LIKE, and a text as long as it may be.
use std::test::Fail;
use text_functions::{like, strcat};

const ROWS: &str = "\
|_ => false
aBc|%bC => true
É|é => false
abcbc|a%bc => true
abcbd|a%bc => false
abcabc|%b%c => true
ab|a%b%c => false
xxabyabz|%ab_ => true
a%c|a%%_c => true
abc|ab => false";

#[test]
fn texts_are_like_patterns(rt: HostRuntime) -> Result<(), Fail> {
    for row in ROWS.lines() {
        let (words, want) = row.split_once(" => ").ok_or("no answer")?;
        let (text, pattern) = words.split_once('|').ok_or("no pattern")?;
        assert!(rt; like(text, pattern) == (want == "true"), "{row}");
    }
    Ok(())
}

#[test]
fn texts_may_be_too_long(rt: HostRuntime) -> Result<(), Fail> {
    assert!(rt; strcat(rt.alloc(), "aé", "b", 3)?.is_none());
    assert!(rt; strcat(rt.alloc(), "aé", "b", 4)?.is_some());
    Ok(())
}
