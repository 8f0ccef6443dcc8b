// Values in lists, by SQL's rules: whole numbers and millionths fit together, and stamps go by their seconds.
use in_set::InSet;
use lp_values::{Part, Real, Stamp, Text, Truth, Value};
use std::alloc::{AllocError, Global};
use std::test::Fail;

#[derive(Clone, Copy)]
enum Word {
    Null,
    Whole(i64),
    Millionths(i64),
    Seconds(i64, Part),
    Text(&'static str),
}

fn value(alloc: Global, word: Word) -> Result<Value, AllocError> {
    match word {
        Word::Null => Ok(Value::Null),
        Word::Whole(number) => Ok(Value::Int(number)),
        Word::Millionths(millionths) => Ok(Value::Real(Real { millionths })),
        Word::Seconds(seconds, part) => Ok(Stamp::new(seconds, part).map_or(
            Value::Null,
            Value::Stamp,
        )),
        Word::Text(text) => Ok(Value::Text(Text::from_str(alloc, text)?)),
    }
}

fn holds(alloc: Global, list: &[Word], word: Word) -> Result<Truth, AllocError> {
    let mut set = InSet::new(alloc);
    for word in list {
        set.add(value(alloc, *word)?)?;
    }
    Ok(set.holds(&value(alloc, word)?))
}

#[test]
fn in_has_three_answers(rt: HostRuntime) -> Result<(), Fail> {
    let cases = [
        (
            &[Word::Whole(1), Word::Whole(2)][..],
            Word::Whole(2),
            Truth::Yes,
        ),
        (
            &[Word::Whole(1), Word::Whole(2)][..],
            Word::Whole(3),
            Truth::No,
        ),
        (
            &[Word::Whole(1), Word::Null][..],
            Word::Whole(3),
            Truth::Unknown,
        ),
        (
            &[Word::Null, Word::Whole(1)][..],
            Word::Whole(1),
            Truth::Yes,
        ),
        (&[Word::Text("a")][..], Word::Text("a"), Truth::Yes),
        (&[Word::Text("a")][..], Word::Null, Truth::Unknown),
        (&[][..], Word::Null, Truth::No),
        (
            &[Word::Whole(3)][..],
            Word::Millionths(3_000_000),
            Truth::Yes,
        ),
        (
            &[Word::Millionths(i64::MAX)][..],
            Word::Whole(i64::MAX),
            Truth::No,
        ),
        (
            &[Word::Seconds(86_400, Part::Date)][..],
            Word::Seconds(86_400, Part::Both),
            Truth::Yes,
        ),
        (&[Word::Text("1")][..], Word::Whole(1), Truth::Unknown),
    ];
    for (list, word, want) in cases {
        let told = holds(rt.alloc(), list, word)?;
        assert!(rt; told == want);
    }
    Ok(())
}
