// Calls and what they give, worked out by hand.
use lp_functions::{Function, apply};
use lp_values::{Bytes, Text, Value, ValueList, print, read_integer, read_real};
use std::alloc::{AllocError, Global};
use std::test::Fail;

// An integer, a real or a text, by what the word reads as; NULL is `~`.
fn value(alloc: Global, word: &str) -> Result<Value, AllocError> {
    if word == "~" {
        return Ok(Value::Null);
    }
    if let Some(number) = read_integer(word) {
        return Ok(Value::Int(number));
    }
    match read_real(word) {
        Some(real) => Ok(Value::Real(real)),
        None => Ok(Value::Text(Text::from_str(alloc, word)?)),
    }
}

fn tell(value: &Value, told: &mut Bytes) -> Result<(), AllocError> {
    match value {
        Value::Null => told.push(b'~'),
        value => print(value, told),
    }
}

// What a call gives, printed. Its name and its arguments stand between bars.
fn given(alloc: Global, call: &str) -> Result<Bytes, AllocError> {
    let mut told = Bytes::new(alloc);
    let mut function = None;
    let mut arguments = ValueList::new(alloc);
    for word in call.split('|') {
        match function {
            None => function = Function::by_name(word),
            Some(_) => arguments.push(value(alloc, word)?)?,
        }
    }
    match function {
        Some(function) => tell(&apply(alloc, function, &arguments)?, &mut told)?,
        None => told.add(b"no function")?,
    }
    Ok(told)
}

// The ends of 64 bits and of as many millionths; characters of several bytes, parts that overlap; kinds that don't fit.
const CALLS: &str = "\
SYSTEM_DATE => no function
ADD|1.5|2 => 3.500000
ADD|9223372036854|.775807 => 9223372036854.775807
ADD|9223372036854|.775808 => ~
SUB|-1|-9223372036854775808 => 9223372036854775807
SUB|0|-9223372036854775808 => ~
MUL|3037000499|3037000499 => 9223372030926249001
MUL|3037000500|3037000500 => ~
MUL|-1.5|1.5 => -2.250000
MUL|-.000001|.5 => 0.000000
MUL|9223372036854775807|.000001 => 9223372036854.775807
DIV|-1.0|3 => -0.333333
DIV|1|.0 => ~
MOD|-9223372036854775808|-1 => 0
MOD|-7.5|2 => -1.500000
QUANTIZE|-9223372036854775808|2 => -9223372036854775808
QUANTIZE|-9223372036854775808|3 => ~
QUANTIZE|7|2.5 => 5.000000
TO_INT|-1.999999 => -1
TO_INT|+007 => 7
TO_INT|9223372036854775808 => ~
TO_INT|+ => ~
TO_INT|--1 => ~
TO_REAL|9223372036854 => 9223372036854.000000
TO_REAL|9223372036855 => ~
TO_REAL|-0.0000019 => -0.000001
TO_REAL|0000000000000000000000000001.25 => 1.250000
TO_REAL|-9223372036854.775808 => -9223372036854.775808
TO_REAL|9223372036854.775808 => ~
TO_REAL|1. => ~
TO_REAL|1.5e3 => ~
TO_REAL|1.+5 => ~
TO_REAL|. => ~
TO_STRING|-.00005 => -0.000050
STRCNT|aaaaa|aa => 2
INDEX_OF|é€a€a|€a => 1
LAST_INDEX_OF|é€a€a|€a => 3
EXTRACT_TOKEN|a,b,,é|3 => é
EXTRACT_TOKEN|aaa|1|aa => a
EXTRACT_VALUE|a=1;b==|b|; => =
EXTRACT_VALUE|a=1&b|b => ~
EXTRACT_PREFIX|baaa|0|aa => b
EXTRACT_SUFFIX|aaab|0|aa => b
EXTRACT_SUFFIX|a.b.c|0|1 => ~
EXTRACT_FILENAME|a\\b/c\\d => d
EXTRACT_PATH|a\\b/c\\d => a\\b/c
EXTRACT_EXTENSION|/x.y/z => ~
REPLACE_STR|a-b-|-| => ab
REPLACE_CHR|abca|a|éé => éébcéé
TRIM| \té \t => é
TO_UPPERCASE|aéZ{ => AéZ{
URLESCAPE|a~b é/ => a~b%20%C3%A9%2F
URLUNESCAPE|%c3%A9+%2g% => é+%2g%
URLUNESCAPE|a%FFb => a\u{FFFD}b
COALESCE|1|.5 => ~
COALESCE|1 => ~
REPLACE_IF_NOT_NULL|~|x => ~
IPV4_TO_INT|1.02.003.4 => 16909060
IPV4_TO_INT|1..3.4 => ~
INT_TO_IPV4|16909060 => 1.2.3.4";

#[test]
fn calls_give_their_values(rt: HostRuntime) -> Result<(), Fail> {
    for row in CALLS.lines() {
        let (call, want) = row.split_once(" => ").ok_or("no value")?;
        let told = given(rt.alloc(), call)?;
        assert!(rt; told.as_slice() == want.as_bytes(), "{row}");
    }
    Ok(())
}
