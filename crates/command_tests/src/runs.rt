// Runs over objects in memory, of which one fails.
use crate::outside::{InMemory, giving, name, told_outputs};
use crate::rows::{asked, check, word, words_of};
use lp_values::{Bytes, Text, TextList, read_integer};
use std::alloc::{AllocError, Global};
use std::process::Abort;
use std::test::Fail;

// Lets a call of an object fail.
fn fail(outside: &mut InMemory, failing: &str, call: u64) -> Result<(), AllocError> {
    match failing {
        "logs" => outside.logs.fail(call),
        "out" => outside.out.fail(call),
        "err" => outside.err.fail(call),
        _ => Ok(()),
    }
}

fn add_word(to: &mut Bytes, word: &str) -> Result<(), AllocError> {
    to.push(b' ')?;
    to.add(word.as_bytes())
}

fn add_words(to: &mut Bytes, from: &str) -> Result<(), AllocError> {
    for word in from.split('+') {
        add_word(to, word)?;
    }
    Ok(())
}

// What stands behind FROM, with `+` for a blank, and the log that it begins with.
fn query(alloc: Global, from: &str) -> Result<Text, AllocError> {
    let mut query = Bytes::new(alloc);
    query.add(b"SELECT * FROM")?;
    add_words(&mut query, from)?;
    Text::read(alloc, query.as_slice())
}

fn log(from: &str) -> &str {
    from.split('+').next().unwrap_or("")
}

fn words(alloc: Global, from: &str) -> Result<TextList, AllocError> {
    let query = query(alloc, from)?;
    words_of(alloc, &["-o:CSV", query.as_str()])
}

// A log of two lines, the second without an end, and the call that fails.
fn prepare(outside: &mut InMemory, row: &str) -> Result<(), Fail> {
    let call = if word(row, 3) == "0" { 0 } else { 1 };
    fail(outside, word(row, 2), call)?;
    let name = name(log(word(row, 0)))?;
    Ok(outside.logs.put(&name, b"a\r\nb")?)
}

fn told_in(outside: &mut InMemory, alloc: Global, row: &str) -> Result<Bytes, Fail> {
    prepare(outside, row)?;
    let moment = read_integer(word(row, 1)).ok_or("no moment")?;
    let words = words(alloc, word(row, 0))?;
    Ok(told_outputs(outside, alloc, &words, moment)?)
}

// What a run tells over a log at a moment, where a call of an object fails.
fn told(alloc: Global, row: &str) -> Result<Bytes, Fail> {
    told_in(&mut giving(alloc, Bytes::new(alloc)), alloc, row)
}

// What stands behind FROM, the moment, the object that fails and at which call, and what is told.
const ROWS: &str = "\
a.log 0 none 0 => 0 LogFilename,Index,Text;a.log,1,a;a.log,2,b;|Statistics:;-----------;Elements processed: 2;Elements output:    2;
a.csv 253402300799 none 0 => 0 Filename,RowNumber,a;a.csv,2,b;|Statistics:;-----------;Elements processed: 1;Elements output:    1;
a.log+ORDER+BY+Text+DESC 0 none 0 => 0 LogFilename,Index,Text;a.log,2,b;a.log,1,a;|Statistics:;-----------;Elements processed: 2;Elements output:    2;
a.csv+ORDER+BY+a 0 none 0 => 0 Filename,RowNumber,a;a.csv,2,b;|Statistics:;-----------;Elements processed: 1;Elements output:    1;
a.log+ORDER+BY+Text,STRLEN(Text) 0 none 0 => 3 |logparser: query: at 34: not in select;
a.csv+ORDER+BY+Text 0 none 0 => 3 |logparser: query: at 29: unknown field;
a.log -1 none 0 => 2 |logparser: clock;
a.log 253402300800 none 0 => 2 |logparser: clock;
a.log 0 logs 0 => 5 |logparser: read fault: logs;
a.log 0 logs 1 => 5 |logparser: read fault: logs;
a.csv 0 logs 0 => 5 |logparser: read fault: logs;
a.csv 0 logs 1 => 5 |logparser: read fault: logs;
a.log 0 out 0 => 7 |logparser: write fault;
a.csv 0 out 0 => 7 |logparser: write fault;
a.log 0 err 1 => 0 LogFilename,Index,Text;a.log,1,a;a.log,2,b;|Statistics:;-----------;Elements processed: ";

fn check_row(rt: &impl Abort, alloc: Global, row: &str) -> Result<(), Fail> {
    let told = told(alloc, asked(row))?;
    Ok(check(rt, alloc, row, &told)?)
}

#[test]
fn runs_end_with_a_status_and_their_text(rt: HostRuntime) -> Result<(), Fail> {
    for row in ROWS.lines() {
        check_row(&rt, rt.alloc(), row)?;
    }
    Ok(())
}
