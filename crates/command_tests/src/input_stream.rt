// Runs over standard input.
ghost use Rattle.std.specs.Prelude.{None};

use crate::outside::{InMemory, Outside, giving, told_outputs};
use crate::rows::{asked, bytes_of, check, words_of};
use lp_outside::{Sink, SinkFailed, Source, SourceFailed};
use lp_values::{Bytes, TextList};
use std::alloc::{AllocError, Global};
use std::cell::Cell;
use std::process::Abort;
use std::test::Fail;

// The options and the query of a run, what standard input gives, and what is told: the code, and what it writes to out and to err.
// Each row has more options in front.
const RUNS: &str = "\
-i:TEXTLINE SELECT * FROM STDIN < x;y => 0 LogFilename,Index,Text;STDIN,1,x;STDIN,2,y;|Statistics:;-----------;Elements processed: 2;Elements output:    2;
-i:TEXTLINE SELECT Index, Text FROM 'stdin' < a;;b; => 0 Index,Text;1,a;2,;3,b;|Statistics:;-----------;Elements processed: 3;Elements output:    3;
-i:TEXTWORD SELECT Index, Text FROM Stdin WHERE Text > 'a' < a b;c => 0 Index,Text;1,b;2,c;|Statistics:;-----------;Elements processed: 3;Elements output:    2;
-i:CSV SELECT b, a FROM STDIN < a,b;1,x;2,y; => 0 b,a;x,1;y,2;|Statistics:;-----------;Elements processed: 2;Elements output:    2;
-i:CSV SELECT a FROM STDIN WHERE a > 1 ORDER BY a DESC < a,b;1,x;3,y;2,z => 0 a;3;2;|Statistics:;-----------;Elements processed: 3;Elements output:    2;
-i:CSV SELECT a FROM STDIN <  => 0 a;|Statistics:;-----------;Elements processed: 0;Elements output:    0;
-i:IISW3C SELECT TOP 1 sc-status FROM STDIN < #Fields: sc-status;200;404; => 0 sc-status;200;|Statistics:;-----------;Elements processed: 2;Elements output:    1;
-i:TEXTLINE SELECT Text FROM STDIN <  => 0 Text;|Statistics:;-----------;Elements processed: 0;Elements output:    0;
-i:IISW3C SELECT sc-status FROM STDIN < 200; => 8 |logparser: parse errors: STDIN row 1;
-i:TEXTLINE SELECT * FROM a.log, STDIN < x => 3 |logparser: query: at 21: STDIN misplaced;";

fn words(alloc: Global, typed: &str) -> Result<TextList, Fail> {
    let (option, query) = typed.split_once(' ').ok_or("no query")?;
    Ok(words_of(alloc, &[option, "-o:CSV", "-e:0", query])?)
}

fn told_in(outside: &mut InMemory, alloc: Global, typed: &str) -> Result<Bytes, Fail> {
    let words = words(alloc, typed)?;
    Ok(told_outputs(outside, alloc, &words, 0)?)
}

// What a run tells as it is typed, whose standard input gives the bytes behind ` < `.
fn told(alloc: Global, run: &str) -> Result<Bytes, Fail> {
    let (typed, given) = run.split_once(" < ").ok_or("no input")?;
    let given = bytes_of(alloc, given)?;
    told_in(&mut giving(alloc, given), alloc, typed)
}

fn check_row(rt: &impl Abort, alloc: Global, row: &str) -> Result<(), Fail> {
    let told = told(alloc, asked(row))?;
    Ok(check(rt, alloc, row, &told)?)
}

#[test]
fn standard_input_is_read(rt: HostRuntime) -> Result<(), Fail> {
    for row in RUNS.lines() {
        check_row(&rt, rt.alloc(), row)?;
    }
    Ok(())
}

fn told_failing(outside: &mut InMemory, alloc: Global) -> Result<Bytes, Fail> {
    outside.input.fail(0)?;
    told_in(outside, alloc, "-i:TEXTLINE SELECT Text FROM STDIN")
}

#[test]
fn standard_input_may_fail(rt: HostRuntime) -> Result<(), Fail> {
    let given = bytes_of(rt.alloc(), "x;y")?;
    let told = told_failing(&mut giving(rt.alloc(), given), rt.alloc())?;
    let row = "a call fails => 5 |logparser: read fault: standard input;";
    Ok(check(&rt, rt.alloc(), row, &told)?)
}

// Lines of 64 bytes, as many as there are left, and a count of the bytes that were given, which the output sees.
#[derive(Drop)]
struct Lines<'a> {
    left: usize,
    given: u64,
    reads: u64,
    faults: u64,
    shared: &'a Cell<u64>,
}

impl<'a> Source for Lines<'a> {
    ghost left = { λ s. None };

    ghost given = { λ s. s.given };

    ghost reads = { λ s. s.reads };

    ghost faults = { λ s. s.faults };

    fn read(&mut self, into: &mut [u8]) -> Result<usize, SourceFailed> {
        self.reads = self.reads.saturating_add(1);
        let count = into.len().min(self.left);
        let Some(given) = self.given.checked_add(count as u64) else {
            self.faults = self.faults.saturating_add(1);
            return Err(SourceFailed);
        };
        for index in 0..count {
            into[index] = if index % 64 == 63 { b'\n' } else { b'x' };
        }
        self.left -= count;
        self.given = given;
        self.shared.set(given);
        Ok(count)
    }
}

// An output that counts its writes, and notes how many bytes were given at the first.
#[derive(Drop)]
struct Writes<'a> {
    first_at: Option<u64>,
    count: u64,
    shared: &'a Cell<u64>,
}

impl<'a> Sink for Writes<'a> {
    ghost written = { λ s. None };

    ghost faults = { λ s. 0 };

    fn write(&mut self, piece: &[u8]) -> Result<usize, SinkFailed> {
        if self.first_at.is_none() && !piece.is_empty() {
            self.first_at = Some(self.shared.get());
        }
        self.count = self.count.saturating_add(1);
        Ok(piece.len())
    }
}

// An input of 1,048,576 bytes, and an output that sees how many of them were given.
fn streams(alloc: Global, shared: &Cell<u64>) -> Outside<Lines<'_>, Writes<'_>> {
    let input = Lines {
        left: 1_048_576,
        given: 0,
        reads: 0,
        faults: 0,
        shared,
    };
    let out = Writes {
        first_at: None,
        count: 0,
        shared,
    };
    Outside::beside(alloc, input, out)
}

// How many of these bytes were given when a query first writes, and how often it writes.
fn writes_of(alloc: Global, query: &str) -> Result<(Option<u64>, u64), AllocError> {
    let words = words_of(alloc, &["-i:TEXTLINE", "-o:CSV", query])?;
    let shared = Cell::new(0);
    let mut streams = streams(alloc, &shared);
    streams.run(alloc, &words, 0);
    Ok((streams.out.first_at, streams.out.count))
}

// The first rows are out before the third piece is read, also where one line in ten is kept. Of all lines the text goes on in a
// write for each of the 16 pieces, and one for what is left at the end: the names put it 5 bytes behind the pieces.
#[test]
fn rows_come_out_while_lines_come_in(rt: HostRuntime) -> Result<(), Fail> {
    let (all, writes) = writes_of(rt.alloc(), "SELECT Text FROM STDIN")?;
    assert!(rt; all.is_some_and(|given| given <= 131_072));
    assert!(rt; writes <= 18);
    let (tenth, _writes) = writes_of(
        rt.alloc(),
        "SELECT Text FROM STDIN WHERE MOD(Index, 10) = 0",
    )?;
    assert!(rt; tenth.is_some_and(|given| given <= 131_072));
    Ok(())
}
