// Runs whose rows go to files of a disk in memory, of which a call may fail.
use crate::outside::{InMemory, add_file, code_text, giving, name};
use crate::rows::{asked, check, word, words_of};
use lp_values::{Bytes, TextList};
use memory_outside::MemoryDisk;
use std::alloc::{AllocError, Global};
use std::process::Abort;
use std::test::Fail;

// The word of a file mode, and a query of two lines into files.
fn words(alloc: Global, mode: &str, into: &str) -> Result<TextList, AllocError> {
    let query = format!(in alloc; "SELECT Text, Index INTO {into} FROM a.log")?;
    words_of(alloc, &["-o:CSV", mode, query.as_str()])
}

// Lets a call of the disk fail.
fn fail(disk: &mut MemoryDisk, failing: &str) -> Result<(), AllocError> {
    match failing {
        "first" => disk.fail(0),
        "second" => disk.fail(1),
        _ => Ok(()),
    }
}

// A log, and a disk on which o.csv holds some bytes.
fn put(outside: &mut InMemory, held: &str) -> Result<(), Fail> {
    outside.logs.put(&name("a.log")?, b"a\nb\n")?;
    outside.disk.put(&name("o.csv")?, held.as_bytes())?;
    Ok(())
}

fn code(outside: &mut InMemory, alloc: Global, row: &str) -> Result<u8, Fail> {
    put(outside, word(row, 2))?;
    fail(&mut outside.disk, word(row, 3))?;
    let words = words(alloc, word(row, 0), word(row, 1))?;
    Ok(outside.run(alloc, &words, 0))
}

fn told_in(outside: &mut InMemory, alloc: Global, row: &str) -> Result<Bytes, Fail> {
    let mut told = code_text(alloc, code(outside, alloc, row)?)?;
    add_file(&mut told, &outside.disk, word(row, 4))?;
    Ok(told)
}

// The code of a run, and what a file holds behind it.
fn told(alloc: Global, row: &str) -> Result<Bytes, Fail> {
    told_in(&mut giving(alloc, Bytes::new(alloc)), alloc, row)
}

// The file mode, where the rows go, what o.csv holds, the call that fails and the file that is told, and the code and what it holds.
const ROWS: &str = "\
-fileMode:1 o.csv zzzzzzzzzzzzzzzzzzzzzzzz none o.csv => 0 Text,Index;a,1;b,2;
-fileMode:0 o.csv z none o.csv => 0 za,1;b,2;
-fileMode:2 o.csv z none o.csv => 0 z
-fileMode:2 p.csv z none p.csv => 0 Text,Index;a,1;b,2;
-fileMode:1 *.csv z none b.csv => 0 Index;2;
-fileMode:1 *.csv z none o.csv => 0 z
-fileMode:1 *.log z none a.log => 4 
-fileMode:1 o.csv z first o.csv => 6 z
-fileMode:0 o.csv z first o.csv => 6 z
-fileMode:0 o.csv z second o.csv => 6 z";

fn check_row(rt: &impl Abort, alloc: Global, row: &str) -> Result<(), Fail> {
    let told = told(alloc, asked(row))?;
    Ok(check(rt, alloc, row, &told)?)
}

#[test]
fn rows_go_to_files(rt: HostRuntime) -> Result<(), Fail> {
    for row in ROWS.lines() {
        check_row(&rt, rt.alloc(), row)?;
    }
    Ok(())
}
