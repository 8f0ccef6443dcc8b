//! The program: its words, the clock, and the real files and streams, handed to the run.
#![tactic(auto)]

mod help;

use crate::help::{HELP, VERSION};
use logparser_cli::run;
use lp_values::{Text, TextList};
use std::io::Write;
use std::process::ExitCode;
use std::time::{SystemTime, UNIX_EPOCH};
use std::{env, io};
use system_outside::{FileDisk, FileLogs, StdSink, StdSource};

const USAGE: u8 = 2;

const OUT_OF_MEMORY: u8 = 1;

const WRITE_FAULT: u8 = 7;

// The words behind the program's name.
fn read_words(rt: &HostRuntime) -> io::Result<TextList> {
    let mut words = TextList::new(rt.alloc());
    for word in env::args(rt)?.skip(1) {
        words.push(Text::from_str(rt.alloc(), word.as_str())?)?;
    }
    Ok(words)
}

// The clock's whole seconds since 1970; -1 before.
fn moment(rt: &HostRuntime) -> i64 {
    let Ok(now) = SystemTime::now(rt) else {
        return -1;
    };
    match now.duration_since(UNIX_EPOCH) {
        Ok(since) => i64::try_from(since.as_secs()).unwrap_or(i64::MAX),
        Err(_) => -1,
    }
}

// What exactly one word asks the program itself.
fn own_answer(words: &TextList) -> Option<&'static str> {
    match words.as_slice() {
        [word] if word.as_str() == "--help" => Some(HELP),
        [word] if word.as_str() == "--version" => Some(VERSION),
        _ => None,
    }
}

// Writes a text to standard output.
fn answer(rt: &HostRuntime, text: &str) -> ExitCode {
    let mut out = rt.stdout();
    match out.write_all(text.as_bytes()) {
        Ok(()) => ExitCode::SUCCESS,
        Err(_) => ExitCode::from(WRITE_FAULT),
    }
}

// Tells why there are no words.
fn refuse(rt: &HostRuntime, error: &io::Error) -> ExitCode {
    let mut err = rt.stderr();
    if error.kind() == io::ErrorKind::OutOfMemory {
        let _ = err.write_all(b"logparser: out of memory\n");
        ExitCode::from(OUT_OF_MEMORY)
    } else {
        let _ = err.write_all(b"logparser: words\n");
        ExitCode::from(USAGE)
    }
}

fn main(rt: HostRuntime) -> ExitCode {
    let words = match read_words(&rt) {
        Ok(words) => words,
        Err(error) => return refuse(&rt, &error),
    };
    if let Some(text) = own_answer(&words) {
        return answer(&rt, text);
    }
    let mut logs = FileLogs::new(&rt);
    let mut disk = FileDisk::new(&rt);
    let mut input = StdSource::new(rt.stdin());
    let mut out = StdSink::new(rt.stdout());
    let mut err = StdSink::new(rt.stderr());
    let status = run(
        rt.alloc(),
        &words,
        moment(&rt),
        &mut logs,
        &mut disk,
        &mut input,
        &mut out,
        &mut err,
    );
    ExitCode::from(status.code())
}
