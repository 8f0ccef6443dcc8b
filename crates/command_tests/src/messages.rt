// Messages and statistics over an output in memory.
use crate::outside::{code_text, name};
use crate::rows::{asked, bytes_of, check};
use command_words::{UsageFault, UsageKind};
use ledger::Part2;
use lp_values::{Bytes, Text};
use memory_outside::MemorySink;
use query_lexer::LexFault;
use query_text::QueryFault;
use query_types::TypeFault;
use reports::{Status, write_message, write_statistics};
use std::alloc::{AllocError, Global};
use std::process::Abort;
use std::test::Fail;

fn lost_log() -> Result<Status, Fail> {
    let stem = name("acc.log")?;
    Ok(Status::LostLog { stem, number: 1 })
}

fn shrunk() -> Result<Status, Fail> {
    let name = name("a.log")?;
    Ok(Status::Shrunk {
        name,
        kept: 5,
        found: 2,
    })
}

fn input_changed(alloc: Global) -> Result<Status, Fail> {
    let kept = bytes_of(alloc, "IISW3C")?;
    let given = bytes_of(alloc, "CSV -headerRow:OFF")?;
    Ok(Status::InputChanged { kept, given })
}

fn parse_errors() -> Result<Status, Fail> {
    let log = name("logs/ex 1.log")?;
    Ok(Status::ParseErrors { log, row: 4096 })
}

fn name_clash(alloc: Global) -> Result<Status, Fail> {
    Ok(Status::NameClash(Text::from_str(alloc, "logs/a.log")?))
}

fn damaged(part: Part2, at: u64) -> Status {
    Status::LedgerFault { part, at }
}

fn needs_template() -> Status {
    Status::Usage(UsageFault {
        word: u32::MAX,
        kind: UsageKind::NeedsTemplate,
    })
}

fn untyped(fault: TypeFault) -> Status {
    Status::Query(QueryFault::Plan(fault))
}

// What a query is refused by.
fn query_status(word: &str) -> Status {
    match word {
        "open" => Status::Query(QueryFault::Lex(LexFault::OpenBracket { at: 65535 })),
        "few" => untyped(TypeFault::TooFewColumns { at: 21 }),
        "select" => untyped(TypeFault::NotInSelect { at: 33 }),
        "grouped" => untyped(TypeFault::NotGrouped { at: 0 }),
        "nested" => untyped(TypeFault::NestedAggregate { at: 11 }),
        "star" => untyped(TypeFault::StarWithGroups { at: 7 }),
        _ => Status::IntoNeeded,
    }
}

// What any run is refused by.
fn plain_status(word: &str) -> Status {
    match word {
        "memory" => Status::Memory,
        "clock" => Status::Clock(-1),
        "usage" => needs_template(),
        "logs" => Status::LogsFault,
        "outputs" => Status::TooManyOutputs,
        "disk" => Status::DiskFault,
        "ledger" => damaged(Part2::Ledger, 0),
        "stage" => damaged(Part2::Stage, u64::MAX),
        _ => query_status(word),
    }
}

fn status(alloc: Global, word: &str) -> Result<Status, Fail> {
    match word {
        "lost" => lost_log(),
        "shrunk" => shrunk(),
        "input" => input_changed(alloc),
        "row" => parse_errors(),
        "clash" => name_clash(alloc),
        _ => Ok(plain_status(word)),
    }
}

// The code of a status and its message.
fn told_in(err: &mut MemorySink, alloc: Global, status: &Status) -> Result<Bytes, Fail> {
    write_message(err, status)?;
    let mut told = code_text(alloc, status.code())?;
    told.add(err.bytes())?;
    Ok(told)
}

fn told(alloc: Global, word: &str) -> Result<Bytes, Fail> {
    let status = status(alloc, word)?;
    told_in(&mut MemorySink::new(alloc), alloc, &status)
}

const ROWS: &str = "\
memory => 1 logparser: out of memory;
clock => 2 logparser: clock;
usage => 2 logparser: usage: word 4294967295: needs -tpl;
open => 3 logparser: query: at 65535: open bracket;
few => 3 logparser: query: at 21: too few columns;
select => 3 logparser: query: at 33: not in select;
grouped => 3 logparser: query: at 0: not grouped;
nested => 3 logparser: query: at 11: nested aggregate;
star => 3 logparser: query: at 7: star with groups;
clash => 4 logparser: input: name clash logs/a.log;
outputs => 4 logparser: input: more than 10000 outputs;
logs => 5 logparser: read fault: logs;
disk => 6 logparser: disk fault;
row => 8 logparser: parse errors: logs/ex 1.log row 4096;
lost => 4 logparser: input: lost log acc.log.1;
shrunk => 4 logparser: input: a.log is 2 bytes, 5 were read;
input => 4 logparser: input: the ledger has IISW3C, given CSV -headerRow:OFF;
into => 3 logparser: query: INTO needed;
ledger => 9 logparser: ledger: ledger at 0;
stage => 9 logparser: ledger: stage at 18446744073709551615;";

fn check_row(rt: &impl Abort, alloc: Global, row: &str) -> Result<(), Fail> {
    let told = told(alloc, asked(row))?;
    Ok(check(rt, alloc, row, &told)?)
}

#[test]
fn each_refusal_has_its_code_and_its_line(rt: HostRuntime) -> Result<(), Fail> {
    for row in ROWS.lines() {
        check_row(&rt, rt.alloc(), row)?;
    }
    Ok(())
}

// Whether statistics to an output that fails leave this front.
fn leaves(err: &mut MemorySink, front: &[u8]) -> bool {
    write_statistics(err, u64::MAX, 1, 1).is_err() && err.bytes() == front
}

fn fails_behind(alloc: Global, call: u64, front: &[u8]) -> Result<bool, AllocError> {
    let mut err = MemorySink::new(alloc);
    err.fail(call)?;
    Ok(leaves(&mut err, front))
}

#[test]
fn an_output_that_fails_has_the_front(rt: HostRuntime) -> Result<(), AllocError> {
    let front = b"Statistics:\n-----------\nElements processed: 18446744073709551615".as_slice();
    assert!(rt; fails_behind(rt.alloc(), 0, b"")?);
    assert!(rt; fails_behind(rt.alloc(), 2, front)?);
    Ok(())
}
