// What runs read of the logs behind FROM, worked out by hand.
use crate::entries::{COLUMNS, ONE, Read, disk_with_one, input_text, named};
use crate::loads::loaded;
use checkpoint::{Rotation, Sources};
use ledger::InputText;
use line_input::Standing;
use log_reading::Span;
use lp_outside::{Logs, Name, NameFault};
use lp_values::{Text, TextList};
use memory_outside::{MemoryDisk, MemoryLogs};
use positions::{Positions, SpanFault, Spans};
use std::alloc::Global;

// A row of the tables: what an earlier run read, each log up to a place (with `+` columns were in force there), the files
// that are there, each with its size, the names behind FROM, and what is read of them.
#[derive(Clone, Copy)]
struct Row<'a> {
    reads: &'a str,
    files: &'a str,
    names: &'a str,
    wanted: &'a str,
}

fn row_of<'a>(line: &'a str) -> Option<Row<'a>> {
    let (reads, rest) = line.split_once(" | ")?;
    let (files, rest) = rest.split_once(" | ")?;
    let (names, wanted) = rest.split_once(" | ")?;
    Some(Row {
        reads,
        files,
        names,
        wanted,
    })
}

fn read_of<'a>(identity: &'a str, place: &str) -> Read<'a> {
    let (digits, standing) = match place.strip_suffix('+') {
        Some(digits) => (digits, COLUMNS),
        None => (place, ONE),
    };
    Read {
        identity,
        from: 0,
        to: digits.parse().unwrap_or(0),
        standing,
    }
}

// What an earlier run read, each log between spaces.
fn reads_in<'a>(alloc: Global, reads: &'a str) -> Option<Vec<Read<'a>>> {
    let mut list = Vec::new(alloc);
    for word in reads.split(' ') {
        if let Some((identity, place)) = word.split_once('=') {
            list.push(read_of(identity, place)).ok()?;
        }
    }
    Some(list)
}

fn disk_of(alloc: Global, reads: &str) -> Option<MemoryDisk> {
    let list = reads_in(alloc, reads)?;
    disk_with_one(alloc, list.as_slice())
}

fn positions_of(alloc: Global, reads: &str) -> Option<Positions> {
    let mut disk = disk_of(alloc, reads)?;
    loaded(alloc, &mut disk)
}

fn put(logs: &mut MemoryLogs, name: &str, size: usize) -> Option<()> {
    let name = named(name)?;
    logs.put(&name, b"12345678".get(..size).unwrap_or(b"")).ok()
}

fn logs_with(alloc: Global, files: &str) -> Option<MemoryLogs> {
    let mut logs = MemoryLogs::new(alloc);
    for word in files.split(' ') {
        if let Some((name, digits)) = word.split_once('=') {
            put(&mut logs, name, digits.parse().unwrap_or(0))?;
        }
    }
    Some(logs)
}

fn texts_of(alloc: Global, names: &str) -> Option<TextList> {
    let mut texts = TextList::new(alloc);
    for name in names.split(' ') {
        texts.push(Text::from_str(alloc, name).ok()?).ok()?;
    }
    Some(texts)
}

fn sources_of(alloc: Global, names: &str, rotation: Rotation) -> Option<Sources> {
    let names = texts_of(alloc, names)?;
    Some(Sources { names, rotation })
}

// The text of a run that reads lines or words; the ledgers of these tests have that of lines.
fn input_of(alloc: Global, format: &str) -> Option<InputText> {
    let text = format!(in alloc;
        "-i:{format} -headerRow:ON -iSeparator:tab -iRotation:NAMES"
    ).ok()?;
    input_text(alloc, text.as_str())
}

// What a run reads, and how.
#[derive(Drop)]
struct Command {
    sources: Sources,
    input: InputText,
}

fn command_of(alloc: Global, names: &str, rotation: Rotation, format: &str) -> Option<Command> {
    let input = input_of(alloc, format)?;
    let sources = sources_of(alloc, names, rotation)?;
    Some(Command { sources, input })
}

impl Command {
    fn span<L: Logs>(
        &self,
        alloc: Global,
        positions: &Positions,
        logs: &mut L,
    ) -> Result<Spans, SpanFault> {
        positions.span(alloc, logs, &self.sources, &self.input)
    }
}

fn text_of(alloc: Global, text: &str) -> Option<String> {
    String::from_str(alloc, text).ok()
}

fn columns_of(standing: &Standing) -> usize {
    match standing.columns() {
        Some(columns) => columns.len(),
        None => 0,
    }
}

// The places of a span, and the lines and the number of columns at the first one.
fn show_places(alloc: Global, span: &Span) -> Option<String> {
    let lines = span.standing.lines();
    let columns = columns_of(&span.standing);
    let (from, to) = (span.from, span.listed);
    format!(in alloc; "{from}-{to} {lines} {columns}").ok()
}

// The file of a span, its identity and its places.
fn add_span(alloc: Global, to: &mut String, span: &Span) -> Option<()> {
    let places = show_places(alloc, span)?;
    add(to, span.name.as_str(), " ")?;
    add(to, span.identity.as_str(), " ")?;
    add(to, places.as_str(), ";")
}

fn add(to: &mut String, text: &str, end: &str) -> Option<()> {
    to.push_str(text).ok()?;
    to.push_str(end).ok()
}

fn show(alloc: Global, spans: &Spans) -> Option<String> {
    let mut to = String::new(alloc);
    for span in spans.as_slice() {
        add_span(alloc, &mut to, span)?;
    }
    Some(to)
}

fn show_missing(alloc: Global, name: &Name) -> Option<String> {
    let name = text_of(alloc, name.as_str())?;
    format!(in alloc; "no such log {name}").ok()
}

fn show_lost(alloc: Global, stem: &Name, number: u64) -> Option<String> {
    let stem = text_of(alloc, stem.as_str())?;
    format!(in alloc; "lost log {stem}.{number}").ok()
}

fn show_shrunk(alloc: Global, name: &Name, kept: u64, found: u64) -> Option<String> {
    let name = text_of(alloc, name.as_str())?;
    format!(in alloc; "{name} is {found} bytes, {kept} were read").ok()
}

// A fault that names no log.
fn plain(fault: &SpanFault) -> &str {
    match fault {
        SpanFault::InputChanged { kept: _, given: _ } => "changed",
        SpanFault::TooManyLogs => "too many",
        SpanFault::LogsFault => "failed",
        SpanFault::BadName(NameFault::Stars) => "stars",
        SpanFault::BadName(_) => "bad name",
        _ => "memory",
    }
}

fn show_fault(alloc: Global, fault: &SpanFault) -> Option<String> {
    match fault {
        SpanFault::NoSuchLog(name) => show_missing(alloc, name),
        SpanFault::LostLog(stem, number) => show_lost(alloc, stem, *number),
        SpanFault::Shrunk { name, kept, found } => show_shrunk(alloc, name, *kept, *found),
        _ => text_of(alloc, plain(fault)),
    }
}

fn show_answer(alloc: Global, answer: Result<Spans, SpanFault>) -> Option<String> {
    match answer {
        Ok(spans) => show(alloc, &spans),
        Err(fault) => show_fault(alloc, &fault),
    }
}

// What a run behind those of some positions reads of these files.
fn ask(alloc: Global, positions: &Positions, files: &str, command: &Command) -> Option<String> {
    let mut logs = logs_with(alloc, files)?;
    let answer = command.span(alloc, positions, &mut logs);
    drop(logs);
    show_answer(alloc, answer)
}

fn shown(alloc: Global, row: &Row, command: &Command) -> Option<String> {
    let positions = positions_of(alloc, row.reads)?;
    ask(alloc, &positions, row.files, command)
}

// Whether the answer to a row is the one that it wants.
fn is_wanted(alloc: Global, line: &str, rotation: Rotation, format: &str) -> Option<bool> {
    let row = row_of(line)?;
    let command = command_of(alloc, row.names, rotation, format)?;
    let answer = shown(alloc, &row, &command)?;
    Some(answer.as_str() == row.wanted)
}

// The first row whose answer is another one.
fn first_other<'a>(
    alloc: Global,
    rows: &'a str,
    rotation: Rotation,
    format: &str,
) -> Option<&'a str> {
    for line in rows.lines() {
        if is_wanted(alloc, line, rotation, format) != Some(true) {
            return Some(line);
        }
    }
    None
}

const NAMES: &str = "- | a.log=4 | a.log | a.log a.log 0-4 0 0;
a.log=3 | a.log=5 | a.log | a.log a.log 3-5 1 0;
w.log=4+ | w.log=7 | w.log | w.log w.log 4-7 2 2;
a.log=3 | b.log=2 a.log=4 | ?.log a.log | a.log a.log 3-4 1 0;b.log b.log 0-2 0 0;
- | b.log=2 a.log=1 | b.log *.log | b.log b.log 0-2 0 0;a.log a.log 0-1 0 0;
a.log=3 | a.log=3 | a.log | a.log a.log 3-3 1 0;
a.log=3 | a.log=2 | a.log | a.log is 2 bytes, 3 were read
a.log=3 | a.log=2 | a.log b.log | a.log is 2 bytes, 3 were read
a.log=3 | a.log=2 | b.log a.log | no such log b.log
a.log=3 | a.log=3 | a.log c* | no such log c*
a.log=3 | a.log=3 | x//y c.log | bad name
a.log=3 | a.log=3 | c.log x//y | no such log c.log";

// Each log from where it was left, with the columns in force there; a log that comes again at its first place; the first name
// that can't be read is told.
#[test]
fn names_are_read_one_after_another(rt: HostRuntime) {
    let other = first_other(rt.alloc(), NAMES, Rotation::Names, "TEXTLINE");
    assert_eq!(rt; other, None);
}

const NUMBERS: &str = "- | acc.log=2 | acc.log | acc.log acc.log.1 0-2 0 0;
acc.log.1=2 | acc.log=4 | acc.log | acc.log acc.log.1 2-4 1 0;
acc.log.1=2 | acc.log.1=4 acc.log.2=2 acc.log=2 | acc.log | acc.log.1 acc.log.1 2-4 1 0;acc.log.2 acc.log.2 0-2 0 0;acc.log acc.log.3 0-2 0 0;
acc.log.1=2 | acc.log.2=2 acc.log=2 | acc.log | lost log acc.log.1
acc.log.2=4 acc.log.3=2 acc.log.30x=9 acc.log=1 | acc.log.3=2 acc.log=2 | acc.log | acc.log.3 acc.log.3 2-2 1 0;acc.log acc.log.4 0-2 0 0;
acc.log.2=4 acc.log.3=2 acc.log.30x=9 acc.log=1 | acc.log=2 | acc.log | acc.log acc.log.3 2-2 1 0;
acc.log.2=4 acc.log.3=2 acc.log.30x=9 acc.log=1 | acc.log.1=1 acc.log=2 | acc.log | acc.log acc.log.3 2-2 1 0;
- | a.1=1 a.3=1 a=1 | a | lost log a.2
- | a.2=1 a.3=0 | a | a.2 a.2 0-1 0 0;a.3 a.3 0-0 0 0;
acc.log.2=4 acc.log.3=2 | acc.log.2=4 | acc.log | lost log acc.log.3
acc.log.2=4 acc.log.3=2 | - | acc.log | lost log acc.log.3
acc.log.2=4 acc.log.3=2 | acc.log.3=3 | acc.log | acc.log.3 acc.log.3 2-3 1 0;
- | b=1 | a | no such log a
- | a=1 a.01=0 a.1.gz=0 a.+2=0 a.0=0 xa.1=0 | a | a a.1 0-1 0 0;
- | a=1 a.9223372036854775808=0 | a | a a.1 0-1 0 0;
a.9=1 a.10=1 a.1.7=1 b.12=1 | a=3 | a | a a.10 1-3 1 0;
a.9=1 a.10=1 a.1.7=1 b.12=1 | a.1=3 | a.1 | a.1 a.1.7 1-3 1 0;
a.9=1 a.10=1 a.1.7=1 b.12=1 | a.10=1 a=2 | a | a.10 a.10 1-1 1 0;a a.11 0-2 0 0;
a.9=1 a.10=1 a.1.7=1 b.12=1 | a=2 b=1 c=1 | c a c b | c c.1 0-1 0 0;a a.10 1-2 1 0;b b.12 1-1 1 0;
a.9=1 a.10=1 a.1.7=1 b.12=1 | a=0 b=1 | a d | a is 0 bytes, 1 were read
acc.log.1=2 | acc.log.1=1 acc.log.3=0 | acc.log | acc.log.1 is 1 bytes, 2 were read
acc.log.1=2 | acc.log.1=2 acc.log.3=0 | acc.log | lost log acc.log.2
- | a=1 | a* x//y | stars
- | a=1 | x//y a? | bad name";

// From the latest generation that the ledger knows, or else the oldest that is there, generation by generation, and then the
// stem's own file: never rotated, rotated twice since it was read, gaps, names that only look like those of generations,
// several stems, and the first that can't be read.
#[test]
fn stems_are_read_generation_by_generation(rt: HostRuntime) {
    let other = first_other(rt.alloc(), NUMBERS, Rotation::Numbers, "TEXTLINE");
    assert_eq!(rt; other, None);
}

const CHANGED: &str = "a.log=3 | - | b.log | changed
a.log=3 | - | b* | changed
- | - | b.log | no such log b.log";

// How logs are read is judged before any of them is looked for. A ledger without entries takes any text.
#[test]
fn another_input_text_is_told_first(rt: HostRuntime) {
    for rotation in [Rotation::Names, Rotation::Numbers] {
        let other = first_other(rt.alloc(), CHANGED, rotation, "TEXTWORD");
        assert_eq!(rt; other, None);
    }
}

// Logs that fail at a call.
fn failing_logs(alloc: Global, call: u64) -> Option<MemoryLogs> {
    let mut logs = logs_with(alloc, "a=1 b=1 b.1=1")?;
    if logs.fail(call).is_ok() {
        Some(logs)
    } else {
        None
    }
}

// Whether a failed call of the logs is told, and not whole spans; none for another fault.
fn is_failed(answer: Result<Spans, SpanFault>) -> Option<bool> {
    match answer {
        Ok(_) => Some(false),
        Err(SpanFault::LogsFault) => Some(true),
        Err(_) => None,
    }
}

fn is_told(alloc: Global, positions: &Positions, command: &Command, call: u64) -> Option<bool> {
    let mut logs = failing_logs(alloc, call)?;
    let answer = command.span(alloc, positions, &mut logs);
    drop(logs);
    is_failed(answer)
}

fn fails_at(alloc: Global, rotation: Rotation, call: u64) -> Option<bool> {
    let command = command_of(alloc, "a b", rotation, "TEXTLINE")?;
    let positions = positions_of(alloc, "acc.log.1=2")?;
    is_told(alloc, &positions, &command, call)
}

// Each of these calls of the logs may fail, and then that is told.
#[test]
fn each_call_of_the_logs_may_fail(rt: HostRuntime) {
    for (rotation, calls) in [(Rotation::Names, 4), (Rotation::Numbers, 7)] {
        for call in 0..20 {
            assert!(rt;
                fails_at(rt.alloc(), rotation, call) == Some(call < calls),
                "at {call}"
            );
        }
    }
}
