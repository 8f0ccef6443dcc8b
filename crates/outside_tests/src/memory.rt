// The objects in memory, and what a crash leaves of a disk.
use crate::calls::{Answers, act, first_other, look, name, number, put, reads, sign, word};
use lp_outside::{Logs, Name, Sink};
use lp_values::Bytes;
use memory_outside::{MemoryDisk, MemoryLogs, MemorySink, MemorySource, Torn, TornList};
use std::alloc::Global;

// `k` for a call that is kept, `l` for one that is lost, and else one whose bytes are 7.
fn torn_as(letter: u8) -> Torn {
    match letter {
        b'k' => Torn::Kept,
        b'l' => Torn::Lost,
        _ => Torn::Filled(7),
    }
}

fn torn_by(alloc: Global, letters: &str) -> Option<TornList> {
    let mut torn = TornList::new(alloc);
    for letter in letters.as_bytes() {
        torn.push(torn_as(*letter)).ok()?;
    }
    Some(torn)
}

fn crashes_as(alloc: Global, disk: &mut MemoryDisk, letters: &str) -> bool {
    match torn_by(alloc, letters) {
        Some(torn) => disk.crash(&torn).is_ok(),
        None => false,
    }
}

fn puts(disk: &mut MemoryDisk, line: &str) -> bool {
    match name(line, 1) {
        Some(name) => disk.put(&name, word(line, 2).as_bytes()).is_ok(),
        None => false,
    }
}

fn fails(disk: &mut MemoryDisk, call: u64) -> bool {
    disk.fail(call).is_ok()
}

fn stops(disk: &mut MemoryDisk, calls: u64) -> bool {
    disk.stop_after(calls);
    true
}

fn calls_of(alloc: Global, disk: &MemoryDisk) -> Option<String> {
    format!(in alloc; "{}", disk.calls()).ok()
}

// A disk in memory, and what it takes beside the calls of each disk: `put NAME TEXT`, `fail CALL`, `stop CALLS`, `crash
// LETTERS` and `calls`.
#[derive(Drop)]
struct DiskCalls {
    alloc: Global,
    disk: MemoryDisk,
}

impl Answers for DiskCalls {
    fn answer(&mut self, line: &str) -> Option<String> {
        let is_ok = match word(line, 0) {
            "put" => puts(&mut self.disk, line),
            "fail" => fails(&mut self.disk, number(line, 1)),
            "stop" => stops(&mut self.disk, number(line, 1)),
            "crash" => crashes_as(self.alloc, &mut self.disk, word(line, 1)),
            "calls" => return calls_of(self.alloc, &self.disk),
            _ => return act(self.alloc, &mut self.disk, line),
        };
        sign(self.alloc, is_ok)
    }
}

fn new_disk(alloc: Global) -> DiskCalls {
    DiskCalls {
        alloc,
        disk: MemoryDisk::new(alloc),
    }
}

// Zero bytes fill a gap. The call at which a disk stops is an unsynced one, and all fail until a crash.
const LINES: &str = "\
put one abcd => +
write one 6 xy => +
read one 0 => 8 [97, 98, 99, 100, 0, 0, 120, 121]
cut one 7 => +
cut two 1 => +
length one => Some(7)
length two => Some(0)
read one 5 => 2 [0, 120]
calls => 7
fail 0 => +
sync two => !
sync two => +
sync one => +
stop 2 => +
write two 0 a => +
sync two => +
write two 1 b => !
write two 2 c => !
length two => None
crash kk => +
read two 0 => 2 [97, 98]";

fn first_of_disk<'a>(alloc: Global, rows: &'a str) -> Option<&'a str> {
    let mut disk = new_disk(alloc);
    first_other(&mut disk, rows)
}

#[test]
fn a_disk_in_memory(rt: HostRuntime) {
    assert_eq!(rt; first_of_disk(rt.alloc(), LINES), None);
}

const CALLS: &str = "\
put one ab => +
write one 2 cd => +
sync one => +
write one 1 XY => +
write two 0 Z => +
cut one 3 => +";

// Without a letter a call is lost.
const CRASHES: &str = "\
lll => abcd|
kkk => aXY|Z
kll => aXYd|
fff => a\u{7}\u{7}|\u{7}
lfk => abc|\u{7}
k => aXYd|";

fn holds(disk: &MemoryDisk, name: &Name, text: &str) -> bool {
    disk.bytes(name) == text.as_bytes()
}

// Whether the two files have these texts.
fn holds_both(disk: &MemoryDisk, texts: &str) -> Option<bool> {
    let (first, second) = texts.split_once('|')?;
    let is_first = holds(disk, &name("one", 0)?, first);
    Some(is_first && holds(disk, &name("two", 0)?, second))
}

// Whether two unsynced calls of one file and one of another, and a crash that tears them so, leave the texts of a row.
fn is_left(alloc: Global, disk: &mut DiskCalls, row: &str) -> Option<bool> {
    let (letters, want) = row.split_once(" => ")?;
    let are_called = first_other(disk, CALLS).is_none();
    let is_torn = crashes_as(alloc, &mut disk.disk, letters);
    Some(are_called && is_torn && holds_both(&disk.disk, want)?)
}

fn leaves(alloc: Global, row: &str) -> Option<bool> {
    let mut disk = new_disk(alloc);
    is_left(alloc, &mut disk, row)
}

#[test]
fn crashes(rt: HostRuntime) {
    for row in CRASHES.lines() {
        assert!(rt; leaves(rt.alloc(), row) == Some(true), "{row}");
    }
}

fn puts_log(logs: &mut MemoryLogs, line: &str) -> bool {
    match name(line, 1) {
        Some(name) => logs.put(&name, word(line, 2).as_bytes()).is_ok(),
        None => false,
    }
}

fn renames(logs: &mut MemoryLogs, from: &Name, to: &Name) -> Option<()> {
    if logs.length(from).ok()?.is_some() && logs.length(to).ok()?.is_none() {
        logs.rename(from, to);
    }
    Some(())
}

fn renames_log(logs: &mut MemoryLogs, line: &str) -> Option<()> {
    let from = name(line, 1)?;
    let to = name(line, 2)?;
    renames(logs, &from, &to)
}

fn removes_log(logs: &mut MemoryLogs, line: &str) -> Option<()> {
    logs.remove(&name(line, 1)?);
    Some(())
}

fn fails_logs(logs: &mut MemoryLogs, call: u64) -> bool {
    logs.fail(call).is_ok()
}

// Logs in memory, and what they take beside the calls of all logs: `put NAME TEXT`, `rename FROM TO`, `remove NAME` and `fail
// CALL`.
#[derive(Drop)]
struct LogsCalls {
    alloc: Global,
    logs: MemoryLogs,
}

impl Answers for LogsCalls {
    fn answer(&mut self, line: &str) -> Option<String> {
        let is_ok = match word(line, 0) {
            "put" => puts_log(&mut self.logs, line),
            "rename" => renames_log(&mut self.logs, line).is_some(),
            "remove" => removes_log(&mut self.logs, line).is_some(),
            "fail" => fails_logs(&mut self.logs, number(line, 1)),
            _ => return look(self.alloc, &mut self.logs, line),
        };
        sign(self.alloc, is_ok)
    }
}

const LOOKS: &str = "\
put b.log ab => +
put b.log cd => +
put a.log y => +
names ?.log => a.log;b.log;
log-read b.log 1 => 3 [98, 99, 100]
rename b.log b.log.1 => +
remove a.log => +
names * => b.log.1;
log-length b.log => Some(None)
fail 0 => +
log-length b.log.1 => None
log-length b.log.1 => Some(Some(4))";

fn first_of_logs<'a>(alloc: Global, rows: &'a str) -> Option<&'a str> {
    let mut logs = LogsCalls {
        alloc,
        logs: MemoryLogs::new(alloc),
    };
    first_other(&mut logs, rows)
}

#[test]
fn logs_in_memory(rt: HostRuntime) {
    assert_eq!(rt; first_of_logs(rt.alloc(), LOOKS), None);
}

fn bytes_of(alloc: Global, text: &[u8]) -> Option<Bytes> {
    let mut bytes = Bytes::new(alloc);
    bytes.add(text).ok()?;
    Some(bytes)
}

// What four reads of an input give, of which the second fails.
fn given(alloc: Global) -> Option<Bytes> {
    let mut source = MemorySource::new(alloc, bytes_of(alloc, b"abc")?);
    if source.fail(1).is_err() {
        return None;
    }
    reads(alloc, &mut source, 4)
}

fn is_given(alloc: Global, want: &[u8]) -> Option<bool> {
    let read = given(alloc)?;
    Some(read.as_slice() == want)
}

fn puts_thrice<S: Sink>(sink: &mut S, piece: &[u8]) -> bool {
    let first = put(sink, piece) == Some(4);
    let second = put(sink, piece).is_none();
    first && second && put(sink, piece) == Some(4)
}

// Whether an output takes what it is offered, and fails at the second piece.
fn is_taken(alloc: Global, piece: &[u8], want: &[u8]) -> bool {
    let mut sink = MemorySink::new(alloc);
    sink.fail(1).is_ok() && puts_thrice(&mut sink, piece) && sink.bytes() == want
}

#[test]
fn input_and_output(rt: HostRuntime) {
    assert!(rt; is_given(rt.alloc(), b"ab!c") == Some(true));
    assert!(rt; is_taken(rt.alloc(), b"ab!c", b"ab!cab!c"));
}
