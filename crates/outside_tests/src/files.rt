// The adapters on files of the machine.
use crate::calls::{Answers, act, first_other, look, name, put, reads, word};
use lp_outside::{Mark, Name, Stage};
use std::alloc::Global;
use std::fs;
use std::io::ErrorKind;
use system_outside::{FileDisk, FileLogs, StdSink, StdSource};

/// Takes a folder away, with all that is in it. Whether it isn't there then.
pub fn clears(rt: &HostRuntime, folder: &str) -> bool {
    match fs::remove_dir_all(rt, folder) {
        Err(e) => e.kind() == ErrorKind::NotFound,
        Ok(()) => true,
    }
}

// The files of the machine as a disk and as logs.
#[derive(Drop)]
struct Machine<'a> {
    rt: &'a HostRuntime,
    disk: FileDisk<'a, HostRuntime>,
    logs: FileLogs<'a, HostRuntime>,
}

fn act_again(rt: &HostRuntime, line: &str) -> Option<String> {
    let mut disk = FileDisk::new(rt);
    act(rt.alloc(), &mut disk, line)
}

impl<'a> Answers for Machine<'a> {
    // Behind `again` another handle is asked.
    fn answer(&mut self, line: &str) -> Option<String> {
        if let Some(line) = line.strip_prefix("again ") {
            return act_again(self.rt, line);
        }
        match word(line, 0) {
            "names" | "log-read" | "log-length" => look(self.rt.alloc(), &mut self.logs, line),
            _ => act(self.rt.alloc(), &mut self.disk, line),
        }
    }
}

/// The first row that the files of the machine answer otherwise.
pub fn first_of_files<'a>(rt: &HostRuntime, rows: &'a str) -> Option<&'a str> {
    let mut machine = Machine {
        rt,
        disk: FileDisk::new(rt),
        logs: FileLogs::new(rt),
    };
    first_other(&mut machine, rows)
}

// An absent file has no bytes, and a cut and a sync don't make it. A missing folder is made, a gap is filled with zero
// bytes, and a cut cuts. A log that grows is read on. Files alone are listed, in byte order.
const LINES: &str = "\
cut outside_files/one 3 => +
sync outside_files/one => +
length outside_files/one => Some(0)
read outside_files/one 0 => !
log-length outside_files/one => Some(None)
write outside_files/deep/two 3 abc => +
sync outside_files/deep/two => +
cut outside_files/deep/two 5 => +
read outside_files/deep/two 0 => 5 [0, 0, 0, 97, 98]
write outside_files/b.log 0 ab => +
log-read outside_files/b.log 0 => 2 [97, 98]
log-read outside_files/b.log 2 => !
write outside_files/b.log 2 c => +
log-read outside_files/b.log 2 => 1 [99]
log-length outside_files/b.log => Some(Some(3))
write outside_files/B.log 0 x => +
names outside_files/* => outside_files/B.log;outside_files/b.log;
names outside_files/deep => ";

#[test]
fn files_are_written_and_read(rt: HostRuntime) {
    assert!(rt; clears(&rt, "outside_files"));
    assert_eq!(rt; first_of_files(&rt, LINES), None);
    assert!(rt; clears(&rt, "outside_files"));
}

fn staged<S: Stage>(stage: &mut S, name: &Name) -> Option<Mark> {
    let mut mark = Mark::none();
    stage.put(0, name, 0, &mut mark, b"ab").ok()?;
    Some(mark)
}

// Whether nothing is held, and two bytes are staged and ended.
fn takes_two<S: Stage>(stage: &mut S) -> Option<bool> {
    let name = name("STDOUT", 0)?;
    let held = stage.held(&name).ok()?;
    let mark = staged(stage, &name)?;
    stage.close(&name, 0, &mark).ok()?;
    Some(held == 0 && mark.length == 2)
}

fn stream_takes(rt: &HostRuntime) -> Option<bool> {
    let mut sink = StdSink::new(fs::create(rt, "outside_stream").ok()?);
    let taken = takes_two(&mut sink);
    Some(taken? && put(&mut sink, b"c") == Some(1))
}

fn stream_gives(alloc: Global, rt: &HostRuntime) -> Option<bool> {
    let mut source = StdSource::new(fs::open(rt, "outside_stream").ok()?);
    let read = reads(alloc, &mut source, 3);
    drop(source);
    Some(read?.as_slice() == b"abc".as_slice())
}

// An output of std is a stage that passes on at once, and an input of std reads it back.
#[test]
fn streams(rt: HostRuntime) {
    assert!(rt; stream_takes(&rt) == Some(true));
    assert!(rt; stream_gives(rt.alloc(), &rt) == Some(true));
    assert!(rt; fs::remove_file(&rt, "outside_stream").is_ok());
}
