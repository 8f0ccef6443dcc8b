// Runs that are stopped at each of their calls.
use crate::entries::{BOTH, ONE_A, SECOND, THREE, entry_of, named, second_entry, three_entry};
use crate::runs::{
    after_one, crash, entries, files, holds, holds_three, run_second, run_three, settle, size_of,
    stop_after,
};
use commit::{CommitFiles, Stopped, commit_two_texts, open_gate, put, seal, settle_disk, start};
use ledger::{Entry, OutputList};
use lp_outside::{Disk, Mark, Name};
use memory_outside::{MemoryDisk, Torn};
use std::alloc::Global;

const TORN: [Torn; 5] = [
    Torn::Kept,
    Torn::Lost,
    Torn::Filled(0xA5),
    Torn::Filled(0x5A),
    Torn::Filled(0x37),
];

// Whether the second run is stopped at a call.
fn second_stops(disk: &mut MemoryDisk, entry: &Entry, call: u64) -> Option<bool> {
    stop_after(disk, call);
    Some(!run_second(disk, entry)?)
}

// Whether a run of three outputs is stopped at a call.
fn three_stops(disk: &mut MemoryDisk, entry: &Entry, call: u64) -> Option<bool> {
    stop_after(disk, call);
    Some(!run_three(disk, entry)?)
}

// Whether a settling is stopped at a call.
fn settling_stops(disk: &mut MemoryDisk, call: u64) -> Option<bool> {
    stop_after(disk, call);
    Some(!settle(disk)?)
}

fn crash_and_settle(alloc: Global, disk: &mut MemoryDisk, torn: Torn) -> Option<bool> {
    crash(alloc, disk, torn)?;
    settle(disk)
}

fn has_both(disk: &MemoryDisk) -> bool {
    holds(disk, "o.csv", BOTH)
}

// Whether the output is the first run's, and both runs' after the second.
fn has_first(disk: &mut MemoryDisk, entry: &Entry) -> Option<bool> {
    let first = holds(disk, "o.csv", ONE_A);
    let done = run_second(disk, entry)?;
    Some(first && done && has_both(disk))
}

// Whether the disk holds the first run or both, and its files are those.
fn is_one_or_both(disk: &mut MemoryDisk, entry: &Entry, stopped: bool) -> Option<bool> {
    match entries(disk)? {
        2 => Some(has_both(disk)),
        1 => Some(stopped && has_first(disk, entry)?),
        _ => Some(false),
    }
}

fn second_is_kept(
    alloc: Global,
    disk: &mut MemoryDisk,
    entry: &Entry,
    torn: Torn,
    call: u64,
) -> Option<bool> {
    let stopped = second_stops(disk, entry, call)?;
    let settled = crash_and_settle(alloc, disk, torn)?;
    let ended = call < 63 || !stopped;
    Some(is_one_or_both(disk, entry, stopped)? && settled && ended)
}

fn entry_is_kept(alloc: Global, entry: &Entry, torn: Torn, call: u64) -> Option<bool> {
    let mut disk = after_one(alloc)?;
    second_is_kept(alloc, &mut disk, entry, torn, call)
}

fn a_run_is_kept(alloc: Global, torn: Torn, call: u64) -> Option<bool> {
    let entry = second_entry(alloc)?;
    entry_is_kept(alloc, &entry, torn, call)
}

// The second run stops at each call in turn. Behind the crash the disk holds the first run or both, and its files are those.
#[test]
fn a_run_that_stops(rt: HostRuntime) {
    for torn in TORN {
        for call in 0..64 {
            assert!(rt;
                a_run_is_kept(rt.alloc(), torn, call) == Some(true),
                "at {call}"
            );
        }
    }
}

// Settles a disk behind a crash, of which a first settling is stopped at a call.
fn settle_twice(alloc: Global, disk: &mut MemoryDisk, torn: Torn, call: u64) -> Option<bool> {
    crash(alloc, disk, torn)?;
    settling_stops(disk, call)?;
    crash_and_settle(alloc, disk, torn)
}

// Whether the disk holds the run of three outputs, or nothing of it and then it.
fn is_none_or_three(disk: &mut MemoryDisk, entry: &Entry, stopped: bool) -> Option<bool> {
    let done = if entries(disk)? == 0 {
        stopped && run_three(disk, entry)?
    } else {
        true
    };
    Some(done && holds_three(disk))
}

fn three_is_kept(
    alloc: Global,
    disk: &mut MemoryDisk,
    entry: &Entry,
    torn: Torn,
    call: u64,
) -> Option<bool> {
    let stopped = three_stops(disk, entry, call)?;
    let settled = settle_twice(alloc, disk, torn, call / 2)?;
    let ended = call < 63 || !stopped;
    Some(is_none_or_three(disk, entry, stopped)? && settled && ended)
}

fn three_are_kept(alloc: Global, entry: &Entry, torn: Torn, call: u64) -> Option<bool> {
    let mut disk = MemoryDisk::new(alloc);
    three_is_kept(alloc, &mut disk, entry, torn, call)
}

fn a_settling_is_kept(alloc: Global, torn: Torn, call: u64) -> Option<bool> {
    let entry = three_entry(alloc)?;
    three_are_kept(alloc, &entry, torn, call)
}

// A run with three outputs stops at one call, and the next settling at another; then the disk is settled.
#[test]
fn a_settling_that_stops(rt: HostRuntime) {
    for torn in TORN {
        for call in 0..64 {
            assert!(rt;
                a_settling_is_kept(rt.alloc(), torn, call) == Some(true),
                "at {call}"
            );
        }
    }
}

// The place of the closed gate on a disk that is settled.
fn gate<D: Disk>(disk: &mut D, files: &CommitFiles) -> Option<u64> {
    settle_disk(disk, &files.ledger, &files.stage).ok()
}

fn starts<D: Disk>(disk: &mut D, files: &CommitFiles) -> bool {
    start(disk, &files.stage).is_ok()
}

fn puts<D: Disk>(disk: &mut D, files: &CommitFiles, text: &[u8]) -> bool {
    let (mut staged, mut mark) = (0, Mark::none());
    put(disk, &files.stage, &mut staged, 0, &mut mark, text).is_ok()
}

// No gate lies further on.
const FAR: u64 = 4_000_000_000;

fn seals<D: Disk>(disk: &mut D, files: &CommitFiles, place: u64, entry: &Entry) -> bool {
    place < FAR && seal(disk, &files.ledger, &files.stage, place, entry).is_ok()
}

fn opens<D: Disk>(disk: &mut D, files: &CommitFiles, place: u64) -> bool {
    place < FAR && open_gate(disk, &files.ledger, place).is_ok()
}

fn is_sealed<D: Disk>(disk: &mut D, files: &CommitFiles, place: u64, entry: &Entry) -> bool {
    starts(disk, files) && puts(disk, files, SECOND[0].text) && seals(disk, files, place, entry)
}

fn stops_at(disk: &mut MemoryDisk, files: &CommitFiles, place: u64) -> bool {
    stop_after(disk, 0);
    !opens(disk, files, place)
}

// The second run is sealed and stops at the write of its gate.
fn stops_at_the_gate(disk: &mut MemoryDisk, entry: &Entry) -> Option<bool> {
    let files = files()?;
    let place = gate(disk, &files)?;
    Some(is_sealed(disk, &files, place, entry) && stops_at(disk, &files, place))
}

// Whether so many entries are there, and both behind the second run where it wasn't done.
fn has_so_many(disk: &mut MemoryDisk, entry: &Entry, count: u64) -> Option<bool> {
    let there = entries(disk)?;
    let done = there == 2 || run_second(disk, entry)?;
    Some(there == count && done && has_both(disk))
}

// Whether so many entries are there behind a crash and a settling, and then both.
fn is_settled(disk: &mut MemoryDisk, entry: &Entry, count: u64) -> Option<bool> {
    let settled = settle(disk)?;
    Some(settled && has_so_many(disk, entry, count)?)
}

fn is_left(alloc: Global, disk: &mut MemoryDisk, entry: &Entry, byte: u8) -> Option<bool> {
    let stopped = stops_at_the_gate(disk, entry)?;
    crash(alloc, disk, Torn::Filled(byte))?;
    Some(stopped)
}

fn entry_is_left(alloc: Global, entry: &Entry, byte: u8, count: u64) -> Option<bool> {
    let mut disk = after_one(alloc)?;
    let left = is_left(alloc, &mut disk, entry, byte)?;
    Some(left && is_settled(&mut disk, entry, count)?)
}

// A crash leaves one byte or another of the gate.
fn gate_is_left(alloc: Global, byte: u8, count: u64) -> Option<bool> {
    let entry = second_entry(alloc)?;
    entry_is_left(alloc, &entry, byte, count)
}

// With the gate's byte the second run is done, and with another it wasn't.
#[test]
fn a_stop_at_the_gate(rt: HostRuntime) {
    assert!(rt; gate_is_left(rt.alloc(), 0xA5, 2) == Some(true));
    assert!(rt; gate_is_left(rt.alloc(), 0x37, 1) == Some(true));
}

fn three_stopped(alloc: Global, entry: &Entry, call: u64) -> Option<MemoryDisk> {
    let mut disk = MemoryDisk::new(alloc);
    three_stops(&mut disk, entry, call)?;
    Some(disk)
}

// A run with three outputs stops behind the write of the second.
fn stopped_behind_two(alloc: Global, entry: &Entry) -> Option<MemoryDisk> {
    for call in 0..64 {
        let disk = three_stopped(alloc, entry, call)?;
        if holds(&disk, "out_b.csv", b"v\n2\n") {
            return Some(disk);
        }
    }
    None
}

const BESIDE: Torn = Torn::Filled(0x37);

// Whether a settling behind a crash isn't stopped, where the call is its last or comes behind.
fn stops_within(alloc: Global, disk: &mut MemoryDisk, call: u64) -> Option<bool> {
    crash(alloc, disk, BESIDE)?;
    let stopped = settling_stops(disk, call)?;
    Some(call < 31 || !stopped)
}

fn is_finished(alloc: Global, disk: &mut MemoryDisk, call: u64) -> Option<bool> {
    let empty = holds(disk, "out_c.csv", b"");
    let ended = stops_within(alloc, disk, call)?;
    let settled = crash_and_settle(alloc, disk, BESIDE)?;
    Some(empty && ended && settled && holds_three(disk))
}

fn stopped_among_three(alloc: Global) -> Option<MemoryDisk> {
    let entry = three_entry(alloc)?;
    stopped_behind_two(alloc, &entry)
}

fn outputs_are_finished(alloc: Global, call: u64) -> Option<bool> {
    let mut disk = stopped_among_three(alloc)?;
    is_finished(alloc, &mut disk, call)
}

// Behind such a stop the settling stops at each of its calls in turn, the first sync of an output among them; the next
// settling is whole.
#[test]
fn a_stop_among_the_outputs(rt: HostRuntime) {
    for call in 0..32 {
        assert!(rt;
            outputs_are_finished(rt.alloc(), call) == Some(true),
            "at {call}"
        );
    }
}

// A run of two texts through the trait of stages; none for one name.
#[tactic(auto, using(ledger::proofs::Pairs::lists_apart))]
fn commit_two<D: Disk>(
    alloc: Global,
    disk: &mut D,
    entry: &mut Entry,
    first: &Name,
    second: &Name,
) -> Option<Result<(), Stopped>> {
    let files = files()?;
    entry.outputs = OutputList::new(alloc);
    let (one, two) = (THREE[0].text, THREE[1].text);
    if *first != *second {
        return Some(commit_two_texts(disk, files, entry, first, one, second, two));
    }
    None
}

fn commit_named<D: Disk>(
    alloc: Global,
    disk: &mut D,
    entry: &mut Entry,
) -> Option<Result<(), Stopped>> {
    let first = named(THREE[0].name)?;
    let second = named(THREE[1].name)?;
    commit_two(alloc, disk, entry, &first, &second)
}

fn run_two_texts<D: Disk>(alloc: Global, disk: &mut D, from: u8) -> Option<Result<(), Stopped>> {
    let mut entry = entry_of(alloc, from, from.wrapping_add(3), 1, &[])?;
    commit_named(alloc, disk, &mut entry)
}

// Whether so many runs are there as the second told.
fn is_told(ended: Result<(), Stopped>, there: u64) -> bool {
    match ended {
        Ok(()) => there == 2,
        Err(Stopped::BeforeGate) => there == 1,
        Err(_) => true,
    }
}

fn have_size(disk: &MemoryDisk, size: usize) -> bool {
    size_of(disk, "out_a.csv") == Some(size) && size_of(disk, "out_b.csv") == Some(size)
}

// Whether the disk holds one run or two, as the second ended.
fn has_ended(disk: &mut MemoryDisk, ended: Result<(), Stopped>) -> Option<bool> {
    let there = entries(disk)?;
    let size = if there == 2 { 8 } else { 4 };
    Some(is_told(ended, there) && have_size(disk, size))
}

// How the second of two runs ends that is stopped at a call, where the first is done.
fn end_of_two(alloc: Global, disk: &mut MemoryDisk, call: u64) -> Option<Result<(), Stopped>> {
    if run_two_texts(alloc, disk, 0)?.is_err() {
        return None;
    }
    stop_after(disk, call);
    run_two_texts(alloc, disk, 3)
}

fn two_texts_are_kept(alloc: Global, disk: &mut MemoryDisk, torn: Torn, call: u64) -> Option<bool> {
    let ended = end_of_two(alloc, disk, call)?;
    let settled = crash_and_settle(alloc, disk, torn)?;
    let whole = call < 63 || ended.is_ok();
    Some(whole && settled && has_ended(disk, ended)?)
}

fn two_runs_are_kept(alloc: Global, torn: Torn, call: u64) -> Option<bool> {
    let mut disk = MemoryDisk::new(alloc);
    two_texts_are_kept(alloc, &mut disk, torn, call)
}

// The second of two such runs stops at each call in turn, and the disk holds one run or two.
#[test]
fn a_run_of_two_texts_that_stops(rt: HostRuntime) {
    for torn in TORN {
        for call in 0..64 {
            assert!(rt;
                two_runs_are_kept(rt.alloc(), torn, call) == Some(true),
                "at {call}"
            );
        }
    }
}
