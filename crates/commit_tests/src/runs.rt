// Runs over a disk. Each call has a function of its own, so that a caller's proof carries no more than its answer: `None`
// is what no run may come to, as want of memory.
use crate::entries::{FIRST, SECOND, THREE, Written, first_entry, named};
use commit::{Commit, CommitFiles};
use ledger::{End, Entry, walk};
use lp_outside::{Disk, Mark, Name, Stage};
use memory_outside::{MemoryDisk, Torn, TornList};
use std::alloc::Global;

pub fn files() -> Option<CommitFiles> {
    let ledger = named("cp")?;
    let stage = named("cp.stage")?;
    Some(CommitFiles { ledger, stage })
}

fn held<S: Stage>(stage: &mut S, name: &Name) -> Option<u64> {
    stage.held(name).ok()
}

fn put<S: Stage>(stage: &mut S, index: u32, name: &Name, base: u64, text: &[u8]) -> Option<Mark> {
    let mut mark = Mark::none();
    match stage.put(index, name, base, &mut mark, text) {
        Ok(()) => Some(mark),
        Err(_) => None,
    }
}

pub fn close<S: Stage>(stage: &mut S, name: &Name, base: u64, mark: &Mark) -> bool {
    stage.close(name, base, mark).is_ok()
}

// Puts a text at a place, and ends it.
fn stage_at<S: Stage>(stage: &mut S, index: u32, name: &Name, base: u64, text: &[u8]) -> bool {
    match put(stage, index, name, base, text) {
        Some(mark) => close(stage, name, base, &mark),
        None => false,
    }
}

// Puts a text behind what its file holds.
fn stage_named<S: Stage>(stage: &mut S, index: u32, name: &Name, output: &Written) -> Option<bool> {
    match held(stage, name) {
        Some(base) if base != u64::from(output.base) => None,
        Some(base) => Some(stage_at(stage, index, name, base, output.text)),
        None => Some(false),
    }
}

fn stage_one<S: Stage>(stage: &mut S, index: u32, output: &Written) -> Option<bool> {
    let name = named(output.name)?;
    stage_named(stage, index, &name, output)
}

// Whether all texts are put.
fn stage_all<S: Stage>(stage: &mut S, outputs: &[Written]) -> Option<bool> {
    let mut index: u32 = 0;
    for output in outputs {
        if !stage_one(stage, index, output)? {
            return Some(false);
        }
        index = index.wrapping_add(1);
    }
    Some(true)
}

fn settles<'d, D: Disk>(commit: &mut Commit<'d, D>) -> bool {
    commit.settle().is_ok()
}

fn starts<'d, D: Disk>(commit: &mut Commit<'d, D>) -> bool {
    commit.start().is_ok()
}

fn seals<'d, D: Disk>(commit: &mut Commit<'d, D>, entry: &Entry) -> bool {
    commit.seal(entry).is_ok()
}

fn opens<'d, D: Disk>(commit: &mut Commit<'d, D>) -> bool {
    commit.open_gate().is_ok()
}

fn finishes<'d, D: Disk>(commit: &mut Commit<'d, D>) -> bool {
    commit.finish().is_ok()
}

/// Whether the disk is settled and the stage emptied.
pub fn begins<'d, D: Disk>(commit: &mut Commit<'d, D>) -> bool {
    settles(commit) && starts(commit)
}

/// Whether an entry is sealed and opened.
pub fn seals_and_opens<'d, D: Disk>(commit: &mut Commit<'d, D>, entry: &Entry) -> bool {
    seals(commit, entry) && opens(commit)
}

// Whether the stage is emptied, and all texts are put there.
fn stages<'d, D: Disk>(commit: &mut Commit<'d, D>, outputs: &[Written]) -> Option<bool> {
    if begins(commit) {
        stage_all(commit, outputs)
    } else {
        Some(false)
    }
}

fn ends<'d, D: Disk>(
    commit: &mut Commit<'d, D>,
    outputs: &[Written],
    entry: &Entry,
) -> Option<bool> {
    let staged = stages(commit, outputs)?;
    Some(staged && seals_and_opens(commit, entry) && finishes(commit))
}

/// A whole run: the disk is settled, texts are staged, and an entry is sealed, opened and finished. Whether no call failed.
pub fn run<D: Disk>(disk: &mut D, outputs: &[Written], entry: &Entry) -> Option<bool> {
    let mut commit = Commit::new(disk, files()?);
    ends(&mut commit, outputs, entry)
}

/// Settles a disk. Whether no call failed.
pub fn settle<D: Disk>(disk: &mut D) -> Option<bool> {
    let mut commit = Commit::new(disk, files()?);
    Some(settles(&mut commit))
}

/// Where the ledger ends.
pub fn end_of<D: Disk>(disk: &mut D) -> Option<End> {
    let ledger = named("cp")?;
    walk(disk, &ledger).ok()
}

/// How many entries the ledger has.
pub fn entries<D: Disk>(disk: &mut D) -> Option<u64> {
    Some(end_of(disk)?.entries)
}

/// How many bytes a file of a disk in memory has.
pub fn size_of(disk: &MemoryDisk, name: &str) -> Option<usize> {
    let name = named(name)?;
    Some(disk.bytes(&name).len())
}

/// Whether a file of a disk in memory has just these bytes.
pub fn holds(disk: &MemoryDisk, name: &str, bytes: &[u8]) -> bool {
    match named(name) {
        Some(name) => disk.bytes(&name) == bytes,
        None => false,
    }
}

/// Whether each output's file is its text.
pub fn holds_three(disk: &MemoryDisk) -> bool {
    for output in THREE {
        if !holds(disk, output.name, output.text) {
            return false;
        }
    }
    true
}

pub fn run_first<D: Disk>(disk: &mut D, entry: &Entry) -> Option<bool> {
    run(disk, &FIRST, entry)
}

pub fn run_second<D: Disk>(disk: &mut D, entry: &Entry) -> Option<bool> {
    run(disk, &SECOND, entry)
}

pub fn run_three<D: Disk>(disk: &mut D, entry: &Entry) -> Option<bool> {
    run(disk, &THREE, entry)
}

fn after(alloc: Global, entry: &Entry) -> Option<MemoryDisk> {
    let mut disk = MemoryDisk::new(alloc);
    if run_first(&mut disk, entry) == Some(true) {
        Some(disk)
    } else {
        None
    }
}

/// The disk after the first run.
pub fn after_one(alloc: Global) -> Option<MemoryDisk> {
    let entry = first_entry(alloc)?;
    after(alloc, &entry)
}

// What a crash makes of the unsynced calls, all alike.
fn torn_list(alloc: Global, torn: Torn) -> Option<TornList> {
    let mut list = TornList::new(alloc);
    for _index in 0..24 {
        list.push(torn).ok()?;
    }
    Some(list)
}

/// A crash that makes the same of all unsynced calls.
pub fn crash(alloc: Global, disk: &mut MemoryDisk, torn: Torn) -> Option<()> {
    let list = torn_list(alloc, torn)?;
    disk.crash(&list).ok()
}

pub fn stop_after(disk: &mut MemoryDisk, call: u64) {
    disk.stop_after(call);
}
