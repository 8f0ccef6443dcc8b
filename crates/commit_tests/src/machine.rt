// Runs over files of the machine.
use crate::entries::{BOTH, ONE_A, first_entry, named, second_entry};
use crate::runs::{end_of, run_first, run_second, settle};
use lp_outside::Disk;
use std::alloc::Global;
use std::fs;
use std::io::ErrorKind;
use system_outside::FileDisk;

fn removes(rt: &HostRuntime, name: &str) -> bool {
    match fs::remove_file(rt, name) {
        Err(e) => e.kind() == ErrorKind::NotFound,
        Ok(()) => true,
    }
}

// Takes away what runs leave.
fn clears(rt: &HostRuntime) -> bool {
    removes(rt, "cp") && removes(rt, "cp.stage") && removes(rt, "o.csv")
}

fn length<D: Disk>(disk: &mut D) -> Option<u64> {
    let output = named("o.csv")?;
    disk.length(&output).ok()
}

fn reads<D: Disk>(disk: &mut D, bytes: &[u8]) -> Option<bool> {
    let output = named("o.csv")?;
    let mut read = [0u8; 64];
    let count = disk.read_at(&output, 0, &mut read).ok()?;
    Some(read.get(..count)? == bytes)
}

// Whether another handle reads just these bytes of the output.
fn holds(rt: &HostRuntime, bytes: &[u8]) -> bool {
    let mut disk = FileDisk::new(rt);
    length(&mut disk) == Some(bytes.len() as u64) && reads(&mut disk, bytes) == Some(true)
}

fn first_is_done<D: Disk>(alloc: Global, disk: &mut D) -> bool {
    match first_entry(alloc) {
        Some(entry) => run_first(disk, &entry) == Some(true),
        None => false,
    }
}

fn second_is_done<D: Disk>(alloc: Global, disk: &mut D) -> bool {
    match second_entry(alloc) {
        Some(entry) => run_second(disk, &entry) == Some(true),
        None => false,
    }
}

fn pair_of<D: Disk>(disk: &mut D) -> Option<u64> {
    Some(end_of(disk)?.pair)
}

// The place of the second run's pair, where both are done and seen.
fn both_are_done<D: Disk>(rt: &HostRuntime, disk: &mut D) -> Option<u64> {
    let first = first_is_done(rt.alloc(), disk) && holds(rt, ONE_A);
    let pair = pair_of(disk)?;
    let second = second_is_done(rt.alloc(), disk) && holds(rt, BOTH);
    if first && second { Some(pair) } else { None }
}

fn two_runs(rt: &HostRuntime) -> Option<u64> {
    let mut disk = FileDisk::new(rt);
    both_are_done(rt, &mut disk)
}

fn undo<D: Disk>(disk: &mut D, place: u64) -> Option<()> {
    let ledger = named("cp")?;
    disk.write_at(&ledger, place, &[0]).ok()
}

fn tear<D: Disk>(disk: &mut D) -> Option<()> {
    let output = named("o.csv")?;
    disk.cut(&output, 16).ok()
}

// Tears the output of the second of two runs, and settles the disk.
fn torn_is_settled<D: Disk>(disk: &mut D, pair: u64) -> Option<bool> {
    let entries = end_of(disk)?.entries;
    undo(disk, pair.saturating_add(1))?;
    tear(disk)?;
    Some(settle(disk)? && entries == 2)
}

fn is_settled(rt: &HostRuntime, pair: u64) -> bool {
    let mut next = FileDisk::new(rt);
    torn_is_settled(&mut next, pair) == Some(true) && holds(rt, BOTH)
}

fn is_whole(rt: &HostRuntime) -> bool {
    match two_runs(rt) {
        Some(pair) => is_settled(rt, pair),
        None => false,
    }
}

// Two runs, of which the second adds to the output; then the output is torn as if the second had stopped behind its gate, and
// the next settling makes it whole.
#[test]
fn two_runs_and_a_stop(rt: HostRuntime) {
    assert!(rt; clears(&rt) && is_whole(&rt) && clears(&rt));
}
