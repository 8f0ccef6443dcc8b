// Kept places that are loaded and that advance.
use crate::entries::{COLUMNS, INPUT, ONE, Read, TWO, disk_with, entry_of, named};
use crate::standings::{add, add_names};
use ledger::{LedgerRefused, Part2, walk};
use lp_outside::Disk;
use memory_outside::MemoryDisk;
use positions::{LoadFault, Place, Positions};
use std::alloc::Global;

const FIRST: [Read<'static>; 2] = [
    Read {
        identity: "a.log",
        from: 0,
        to: 3,
        standing: ONE,
    },
    Read {
        identity: "w.log",
        from: 0,
        to: 97,
        standing: COLUMNS,
    },
];

const SECOND: [Read<'static>; 2] = [
    Read {
        identity: "a.log",
        from: 3,
        to: 5,
        standing: TWO,
    },
    Read {
        identity: "b.log",
        from: 0,
        to: 2,
        standing: ONE,
    },
];

// The places behind both runs.
const BEHIND: &str = "a.log 5 2;b.log 2 1;w.log 97 2 a bc;";

fn add_columns(to: &mut String, place: &Place) -> Option<()> {
    match place.standing.columns() {
        Some(columns) => add_names(to, columns.as_slice()),
        None => Some(()),
    }
}

fn add_place(alloc: Global, to: &mut String, name: &str, place: &Place) -> Option<()> {
    let lines = place.standing.lines();
    let front = format!(in alloc; "{name} {} {lines}", place.to).ok()?;
    add(to, front.as_str())?;
    add_columns(to, place)?;
    add(to, ";")
}

fn add_log(alloc: Global, to: &mut String, positions: &Positions, name: &str) -> Option<()> {
    let identity = named(name)?;
    match positions.place(&identity) {
        Some(place) => add_place(alloc, to, name, place),
        None => Some(()),
    }
}

// Some logs with their kept places, and the lines and columns there.
fn show(alloc: Global, positions: &Positions) -> Option<String> {
    let mut to = String::new(alloc);
    for name in ["a.log", "b.log", "c.log", "w.log"] {
        add_log(alloc, &mut to, positions, name)?;
    }
    Some(to)
}

fn load<D: Disk>(alloc: Global, disk: &mut D) -> Option<Result<Positions, LoadFault>> {
    let ledger = named("cp")?;
    Some(Positions::load(alloc, disk, &ledger))
}

/// The kept places of the ledger `cp`, where they are loaded.
pub fn loaded<D: Disk>(alloc: Global, disk: &mut D) -> Option<Positions> {
    load(alloc, disk)?.ok()
}

fn show_fault(alloc: Global, fault: LoadFault) -> Option<String> {
    format!(in alloc; "{fault}").ok()
}

fn shown<D: Disk>(alloc: Global, disk: &mut D) -> Option<String> {
    match load(alloc, disk)? {
        Ok(positions) => show(alloc, &positions),
        Err(fault) => show_fault(alloc, fault),
    }
}

fn is_shown<D: Disk>(alloc: Global, disk: &mut D, wanted: &str) -> Option<bool> {
    let shown = shown(alloc, disk)?;
    Some(shown.as_str() == wanted)
}

fn are_kept(alloc: Global, runs: &[&[Read]], wanted: &str) -> Option<bool> {
    let mut disk = disk_with(alloc, runs)?;
    is_shown(alloc, &mut disk, wanted)
}

// What is kept is the end of each log's last span, with the columns there.
#[test]
fn last_places_are_kept(rt: HostRuntime) {
    let rows: [(&[&[Read]], &str); 4] = [
        (&[], ""),
        (&[&FIRST], "a.log 3 1;w.log 97 2 a bc;"),
        (&[&FIRST, &SECOND], BEHIND),
        (&[&FIRST, &[], &SECOND], BEHIND),
    ];
    for (runs, wanted) in rows {
        assert!(rt;
            are_kept(rt.alloc(), runs, wanted) == Some(true),
            "{wanted}"
        );
    }
}

fn shown_up_to<D: Disk>(alloc: Global, disk: &mut D) -> Option<String> {
    let ledger = named("cp")?;
    let end = walk(disk, &ledger).ok()?;
    match Positions::load_up_to(alloc, disk, &ledger, end) {
        Ok(positions) => show(alloc, &positions),
        Err(fault) => show_fault(alloc, fault),
    }
}

fn are_kept_up_to(alloc: Global, runs: &[&[Read]], wanted: &str) -> Option<bool> {
    let mut disk = disk_with(alloc, runs)?;
    let shown = shown_up_to(alloc, &mut disk)?;
    Some(shown.as_str() == wanted)
}

// The same of a ledger whose end is known.
#[test]
fn places_are_kept_up_to_a_known_end(rt: HostRuntime) {
    assert!(rt; are_kept_up_to(rt.alloc(), &[&FIRST, &SECOND], BEHIND) == Some(true));
}

fn is_input<D: Disk>(alloc: Global, disk: &mut D, wanted: Option<&[u8]>) -> Option<bool> {
    let positions = loaded(alloc, disk)?;
    Some(positions.input() == wanted)
}

fn no_input_is_kept(alloc: Global) -> Option<bool> {
    let mut none = MemoryDisk::new(alloc);
    is_input(alloc, &mut none, None)
}

fn input_is_kept(alloc: Global) -> Option<bool> {
    let mut disk = disk_with(alloc, &[&FIRST, &SECOND])?;
    is_input(alloc, &mut disk, Some(INPUT.as_bytes()))
}

// An absent ledger has no entries, and keeps no input text; another one keeps that of its entries.
#[test]
fn the_input_text_is_kept(rt: HostRuntime) {
    assert!(rt; no_input_is_kept(rt.alloc()) == Some(true));
    assert!(rt; input_is_kept(rt.alloc()) == Some(true));
}

fn damage<D: Disk>(disk: &mut D, place: u64) -> Option<()> {
    let ledger = named("cp")?;
    disk.write_at(&ledger, place, &[0xFF]).ok()
}

// Where a load refuses the ledger.
fn refused_load<D: Disk>(alloc: Global, disk: &mut D) -> Option<u64> {
    match load(alloc, disk)? {
        Err(
            LoadFault::LedgerFault {
                part: Part2::Ledger,
                at,
            },
        ) => Some(at),
        _ => None,
    }
}

// Where the walk refuses the ledger.
fn refused_walk<D: Disk>(disk: &mut D) -> Option<u64> {
    let ledger = named("cp")?;
    match walk(disk, &ledger) {
        Err(LedgerRefused::LedgerFault { at, .. }) => Some(at),
        _ => None,
    }
}

fn is_refused_alike<D: Disk>(alloc: Global, disk: &mut D, place: u64) -> Option<bool> {
    damage(disk, place)?;
    let found = refused_load(alloc, disk);
    Some(found == refused_walk(disk))
}

fn damage_is_told(alloc: Global, place: u64) -> Option<bool> {
    let mut disk = disk_with(alloc, &[&FIRST])?;
    is_refused_alike(alloc, &mut disk, place)
}

// How many calls of its disk a load takes.
fn calls_of_load(alloc: Global) -> Option<u64> {
    let mut disk = disk_with(alloc, &[&FIRST, &SECOND])?;
    let before = disk.calls();
    if is_shown(alloc, &mut disk, BEHIND) == Some(true) {
        Some(disk.calls().wrapping_sub(before))
    } else {
        None
    }
}

fn disk_that_fails(alloc: Global, call: u64) -> Option<MemoryDisk> {
    let mut disk = disk_with(alloc, &[&FIRST, &SECOND])?;
    if disk.fail(call).is_ok() {
        Some(disk)
    } else {
        None
    }
}

fn fails_once<D: Disk>(alloc: Global, disk: &mut D) -> Option<bool> {
    let failed = is_shown(alloc, disk, "a disk failed")?;
    Some(failed && is_shown(alloc, disk, BEHIND)?)
}

fn fault_is_told(alloc: Global, call: u64) -> Option<bool> {
    let mut disk = disk_that_fails(alloc, call)?;
    fails_once(alloc, &mut disk)
}

// A damaged ledger is refused where the walk refuses it; a disk that fails in any call of the load is told.
#[test]
fn damage_and_faults_are_told(rt: HostRuntime) {
    for place in [0, 18, 26, 105, 200] {
        assert!(rt;
            damage_is_told(rt.alloc(), place) == Some(true),
            "at {place}"
        );
    }
    let calls = calls_of_load(rt.alloc()).unwrap_or(100);
    assert!(rt; calls < 100);
    for call in 0..calls {
        assert!(rt; fault_is_told(rt.alloc(), call) == Some(true), "at {call}");
    }
}

fn new_positions(alloc: Global) -> Option<Positions> {
    let mut none = MemoryDisk::new(alloc);
    loaded(alloc, &mut none)
}

fn advance(alloc: Global, positions: &mut Positions, reads: &[Read]) -> Option<()> {
    let entry = entry_of(alloc, reads)?;
    positions.advance(alloc, &entry).ok()
}

fn is_now(alloc: Global, positions: &Positions, wanted: &str) -> Option<bool> {
    let shown = show(alloc, positions)?;
    Some(shown.as_str() == wanted && positions.input() == Some(INPUT.as_bytes()))
}

fn is_advanced(
    alloc: Global,
    positions: &mut Positions,
    reads: &[Read],
    wanted: &str,
) -> Option<bool> {
    advance(alloc, positions, reads)?;
    is_now(alloc, positions, wanted)
}

fn both_advance(alloc: Global, positions: &mut Positions) -> Option<bool> {
    let first = is_advanced(alloc, positions, &FIRST, "a.log 3 1;w.log 97 2 a bc;")?;
    Some(first && is_advanced(alloc, positions, &SECOND, BEHIND)?)
}

fn places_advance(alloc: Global) -> Option<bool> {
    let mut positions = new_positions(alloc)?;
    both_advance(alloc, &mut positions)
}

// Places that advance over entries are those that a ledger of these entries keeps.
#[test]
fn advanced_places_are_those_loaded(rt: HostRuntime) {
    assert!(rt; places_advance(rt.alloc()) == Some(true));
}
