// A ledger byte for byte, and where it is damaged.
use crate::entries::{ONE_A, first_entry, named};
use crate::runs::{after_one, begins, close, end_of, files, holds, seals_and_opens};
use commit::{Commit, settle_known};
use ledger::{End, Entry, LastEntry, LedgerRefused, Output, OutputList, Part2, walk};
use lp_outside::{Disk, Mark, Name, Stage};
use lp_values::{Bytes, Part, Real, Stamp, Text, Value, ValueList, read_integer};
use memory_outside::MemoryDisk;
use std::alloc::Global;

// The ledger after the first run: its mark and the pair, the payload line by line, and the closed pair.
const LEDGER: &[u8] = b"\
LPCHECKPOINT0001\xA5\x5A\x1F\x01\0\0\0\0\0\0\
\x01\0\0\0\0\0\0\0\0\
\x3A\0\0\0-i:TEXTLINE -headerRow:ON -iSeparator:tab -iRotation:NAMES\
\x03\0\0\0\x0B\0\0\0-i:TEXTLINE\x0F\0\0\0-iCheckpoint:cp\x0B\0\0\0-fileMode:0\
\x28\0\0\0SELECT Index, Text INTO o.csv FROM a.log\0\0\0\0\
\x01\0\0\0\x05\0\0\0a.log\0\0\0\0\0\0\0\0\x03\0\0\0\0\0\0\0\x09\0\0\0\x01\0\0\0\0\0\0\0\0\
\0\0\0\0\x27\0\0\0\0\0\0\0\
\x01\0\0\0\x05\0\0\0o.csv\0\0\0\0\0\0\0\0\x0F\0\0\0\0\0\0\0\0\0\0\0\0\0\0\0\
\x01\0\0\0\0\0\0\0\x01\0\0\0\0\0\0\0\0\0\0\0\0\0\0\0\
\0\0";

// The stage after the first run.
const STAGE: &[u8] =
    b"\xFF\xFF\xFF\xFF\xFF\xFF\xFF\xFF\0\0\0\0\0\0\0\0\0\0\0\0\x0F\0\0\0Index,Text\n1,a\n";

fn length_of<D: Disk>(disk: &mut D) -> Option<u64> {
    let ledger = named("cp")?;
    disk.length(&ledger).ok()
}

fn first_end() -> End {
    let last = LastEntry {
        pair: 16,
        payload: 26,
        length: 287,
        done: true,
    };
    End {
        entries: 1,
        last: Some(last),
        pair: 313,
    }
}

fn has_end<D: Disk>(disk: &mut D) -> bool {
    end_of(disk) == Some(first_end())
}

fn is_ledger(disk: &mut MemoryDisk) -> bool {
    holds(disk, "cp", LEDGER) && has_end(disk) && length_of(disk) == Some(315)
}

fn is_first(disk: &mut MemoryDisk) -> bool {
    is_ledger(disk) && holds(disk, "cp.stage", STAGE) && holds(disk, "o.csv", ONE_A)
}

fn first_is_written(alloc: Global) -> Option<bool> {
    let mut disk = after_one(alloc)?;
    Some(is_first(&mut disk))
}

#[test]
fn a_ledger_byte_for_byte(rt: HostRuntime) {
    assert!(rt; first_is_written(rt.alloc()) == Some(true));
}

// A byte of the ledger that is changed, by its place, and where the ledger is damaged then.
const DAMAGES: &str = "\
0 108 => 0
18 30 => 305
18 32 => 18
25 1 => 18
26 2 => 26
34 128 => 27
35 59 => 35
39 120 => 35
105 255 => 101
154 255 => 150
200 2 => 198
202 0 => 202
211 4 => 219
231 4 => 227
239 2 => 227
254 1 => 252
256 0 => 256
272 128 => 273";

fn number(text: &str) -> Option<u64> {
    u64::try_from(read_integer(text)?).ok()
}

fn byte(text: &str) -> Option<u8> {
    u8::try_from(read_integer(text)?).ok()
}

fn damage<D: Disk>(disk: &mut D) -> Option<u64> {
    let ledger = named("cp")?;
    match walk(disk, &ledger) {
        Err(
            LedgerRefused::LedgerFault {
                part: Part2::Ledger,
                at,
            },
        ) => Some(at),
        _ => None,
    }
}

fn change<D: Disk>(disk: &mut D, place: u64, byte: u8) -> Option<()> {
    let ledger = named("cp")?;
    disk.write_at(&ledger, place, &[byte]).ok()
}

// Where a ledger is damaged with another byte at a place.
fn damage_with<D: Disk>(disk: &mut D, place: u64, byte: u8) -> Option<u64> {
    change(disk, place, byte)?;
    damage(disk)
}

// Where the ledger after the first run is damaged so.
fn damage_by(alloc: Global, place: u64, byte: u8) -> Option<u64> {
    let mut disk = after_one(alloc)?;
    damage_with(&mut disk, place, byte)
}

fn damage_of(alloc: Global, change: &str) -> Option<u64> {
    let (place, new) = change.split_once(' ')?;
    damage_by(alloc, number(place)?, byte(new)?)
}

fn is_damaged(alloc: Global, row: &str) -> Option<bool> {
    let (change, want) = row.split_once(" => ")?;
    let at = damage_of(alloc, change)?;
    Some(at == number(want)?)
}

#[test]
fn a_ledger_that_is_damaged(rt: HostRuntime) {
    for row in DAMAGES.lines() {
        assert!(rt; is_damaged(rt.alloc(), row) == Some(true), "{row}");
    }
}

// A text that is longer than what waits for others.
fn long_text(alloc: Global) -> Option<Text> {
    let mut long = String::new(alloc);
    for _index in 0..500 {
        long.push_str("0123456789").ok()?;
    }
    Some(Text::from_string(long))
}

fn add(values: &mut ValueList, value: Value) -> Option<()> {
    values.push(value).ok()
}

fn add_text(values: &mut ValueList, text: Text) -> Option<()> {
    values.push(Value::Text(text)).ok()
}

fn add_plain(values: &mut ValueList) -> Option<()> {
    add(values, Value::Null)?;
    add(values, Value::Int(-2))?;
    add(values, Value::Real(Real { millionths: 513 }))
}

fn add_short(alloc: Global, values: &mut ValueList) -> Option<()> {
    add_text(values, Text::from_str(alloc, "ab").ok()?)
}

fn add_stamp(values: &mut ValueList) -> Option<()> {
    add(values, Value::Stamp(Stamp::new(86_400, Part::Date)?))
}

fn add_long(alloc: Global, values: &mut ValueList) -> Option<()> {
    add_text(values, long_text(alloc)?)
}

fn add_others(alloc: Global, values: &mut ValueList) -> Option<()> {
    add_short(alloc, values)?;
    add_stamp(values)?;
    add_long(alloc, values)
}

// A list with a value of each kind.
fn many_values(alloc: Global) -> Option<ValueList> {
    let mut values = ValueList::new(alloc);
    add_plain(&mut values)?;
    add_others(alloc, &mut values)?;
    Some(values)
}

// What those values are in a ledger, up to the last text's bytes.
const VALUES: &[u8] =
    b"\x01\0\0\0\x06\0\0\0\0\0\0\0\0\x01\xFE\xFF\xFF\xFF\xFF\xFF\xFF\xFF\x02\x01\x02\0\0\0\0\0\0\x03\x02\0\0\0ab\x04\0\x80\x51\x01\0\0\0\0\0\x03\x88\x13\0\00123456789";

fn entry_with_values(alloc: Global) -> Option<Entry> {
    let mut entry = first_entry(alloc)?;
    entry.lists.push(many_values(alloc)?).ok()?;
    Some(entry)
}

// The disk behind an entry that is sealed and opened; none of its texts is staged.
fn sealed(alloc: Global, entry: &Entry) -> Option<MemoryDisk> {
    let mut disk = MemoryDisk::new(alloc);
    let opened = seal_and_open(&mut disk, entry)?;
    if opened { Some(disk) } else { None }
}

fn seal_and_open<D: Disk>(disk: &mut D, entry: &Entry) -> Option<bool> {
    let mut commit = Commit::new(disk, files()?);
    Some(is_opened(&mut commit, entry))
}

fn is_opened<'d, D: Disk>(commit: &mut Commit<'d, D>, entry: &Entry) -> bool {
    begins(commit) && seals_and_opens(commit, entry)
}

// Whether there is one entry, and its next pair at a place.
fn has_one<D: Disk>(disk: &mut D, pair: u64) -> Option<bool> {
    let end = end_of(disk)?;
    Some(end.entries == 1 && end.pair == pair)
}

fn has_values(disk: &MemoryDisk) -> Option<bool> {
    let ledger = named("cp")?;
    Some(disk.bytes(&ledger).get(240..)?.starts_with(VALUES))
}

fn sealed_values(alloc: Global, entry: &Entry) -> Option<bool> {
    let mut disk = sealed(alloc, entry)?;
    Some(has_one(&mut disk, 16 + 10 + 5336)? && has_values(&disk)?)
}

fn values_are_kept(alloc: Global) -> Option<bool> {
    let entry = entry_with_values(alloc)?;
    Some(entry.size() == 5336 && sealed_values(alloc, &entry)?)
}

#[test]
fn an_entry_with_values(rt: HostRuntime) {
    assert!(rt; values_are_kept(rt.alloc()) == Some(true));
}

// So many bytes of a text.
fn text_of(alloc: Global, count: u32) -> Option<Bytes> {
    let mut bytes = Bytes::new(alloc);
    for _index in 0..count {
        bytes.push(b'a').ok()?;
    }
    Some(bytes)
}

fn put_first<S: Stage>(stage: &mut S, name: &Name, bytes: &[u8]) -> Option<Mark> {
    let mut mark = Mark::none();
    let first = bytes.get(..4096)?;
    stage.put(0, name, 0, &mut mark, first).ok()?;
    Some(mark)
}

// A mark within a frame ends the text.
fn put_next<S: Stage>(stage: &mut S, name: &Name, mark: Mark, bytes: &[u8]) -> Option<Mark> {
    let mut mark = mark;
    if mark.length % 4096 != 0 {
        return None;
    }
    stage.put(0, name, 0, &mut mark, bytes).ok()?;
    Some(mark)
}

fn put_both<S: Stage>(stage: &mut S, name: &Name, bytes: &[u8]) -> Option<Mark> {
    let mark = put_first(stage, name, bytes)?;
    let mark = put_next(stage, name, mark, bytes)?;
    if close(stage, name, 0, &mark) {
        Some(mark)
    } else {
        None
    }
}

fn put_in<'d, D: Disk>(commit: &mut Commit<'d, D>, bytes: &[u8]) -> Option<Mark> {
    let name = named("o.csv")?;
    if begins(commit) {
        put_both(commit, &name, bytes)
    } else {
        None
    }
}

fn put_pieces<D: Disk>(disk: &mut D, bytes: &[u8]) -> Option<Mark> {
    let mut commit = Commit::new(disk, files()?);
    put_in(&mut commit, bytes)
}

// The places of the frames' sizes in the stage, and the sizes.
const SIZES: [(usize, [u8; 4]); 4] = [
    (20, [0, 0x10, 0, 0]),
    (4140, [0, 0x10, 0, 0]),
    (8260, [0, 0x10, 0, 0]),
    (12_380, [8, 0, 0, 0]),
];

fn has_size(stage: &[u8], place: usize, size: &[u8]) -> bool {
    match stage.get(place..) {
        Some(behind) => behind.starts_with(size),
        None => false,
    }
}

fn has_sizes(stage: &[u8]) -> bool {
    for (place, size) in SIZES {
        if !has_size(stage, place, &size) {
            return false;
        }
    }
    stage.len() == 12_296 + 4 * 24
}

fn has_frames(disk: &MemoryDisk) -> bool {
    match named("cp.stage") {
        Some(name) => has_sizes(disk.bytes(&name)),
        None => false,
    }
}

const BEHIND: Mark = Mark {
    last: 12_360,
    length: 12_296,
};

fn keeps_frames(alloc: Global, bytes: &[u8]) -> bool {
    let mut disk = MemoryDisk::new(alloc);
    put_pieces(&mut disk, bytes) == Some(BEHIND) && has_frames(&disk)
}

fn frames_are_kept(alloc: Global) -> Option<bool> {
    let bytes = text_of(alloc, 8200)?;
    Some(keeps_frames(alloc, bytes.as_slice()))
}

// A text of more than one frame: all but the last have 4,096 bytes, and a second piece begins with a frame of its own.
#[test]
fn a_stage_of_frames(rt: HostRuntime) {
    assert!(rt; frames_are_kept(rt.alloc()) == Some(true));
}

// A name of so many bytes.
fn long_name(alloc: Global, size: u64) -> Option<Name> {
    let mut name = String::new(alloc);
    for _place in 0..size {
        name.push_str("x").ok()?;
    }
    named(name.as_str())
}

fn add_output(list: &mut OutputList, name: Name) -> Option<()> {
    list.push(Output {
        name,
        base: 0,
        mark: Mark::none(),
    })
    .ok()
}

// So many outputs, of which the last has the name of an earlier one or a name of its own.
fn add_many(alloc: Global, list: &mut OutputList, count: u64, last: u64) -> Option<()> {
    for size in 1..count {
        add_output(list, long_name(alloc, size)?)?;
    }
    add_output(list, long_name(alloc, last)?)
}

fn many(alloc: Global, last: u64) -> Option<OutputList> {
    let mut list = OutputList::new(alloc);
    add_many(alloc, &mut list, 300, last)?;
    Some(list)
}

fn entry_of_many(alloc: Global, last: u64) -> Option<Entry> {
    let mut entry = first_entry(alloc)?;
    entry.outputs = many(alloc, last)?;
    Some(entry)
}

// The disk behind an entry of 300 outputs, whose names have 45,150 bytes.
fn sealed_many(alloc: Global, last: u64) -> Option<MemoryDisk> {
    let entry = entry_of_many(alloc, last)?;
    sealed(alloc, &entry)
}

// Whether the ledger is read in few calls, and is damaged just there.
fn is_read(disk: &mut MemoryDisk, place: Option<u64>) -> bool {
    let before = disk.calls();
    let found = damage(disk);
    found == place && disk.calls().wrapping_sub(before) < 200
}

fn many_are_read(alloc: Global, last: u64, place: Option<u64>) -> Option<bool> {
    let mut disk = sealed_many(alloc, last)?;
    Some(is_read(&mut disk, place))
}

// A name that stands twice is told at its later place.
#[test]
fn names_are_read_once(rt: HostRuntime) {
    assert!(rt; many_are_read(rt.alloc(), 300, None) == Some(true));
    assert!(rt; many_are_read(rt.alloc(), 299, Some(53_478)) == Some(true));
    assert!(rt; many_are_read(rt.alloc(), 1, Some(53_478)) == Some(true));
}

// How many calls a settling takes of a disk whose ledger's end an earlier one found.
fn calls_when_known(disk: &mut MemoryDisk) -> Option<u64> {
    let files = files()?;
    let end = match settle_known(disk, &files.ledger, &files.stage, None) {
        Ok(end) => end,
        Err(_) => return None,
    };
    let before = disk.calls();
    match settle_known(disk, &files.ledger, &files.stage, Some(end)) {
        Ok(again) if again == end => Some(disk.calls().wrapping_sub(before)),
        _ => None,
    }
}

fn calls_behind_one(alloc: Global) -> Option<u64> {
    let mut disk = after_one(alloc)?;
    calls_when_known(&mut disk)
}

// A ledger whose end is known isn't read: the two syncs alone are made.
#[test]
fn a_known_ledger_is_not_walked(rt: HostRuntime) {
    assert!(rt; calls_behind_one(rt.alloc()) == Some(2));
}
