// Ledgers of runs that read lines of some logs. Each call has a function of its own, so that a caller's proof carries no more
// than its answer: `None` is what no test may come to, as want of memory.
use ledger::{
    Entry, EntrySpan, EntrySpanList, EntryWriter, InputText, ListValues, OutputList, create,
};
use lp_outside::{Disk, Name};
use lp_values::{Bytes, Text, TextList};
use memory_outside::MemoryDisk;
use std::alloc::Global;

/// How far a run read a log: the log's identity, the places, and the standing at the second one.
#[derive(Clone, Copy)]
pub struct Read<'a> {
    pub identity: &'a str,
    pub from: u8,
    pub to: u8,
    pub standing: &'a [u8],
}

/// The standings behind one and two lines, without columns, and behind two lines with the columns `a` and `bc`.
pub const ONE: &[u8] = &[1, 0, 0, 0, 0, 0, 0, 0, 0];

pub const TWO: &[u8] = &[2, 0, 0, 0, 0, 0, 0, 0, 0];

pub const COLUMNS: &[u8] = &[
    2, 0, 0, 0, 0, 0, 0, 0, 1, 2, 0, 1, 0, 0, 0, b'a', 2, 0, 0, 0, b'b', b'c',
];

pub const INPUT: &str = "-i:TEXTLINE -headerRow:ON -iSeparator:tab -iRotation:NAMES";

pub fn named(text: &str) -> Option<Name> {
    Name::read(text).ok()
}

/// The text of a run that reads its logs so.
pub fn input_text(alloc: Global, text: &str) -> Option<InputText> {
    InputText::read(Text::from_str(alloc, text).ok()?)
}

fn query(alloc: Global) -> Option<Text> {
    Text::from_str(alloc, "SELECT Text INTO o.csv FROM a.log").ok()
}

fn add_word(alloc: Global, words: &mut TextList, word: &str) -> Option<()> {
    words.push(Text::from_str(alloc, word).ok()?).ok()
}

fn add_words(alloc: Global, words: &mut TextList) -> Option<()> {
    add_word(alloc, words, "-i:TEXTLINE")?;
    add_word(alloc, words, "-iCheckpoint:cp")
}

fn standing(alloc: Global, bytes: &[u8]) -> Option<Bytes> {
    let mut standing = Bytes::new(alloc);
    standing.add(bytes).ok()?;
    Some(standing)
}

fn span(alloc: Global, read: &Read) -> Option<EntrySpan> {
    let standing = standing(alloc, read.standing)?;
    Some(EntrySpan {
        identity: named(read.identity)?,
        from: u64::from(read.from),
        to: u64::from(read.to),
        standing,
    })
}

fn add_spans(alloc: Global, spans: &mut EntrySpanList, reads: &[Read]) -> Option<()> {
    for read in reads {
        spans.push(span(alloc, read)?).ok()?;
    }
    Some(())
}

fn bare(alloc: Global, input: InputText, query: Text) -> Entry {
    Entry {
        form: 1,
        moment: 0,
        input,
        words: TextList::new(alloc),
        query,
        template: Bytes::new(alloc),
        spans: EntrySpanList::new(alloc),
        lists: ListValues::new(alloc),
        staged: 0,
        outputs: OutputList::new(alloc),
        processed: 1,
        output: 1,
        bad: 0,
    }
}

fn bare_entry(alloc: Global) -> Option<Entry> {
    let input = input_text(alloc, INPUT)?;
    let query = query(alloc)?;
    Some(bare(alloc, input, query))
}

fn fill(alloc: Global, entry: &mut Entry, reads: &[Read]) -> Option<()> {
    add_words(alloc, &mut entry.words)?;
    add_spans(alloc, &mut entry.spans, reads)
}

/// The entry of a run that read these lines, and wrote nothing.
pub fn entry_of(alloc: Global, reads: &[Read]) -> Option<Entry> {
    let mut entry = bare_entry(alloc)?;
    fill(alloc, &mut entry, reads)?;
    Some(entry)
}

// Whether an entry is written behind the closed gate at a place.
fn writes<D: Disk>(disk: &mut D, ledger: &Name, pair: u32, entry: &Entry) -> bool {
    let mut writer = EntryWriter::new(u64::from(pair) + 2);
    writer.put_entry(disk, ledger, entry).is_ok() && writer.finish(disk, ledger).is_ok()
}

fn opens<D: Disk>(disk: &mut D, ledger: &Name, pair: u32) -> bool {
    disk.write_at(ledger, u64::from(pair), &[0xA5, 0x5A])
        .is_ok()
}

// The place behind an entry.
fn behind(pair: u32, entry: &Entry) -> u32 {
    let size = u32::try_from(entry.size()).unwrap_or(0);
    pair.wrapping_add(10).wrapping_add(size)
}

// Writes an entry behind the closed gate at a place, opens the gate, and answers the place behind the entry.
fn add_entry<D: Disk>(disk: &mut D, ledger: &Name, pair: u32, entry: &Entry) -> Option<u32> {
    if writes(disk, ledger, pair, entry) && opens(disk, ledger, pair) {
        Some(behind(pair, entry))
    } else {
        None
    }
}

fn add_run<D: Disk>(
    alloc: Global,
    disk: &mut D,
    ledger: &Name,
    pair: u32,
    reads: &[Read],
) -> Option<u32> {
    let entry = entry_of(alloc, reads)?;
    let behind = add_entry(disk, ledger, pair, &entry);
    drop(entry);
    behind
}

// Makes the ledger `cp` of runs that read these lines.
fn make_ledger<D: Disk>(alloc: Global, disk: &mut D, runs: &[&[Read]]) -> Option<()> {
    let ledger = named("cp")?;
    create(disk, &ledger).ok()?;
    let mut pair = 16;
    for reads in runs {
        pair = add_run(alloc, disk, &ledger, pair, reads)?;
    }
    Some(())
}

/// A disk with the ledger `cp` of runs that read these lines.
pub fn disk_with(alloc: Global, runs: &[&[Read]]) -> Option<MemoryDisk> {
    let mut disk = MemoryDisk::new(alloc);
    make_ledger(alloc, &mut disk, runs)?;
    Some(disk)
}

// The same of one run, or of none where it read nothing.
fn make_ledger_of_one<D: Disk>(alloc: Global, disk: &mut D, reads: &[Read]) -> Option<()> {
    let ledger = named("cp")?;
    create(disk, &ledger).ok()?;
    if !reads.is_empty() {
        add_run(alloc, disk, &ledger, 16, reads)?;
    }
    Some(())
}

/// A disk with the ledger `cp` of one run that reads these lines, or of none where there are none.
pub fn disk_with_one(alloc: Global, reads: &[Read]) -> Option<MemoryDisk> {
    let mut disk = MemoryDisk::new(alloc);
    make_ledger_of_one(alloc, &mut disk, reads)?;
    Some(disk)
}
