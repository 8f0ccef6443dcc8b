// Entries of runs that read lines of one log.
use ledger::{Entry, EntrySpan, EntrySpanList, InputText, ListValues, Output, OutputList};
use lp_outside::{Mark, Name};
use lp_values::{Bytes, Text, TextList};
use std::alloc::Global;

/// An output of a run: its name, the place where its text begins, and the text.
#[derive(Clone, Copy)]
pub struct Written<'a> {
    pub name: &'a str,
    pub base: u8,
    pub text: &'a [u8],
}

pub const ONE_A: &[u8] = b"Index,Text\n1,a\n";

pub const BOTH: &[u8] = b"Index,Text\n1,a\n2,b\n";

pub const FIRST: [Written<'static>; 1] = [Written {
    name: "o.csv",
    base: 0,
    text: ONE_A,
}];

pub const SECOND: [Written<'static>; 1] = [Written {
    name: "o.csv",
    base: 15,
    text: b"2,b\n",
}];

pub const THREE: [Written<'static>; 3] = [
    Written {
        name: "out_a.csv",
        base: 0,
        text: b"v\n1\n",
    },
    Written {
        name: "out_b.csv",
        base: 0,
        text: b"v\n2\n",
    },
    Written {
        name: "out_c.csv",
        base: 0,
        text: b"v\n3\n",
    },
];

pub fn named(text: &str) -> Option<Name> {
    Name::read(text).ok()
}

fn text(alloc: Global, text: &str) -> Option<Text> {
    Text::from_str(alloc, text).ok()
}

fn add_word(alloc: Global, words: &mut TextList, word: &str) -> Option<()> {
    words.push(text(alloc, word)?).ok()
}

fn add_words(alloc: Global, words: &mut TextList) -> Option<()> {
    add_word(alloc, words, "-i:TEXTLINE")?;
    add_word(alloc, words, "-iCheckpoint:cp")?;
    add_word(alloc, words, "-fileMode:0")
}

fn standing(alloc: Global, lines: u8) -> Option<Bytes> {
    let mut standing = Bytes::new(alloc);
    standing.add(&[lines, 0, 0, 0, 0, 0, 0, 0, 0]).ok()?;
    Some(standing)
}

fn span_at(identity: Name, from: u8, to: u8, standing: Bytes) -> EntrySpan {
    EntrySpan {
        identity,
        from: u64::from(from),
        to: u64::from(to),
        standing,
    }
}

fn span(alloc: Global, from: u8, to: u8, lines: u8) -> Option<EntrySpan> {
    let log = named("a.log")?;
    Some(span_at(log, from, to, standing(alloc, lines)?))
}

// How many bytes of a stage the frame of a text is.
fn frame_size(output: &Written) -> u64 {
    (output.text.len() as u64).wrapping_add(24)
}

fn mark_at(output: &Written, place: u64) -> Mark {
    Mark {
        last: place,
        length: output.text.len() as u64,
    }
}

fn output_at(output: &Written, place: u64) -> Option<Output> {
    let mark = mark_at(output, place);
    Some(Output {
        name: named(output.name)?,
        base: u64::from(output.base),
        mark,
    })
}

fn add_output(list: &mut OutputList, output: &Written, place: u64) -> Option<()> {
    list.push(output_at(output, place)?).ok()
}

// Adds the outputs, and gives the length of a stage with a frame for each text.
fn add_outputs(list: &mut OutputList, outputs: &[Written]) -> Option<u64> {
    let mut place: u64 = 0;
    for output in outputs {
        add_output(list, output, place)?;
        place = place.wrapping_add(frame_size(output));
    }
    Some(place)
}

fn input_text(alloc: Global) -> Option<InputText> {
    let of = "-i:TEXTLINE -headerRow:ON -iSeparator:tab -iRotation:NAMES";
    InputText::read(text(alloc, of)?)
}

fn query(alloc: Global) -> Option<Text> {
    text(alloc, "SELECT Index, Text INTO o.csv FROM a.log")
}

fn bare(alloc: Global, input: InputText, query: Text) -> Entry {
    Entry {
        form: 1,
        moment: 0,
        input,
        words: TextList::new(alloc),
        query,
        template: Bytes::new(alloc),
        spans: EntrySpanList::new(alloc),
        lists: ListValues::new(alloc),
        staged: 0,
        outputs: OutputList::new(alloc),
        processed: 1,
        output: 1,
        bad: 0,
    }
}

fn bare_entry(alloc: Global) -> Option<Entry> {
    let input = input_text(alloc)?;
    let query = query(alloc)?;
    Some(bare(alloc, input, query))
}

fn worded(alloc: Global) -> Option<Entry> {
    let mut entry = bare_entry(alloc)?;
    add_words(alloc, &mut entry.words)?;
    Some(entry)
}

fn with_span(alloc: Global, span: EntrySpan) -> Option<Entry> {
    let mut entry = worded(alloc)?;
    entry.spans.push(span).ok()?;
    Some(entry)
}

/// The entry of a run that read lines of `a.log` from one place up to another.
pub fn entry_of(alloc: Global, from: u8, to: u8, lines: u8, outputs: &[Written]) -> Option<Entry> {
    let mut entry = with_span(alloc, span(alloc, from, to, lines)?)?;
    entry.staged = add_outputs(&mut entry.outputs, outputs)?;
    Some(entry)
}

pub fn first_entry(alloc: Global) -> Option<Entry> {
    entry_of(alloc, 0, 3, 1, &FIRST)
}

pub fn second_entry(alloc: Global) -> Option<Entry> {
    entry_of(alloc, 3, 5, 2, &SECOND)
}

pub fn three_entry(alloc: Global) -> Option<Entry> {
    entry_of(alloc, 0, 3, 1, &THREE)
}
