// Logs of a few lines, and their fields, worked out by hand.
use delimited_input::{Delimited, DelimitedOptions};
use line_input::{Fields, LineReader, Standing, Taken, TextWords};
use lp_values::Bytes;
use ncsa_input::Ncsa;
use std::alloc::{AllocError, Global};
use std::test::Fail;
use w3c_input::IisW3c;

// The fields of a row that are there, each with `|` behind it.
fn tell_row(told: &mut Bytes, fields: &Fields, line: &[u8]) -> Result<(), AllocError> {
    for slot in fields.as_slice() {
        if let Some(bytes) = slot.bytes(line) {
            told.add(bytes)?;
            told.push(b'|')?;
        }
    }
    told.push(b'.')
}

// What a reader makes of the lines of a log, each but the last ended by `/`: `-` where one is passed, `!` where it is bad,
// and its rows.
fn told<R: LineReader>(alloc: Global, reader: &R, log: &str) -> Result<Bytes, AllocError> {
    let mut standing = Standing::new();
    let mut row = Fields::new(alloc);
    let mut told = Bytes::new(alloc);
    for text in log.split('/') {
        let line = text.as_bytes();
        if standing.lines() >= 1000 {
            break;
        }
        match reader.take_line(alloc, &mut standing, line, &mut row)? {
            Taken::Passed => told.push(b'-')?,
            Taken::Bad => told.push(b'!')?,
            Taken::Row => tell_row(&mut told, &row, line)?,
            Taken::Rows(rows) => {
                for fields in rows.as_slice() {
                    tell_row(&mut told, fields, line)?;
                }
            }
        }
    }
    Ok(told)
}

const CSV: DelimitedOptions = DelimitedOptions {
    separator: b',',
    quotes: true,
    header_row: false,
};

// The same by the format of a name.
fn told_by(alloc: Global, format: &str, log: &str) -> Result<Bytes, AllocError> {
    match format {
        "words" => told(alloc, &TextWords, log),
        "w3c" => told(alloc, &IisW3c, log),
        "ncsa" => told(alloc, &Ncsa, log),
        _ => match Delimited::new(CSV) {
            Ok(reader) => told(alloc, &reader, log),
            Err(_) => Ok(Bytes::new(alloc)),
        },
    }
}

const LOGS: &str = "\
words:  \ta\u{0B}b  \u{1C}c\u{A0}d\r// \t => a|.b|.\u{1C}c\u{A0}d|.
w3c:#Fields: date time/a b\r => -a|b\r|.
w3c:#Fields: date time/- --/-a - => ---|.-a|.
w3c:#Fields: date/\t/ \t  => -!!
w3c:#Fields: date Date time/- b c => -c|.
w3c:#fields:s-event TIME/a b/#FIELDS: LogRow date/a b => -b|.-b|.
w3c:#Version: 1.0/#/a => --!
ncsa:h l u [t] \"r\" s b \"f\" \"a\" \"c\" => h|l|u|t|r|s|b|f|a|c|.
ncsa:- - - [-] \"-\" - - \"-\" \"\" => |.
ncsa: h l u [t] \"r\" s b/\t => !!
ncsa:h l u [t]x] \"r\" s b/h l u\t[t] \"r\" s b => !!
ncsa:h l u [t \"r\" s b/h l u [] \"r\" s b => !h|l|u||r|s|b|.
ncsa:h l u [t] \"r\\\" s b/h l u [t] \"r\\\\\" s b => !h|l|u|t|r\\\\|s|b|.
ncsa:h l u [t] \"r\" s b\r => h|l|u|t|r|s|b\r|.
ncsa:\"h [l u] [t] \"r\" [s \"b => \"h|[l|u]|t|r|[s|\"b|.
csv:\"1\" \"6,2 => 1 \"6|2|.
csv:1, \"2\"/\"\"\"1\",\"2\" => 1| \"2\"|.\"1|2|.
csv:1,2/\"1\"\"\",\"\"\"2\",3 => 1|2|.!
csv:\"\",\"\"\"\"/\" => \"|..
csv:1\r/1/\"1,2 => !1|.1,2|.
csv:\u{FEFF}\"1\" => \u{FEFF}\"1\"|.
csv:/1,,3/4/5,6,7, => -1|3|.4|.!";

#[test]
fn lines_are_what_the_rules_say(rt: HostRuntime) -> Result<(), Fail> {
    for row in LOGS.lines() {
        let (words, want) = row.split_once(" => ").ok_or("no rows")?;
        let (format, log) = words.split_once(':').ok_or("no format")?;
        let told = told_by(rt.alloc(), format, log)?;
        assert!(rt; told.as_slice() == want.as_bytes(), "{row}");
    }
    Ok(())
}

#[test]
fn separators_may_be_refused(rt: HostRuntime) {
    for separator in [b'\r', b'\n', b'"', 0x7F, 0xFF] {
        assert!(rt; Delimited::new(DelimitedOptions { separator, ..CSV }).is_err());
    }
    for separator in [0, b'\t', b' ', 0x7E] {
        assert!(rt; Delimited::new(DelimitedOptions { separator, ..CSV }).is_ok());
    }
}
