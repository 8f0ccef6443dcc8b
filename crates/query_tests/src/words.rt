// Words, and what they ask for, worked out by hand.
use crate::rows::{asked, check};
use command_words::{OutputFormat, Spec, SpecFault, UsageFault};
use lp_outside::Name;
use lp_values::{Text, TextList};
use std::alloc::{AllocError, Global};
use std::fmt::Write;

fn shown(name: &Option<Name>) -> &str {
    match name {
        Some(name) => name.as_str(),
        None => "none",
    }
}

fn show_input(to: &mut String, spec: &Spec) -> Result<(), AllocError> {
    write!(to, "{:?} {:?} {}", spec.input, spec.errors, spec.stats)?;
    write!(to, " {} {:?}", shown(&spec.checkpoint), spec.rotation)?;
    write!(
        to,
        " {} {:?} {}",
        spec.header_row, spec.dt_lines, spec.separator
    )
}

fn show_output(to: &mut String, spec: &Spec) -> Result<(), AllocError> {
    write!(to, ", {:?} {:?} {:?}", spec.output, spec.rtp, spec.headers)?;
    write!(
        to,
        " {} {:?} {}",
        spec.out_separator,
        spec.file_mode,
        shown(&spec.tpl)
    )?;
    write!(to, ", {} {}", spec.words.len(), spec.query.as_str())
}

fn show(to: &mut String, spec: &Spec) -> Result<(), AllocError> {
    show_input(to, spec)?;
    show_output(to, spec)
}

fn show_usage(to: &mut String, fault: &UsageFault) -> Result<(), AllocError> {
    write!(to, "{} {}", fault.word, fault.kind.as_str())
}

// What was read from words, or why they are refused.
fn show_read(to: &mut String, read: &Result<Spec, SpecFault>) -> Result<(), AllocError> {
    match read {
        Ok(spec) => show(to, spec),
        Err(SpecFault::Usage(fault)) => show_usage(to, fault),
        Err(SpecFault::Memory) => Err(AllocError),
    }
}

fn add_word(words: &mut TextList, alloc: Global, word: &str) -> Result<(), AllocError> {
    let word = Text::from_str(alloc, word)?;
    words.push(word)
}

fn add_words(words: &mut TextList, alloc: Global, text: &str) -> Result<(), AllocError> {
    for word in text.split(' ') {
        add_word(words, alloc, word)?;
    }
    Ok(())
}

// The words of a text, parted by blanks.
fn words(alloc: Global, text: &str) -> Result<TextList, AllocError> {
    let mut words = TextList::new(alloc);
    add_words(&mut words, alloc, text)?;
    Ok(words)
}

fn told(alloc: Global, text: &str) -> Result<String, AllocError> {
    let words = words(alloc, text)?;
    let mut to = String::new(alloc);
    show_read(&mut to, &Spec::read(alloc, &words))?;
    Ok(to)
}

const WORDS: &str = "\
query => None None true none Names true None 9, None Some(10) Auto 9 Overwrite none, 0 query
-I:iisw3c -e:7 -stats:OFF -iCheckpoint:cp -iRotation:NUMBERS -headerRow:OFF -dtLines:5 query -iSeparator:, => Some(IisW3c) Some(7) false cp Numbers false Some(5) 44, None Some(10) Auto 9 Overwrite none, 8 query
-o:TPL -rtp:-1 query -headers:OFF -oSeparator:space -fileMode:0 -tpl:a:b => None None true none Names true None 9, Some(Tpl) None Off 32 Append a:b, 6 query
-o:TPL -iRotation:NAMES query => 1 needs -iCheckpoint
query -e:1 again => 2 second query";

#[test]
fn words_ask_for_options(rt: HostRuntime) -> Result<(), AllocError> {
    for row in WORDS.lines() {
        check(&rt, row, told(rt.alloc(), asked(row))?.as_str());
    }
    Ok(())
}

#[test]
fn outputs_have_their_format_by_name(rt: HostRuntime) {
    for (name, format) in [
        ("o.csv", OutputFormat::Csv),
        ("O.CSV", OutputFormat::Nat),
        ("a/.tsv", OutputFormat::Tsv),
        ("x.log", OutputFormat::W3c),
        ("log", OutputFormat::Nat),
    ] {
        assert!(rt; OutputFormat::by_name(name) == format, "{name}");
    }
}
