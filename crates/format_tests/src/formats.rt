// Every format as one type.
use crate::rows::{cut, writes};
use any_format::Format;
use output_formats::{CsvOut, Headers};
use std::alloc::{AllocError, Global};
use std::rc::Rc;
use std::test::Fail;
use text_formats::{Nat, TsvOut, W3cOut};
use tpl_output::{Template, Tpl};

const TABLE: &str = "a,b;1,x y;2,~";

// The format, the text of the table.
const TEXTS: &str = "\
CSV => a,b$1,x y$2,$
TSV => a\tb$1\tx y$2\t$
W3C => #Software: Log Parser$#Version: 1.0$#Date: 1970-01-01 00:00:00$#Fields: a b$1 x+y$2 -$
NAT => 1 x y$$2 -$
TPL => x y;;";

fn filled(alloc: Global) -> Result<Format, AllocError> {
    match Template::read(alloc, b"%b%;") {
        Ok(template) => Ok(Format::Tpl(Tpl::new(alloc, Rc::new(alloc, template)?, 0))),
        Err(_) => Err(AllocError),
    }
}

fn format_of(alloc: Global, word: &str) -> Result<Format, AllocError> {
    match word {
        "CSV" => Ok(Format::Csv(CsvOut::new(alloc, Headers::On))),
        "TSV" => Ok(Format::Tsv(TsvOut::new(alloc, Headers::Auto, b'\t'))),
        "W3C" => Ok(Format::W3c(W3cOut::new(alloc, 0))),
        "NAT" => Ok(Format::Nat(Nat::new(alloc, Some(1), Headers::Off))),
        _ => filled(alloc),
    }
}

fn is_row(alloc: Global, row: &str) -> Result<bool, AllocError> {
    let (word, want) = cut(row, " => ");
    let mut format = format_of(alloc, word)?;
    let is = writes(alloc, &mut format, true, TABLE, want);
    drop(format);
    is
}

#[test]
fn a_format_is_what_it_holds(rt: HostRuntime) -> Result<(), Fail> {
    for row in TEXTS.lines() {
        assert!(rt; is_row(rt.alloc(), row)?, "{row}");
    }
    Ok(())
}
