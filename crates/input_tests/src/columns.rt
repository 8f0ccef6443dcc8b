// The columns of the formats: their kinds, written out, and their places.
use iis_fields::{iis_names, iis_reading};
use input_tables::{TableFormat, readings_of, table_of};
use lp_values::{Bytes, Kind};
use ncsa_input::{ncsa_names, ncsa_reading};
use std::alloc::{AllocError, Global};
use std::test::Fail;

fn initial(kind: Kind) -> u8 {
    match kind {
        Kind::Integer => b'I',
        Kind::Real => b'R',
        Kind::Text => b'T',
        Kind::Stamp => b'S',
        Kind::Any => b'A',
    }
}

// The kinds of a table's columns, and behind a bar those of its readings.
fn kinds(alloc: Global, format: TableFormat) -> Result<Bytes, AllocError> {
    let mut to = Bytes::new(alloc);
    for column in table_of(alloc, format)?.columns.as_slice() {
        to.push(initial(column.kind))?;
    }
    to.push(b'|')?;
    for reading in readings_of(alloc, format)?.as_slice() {
        to.push(initial(reading.kind()))?;
    }
    Ok(to)
}

#[test]
fn columns_have_their_kinds(rt: HostRuntime) -> Result<(), Fail> {
    let cases = [
        (
            TableFormat::IisW3c,
            "TISSTTTTTITTTIIIIIITTTTT|SSTTTTTITTTIIIIIITTTTT",
        ),
        (TableFormat::Ncsa, "TITTTSTIITTT|TTTSTIITTT"),
        (TableFormat::TextLine, "TIT|T"),
        (TableFormat::TextWord, "TIT|T"),
    ];
    for (format, want) in cases {
        assert!(rt;
            kinds(rt.alloc(), format)?.as_slice() == want.as_bytes(),
            "{want}"
        );
    }
    Ok(())
}

#[test]
fn each_name_has_a_reading(rt: HostRuntime) {
    for name in iis_names() {
        assert!(rt; iis_reading(name).is_some(), "{name}");
    }
    for name in ncsa_names() {
        assert!(rt; ncsa_reading(name).is_some(), "{name}");
    }
    assert!(rt; iis_reading("s-event").is_none() && ncsa_reading("cs(Referer)").is_none());
}
