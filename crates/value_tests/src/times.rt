// Fields of a log by a pattern of time, worked out by hand.
use lp_time::{Pattern, write_stamp};
use lp_values::{Bytes, Value};
use slot_reading::{SlotReading, read_slot};
use std::alloc::{AllocError, Global};
use std::test::Fail;

// The moment of a field by a pattern, written by another; `~` where it has none, and the place of a pattern's fault.
fn told(alloc: Global, pattern: &str, field: &str, other: &str) -> Result<Bytes, AllocError> {
    let mut to = Bytes::new(alloc);
    match (Pattern::read(pattern), Pattern::read(other)) {
        (Ok(pattern), Ok(other)) => {
            match read_slot(alloc, &SlotReading::By(pattern), Some(field.as_bytes()))? {
                Value::Stamp(stamp) => write_stamp(&other, stamp, &mut to)?,
                _ => to.push(b'~')?,
            }
        }
        (Err(fault), _) => to.add(format!(in alloc; "fault {}", fault.at)?.as_str().as_bytes())?,
        _ => (),
    }
    Ok(to)
}

const ROWS: &str = "\
yyyy-MM-dd|1900-02-29|yyyy => ~
yyyy-MM-dd|2000-02-29|d MMM yyyy => 29 Feb 2000
yyyy-MM-dd|2000-2-29|yyyy => ~
yyyy-MM-dd|2000-02-29 |yyyy => ~
yyyy-MM-dd hh:mm:ss|9999-12-31 24:00:00|yyyy => ~
yyyy-MM-dd hh:mm:ss|0001-01-02 03:04:05|M/d/yyyy h:m:s => 1/2/0001 3:4:5
M/d|02/3|yyyy-MM-dd => 2000-02-03
Md|112|yyyy-MM-dd => 2000-11-02
MMM d|jAN 5|yyyy-MM-dd => 2000-01-05
MMM d|Jux 5|yyyy => ~
h:m:s|1:2:3|hhmmss => 010203
|| => fault 0
- -|| => fault 3
yyy|| => fault 0
HH|| => fault 0
dd MMMM|| => fault 3
yyyy x|| => fault 5
M MM|| => fault 2
MM-MMM|| => fault 3
s.ss|| => fault 2
éééééééééééééééééééééééééééééééééééééééééééééééééééééééééééééééd|ééééééééééééééééééééééééééééééééééééééééééééééééééééééééééééééé5|d => 5
................................................................dd|| => fault 64";

#[test]
fn fields_have_their_moments(rt: HostRuntime) -> Result<(), Fail> {
    for row in ROWS.lines() {
        let (call, want) = row.split_once(" => ").ok_or("no moment")?;
        let (pattern, fields) = call.split_once('|').ok_or("no field")?;
        let (field, other) = fields.split_once('|').ok_or("no other pattern")?;
        let told = told(rt.alloc(), pattern, field, other)?;
        assert!(rt; told.as_slice() == want.as_bytes(), "{row}");
    }
    Ok(())
}
