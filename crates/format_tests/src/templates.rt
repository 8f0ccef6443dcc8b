// Templates, their faults, and texts by them.
use crate::rows::{bytes_of, cut, writes};
use lp_values::{Bytes, read_integer};
use std::alloc::{AllocError, Global};
use std::rc::Rc;
use std::test::Fail;
use tpl_output::{Template, TemplateFault, Tpl};

// The template, the table.
const TEXTS: &str = "\
<LPHEADER>$%FIELDNAME_1% (%FIELDS_NUM%)$</LPHEADER>$<LPBODY>$%FIELD_1%: %h%$</LPBODY>$<LPFOOTER>$%SYSTEM_TIMESTAMP%$</LPFOOTER>$|u,h;a,5;b,7;c,5 => u (2)$a: 5$b: 7$c: 5$1970-01-01 00:00:00$
%FIELD_1%,%FIELD_2%$|u,h;a,5;b,~ => a,5$b,$
%field_01% %Field_002% %FIELD_3% %FIELD_0% %FIELD_%$|u,h;a,5 => a 5 %FIELD_3% %FIELD_0% %FIELD_%$
%FIELD_3%|FIELD_3,h;a,5 => a
%fieldname_2%%FIELDNAME_3%|u,h;a,5 => h%FIELDNAME_3%
%U%-%u%-%H%|u,h,U;a,5,z => a-a-5
%FIELDS_NUM%|FIELDS_NUM,h;a,5 => 2
%FIELD_2%|u,FIELD_2,x;a,5,6 => 5
100%% %u|u;a => 100%% %u
%a%b%|a%b,c;x,1 => x
%a%b%|a%b,a;x,1 => 1b%
%|u;a => %
%%u%%|u;a => %a%
%x%u%|u;a => %xa
<LPBODY>\r$%u%$</LPBODY>|u;a;b => a$b$
<LPBODY>\r%u%</LPBODY>|u;a => \ra
<LPBODY>$$%u%</LPBODY>|u;a => $a
<lpbody>%u%</lpBODY> \t\r$|u;a;b => ab
<LPHEADER>%u% %FIELD_1% %FIELDNAME_1%$</LPHEADER>|u;a;b => %u% %FIELD_1% u$
<LPFOOTER>%FIELDS_NUM%</LPFOOTER>|u;a => 1
<LPHEADER>h</LPHEADER><LPBODY>%FIELD_1%</LPBODY><LPFOOTER>f</LPFOOTER>|u => hf
<LPHEAD><b>%u%</b>|u;a => <LPHEAD><b>a</b>
%SYSTEM_TIMESTAMP% |u;a;b => 1970-01-01 00:00:00 1970-01-01 00:00:00 
|u;a;b => ";

fn fills(
    alloc: Global,
    template: Rc<Template>,
    fresh: bool,
    table: &str,
    want: &str,
) -> Result<bool, AllocError> {
    let mut shape = Tpl::new(alloc, template, 0);
    let is = writes(alloc, &mut shape, fresh, table, want);
    drop(shape);
    is
}

// Whether a template's text is just this, in an output that is fresh and in one that isn't.
fn fills_both(
    alloc: Global,
    template: &Rc<Template>,
    table: &str,
    want: &str,
) -> Result<bool, AllocError> {
    let fresh = fills(alloc, template.clone()?, true, table, want)?;
    let old = fills(alloc, template.clone()?, false, table, want)?;
    Ok(fresh && old)
}

fn is_filled(alloc: Global, bytes: &[u8], table: &str, want: &str) -> Result<bool, AllocError> {
    match Template::read(alloc, bytes) {
        Ok(read) => {
            let template = Rc::new(alloc, read)?;
            let is = fills_both(alloc, &template, table, want);
            drop(template);
            is
        }
        Err(_) => Ok(false),
    }
}

fn is_row(alloc: Global, row: &str) -> Result<bool, AllocError> {
    let (call, want) = cut(row, " => ");
    let (template, table) = call.rsplit_once('|').unwrap_or(("", ""));
    let bytes = bytes_of(alloc, template)?;
    is_filled(alloc, bytes.as_slice(), table, want)
}

#[test]
fn templates_are_filled(rt: HostRuntime) -> Result<(), Fail> {
    for row in TEXTS.lines() {
        assert!(rt; is_row(rt.alloc(), row)?, "{row}");
    }
    Ok(())
}

const FAULTS: &str = "\
<LPBODY>x => unclosed 0
x<LPBODY>y</LPBODY> => outside 0
 \t$\r<LPBODY>y</LPBODY>$ z => outside 24
<LPBODY></LPBODY><LPBODY></LPBODY> => misplaced 17
<LPFOOTER></LPFOOTER><LPBODY></LPBODY> => misplaced 21
<LPBODY></LPBODY><LPHEADER></LPHEADER> => misplaced 17
</LPBODY> => misplaced 0
<LPHEADER></LPBODY></LPHEADER> => misplaced 10
<LPHEADER><LPBODY></LPBODY></LPHEADER> => misplaced 10
<LPHEADER><LPBODY></LPBODY> => unclosed 0
<LPHEADER><LPHEADER></LPHEADER> => misplaced 10
<LPHEADER></LPHEADER></LPHEADER> => misplaced 21
<LPHEADER></LPHEADER>x<LPBODY> => outside 21
<LPHEADER></LPHEADER><LPBODY>x => unclosed 21
<LPHEADER></lpheader> => none
 => none";

// The word and the place of a fault.
fn fault_of(fault: TemplateFault) -> (&'static str, u32) {
    match fault {
        TemplateFault::Unclosed { at } => ("unclosed", at),
        TemplateFault::Misplaced { at } => ("misplaced", at),
        TemplateFault::OutsideText { at } => ("outside", at),
        TemplateFault::TooLarge { at } => ("large", at),
        TemplateFault::Memory => ("memory", 0),
    }
}

fn first_fault(alloc: Global, bytes: &[u8]) -> Option<(&'static str, u32)> {
    match Template::read(alloc, bytes) {
        Ok(_) => None,
        Err(fault) => Some(fault_of(fault)),
    }
}

fn told(alloc: Global, bytes: &[u8]) -> Result<String, AllocError> {
    match first_fault(alloc, bytes) {
        Some((word, at)) => format!(in alloc; "{word} {at}"),
        None => String::from_str(alloc, "none"),
    }
}

fn is_faulty(alloc: Global, row: &str) -> Result<bool, AllocError> {
    let (template, want) = cut(row, " => ");
    let bytes = bytes_of(alloc, template)?;
    let told = told(alloc, bytes.as_slice())?;
    Ok(told.as_str() == want)
}

#[test]
fn templates_have_a_first_fault(rt: HostRuntime) -> Result<(), Fail> {
    for row in FAULTS.lines() {
        assert!(rt; is_faulty(rt.alloc(), row)?, "{row}");
    }
    Ok(())
}

// So many blanks between two texts.
const SIZES: &str = "\
|4| => none
<LPBODY></LPBODY>|4|x => outside 21
|1048576| => none
|1048577| => large 1048576
<LPBODY>|1048569| => unclosed 0
<LPBODY></LPBODY>|1048559|x => outside 1048576
<LPBODY></LPBODY>|1048560|x => large 1048576";

fn add_blanks(to: &mut Bytes, count: i64) -> Result<(), AllocError> {
    for _ in 0..count {
        to.push(b' ')?;
    }
    Ok(())
}

fn add_large(to: &mut Bytes, call: &str) -> Result<(), AllocError> {
    let (before, call) = cut(call, "|");
    let (count, behind) = cut(call, "|");
    to.add(before.as_bytes())?;
    add_blanks(to, read_integer(count).unwrap_or(0))?;
    to.add(behind.as_bytes())
}

fn is_sized(alloc: Global, row: &str) -> Result<bool, AllocError> {
    let (call, want) = cut(row, " => ");
    let mut bytes = Bytes::new(alloc);
    add_large(&mut bytes, call)?;
    let told = told(alloc, bytes.as_slice())?;
    Ok(told.as_str() == want)
}

#[test]
fn templates_have_a_size(rt: HostRuntime) -> Result<(), Fail> {
    for row in SIZES.lines() {
        assert!(rt; is_sized(rt.alloc(), row)?, "{row}");
    }
    Ok(())
}
