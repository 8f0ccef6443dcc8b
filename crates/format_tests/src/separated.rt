// Texts of TSV and W3C.
use crate::rows::{cut, headers_of, writes};
use std::alloc::{AllocError, Global};
use std::test::Fail;
use text_formats::{TsvOut, W3cOut};

// The headers, whether the output is fresh, the separator, the table.
const TSV: &str = "\
AUTO|new|t|s,n;hello world,1;~,2 => s\tn$hello world\t1$\t2$
AUTO|old|t|s,n;hello world,1 => hello world\t1$
ON|old|t|s,n;a,1 => s\tn$a\t1$
OFF|new|t|s,n;a,1 => a\t1$
AUTO|new|t|s,n => s\tn$
OFF|new|t|s,n => 
AUTO|new|t|a\tb,c$d;x\ty,p\rq => a b\tc d$x y\tp q$
AUTO|new|_|a b,c;x y,\t => a_b c$x_y \t$
AUTO|new|:|a:b;x:y$z => a b$x y z$
AUTO|new|t|n; => n$$
AUTO|new|t|n;~ => n$$
AUTO|new|t|n;\"q\"^ => n$\"q\"^$";

fn separator_of(word: &str) -> u8 {
    match word {
        "t" => b'\t',
        "_" => b' ',
        _ => b':',
    }
}

fn is_separated(alloc: Global, row: &str) -> Result<bool, AllocError> {
    let (call, want) = cut(row, " => ");
    let (headers, call) = cut(call, "|");
    let (output, call) = cut(call, "|");
    let (separator, table) = cut(call, "|");
    let mut shape = TsvOut::new(alloc, headers_of(headers), separator_of(separator));
    let is = writes(alloc, &mut shape, output == "new", table, want);
    drop(shape);
    is
}

#[test]
fn fields_are_separated(rt: HostRuntime) -> Result<(), Fail> {
    for row in TSV.lines() {
        assert!(rt; is_separated(rt.alloc(), row)?, "{row}");
    }
    Ok(())
}

const W3C: &str = "\
s,n,t;hello world,1,@971211336;~,2,@971211336 => s n t$hello+world 1 2000-10-10+20:55:36$- 2 2000-10-10+20:55:36$
s,n => s n$
a b,c\td;x\ry,p$q => a+b c+d$x+y p+q$
s,n;,~ => s n$- -$
s;+-^ => s$+-^$
s;é€ => s$é€$";

// The directives, and what stands behind them.
fn log_of(alloc: Global, rest: &str) -> Result<String, AllocError> {
    format!(in alloc;
        "#Software: Log Parser$#Version: 1.0$#Date: 1970-01-01 00:00:00$#Fields: {rest}"
    )
}

fn is_logged(alloc: Global, row: &str, fresh: bool) -> Result<bool, AllocError> {
    let (table, rest) = cut(row, " => ");
    let want = log_of(alloc, rest)?;
    let mut shape = W3cOut::new(alloc, 0);
    let is = writes(alloc, &mut shape, fresh, table, want.as_str());
    drop(shape);
    is
}

#[test]
fn logs_have_their_directives(rt: HostRuntime) -> Result<(), Fail> {
    for row in W3C.lines() {
        assert!(rt; is_logged(rt.alloc(), row, true)?, "{row}");
        assert!(rt; is_logged(rt.alloc(), row, false)?, "old {row}");
    }
    Ok(())
}
