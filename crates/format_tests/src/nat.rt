// Texts of NAT.
use crate::rows::{cut, headers_of, writes};
use lp_values::read_integer;
use std::alloc::{AllocError, Global};
use std::test::Fail;
use text_formats::Nat;

// The headers, the rows of a block or -1, the table.
const ROWS: &str = "\
AUTO|10|a,b;1,x;2,x;3,x;4,x;5,x;6,x;7,x;8,x;9,x;10,x;1000,y => a  b$-- -$1  x$2  x$3  x$4  x$5  x$6  x$7  x$8  x$9  x$10 x$$a    b$---- -$1000 y$
OFF|10|a,b;1,x;2,x;3,x;4,x;5,x;6,x;7,x;8,x;9,x;10,x;1000,y => 1  x$2  x$3  x$4  x$5  x$6  x$7  x$8  x$9  x$10 x$$1000 y$
ON|2|a;1;2 => a$-$1$2$
ON|2|a;1 => a$-$1$
ON|2|a;1;2;3 => a$-$1$2$$a$-$3$
ON|1|a;1;22 => a$-$1$$a$--$22$
AUTO|-1|a,b;1,x;2,x;1000,y => a    b$---- -$1    x$2    x$1000 y$
AUTO|10|abc,d => abc d$--- -$
OFF|10|abc,d => 
AUTO|-1|abc,d => abc d$--- -$
OFF|-1|long name,b;1,~;2,z => 1         -$2         z$
AUTO|10|n,m;é€,1;ab,2 => n  m$-- -$é€ 1$ab 2$
AUTO|10|é,m;a,1 => é m$- -$a 1$
AUTO|10|a\tb,c;x$y\r,\u{1}\u{7f} => a?b  c$---- --$x?y? ??$
AUTO|10|a,b;~,~;,1 => a b$- -$- -$  1$
AUTO|10|last;longer value => last$------------$longer value$
AUTO|10|a,b;1,x,more;22,y => a  b$-- -$1  x more$22 y$";

fn number(text: &str) -> Option<u32> {
    u32::try_from(read_integer(text)?).ok()
}

// Whether a shape writes just this, and the same again.
fn writes_twice(
    alloc: Global,
    shape: &mut Nat,
    fresh: bool,
    table: &str,
    want: &str,
) -> Result<bool, AllocError> {
    let first = writes(alloc, shape, fresh, table, want)?;
    let again = writes(alloc, shape, fresh, table, want)?;
    Ok(first && again)
}

fn is_row(alloc: Global, row: &str, fresh: bool) -> Result<bool, AllocError> {
    let (call, want) = cut(row, " => ");
    let (headers, call) = cut(call, "|");
    let (limit, table) = cut(call, "|");
    let mut shape = Nat::new(alloc, number(limit), headers_of(headers));
    let is = writes_twice(alloc, &mut shape, fresh, table, want);
    drop(shape);
    is
}

#[test]
fn rows_are_tables(rt: HostRuntime) -> Result<(), Fail> {
    for row in ROWS.lines() {
        assert!(rt; is_row(rt.alloc(), row, true)?, "{row}");
        assert!(rt; is_row(rt.alloc(), row, false)?, "old {row}");
    }
    Ok(())
}
