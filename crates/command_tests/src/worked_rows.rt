// Whole runs at the moment 0, as their words are typed, over logs and a disk in memory.
use crate::outside::{InMemory, add_file, giving, name, told_outputs};
use crate::rows::{add_word, asked, bytes_of, check};
use lp_values::{Bytes, TextList};
use memory_outside::MemoryLogs;
use std::alloc::{AllocError, Global};
use std::process::Abort;
use std::test::Fail;

// The logs and templates of all runs, with `;` for a line's end.
const LOGS: &str = "\
r.log 2001-01-01 00:00:01 /a
v.csv a,b;1,x;2,x;3,x;4,x;5,x;6,x;7,x;8,x;9,x;10,x;1000,y;
m.csv k,v;a/b,1;a_b,2;c,3;
t.csv u,h;a,5;b,7;c,5;
t.tpl <LPHEADER>;%FIELDNAME_1% (%FIELDS_NUM%);</LPHEADER>;<LPBODY>;%FIELD_1%: %h%;</LPBODY>;<LPFOOTER>;%SYSTEM_TIMESTAMP%;</LPFOOTER>;
x.csv s,n;hello world,1;,2;
f.txt q
a.log a;b
g.log x;y;x;
g.csv k,v;a,1;,2;a,3;
k.csv k,v;
d.csv w;b;
s.csv n;9223372036854775807;1;
n.csv n;-3;0;
w.csv k,v;é€,1;a\t\u{7f},2;,3;
p.csv k,v;..,1;,2;.,3;
open.tpl <LPBODY>
twice.tpl <LPBODY></LPBODY><LPBODY></LPBODY>
text.tpl x<LPBODY></LPBODY>
sign.tpl <LPBODY>\r;%u%%</LPBODY>";

fn put(logs: &mut MemoryLogs, file: &str, bytes: &[u8]) -> Result<(), Fail> {
    let file = name(file)?;
    Ok(logs.put(&file, bytes)?)
}

fn add_log(logs: &mut MemoryLogs, alloc: Global, log: &str) -> Result<(), Fail> {
    let (file, text) = log.split_once(' ').ok_or("no log")?;
    put(logs, file, bytes_of(alloc, text)?.as_slice())
}

fn add_logs(logs: &mut MemoryLogs, alloc: Global) -> Result<(), Fail> {
    for log in LOGS.lines() {
        add_log(logs, alloc, log)?;
    }
    Ok(())
}

fn add_options(words: &mut TextList, alloc: Global, options: &str) -> Result<(), AllocError> {
    for option in options.split(' ') {
        if !option.is_empty() {
            add_word(words, alloc, option)?;
        }
    }
    Ok(())
}

fn listed(alloc: Global, options: &str, query: &str) -> Result<TextList, AllocError> {
    let mut words = TextList::new(alloc);
    add_options(&mut words, alloc, options)?;
    add_word(&mut words, alloc, query)?;
    Ok(words)
}

// The words as they are typed: options, and the query between quotes.
fn words(alloc: Global, typed: &str) -> Result<TextList, Fail> {
    let (options, rest) = typed.split_once('"').ok_or("no query")?;
    let query = rest.strip_suffix('"').ok_or("no end")?;
    Ok(listed(alloc, options, query)?)
}

// The code of a run with what it writes to out and to err, and what a file holds behind it.
fn told_in(outside: &mut InMemory, alloc: Global, file: &str, typed: &str) -> Result<Bytes, Fail> {
    outside.disk.put(&name("o.csv")?, b"z")?;
    let mut told = told_outputs(outside, alloc, &words(alloc, typed)?, 0)?;
    told.push(b'|')?;
    add_file(&mut told, &outside.disk, file)?;
    Ok(told)
}

// The name of a file, the words, and what is told: the code, and out, err and the file with `|` between them.
const WORKED: &str = "\
none -i:IISW3C -e:0 \"SELECT * FROM r.log\" => 8 |logparser: parse errors: r.log row 1;|
none \"SELECT a, b FROM v.csv\" => 0 a  b;-- -;1  x;2  x;3  x;4  x;5  x;6  x;7  x;8  x;9  x;10 x;;a    b;---- -;1000 y;|Statistics:;-----------;Elements processed: 11;Elements output:    11;|
none -headers:OFF \"SELECT a, b FROM v.csv\" => 0 1  x;2  x;3  x;4  x;5  x;6  x;7  x;8  x;9  x;10 x;;1000 y;|Statistics:;-----------;Elements processed: 11;Elements output:    11;|
out_a_b.csv \"SELECT k, v INTO out_*.csv FROM m.csv\" => 0 |Statistics:;-----------;Elements processed: 3;Elements output:    3;|v;1;2;
out_c.csv \"SELECT k, v INTO out_*.csv FROM m.csv\" => 0 |Statistics:;-----------;Elements processed: 3;Elements output:    3;|v;3;
none -tpl:t.tpl \"SELECT u, h FROM t.csv\" => 0 u (2);a: 5;b: 7;c: 5;1970-01-01 00:00:00;|Statistics:;-----------;Elements processed: 3;Elements output:    3;|
none -o:W3C \"SELECT s, n, TIMESTAMP('2000-10-10 20:55:36','yyyy-MM-dd hh:mm:ss') AS t FROM x.csv\" => 0 #Software: Log Parser;#Version: 1.0;#Date: 1970-01-01 00:00:00;#Fields: s n t;hello+world 1 2000-10-10+20:55:36;- 2 2000-10-10+20:55:36;|Statistics:;-----------;Elements processed: 2;Elements output:    2;|
none -o:TSV \"SELECT s, n FROM x.csv\" => 0 s\tn;hello world\t1;\t2;|Statistics:;-----------;Elements processed: 2;Elements output:    2;|
none \"SELECT x FROM t.csv\" => 3 |logparser: query: at 7: unknown field;|
none \"SELECT 'a FROM t.csv\" => 3 |logparser: query: at 7: open string;|
none \"SELECT 9223372036854775808 FROM t.csv\" => 3 |logparser: query: at 7: number too large;|
none \"SELECT u FROM t.csv WHERE\" => 3 |logparser: query: at 25: syntax;|
o.csv -fileMode:2 \"SELECT Text INTO o.csv FROM f.txt\" => 0 |Statistics:;-----------;Elements processed: 1;Elements output:    1;|z
a.log \"SELECT Text INTO a.log FROM a.log\" => 4 |logparser: input: name clash a.log;|
none -i:TEXTLINE -o:CSV \"SELECT Text, COUNT(*) AS n, PROPCOUNT(*) AS p FROM g.log GROUP BY Text WITH ROLLUP\" => 0 Text,n,p;x,2,0.666666;y,1,0.333333;,3,1.000000;|Statistics:;-----------;Elements processed: 3;Elements output:    3;|
o.csv -i:TEXTLINE \"SELECT COUNT(*), MAX(Index) INTO o.csv FROM g.log WHERE Text = 'z'\" => 0 |Statistics:;-----------;Elements processed: 3;Elements output:    1;|COUNT(ALL *),MAX(ALL Index);0,;
o.csv -i:TEXTLINE \"SELECT Text, COUNT(*) INTO o.csv FROM g.log\" => 3 |logparser: query: at 7: not grouped;|z
none -i:TEXTLINE \"SELECT * FROM g.log GROUP BY Text\" => 3 |logparser: query: at 7: star with groups;|
none -i:TEXTLINE \"SELECT SUM(COUNT(*)) FROM g.log\" => 3 |logparser: query: at 11: nested aggregate;|
none -o:CSV \"SELECT k, GROUPING(k) AS r, COUNT(*), SUM(v) FROM g.csv GROUP BY k WITH ROLLUP\" => 0 k,r,COUNT(ALL *),SUM(ALL v);a,0,2,4;,0,1,2;,1,3,6;|Statistics:;-----------;Elements processed: 3;Elements output:    3;|
none -o:CSV \"SELECT k, GROUPING(k) AS r, COUNT(*), SUM(v) FROM k.csv GROUP BY k WITH ROLLUP\" => 0 k,r,COUNT(ALL *),SUM(ALL v);,1,0,;|Statistics:;-----------;Elements processed: 0;Elements output:    1;|
none -o:CSV \"SELECT SUM(n) AS s, MAX(n) AS m FROM s.csv\" => 0 s,m;,9223372036854775807;|Statistics:;-----------;Elements processed: 2;Elements output:    1;|
none -o:CSV \"SELECT AVG(n) AS a FROM n.csv\" => 0 a;-1;|Statistics:;-----------;Elements processed: 2;Elements output:    1;|
none -o:CSV \"SELECT TOP 2 u, h FROM t.csv ORDER BY h DESC\" => 0 u,h;b,7;a,5;|Statistics:;-----------;Elements processed: 3;Elements output:    2;|
none -o:CSV \"SELECT u FROM t.csv WHERE u NOT IN (SELECT w FROM d.csv)\" => 0 u;a;c;|Statistics:;-----------;Elements processed: 3;Elements output:    2;|
none -o:CSV \"SELECT DISTINCT k FROM g.csv ORDER BY k\" => 0 k;\"\";a;|Statistics:;-----------;Elements processed: 3;Elements output:    2;|
none \"SELECT k, v FROM g.csv GROUP BY k\" => 3 |logparser: query: at 10: not grouped;|";

// Further ones, without statistics.
const FURTHER: &str = "\
none -rtp:2 \"SELECT h FROM t.csv\" => 0 h;-;5;7;;h;-;5;||
none -rtp:3 \"SELECT h FROM t.csv\" => 0 h;-;5;7;5;||
none -rtp:4 \"SELECT h FROM t.csv\" => 0 h;-;5;7;5;||
none -rtp:-1 \"SELECT b, a FROM v.csv WHERE a > 9\" => 0 b a;- ----;x 10;y 1000;||
none \"SELECT k, v FROM w.csv\" => 0 k   v;--- -;é€  1;a?? 2;-   3;||
none \"SELECT h FROM t.csv WHERE h = 6\" => 0 h;-;||
none -o:W3C -headers:OFF \"SELECT 'a b' AS [c d], '' AS e FROM f.txt\" => 0 #Software: Log Parser;#Version: 1.0;#Date: 1970-01-01 00:00:00;#Fields: c+d e;a+b -;||
none -o:TSV -oSeparator:a -headers:OFF \"SELECT 'bab', 'c' FROM f.txt\" => 0 b bac;||
o.csv -o:NAT -fileMode:0 \"SELECT u, h INTO o.csv FROM t.csv WHERE h = 7\" => 0 ||zu h;- -;b 7;
o.csv -fileMode:0 -headers:ON \"SELECT u, h INTO o.csv FROM t.csv WHERE h = 7\" => 0 ||zu,h;b,7;
o.csv -fileMode:1 -headers:OFF \"SELECT u, h INTO o.csv FROM t.csv WHERE h = 7\" => 0 ||b,7;
_.csv \"SELECT k, v INTO *.csv FROM p.csv\" => 0 ||v;1;2;3;
none -tpl:open.tpl \"SELECT u FROM t.csv\" => 4 |logparser: input: template at 0: unclosed;|
none -tpl:twice.tpl \"SELECT u FROM t.csv\" => 4 |logparser: input: template at 17: misplaced;|
none -tpl:text.tpl \"SELECT u FROM t.csv\" => 4 |logparser: input: template at 0: outside text;|
none -tpl:sign.tpl \"SELECT u FROM t.csv\" => 0 a%b%c%||
none -i:TEXTLINE -headers:OFF \"SELECT TOP 1 Text, COUNT(*) AS n FROM g.log GROUP BY Text HAVING MAX(Index) > 1 ORDER BY n DESC\" => 0 x    2;||
_x.csv -i:TEXTLINE -o:CSV \"SELECT Text, COUNT(*) AS n INTO _*.csv FROM g.log GROUP BY Text\" => 0 ||n;2;";

fn told_over(
    outside: &mut InMemory,
    alloc: Global,
    run: &str,
    options: &str,
) -> Result<Bytes, Fail> {
    let (file, typed) = run.split_once(' ').ok_or("no words")?;
    let typed = format!(in alloc; "{options}{typed}")?;
    add_logs(&mut outside.logs, alloc)?;
    told_in(outside, alloc, file, typed.as_str())
}

fn told(alloc: Global, run: &str, options: &str) -> Result<Bytes, Fail> {
    told_over(&mut giving(alloc, Bytes::new(alloc)), alloc, run, options)
}

fn check_row(rt: &impl Abort, alloc: Global, row: &str, options: &str) -> Result<(), Fail> {
    let told = told(alloc, asked(row), options)?;
    Ok(check(rt, alloc, row, &told)?)
}

#[test]
fn worked_runs_are_told(rt: HostRuntime) -> Result<(), Fail> {
    for row in WORKED.lines() {
        check_row(&rt, rt.alloc(), row, "")?;
    }
    Ok(())
}

#[test]
fn further_runs_are_told(rt: HostRuntime) -> Result<(), Fail> {
    for row in FURTHER.lines() {
        check_row(&rt, rt.alloc(), row, "-stats:OFF ")?;
    }
    Ok(())
}

fn add_number(to: &mut Bytes, alloc: Global, number: u32) -> Result<(), AllocError> {
    to.add(format!(in alloc; "{number}\n")?.as_str().as_bytes())
}

// So many lines, each another one.
fn numbers(alloc: Global, count: u32) -> Result<Bytes, AllocError> {
    let mut bytes = Bytes::new(alloc);
    for number in 0..count {
        add_number(&mut bytes, alloc, number)?;
    }
    Ok(bytes)
}

fn told_of(outside: &mut InMemory, alloc: Global, log: &[u8]) -> Result<Bytes, Fail> {
    put(&mut outside.logs, "n.log", log)?;
    let typed = "-o:CSV \"SELECT Text, Index INTO *.csv FROM n.log\"";
    told_in(outside, alloc, "none", typed)
}

fn told_many(alloc: Global, count: u32) -> Result<Bytes, Fail> {
    let lines = numbers(alloc, count)?;
    told_of(
        &mut giving(alloc, Bytes::new(alloc)),
        alloc,
        lines.as_slice(),
    )
}

#[test]
fn outputs_are_counted(rt: HostRuntime) -> Result<(), Fail> {
    let told = told_many(rt.alloc(), 10_001)?;
    let row = "many => 4 |logparser: input: more than 10000 outputs;|";
    Ok(check(&rt, rt.alloc(), row, &told)?)
}
