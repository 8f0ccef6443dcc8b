// Runs with a checkpoint, one after the other, over logs that grow and rotate and a disk that fails and stops.
use headline::{
    a_call_is_a_run, calls_go_on, calls_reach_worlds, each_line_once_by_calls, run_in_world,
};
use lp_outside::{Logs, Name};
use lp_values::{Bytes, Text, TextList};
use memory_outside::{MemoryDisk, MemoryLogs, MemorySink, MemorySource, Torn, TornList};
use std::alloc::Global;
use std::test::Fail;

fn name(text: &str) -> Result<Name, Fail> {
    Ok(Name::read(text).map_err(|_| "no name")?)
}

// The bytes of a text in which `;` stands for a line's end.
fn lines(alloc: Global, text: &str) -> Result<Bytes, Fail> {
    let mut lines = Bytes::new(alloc);
    for byte in text.as_bytes() {
        lines.push(if *byte == b';' { b'\n' } else { *byte })?;
    }
    Ok(lines)
}

// Whether bytes are those of such a text.
fn are_lines(alloc: Global, bytes: &[u8], text: &str) -> Result<bool, Fail> {
    Ok(bytes == lines(alloc, text)?.as_slice())
}

// The words as they are typed: options, and the query behind them in quotes.
fn words(alloc: Global, typed: &str) -> Result<TextList, Fail> {
    let (options, rest) = typed.split_once('"').ok_or("no query")?;
    let query = rest.strip_suffix('"').ok_or("no end")?;
    let mut words = TextList::new(alloc);
    for option in options.split(' ') {
        if !option.is_empty() {
            words.push(Text::from_str(alloc, option)?)?;
        }
    }
    words.push(Text::from_str(alloc, query)?)?;
    Ok(words)
}

// The code of a run and what it writes to out and to err.
fn told(
    alloc: Global,
    logs: &mut MemoryLogs,
    disk: &mut MemoryDisk,
    typed: &str,
) -> Result<Bytes, Fail> {
    let mut input = MemorySource::new(alloc, Bytes::new(alloc));
    let mut out = MemorySink::new(alloc);
    let mut err = MemorySink::new(alloc);
    let words = words(alloc, typed)?;
    let status = run_in_world(alloc, &words, 0, logs, disk, &mut input, &mut out, &mut err);
    let mut told = Bytes::new(alloc);
    told.add(format!(in alloc; "{} ", status.code())?.as_str().as_bytes())?;
    told.add(out.bytes())?;
    told.add(err.bytes())?;
    Ok(told)
}

// Gives a log another name, and says whether it was there and the name was free.
fn moves(logs: &mut MemoryLogs, from: &Name, to: &Name) -> Result<bool, Fail> {
    if logs.length(from)?.is_some() && logs.length(to)?.is_none() {
        logs.rename(from, to);
        return Ok(true);
    }
    Ok(false)
}

// Whether a run ends where the disk stops behind so many calls. Of what it hadn't synced a crash makes sevens.
fn stops(
    alloc: Global,
    logs: &mut MemoryLogs,
    disk: &mut MemoryDisk,
    typed: &str,
    calls: u64,
) -> Result<bool, Fail> {
    disk.stop_after(calls);
    let stopped = told(alloc, logs, disk, typed)?;
    disk.crash(&torn_list(alloc, Torn::Filled(b'7'))?)?;
    are_lines(alloc, stopped.as_slice(), "6 logparser: disk fault;")
}

// How many calls there are as dots.
fn dots(text: &str) -> Result<u64, Fail> {
    Ok(u64::try_from(text.len()).map_err(|_| "no calls")?)
}

// A step in the life of logs and a disk: bytes are put behind a log or a file, a log goes or is moved, the next call of the disk
// but so many fails, a run is made and tells something, a run stops behind so many calls, or a file holds something.
fn takes(
    alloc: Global,
    logs: &mut MemoryLogs,
    disk: &mut MemoryDisk,
    step: &str,
) -> Result<bool, Fail> {
    let (verb, rest) = step.split_once(' ').ok_or("no step")?;
    let (what, text) = rest.split_once(" => ").ok_or("no text")?;
    match verb {
        "log" => logs.put(&name(what)?, lines(alloc, text)?.as_slice())?,
        "gone" => logs.remove(&name(what)?),
        "moves" => return moves(logs, &name(what)?, &name(text)?),
        "disk" => disk.put(&name(what)?, lines(alloc, text)?.as_slice())?,
        "fails" => disk.fail(dots(text)?)?,
        "stops" => return stops(alloc, logs, disk, what, dots(text)?),
        "run" => return are_lines(alloc, told(alloc, logs, disk, what)?.as_slice(), text),
        "file" => return are_lines(alloc, disk.bytes(&name(what)?), text),
        "size" => {
            return Ok(format!(in alloc; "{}", disk.bytes(&name(what)?).len())?.as_str() == text);
        }
        _ => return Ok(false),
    }
    Ok(true)
}

// Lives, each behind an empty line. A log's bytes are put behind those that it has.
const LIVES: &str = "\
log a.log => a\r;b
run -i:TEXTLINE -iCheckpoint:cp -fileMode:0 \"SELECT Index, Text INTO o.csv FROM a.log\" => 0 Statistics:;-----------;Elements processed: 1;Elements output:    1;
file o.csv => Index,Text;1,a;
size cp => 315
log a.log => ;
run -i:TEXTLINE -iCheckpoint:cp -fileMode:0 \"SELECT Index, Text INTO o.csv FROM a.log\" => 0 Statistics:;-----------;Elements processed: 1;Elements output:    1;
file o.csv => Index,Text;1,a;2,b;
run -i:TEXTLINE -iCheckpoint:cp -fileMode:0 \"SELECT Index, Text INTO o.csv FROM a.log\" => 0 Statistics:;-----------;Elements processed: 0;Elements output:    0;
file o.csv => Index,Text;1,a;2,b;
run -i:TEXTWORD -iCheckpoint:cp -fileMode:0 \"SELECT Index, Text INTO o.csv FROM a.log\" => 4 logparser: input: the ledger has -i:TEXTLINE -headerRow:ON -iSeparator:tab -iRotation:NAMES, given -i:TEXTWORD -headerRow:ON -iSeparator:tab -iRotation:NAMES;
run -i:TEXTLINE -iCheckpoint:cp \"SELECT Text FROM a.log\" => 3 logparser: query: INTO needed;
run -i:TEXTLINE -iCheckpoint:cp \"SELECT Text INTO stdout FROM a.log\" => 3 logparser: query: INTO needed;
run -i:TEXTLINE -iCheckpoint:cp \"SELECT Text INTO p.csv FROM STDIN\" => 3 logparser: query: at 28: STDIN misplaced;
run -i:TEXTLINE -iCheckpoint:cp \"SELECT Text INTO cp FROM a.log\" => 4 logparser: input: name clash cp;
run -i:TEXTLINE -iCheckpoint:cp \"SELECT Text INTO a.log FROM a.log\" => 4 logparser: input: name clash a.log;
run -i:TEXTLINE -iCheckpoint:a.log \"SELECT Text INTO p.csv FROM a.log\" => 4 logparser: input: name clash a.log;
run -i:TEXTLINE -iCheckpoint:cp \"SELECT Nothing INTO p.csv FROM a.log\" => 3 logparser: query: at 7: unknown field;
run -i:TEXTLINE -iCheckpoint:cp \"SELECT Text INTO p.csv FROM b.log\" => 4 logparser: input: no such log b.log;
gone a.log => 
log a.log => x;
run -i:TEXTLINE -iCheckpoint:cp -fileMode:0 \"SELECT Index, Text INTO o.csv FROM a.log\" => 4 logparser: input: a.log is 2 bytes, 5 were read;
file o.csv => Index,Text;1,a;2,b;

log w.log => #Fields: date time cs-uri-stem sc-bytes;2001-01-01 00:00:01 /a 10;#Fields: date time cs-uri-stem;
run -stats:OFF -i:IISW3C -iCheckpoint:cw -fileMode:0 \"SELECT LogRow, time, cs-uri-stem, sc-bytes INTO w.csv FROM w.log\" => 0 
log w.log => 2001-01-01 00:00:02 /b;
run -stats:OFF -i:IISW3C -iCheckpoint:cw -fileMode:0 \"SELECT LogRow, time, cs-uri-stem, sc-bytes INTO w.csv FROM w.log\" => 0 
file w.csv => LogRow,time,cs-uri-stem,sc-bytes;2,00:00:01,/a,10;4,00:00:02,/b,;

log acc.log => a;
run -stats:OFF -i:TEXTLINE -iCheckpoint:cp -iRotation:NUMBERS -fileMode:0 \"SELECT LogFilename, Text INTO o.csv FROM acc.log\" => 0 
file o.csv => LogFilename,Text;acc.log.1,a;
gone acc.log => 
log acc.log.1 => a;b;
log acc.log.2 => c;
log acc.log => d;
run -stats:OFF -i:TEXTLINE -iCheckpoint:cp -iRotation:NUMBERS -fileMode:0 \"SELECT LogFilename, Text INTO o.csv FROM acc.log\" => 0 
file o.csv => LogFilename,Text;acc.log.1,a;acc.log.1,b;acc.log.2,c;acc.log.3,d;

log acc.log => a;
run -stats:OFF -i:TEXTLINE -iCheckpoint:cp -iRotation:NUMBERS -fileMode:0 \"SELECT LogFilename, Text INTO o.csv FROM acc.log\" => 0 
log acc.log.2 => c;
run -i:TEXTLINE -iCheckpoint:cp -iRotation:NUMBERS -fileMode:0 \"SELECT LogFilename, Text INTO o.csv FROM acc.log\" => 4 logparser: input: lost log acc.log.1;

log acc.log => a;
run -stats:OFF -i:TEXTLINE -iCheckpoint:cp -iRotation:NUMBERS -fileMode:0 \"SELECT LogFilename, Text INTO o.csv FROM acc.log\" => 0 
log acc.log => b;
moves acc.log => acc.log.1
log acc.log => c;
stops -stats:OFF -i:TEXTLINE -iCheckpoint:cp -iRotation:NUMBERS -fileMode:0 \"SELECT LogFilename, Text INTO o.csv FROM acc.log\" => .............................
file o.csv => LogFilename,Text;acc.log.1,a;
stops -stats:OFF -i:TEXTLINE -iCheckpoint:cp -iRotation:NUMBERS -fileMode:0 \"SELECT LogFilename, Text INTO o.csv FROM acc.log\" => .....................................
run -stats:OFF -i:TEXTLINE -iCheckpoint:cp -iRotation:NUMBERS -fileMode:0 \"SELECT LogFilename, Text INTO o.csv FROM acc.log\" => 0 
file o.csv => LogFilename,Text;acc.log.1,a;acc.log.1,b;acc.log.2,c;

disk cp => \0\0\0\0\0\0\0\0\0\0\0\0\0\0\0\0\0\0\0
log a.log => a;
run -i:TEXTLINE -iCheckpoint:cp \"SELECT Text INTO o.csv FROM a.log\" => 9 logparser: ledger: ledger at 0;

log u_ex240305.log => #Software: Microsoft Internet Information Services 10.0;#Version: 1.0;#Date: 2024-03-05 00:00:01;#Fields: date time s-ip cs-method cs-uri-stem cs-uri-query s-port cs-username c-ip cs(User-Agent) cs(Referer) sc-status sc-substatus sc-win32-status time-taken;2024-03-05 00:00:01 10.0.0.4 GET /p1 - 80 - 203.0.113.7 Mozilla/5.0+(Windows+NT+10.0) - 200 0 0 10;2024-03-05 00:00:02 10.0.0.4 GET /p2 - 80 - 203.0.113.7 Mozilla/5.0+(Windows+NT+10.0) - 200 0 0 20;2024-03-05 00:00:03 10.0.0.4 GET /p3 - 80 - 203.0.113.7 Mozilla/5.0+(Windows+NT+10.0) - 304 0 0 30;2024-03-05 00:00:04 10.0.0.4 GET /p4 - 80 - 203.0.113.7 Mozilla/5.0+(Windows+NT+10.0) - 200 0 0 40;2024-03-05 00:00:05 10.0.0.4 GET /p5 - 80 - 203.0.113.7 Mozilla/5.0+(Windows+NT+10.0) - 404 0 0 50;2024-03-05 00:00:06 10.0.0.4 GET /p6 - 80 - 203.0.113.7 Mozilla/5.0+(Windows+NT+10.0) - 304 0 0 60;2024-03-05 00:00:07 10.0.0.4 GET /p7 - 80 - 203.0.113.7 Mozilla/5.0+(Windows+NT+10.0) - 200 0 0 70;2024-03-05 00:00:08 10.0.0.4 GET /p8 - 80 - 203.0.113.7 Mozilla/5.0+(Windows+NT+10.0) - 200 0 0 80;2024-03-05 00:00:09 10.0.0.4 GET /p9 - 80 - 203.0.113.7 Mozilla/5.0+(Windows+NT+10.0) - 304 0 0 90;2024-03-05 00:00:10 10.0.0.4 GET /p10 - 80 - 203.0.113.7 Mozilla/5.0+(Windows+NT+10.0) - 404 0 0 100;2024-03-05 00:00:11 10.0.0.4 GET /p11 - 80 - 203.0.113.7 Mozilla/5.0+(Windows+NT+10.0) - 200 0 0 110;2024-03-05 00:00:12 10.0.0.4 GET /p12 - 80 - 203.0.113.7 Mozilla/5.0+(Windows+NT+10.0) - 304 0 0 120;2024-03-05 00:00:13 10.0.0.4 GET /p13 - 80 - 203.0.113.7 Mozilla/5.0+(Windows+NT+10.0) - 200 0 0 130;2024-03-05 00:00:14 10.0.0.4 GET /p14 - 80 - 203.0.113.7 Mozilla/5.0+(Windows+NT+10.0) - 200 0 0 140;2024-03-05 00:00:15 10.0.0.4 GET /p15 - 80 - 203.0.113.7 Mozilla/5.0+(Windows+NT+10.0) - 404 0 0 150;2024-03-05 00:00:16 10.0.0.4 GET /p16 - 80 - 203.0.113.7 Mozilla/5.0+(Windows+NT+10.0) - 200 0 0 160;2024-03-05 00:00:17 10.0.0.4 GET /p17 - 80 - 203.0.113.7 Mozilla/5.0+(Windows+NT+10.0) - 200 0 0 170;2024-03-05 00:00:18 10.0.0.4 GET /p18 - 80 - 203.0.113.7 Mozilla/5.0+(Windows+NT+10.0) - 304 0 0 180;2024-03-05 00:00:19 10.0.0.4 GET /p19 - 80 - 203.0.113.7 Mozilla/5.0+(Windows+NT+10.0) - 200 0 0 190;2024-03-05 00:00:20 10.0.0.4 GET /p20 - 80 - 203.0.113.7 Mozilla/5.0+(Windows+NT+10.0) - 404 0 0 200;
run -iCheckpoint:day.cp \"SELECT sc-status, COUNT(*) AS hits, AVG(time-taken) AS ms INTO day.csv FROM u_ex240305.log GROUP BY sc-status ORDER BY hits DESC\" => 0 Statistics:;-----------;Elements processed: 20;Elements output:    3;
file day.csv => sc-status,hits,ms;200,11,101;304,5,96;404,4,125;
run -iCheckpoint:day.cp \"SELECT sc-status, COUNT(*) AS hits, AVG(time-taken) AS ms INTO day.csv FROM u_ex240305.log GROUP BY sc-status ORDER BY hits DESC\" => 0 Statistics:;-----------;Elements processed: 0;Elements output:    0;
file day.csv => sc-status,hits,ms;

log r.log => 2001-01-01 00:00:01 /a;
run -stats:OFF -i:IISW3C -iCheckpoint:cp -e:0 \"SELECT LogRow INTO o.csv FROM r.log\" => 8 logparser: parse errors: r.log row 1;
run -i:IISW3C -iCheckpoint:cp \"SELECT LogRow INTO o.csv FROM r.log\" => 0 Statistics:;-----------;Elements processed: 0;Elements output:    0;Lines not read:     1;
file o.csv => LogRow;

log m.csv => k,v;a,1;b,2;c,3;
run -stats:OFF -iCheckpoint:cm -fileMode:0 \"SELECT k, v INTO out_*.csv FROM m.csv\" => 0 
file out_a.csv => v;1;
file out_c.csv => v;3;
log m.csv => b,4;
run -stats:OFF -iCheckpoint:cm -fileMode:0 \"SELECT k, v INTO out_*.csv FROM m.csv\" => 0 
file out_b.csv => v;2;4;
log t.tpl => <LPBODY>%v%,</LPBODY>
log m.csv => c,5;
run -stats:OFF -iCheckpoint:cm -tpl:t.tpl \"SELECT v INTO t.txt FROM m.csv\" => 0 
file t.txt => 5,

log a.log => a;
run -stats:OFF -i:TEXTLINE -iCheckpoint:cp -fileMode:0 \"SELECT Index, Text INTO o.csv FROM a.log\" => 0 
log a.log => b;
fails disk => ..........
run -stats:OFF -i:TEXTLINE -iCheckpoint:cp -fileMode:0 \"SELECT Index, Text INTO o.csv FROM a.log\" => 6 logparser: disk fault;
run -stats:OFF -i:TEXTLINE -iCheckpoint:cp -fileMode:0 \"SELECT Index, Text INTO o.csv FROM a.log\" => 0 
file o.csv => Index,Text;1,a;2,b;";

// The first step of a life that doesn't go as it says.
fn broken_at<'a>(alloc: Global, life: &'a str) -> Result<Option<&'a str>, Fail> {
    let mut logs = MemoryLogs::new(alloc);
    let mut disk = MemoryDisk::new(alloc);
    for step in life.lines() {
        if !takes(alloc, &mut logs, &mut disk, step)? {
            return Ok(Some(step));
        }
    }
    Ok(None)
}

// Each run of these tests is one of which the headline's laws speak.
#[test]
fn lives_go_as_they_say(rt: HostRuntime) -> Result<(), Fail> {
    a_call_is_a_run::<MemoryDisk>();
    calls_go_on::<MemoryDisk>();
    calls_reach_worlds::<MemoryDisk>();
    each_line_once_by_calls::<MemoryDisk>();
    for life in LIVES.split("\n\n") {
        let broken = broken_at(rt.alloc(), life)?;
        assert!(rt; broken.is_none(), "{}", broken.unwrap_or(""));
    }
    Ok(())
}

const TORN: [Torn; 5] = [
    Torn::Kept,
    Torn::Lost,
    Torn::Filled(0xA5),
    Torn::Filled(0x5A),
    Torn::Filled(0x37),
];

const APPENDS: &str =
    "-stats:OFF -i:TEXTLINE -iCheckpoint:cp -fileMode:0 \"SELECT Index, Text INTO o.csv FROM a.log\"";

// What a crash makes of whatever a run had not synced.
fn torn_list(alloc: Global, torn: Torn) -> Result<TornList, Fail> {
    let mut list = TornList::new(alloc);
    for _index in 0..32 {
        list.push(torn)?;
    }
    Ok(list)
}

// A run takes a line; the next one, over one line more, stops behind so many calls of the disk, as a crash leaves it; and a third
// is made. Whether the second was whole, and each line stands once in the output.
fn stops_at(alloc: Global, torn: Torn, call: u64) -> Result<(bool, bool), Fail> {
    let mut logs = MemoryLogs::new(alloc);
    let mut disk = MemoryDisk::new(alloc);
    logs.put(&name("a.log")?, b"a\n")?;
    let first = told(alloc, &mut logs, &mut disk, APPENDS)?;
    logs.put(&name("a.log")?, b"b\n")?;
    disk.stop_after(call);
    let second = told(alloc, &mut logs, &mut disk, APPENDS)?;
    disk.crash(&torn_list(alloc, torn)?)?;
    let third = told(alloc, &mut logs, &mut disk, APPENDS)?;
    let ended = are_lines(alloc, first.as_slice(), "0 ")?
        && are_lines(alloc, third.as_slice(), "0 ")?;
    let once = are_lines(alloc, disk.bytes(&name("o.csv")?), "Index,Text;1,a;2,b;")?;
    Ok((are_lines(alloc, second.as_slice(), "0 ")?, ended && once))
}

#[test]
fn a_stopped_run_takes_each_line_once(rt: HostRuntime) -> Result<(), Fail> {
    for torn in TORN {
        for call in 0..64 {
            let (whole, once) = stops_at(rt.alloc(), torn, call)?;
            assert!(rt; once, "a stop behind {call} calls");
            assert!(rt; whole || call < 63);
        }
    }
    Ok(())
}

const NONE: &str = "0 Statistics:;-----------;Elements processed: 0;Elements output:    0;";

const COUNTED: &str =
    "-i:TEXTLINE -iCheckpoint:cp -fileMode:0 \"SELECT Index, Text INTO o.csv FROM a.log\"";

// How many lines the run behind a stopped one takes, where a crash leaves such bytes of all that wasn't synced.
fn left_behind(alloc: Global, torn: Torn, call: u64) -> Result<u8, Fail> {
    let mut logs = MemoryLogs::new(alloc);
    let mut disk = MemoryDisk::new(alloc);
    logs.put(&name("a.log")?, b"a\n")?;
    let _first = told(alloc, &mut logs, &mut disk, COUNTED)?;
    logs.put(&name("a.log")?, b"b\n")?;
    disk.stop_after(call);
    let _stopped = told(alloc, &mut logs, &mut disk, COUNTED)?;
    disk.crash(&torn_list(alloc, torn)?)?;
    let last = told(alloc, &mut logs, &mut disk, COUNTED)?;
    let once = are_lines(alloc, disk.bytes(&name("o.csv")?), "Index,Text;1,a;2,b;")?;
    let none = are_lines(alloc, last.as_slice(), NONE)?;
    let one = are_lines(
        alloc,
        last.as_slice(),
        "0 Statistics:;-----------;Elements processed: 1;Elements output:    1;",
    )?;
    Ok(if !once {
        9
    } else if none {
        0
    } else if one {
        1
    } else {
        9
    })
}

// The gate's byte alone decides: at two calls of the disk, its write and the sync behind it, the run stands where the byte came out
// as an open gate, and its line is taken by the next run where it came out as anything else.
#[test]
fn the_gate_decides(rt: HostRuntime) -> Result<(), Fail> {
    let mut gates = 0u64;
    for call in 0..64 {
        let open = left_behind(rt.alloc(), Torn::Filled(0xA5), call)?;
        let torn = left_behind(rt.alloc(), Torn::Filled(0x37), call)?;
        assert!(rt; open < 2 && torn < 2, "a stop behind {call} calls");
        if open == 0 && torn == 1 {
            gates = gates.saturating_add(1);
        }
    }
    assert!(rt; gates == 2, "{gates}");
    Ok(())
}

const SPLIT: &str = "-iCheckpoint:cm -fileMode:0 \"SELECT k, v INTO out_*.csv FROM m.csv\"";

const THREE: &str = "0 Statistics:;-----------;Elements processed: 3;Elements output:    3;";

// Whether each of three outputs has its row once.
fn are_split(alloc: Global, disk: &MemoryDisk) -> Result<bool, Fail> {
    Ok(
        are_lines(alloc, disk.bytes(&name("out_a.csv")?), "v;1;")?
            && are_lines(alloc, disk.bytes(&name("out_b.csv")?), "v;2;")?
            && are_lines(alloc, disk.bytes(&name("out_c.csv")?), "v;3;")?,
    )
}

// A run into three outputs stops behind so many calls of the disk, and of what it hadn't synced a crash makes one byte.
fn stop_split(
    alloc: Global,
    logs: &mut MemoryLogs,
    disk: &mut MemoryDisk,
    call: u64,
    byte: u8,
) -> Result<(), Fail> {
    disk.stop_after(call);
    let _told = told(alloc, logs, disk, SPLIT)?;
    disk.crash(&torn_list(alloc, Torn::Filled(byte))?)?;
    Ok(())
}

// Two runs into three outputs stop, each behind so many calls of the disk, and a third is made. Whether the outputs are right then
// and it took the lines exactly where the first had not opened its gate; and whether the first stop tore the second output, and the
// second the first.
fn splits_at(alloc: Global, call: u64, next: u64) -> Result<(bool, bool), Fail> {
    let mut logs = MemoryLogs::new(alloc);
    let mut disk = MemoryDisk::new(alloc);
    logs.put(&name("m.csv")?, b"k,v\na,1\nb,2\nc,3\n")?;
    stop_split(alloc, &mut logs, &mut disk, call, 0xA5)?;
    let open = disk
        .bytes(&name("cm")?)
        .starts_with(b"LPCHECKPOINT0001\xA5");
    let second = disk.bytes(&name("out_b.csv")?).starts_with(b"\xA5");
    stop_split(alloc, &mut logs, &mut disk, next, 0x37)?;
    let first = disk.bytes(&name("out_a.csv")?).starts_with(b"7");
    let last = told(alloc, &mut logs, &mut disk, SPLIT)?;
    let counts = if open { NONE } else { THREE };
    let right = are_lines(alloc, last.as_slice(), counts)? && are_split(alloc, &disk)?;
    Ok((right, first && second))
}

// A run that settles reads the ledger before it writes an output, so that the sync of the first one is its fifteenth call. The
// write, the cut and the sync of an output are the three calls at which a stop tears it.
#[test]
fn a_run_that_stops_twice_splits_once(rt: HostRuntime) -> Result<(), Fail> {
    let mut torn = 0u64;
    for call in 20..52 {
        for next in 0..18 {
            let (right, both) = splits_at(rt.alloc(), call, next)?;
            assert!(rt; right, "stops behind {call} and {next} calls");
            if both {
                torn = torn.saturating_add(1);
            }
        }
    }
    assert!(rt; torn == 9, "{torn}");
    Ok(())
}

// One call of the disk fails in the second run, which is made again. Whether it failed for that, and each line stands once.
fn fails_at(alloc: Global, call: u64) -> Result<(bool, bool), Fail> {
    let mut logs = MemoryLogs::new(alloc);
    let mut disk = MemoryDisk::new(alloc);
    logs.put(&name("a.log")?, b"a\n")?;
    let _first = told(alloc, &mut logs, &mut disk, APPENDS)?;
    logs.put(&name("a.log")?, b"b\n")?;
    disk.fail(call)?;
    let second = told(alloc, &mut logs, &mut disk, APPENDS)?;
    let third = told(alloc, &mut logs, &mut disk, APPENDS)?;
    let once = are_lines(alloc, disk.bytes(&name("o.csv")?), "Index,Text;1,a;2,b;")?;
    let ended = are_lines(alloc, third.as_slice(), "0 ")?;
    let failed = are_lines(alloc, second.as_slice(), "6 logparser: disk fault;")?;
    Ok((failed, once && (ended || !failed)))
}

// Each call of the disk fails once, the syncs of the stage among them.
#[test]
fn a_run_that_fails_is_made_again(rt: HostRuntime) -> Result<(), Fail> {
    let mut failed_before = true;
    for call in 0..64 {
        let (failed, once) = fails_at(rt.alloc(), call)?;
        assert!(rt; once, "call {call} fails");
        assert!(rt;
            failed_before || !failed,
            "call {call} fails behind the run"
        );
        failed_before = failed;
    }
    assert!(rt; !failed_before);
    Ok(())
}
