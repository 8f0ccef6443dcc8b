// A log up to its cut, to a taker.
ghost use Rattle.std.specs.Prelude.{◌≡◌, ◌≤◌, ◌<◌, ◌^◌, ◌+◌, ◌-◌, ◌++◌, ◌∷◌, [], ℕ, List, Bool, length, take, Option, OnOk, OnErr, IfOk, IfErr, MatchResult, IsErrOf, true, false};
ghost use Rattle.std.specs.List.{position_or_len};
ghost use Rattle.lp_model.specs.Outside.{Rose, OnlyGrow, Told};
ghost use Rattle.lp_model.specs.Lines.{is_lf};
ghost use Rattle.lp_model.specs.Reading.{standing_at};
ghost use Rattle.log_reading.specs.Parts.{IsReadUp};
ghost use Rattle.log_reading.specs.Page.{HasRoom, Spends, Follows, StopsIn, ExceedsIn, IsWithin, OnBad, to_come};
ghost use Rattle.log_reading.specs.Found.{log_ended};
ghost use Rattle.log_reading.specs.Spans.{HasRead, ReadsAheadInLog, ReadsAheadInSpan, StopsReading, ExceedsReading, IsKept, TakesRows, TakesSpan, EndsSpan, OnBadLine, cut_of, page_end, took_at, took_of};
ghost use Rattle.log_reading.specs.UpTo.{StopsInSpan, StopsUpTo, TakesUpTo};

use crate::lines::take_rest;
use crate::pieces::{read_some, take_piece};
use crate::{LineFault, LogSource, Page, RunFault, Span, TakeFault, Taker, Took, TookList};
use line_input::{LineReader, Splitter};
use std::alloc::{AllocError, Global};

// The bad line of a span that is one too many.
fn one_too_many(span: &Span, row: u64) -> RunFault
    ensures { result ≡ RunFault.Bad span.now.identity row }
{
    RunFault::Bad {
        log: span.identity.copy(),
        row,
    }
}

// Hands on what may go on to the output.
fn hand_on<T: Taker<O>, O>(page: &mut Page<T>, out: &mut O) -> Result<(), RunFault>
    ensures takes { OnOk result (T.takes page.old.taker out.old [] page.new.taker out.new) }
    ensures stops { OnErr result (T.stops page.old.taker out.old [] page.new.taker out.new) }
    ensures handed { OnOk result (T.handed_on page.new.taker out.new) }
    ensures count { OnOk result (T.count page.new.taker ≡ T.count page.old.taker) }
    ensures splitter { page.new.splitter ≡ page.old.splitter }
    ensures standing { page.new.standing ≡ page.old.standing }
    ensures rows { page.new.rows ≡ page.old.rows }
    ensures bad { page.new.bad ≡ page.old.bad }
    ensures most { page.new.most_bad ≡ page.old.most_bad }
    ensures no_line { IfErr result (λ fault. OnBadLine fault (λ line. ⊥)) }
    ensures no_logs { IsErrOf result RunFault.Logs → ⊥ }
    ensures goes { T.goes out.old out.new }
    ensures later { T.faults out.old ≤ T.faults out.new }
    ensures output { IsErrOf result RunFault.Output → Rose (T.faults out.old) (T.faults out.new) }
    ensures stopped { IsErrOf result RunFault.Stopped → T.stopped page.new.taker }
{
    match page.taker.hand_on(out) {
        Ok(()) => Ok(()),
        Err(TakeFault::Memory) => Err(RunFault::Memory),
        Err(TakeFault::Failed) => Err(RunFault::Output),
        Err(TakeFault::Stopped) => Err(RunFault::Stopped),
    }
}

// Reads a piece of a log, takes its lines and hands on what may go on, and tells whether there was a piece.
fn read_piece<R: LineReader, L: LogSource, T: Taker<O>, O>(
    alloc: Global,
    reader: &R,
    logs: &mut L,
    span: &Span,
    chunk: &mut [u8],
    page: &mut Page<T>,
    out: &mut O,
) -> Result<bool, RunFault>
    requires ready { L.ready logs.old span.now.name (page.old.splitter.place + length page.old.splitter.left) }
    requires cut { span.now.listed ≤ 2 ^ 46 }
    requires below { page.old.splitter.place + length page.old.splitter.left < span.now.listed }
    requires chunk { 0 < length chunk.old }
    requires room { HasRoom T.count page.old (span.now.listed - page.old.splitter.place + 1) }
    requires within { IsWithin page.old.most_bad page.old.bad }
    ensures grows { OnlyGrow (L.folder logs.old) (L.folder logs.new) }
    ensures goes_logs { L.goes logs.old logs.new }
    ensures read { OnOk result ((waits : Bool) → HasRead T.takes (R.format reader.now) span.now.identity waits (L.folder logs.new) span.now.name span.now.listed page.old page.new out.old out.new) }
    ensures stops { OnErr result ((waits : Bool) → StopsReading T.stops (R.format reader.now) span.now.identity waits (L.folder logs.new) span.now.name span.now.listed page.old page.new out.old out.new) }
    ensures too_many { IfErr result (λ fault. OnBadLine fault (λ line. (line.log ≡ span.now.identity)
        × ((waits : Bool) → ExceedsReading T.takes (R.format reader.now) span.now.identity waits (L.folder logs.new) span.now.name span.now.listed page.old page.new out.old out.new line.row))) }
    ensures within { OnOk result (IsWithin page.new.most_bad page.new.bad) }
    ensures most { page.new.most_bad ≡ page.old.most_bad }
    ensures longer { IfOk result (λ more. more ≡ true → page.old.splitter.place + length page.old.splitter.left < page.new.splitter.place + length page.new.splitter.left) }
    ensures further { OnOk result (page.old.splitter.place + length page.old.splitter.left ≤ page.new.splitter.place + length page.new.splitter.left) }
    ensures same { IfOk result (λ more. more ≡ false → page.new.splitter.place + length page.new.splitter.left ≡ page.old.splitter.place + length page.old.splitter.left) }
    ensures end { IfOk result (λ more. more ≡ false → IsReadUp (L.folder logs.new) span.now.name (page.new.splitter.place + length page.new.splitter.left) span.now.listed) }
    ensures ready { OnOk result (L.ready logs.new span.now.name (page.new.splitter.place + length page.new.splitter.left)) }
    ensures fits { OnOk result (page.new.splitter.place + length page.new.splitter.left ≤ span.now.listed) }
    ensures last { OnOk result (length page.new.splitter.left ≤ position_or_len is_lf page.new.splitter.left) }
    ensures room { OnOk result (HasRoom T.count page.new (span.now.listed - page.new.splitter.place + 1)) }
    ensures spends { OnOk result (Spends T.count page.old page.new ((page.new.splitter.place + length page.new.splitter.left) - (page.old.splitter.place + length page.old.splitter.left))) }
    ensures given { OnOk result (L.given logs.new + (page.old.splitter.place + length page.old.splitter.left) ≡ L.given logs.old + (page.new.splitter.place + length page.new.splitter.left)) }
    ensures once { L.given logs.new ≤ L.given logs.old + length chunk.new }
    // The source is read at most once before what may go on is handed on.
    ensures asked { L.reads logs.new ≤ L.reads logs.old + 1 }
    ensures given_at_most { OnErr result (L.given logs.new + (page.old.splitter.place + length page.old.splitter.left) ≤ L.given logs.old + span.now.listed) }
    ensures handed { OnOk result (T.handed_on page.new.taker out.new) }
    ensures later_logs { L.faults logs.old ≤ L.faults logs.new }
    ensures logs { IsErrOf result RunFault.Logs → Rose (L.faults logs.old) (L.faults logs.new) }
    ensures goes { T.goes out.old out.new }
    ensures later { T.faults out.old ≤ T.faults out.new }
    ensures output { IsErrOf result RunFault.Output → Rose (T.faults out.old) (T.faults out.new) }
    ensures stopped { IsErrOf result RunFault.Stopped → T.stopped page.new.taker }
{
    let at = page.splitter.end();
    let count = match read_some(logs, &span.name, at, span.listed, chunk) {
        Ok(count) => count,
        Err(_) => return Err(RunFault::Logs),
    };
    match take_piece(alloc, reader, &span.identity, &chunk[..count], page, out) {
        Ok(()) => {
            hand_on(page, out)?;
            Ok(count > 0)
        }
        Err(LineFault::Memory) => Err(RunFault::Memory),
        Err(LineFault::Failed) => Err(RunFault::Output),
        Err(LineFault::Stopped) => Err(RunFault::Stopped),
        Err(LineFault::Bad { row }) => Err(one_too_many(span, row)),
    }
}

// Reads a log up to its cut, or to its end where that comes first, and takes its lines that LF ends.
fn read_log<R: LineReader, L: LogSource, T: Taker<O>, O>(
    alloc: Global,
    reader: &R,
    logs: &mut L,
    span: &Span,
    chunk: &mut [u8],
    page: &mut Page<T>,
    out: &mut O,
) -> Result<(), RunFault>
    requires ready { L.ready logs.old span.now.name page.old.splitter.place }
    requires cut { span.now.listed ≤ 2 ^ 46 }
    requires start { page.old.splitter.place ≤ span.now.listed }
    requires empty { page.old.splitter.left ≡ [] }
    requires chunk { 0 < length chunk.old }
    requires room { HasRoom T.count page.old (span.now.listed - page.old.splitter.place + 1) }
    requires within { IsWithin page.old.most_bad page.old.bad }
    requires handed { T.handed_on page.old.taker out.old }
    ensures grows { OnlyGrow (L.folder logs.old) (L.folder logs.new) }
    ensures goes_logs { L.goes logs.old logs.new }
    ensures read { OnOk result ((waits : Bool) → HasRead T.takes (R.format reader.now) span.now.identity waits (L.folder logs.new) span.now.name span.now.listed page.old page.new out.old out.new) }
    ensures stops { OnErr result ((waits : Bool) → StopsReading T.stops (R.format reader.now) span.now.identity waits (L.folder logs.new) span.now.name span.now.listed page.old page.new out.old out.new) }
    ensures too_many { IfErr result (λ fault. OnBadLine fault (λ line. (line.log ≡ span.now.identity)
        × ((waits : Bool) → ExceedsReading T.takes (R.format reader.now) span.now.identity waits (L.folder logs.new) span.now.name span.now.listed page.old page.new out.old out.new line.row))) }
    ensures within { OnOk result (IsWithin page.new.most_bad page.new.bad) }
    ensures most { page.new.most_bad ≡ page.old.most_bad }
    ensures whole { OnOk result (IsReadUp (L.folder logs.new) span.now.name (page.new.splitter.place + length page.new.splitter.left) span.now.listed) }
    ensures below { OnOk result (page.new.splitter.place + length page.new.splitter.left ≤ span.now.listed) }
    ensures last { OnOk result (length page.new.splitter.left ≤ position_or_len is_lf page.new.splitter.left) }
    ensures room { OnOk result (HasRoom T.count page.new (span.now.listed - page.new.splitter.place + 1)) }
    ensures spends { OnOk result (Spends T.count page.old page.new (span.now.listed - page.old.splitter.place)) }
    ensures given { L.given logs.new + page.old.splitter.place ≤ L.given logs.old + span.now.listed }
    ensures ahead { ReadsAheadInLog T.takes T.goes T.handed_on (R.format reader.now) span.now.identity (L.folder logs.new) span.now.name span.now.listed (length chunk.old) (L.given logs.old) (L.given logs.new) page.old out.old out.new }
    ensures later_logs { L.faults logs.old ≤ L.faults logs.new }
    ensures logs { IsErrOf result RunFault.Logs → Rose (L.faults logs.old) (L.faults logs.new) }
    ensures goes { T.goes out.old out.new }
    ensures later { T.faults out.old ≤ T.faults out.new }
    ensures output { IsErrOf result RunFault.Output → Rose (T.faults out.old) (T.faults out.new) }
    ensures stopped { IsErrOf result RunFault.Stopped → T.stopped page.new.taker }
{
    let mut more = true;
    'log: while more && page.splitter.end() < span.listed {
        more = read_piece(alloc, reader, logs, span, chunk, page, out)?;
    }
    Ok(())
}

// Begins with a log.
fn start_log<T>(alloc: Global, span: &Span, page: &mut Page<T>) -> Result<(), AllocError>
    ensures taker { page.new.taker ≡ page.old.taker }
    ensures rows { page.new.rows ≡ page.old.rows }
    ensures bad { page.new.bad ≡ page.old.bad }
    ensures most { page.new.most_bad ≡ page.old.most_bad }
    ensures place { OnOk result (page.new.splitter.place ≡ span.now.from) }
    ensures left { OnOk result (page.new.splitter.left ≡ []) }
    ensures standing { OnOk result (page.new.standing ≡ span.now.standing) }
{
    let standing = span.standing.copy(alloc)?;
    page.standing = standing;
    page.splitter = Splitter::new(alloc, span.from);
    Ok(())
}

// Takes what stands behind the last LF, unless lines wait for their LF.
fn finish_log<R: LineReader, T: Taker<O>, O>(
    alloc: Global,
    reader: &R,
    waits: bool,
    span: &Span,
    page: &mut Page<T>,
    out: &mut O,
) -> Result<(), LineFault>
    requires room { HasRoom T.count page.old (length page.old.splitter.left + 1) }
    requires last { length page.old.splitter.left ≤ position_or_len is_lf page.old.splitter.left }
    requires within { IsWithin page.old.most_bad page.old.bad }
    ensures takes { OnOk result (Follows T.takes (R.format reader.now) span.now.identity (to_come waits page.old []) page.old page.new out.old out.new) }
    ensures stops { OnErr result (StopsIn T.stops (R.format reader.now) span.now.identity (to_come waits page.old []) page.old page.new out.old out.new) }
    ensures too_many { IfErr result (λ fault. OnBad fault (λ row. ExceedsIn T.takes (R.format reader.now) span.now.identity (to_come waits page.old []) page.old page.new out.old out.new row)) }
    ensures within { OnOk result (IsWithin page.new.most_bad page.new.bad) }
    ensures most { page.new.most_bad ≡ page.old.most_bad }
    ensures spends { OnOk result (Spends T.count page.old page.new 1) }
    ensures place { waits ≡ true → page.new.splitter ≡ page.old.splitter }
    ensures end { OnOk result (page.new.splitter.place + length page.new.splitter.left ≡ page.old.splitter.place + length page.old.splitter.left) }
    ensures goes { T.goes out.old out.new }
    ensures later { T.faults out.old ≤ T.faults out.new }
    ensures failed { IsErrOf result LineFault.Failed → Rose (T.faults out.old) (T.faults out.new) }
    ensures stopped { IsErrOf result LineFault.Stopped → T.stopped page.new.taker }
{
    if waits {
        Ok(())
    } else {
        take_rest(alloc, reader, &span.identity, page, out)?;
        Ok(())
    }
}

// Takes the rows of a span.
fn read_span<R: LineReader, L: LogSource, T: Taker<O>, O>(
    alloc: Global,
    reader: &R,
    waits: bool,
    logs: &mut L,
    span: &Span,
    chunk: &mut [u8],
    page: &mut Page<T>,
    out: &mut O,
) -> Result<(), RunFault>
    requires ready { L.ready logs.old span.now.name span.now.from }
    requires cut { span.now.listed ≤ 2 ^ 46 }
    requires start { span.now.from ≤ span.now.listed }
    requires lines { span.now.standing.lines ≤ span.now.from }
    requires chunk { 0 < length chunk.old }
    requires rows { page.old.rows + (span.now.listed - span.now.from) + 1 < 2 ^ 63 }
    requires bad { page.old.bad + (span.now.listed - span.now.from) + 1 < 2 ^ 63 }
    requires within { IsWithin page.old.most_bad page.old.bad }
    requires taken { T.count page.old.taker + (span.now.listed - span.now.from) + 1 < 2 ^ 63 }
    requires handed { T.handed_on page.old.taker out.old }
    ensures grows { OnlyGrow (L.folder logs.old) (L.folder logs.new) }
    ensures goes_logs { L.goes logs.old logs.new }
    ensures takes { OnOk result (Told (L.folder logs.new) (λ folder. IsKept (R.format reader.now) waits (cut_of folder span.now) span.now
        → TakesRows T.takes (R.format reader.now) waits folder span.now page.old page.new out.old out.new)) }
    ensures stops { OnErr result (Told (L.folder logs.new) (λ folder. IsKept (R.format reader.now) waits (cut_of folder span.now) span.now
        → StopsInSpan T.stops (R.format reader.now) waits folder span.now page.old page.new out.old out.new)) }
    ensures too_many { IfErr result (λ fault. OnBadLine fault (λ line. Told (L.folder logs.new) (λ folder. IsKept (R.format reader.now) waits (cut_of folder span.now) span.now
        → TakesUpTo T.takes (R.format reader.now) waits folder (span.now ∷ []) line page.old page.new out.old out.new))) }
    ensures within { OnOk result (IsWithin page.new.most_bad page.new.bad) }
    ensures most { page.new.most_bad ≡ page.old.most_bad }
    ensures standing { OnOk result (Told (L.folder logs.new) (λ folder. IsKept (R.format reader.now) waits (cut_of folder span.now) span.now
        → page.new.standing ≡ standing_at (R.format reader.now) (cut_of folder span.now) waits (length (cut_of folder span.now)))) }
    ensures ends { OnOk result (Told (L.folder logs.new) (λ folder. IsKept (R.format reader.now) waits (cut_of folder span.now) span.now
        → EndsSpan (R.format reader.now) waits folder span.now page.new)) }
    ensures rows { OnOk result (page.new.rows ≤ page.old.rows + (span.now.listed - span.now.from) + 1) }
    ensures bad { OnOk result (page.new.bad ≤ page.old.bad + (span.now.listed - span.now.from) + 1) }
    ensures taken { OnOk result (T.count page.new.taker ≤ T.count page.old.taker + (span.now.listed - span.now.from) + 1) }
    ensures given { L.given logs.new + span.now.from ≤ L.given logs.old + span.now.listed }
    ensures ahead { ReadsAheadInSpan T.takes T.goes T.handed_on (R.format reader.now) waits (L.folder logs.new) span.now (length chunk.old) (L.given logs.old) (L.given logs.new) page.old.taker out.old out.new }
    ensures later_logs { L.faults logs.old ≤ L.faults logs.new }
    ensures logs { IsErrOf result RunFault.Logs → Rose (L.faults logs.old) (L.faults logs.new) }
    ensures goes { T.goes out.old out.new }
    ensures later { T.faults out.old ≤ T.faults out.new }
    ensures output { IsErrOf result RunFault.Output → Rose (T.faults out.old) (T.faults out.new) }
    ensures stopped { IsErrOf result RunFault.Stopped → T.stopped page.new.taker }
{
    let Ok(()) = start_log(alloc, span, page) else {
        return Err(RunFault::Memory);
    };
    read_log(alloc, reader, logs, span, chunk, page, out)?;
    match finish_log(alloc, reader, waits, span, page, out) {
        Ok(()) => Ok(()),
        Err(LineFault::Memory) => Err(RunFault::Memory),
        Err(LineFault::Failed) => Err(RunFault::Output),
        Err(LineFault::Stopped) => Err(RunFault::Stopped),
        Err(LineFault::Bad { row }) => Err(one_too_many(span, row)),
    }
}

// Takes the end of a span's log, and hands on what may go on.
fn end_span<T: Taker<O>, O>(
    alloc: Global,
    span: &Span,
    page: &mut Page<T>,
    out: &mut O,
) -> Result<(), RunFault>
    ensures takes { OnOk result (T.takes page.old.taker out.old (log_ended span.now.identity page.old.standing.columns ∷ []) page.new.taker out.new) }
    ensures stops { OnErr result (T.stops page.old.taker out.old (log_ended span.now.identity page.old.standing.columns ∷ []) page.new.taker out.new) }
    ensures handed { OnOk result (T.handed_on page.new.taker out.new) }
    ensures count { OnOk result (T.count page.new.taker ≡ T.count page.old.taker) }
    ensures splitter { page.new.splitter ≡ page.old.splitter }
    ensures standing { page.new.standing ≡ page.old.standing }
    ensures rows { page.new.rows ≡ page.old.rows }
    ensures bad { page.new.bad ≡ page.old.bad }
    ensures most { page.new.most_bad ≡ page.old.most_bad }
    ensures no_line { IfErr result (λ fault. OnBadLine fault (λ line. ⊥)) }
    ensures no_logs { IsErrOf result RunFault.Logs → ⊥ }
    ensures goes { T.goes out.old out.new }
    ensures later { T.faults out.old ≤ T.faults out.new }
    ensures output { IsErrOf result RunFault.Output → Rose (T.faults out.old) (T.faults out.new) }
    ensures stopped { IsErrOf result RunFault.Stopped → T.stopped page.new.taker }
{
    let columns = page.standing.columns();
    match page.taker.end_log(alloc, &span.identity, columns, out) {
        Ok(()) => hand_on(page, out),
        Err(TakeFault::Memory) => Err(RunFault::Memory),
        Err(TakeFault::Failed) => Err(RunFault::Output),
        Err(TakeFault::Stopped) => Err(RunFault::Stopped),
    }
}

// Takes a span: its rows, and then the end of its log.
fn take_span<R: LineReader, L: LogSource, T: Taker<O>, O>(
    alloc: Global,
    reader: &R,
    waits: bool,
    logs: &mut L,
    span: &Span,
    chunk: &mut [u8],
    page: &mut Page<T>,
    out: &mut O,
) -> Result<(), RunFault>
    requires ready { L.ready logs.old span.now.name span.now.from }
    requires cut { span.now.listed ≤ 2 ^ 46 }
    requires start { span.now.from ≤ span.now.listed }
    requires lines { span.now.standing.lines ≤ span.now.from }
    requires chunk { 0 < length chunk.old }
    requires rows { page.old.rows + (span.now.listed - span.now.from) + 1 < 2 ^ 63 }
    requires bad { page.old.bad + (span.now.listed - span.now.from) + 1 < 2 ^ 63 }
    requires within { IsWithin page.old.most_bad page.old.bad }
    requires taken { T.count page.old.taker + (span.now.listed - span.now.from) + 1 < 2 ^ 63 }
    requires handed { T.handed_on page.old.taker out.old }
    ensures grows { OnlyGrow (L.folder logs.old) (L.folder logs.new) }
    ensures goes_logs { L.goes logs.old logs.new }
    ensures takes { OnOk result (Told (L.folder logs.new) (λ folder. IsKept (R.format reader.now) waits (cut_of folder span.now) span.now
        → TakesSpan T.takes (R.format reader.now) waits folder span.now page.old page.new out.old out.new)) }
    ensures stops { OnErr result (Told (L.folder logs.new) (λ folder. IsKept (R.format reader.now) waits (cut_of folder span.now) span.now
        → StopsUpTo T.stops (R.format reader.now) waits folder (span.now ∷ []) page.old page.new out.old out.new)) }
    ensures too_many { IfErr result (λ fault. OnBadLine fault (λ line. Told (L.folder logs.new) (λ folder. IsKept (R.format reader.now) waits (cut_of folder span.now) span.now
        → TakesUpTo T.takes (R.format reader.now) waits folder (span.now ∷ []) line page.old page.new out.old out.new))) }
    ensures within { OnOk result (IsWithin page.new.most_bad page.new.bad) }
    ensures most { page.new.most_bad ≡ page.old.most_bad }
    ensures standing { OnOk result (Told (L.folder logs.new) (λ folder. IsKept (R.format reader.now) waits (cut_of folder span.now) span.now
        → page.new.standing ≡ standing_at (R.format reader.now) (cut_of folder span.now) waits (length (cut_of folder span.now)))) }
    ensures ends { OnOk result (Told (L.folder logs.new) (λ folder. IsKept (R.format reader.now) waits (cut_of folder span.now) span.now
        → EndsSpan (R.format reader.now) waits folder span.now page.new)) }
    ensures rows { OnOk result (page.new.rows ≤ page.old.rows + (span.now.listed - span.now.from) + 1) }
    ensures bad { OnOk result (page.new.bad ≤ page.old.bad + (span.now.listed - span.now.from) + 1) }
    ensures taken { OnOk result (T.count page.new.taker ≤ T.count page.old.taker + (span.now.listed - span.now.from) + 1) }
    ensures given { L.given logs.new + span.now.from ≤ L.given logs.old + span.now.listed }
    ensures ahead { ReadsAheadInSpan T.takes T.goes T.handed_on (R.format reader.now) waits (L.folder logs.new) span.now (length chunk.old) (L.given logs.old) (L.given logs.new) page.old.taker out.old out.new }
    ensures handed { OnOk result (T.handed_on page.new.taker out.new) }
    ensures later_logs { L.faults logs.old ≤ L.faults logs.new }
    ensures logs { IsErrOf result RunFault.Logs → Rose (L.faults logs.old) (L.faults logs.new) }
    ensures goes { T.goes out.old out.new }
    ensures later { T.faults out.old ≤ T.faults out.new }
    ensures output { IsErrOf result RunFault.Output → Rose (T.faults out.old) (T.faults out.new) }
    ensures stopped { IsErrOf result RunFault.Stopped → T.stopped page.new.taker }
{
    read_span(alloc, reader, waits, logs, span, chunk, page, out)?;
    end_span(alloc, span, page, out)?;
    Ok(())
}

// Notes what was taken of a log.
fn note_span<T>(
    alloc: Global,
    waits: bool,
    span: &Span,
    page: &Page<T>,
    took: &mut TookList,
) -> Result<(), AllocError>
    ensures { OnOk result (took.new ≡ took.old ++ took_at span.now.identity span.now.from (page_end waits page.now) page.now.standing ∷ []) }
{
    let standing = page.standing.copy(alloc)?;
    let to = if waits {
        page.splitter.place()
    } else {
        page.splitter.end()
    };
    took.push(Took {
        identity: span.identity.copy(),
        from: span.from,
        to,
        standing,
    })?;
    Ok(())
}

// Takes a span, and notes it.
pub(crate) fn take_noted<R: LineReader, L: LogSource, T: Taker<O>, O>(
    alloc: Global,
    reader: &R,
    waits: bool,
    logs: &mut L,
    span: &Span,
    chunk: &mut [u8],
    page: &mut Page<T>,
    took: &mut TookList,
    out: &mut O,
) -> Result<(), RunFault>
    requires ready { L.ready logs.old span.now.name span.now.from }
    requires cut { span.now.listed ≤ 2 ^ 46 }
    requires start { span.now.from ≤ span.now.listed }
    requires lines { span.now.standing.lines ≤ span.now.from }
    requires chunk { 0 < length chunk.old }
    requires rows { page.old.rows + (span.now.listed - span.now.from) + 1 < 2 ^ 63 }
    requires bad { page.old.bad + (span.now.listed - span.now.from) + 1 < 2 ^ 63 }
    requires within { IsWithin page.old.most_bad page.old.bad }
    requires taken { T.count page.old.taker + (span.now.listed - span.now.from) + 1 < 2 ^ 63 }
    requires handed { T.handed_on page.old.taker out.old }
    ensures grows { OnlyGrow (L.folder logs.old) (L.folder logs.new) }
    ensures goes_logs { L.goes logs.old logs.new }
    ensures takes { OnOk result (Told (L.folder logs.new) (λ folder. IsKept (R.format reader.now) waits (cut_of folder span.now) span.now
        → TakesSpan T.takes (R.format reader.now) waits folder span.now page.old page.new out.old out.new)) }
    ensures stops { OnErr result (Told (L.folder logs.new) (λ folder. IsKept (R.format reader.now) waits (cut_of folder span.now) span.now
        → StopsUpTo T.stops (R.format reader.now) waits folder (span.now ∷ []) page.old page.new out.old out.new)) }
    ensures too_many { IfErr result (λ fault. OnBadLine fault (λ line. Told (L.folder logs.new) (λ folder. IsKept (R.format reader.now) waits (cut_of folder span.now) span.now
        → TakesUpTo T.takes (R.format reader.now) waits folder (span.now ∷ []) line page.old page.new out.old out.new))) }
    ensures within { OnOk result (IsWithin page.new.most_bad page.new.bad) }
    ensures most { page.new.most_bad ≡ page.old.most_bad }
    ensures standing { OnOk result (Told (L.folder logs.new) (λ folder. IsKept (R.format reader.now) waits (cut_of folder span.now) span.now
        → page.new.standing ≡ standing_at (R.format reader.now) (cut_of folder span.now) waits (length (cut_of folder span.now)))) }
    ensures took { OnOk result (Told (L.folder logs.new) (λ folder. IsKept (R.format reader.now) waits (cut_of folder span.now) span.now
        → took.new ≡ took.old ++ took_of (R.format reader.now) waits folder span.now ∷ [])) }
    ensures rows { OnOk result (page.new.rows ≤ page.old.rows + (span.now.listed - span.now.from) + 1) }
    ensures bad { OnOk result (page.new.bad ≤ page.old.bad + (span.now.listed - span.now.from) + 1) }
    ensures taken { OnOk result (T.count page.new.taker ≤ T.count page.old.taker + (span.now.listed - span.now.from) + 1) }
    ensures given { L.given logs.new + span.now.from ≤ L.given logs.old + span.now.listed }
    ensures ahead { ReadsAheadInSpan T.takes T.goes T.handed_on (R.format reader.now) waits (L.folder logs.new) span.now (length chunk.old) (L.given logs.old) (L.given logs.new) page.old.taker out.old out.new }
    ensures handed { OnOk result (T.handed_on page.new.taker out.new) }
    ensures later_logs { L.faults logs.old ≤ L.faults logs.new }
    ensures logs { IsErrOf result RunFault.Logs → Rose (L.faults logs.old) (L.faults logs.new) }
    ensures goes { T.goes out.old out.new }
    ensures later { T.faults out.old ≤ T.faults out.new }
    ensures output { IsErrOf result RunFault.Output → Rose (T.faults out.old) (T.faults out.new) }
    ensures stopped { IsErrOf result RunFault.Stopped → T.stopped page.new.taker }
{
    take_span(alloc, reader, waits, logs, span, chunk, page, out)?;
    match note_span(alloc, waits, span, page, took) {
        Ok(()) => Ok(()),
        Err(_) => Err(RunFault::Memory),
    }
}
