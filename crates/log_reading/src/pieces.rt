// A log's bytes, piece by piece, to a taker.
ghost use Rattle.std.specs.Prelude.{◌≡◌, ◌⊎◌, ◌≤◌, ◌<◌, ◌^◌, ◌+◌, ◌-◌, ◌++◌, [], ℕ, List, Bool, length, take, Option, OnOk, OnErr, IfOk, IfErr, MatchResult, IsErrOf};
ghost use Rattle.std.specs.List.{position_or_len};
ghost use Rattle.lp_model.specs.Outside.{Rose, HasCause, OnlyGrow, Told};
ghost use Rattle.lp_model.specs.Lines.{is_lf};
ghost use Rattle.log_reading.specs.Parts.{IsPart, IsReadUp};
ghost use Rattle.log_reading.specs.Page.{HasRoom, Spends, Advances, StopsIn, StopsWithin, ExceedsWithin, IsWithin, OnBad, to_come};

use crate::lines::take_next;
use crate::{LineFault, LogSource, Page, Taker};
use line_input::LineReader;
use lp_outside::{LogsFailed, Name};
use std::alloc::Global;

/// Takes the lines that LF ends of what the splitter holds.
pub fn take_lines<R: LineReader, T: Taker<O>, O>(
    alloc: Global,
    reader: &R,
    identity: &Name,
    page: &mut Page<T>,
    out: &mut O,
) -> Result<(), LineFault>
    requires room { HasRoom T.count page.old (length page.old.splitter.left + 1) }
    requires within { IsWithin page.old.most_bad page.old.bad }
    ensures advances { OnOk result ((waits : Bool) → Advances T.takes (R.format reader.now) identity.now waits [] page.old page.new out.old out.new) }
    ensures stops { OnErr result ((waits : Bool) → StopsWithin T.stops (R.format reader.now) identity.now waits [] page.old page.new out.old out.new) }
    ensures too_many { IfErr result (λ fault. OnBad fault (λ row. (waits : Bool) → ExceedsWithin T.takes (R.format reader.now) identity.now waits [] page.old page.new out.old out.new row)) }
    ensures within { OnOk result (IsWithin page.new.most_bad page.new.bad) }
    ensures most { page.new.most_bad ≡ page.old.most_bad }
    ensures spends { OnOk result (Spends T.count page.old page.new 0) }
    ensures end { OnOk result (page.new.splitter.place + length page.new.splitter.left ≡ page.old.splitter.place + length page.old.splitter.left) }
    ensures last { OnOk result (length page.new.splitter.left ≤ position_or_len is_lf page.new.splitter.left) }
    ensures goes { T.goes out.old out.new }
    ensures later { T.faults out.old ≤ T.faults out.new }
    ensures failed { IsErrOf result LineFault.Failed → Rose (T.faults out.old) (T.faults out.new) }
    ensures stopped { IsErrOf result LineFault.Stopped → T.stopped page.new.taker }
{
    loop {
        let more = take_next(alloc, reader, identity, page, out)?;
        if !more {
            break;
        }
    }
    Ok(())
}

/// Takes the lines that LF ends, as far as they are there with this piece.
pub fn take_piece<R: LineReader, T: Taker<O>, O>(
    alloc: Global,
    reader: &R,
    identity: &Name,
    piece: &[u8],
    page: &mut Page<T>,
    out: &mut O,
) -> Result<(), LineFault>
    requires room { HasRoom T.count page.old (length page.old.splitter.left + length piece.now + 1) }
    requires within { IsWithin page.old.most_bad page.old.bad }
    requires fits { page.old.splitter.place + length page.old.splitter.left + length piece.now < 2 ^ 64 }
    ensures advances { OnOk result ((waits : Bool) → Advances T.takes (R.format reader.now) identity.now waits piece.now page.old page.new out.old out.new) }
    ensures stops { OnErr result ((waits : Bool) → StopsWithin T.stops (R.format reader.now) identity.now waits piece.now page.old page.new out.old out.new) }
    ensures too_many { IfErr result (λ fault. OnBad fault (λ row. (waits : Bool) → ExceedsWithin T.takes (R.format reader.now) identity.now waits piece.now page.old page.new out.old out.new row)) }
    ensures within { OnOk result (IsWithin page.new.most_bad page.new.bad) }
    ensures most { page.new.most_bad ≡ page.old.most_bad }
    ensures spends { OnOk result (Spends T.count page.old page.new (length piece.now)) }
    ensures end { OnOk result (page.new.splitter.place + length page.new.splitter.left ≡ page.old.splitter.place + length page.old.splitter.left + length piece.now) }
    ensures last { OnOk result (length page.new.splitter.left ≤ position_or_len is_lf page.new.splitter.left) }
    ensures goes { T.goes out.old out.new }
    ensures later { T.faults out.old ≤ T.faults out.new }
    ensures failed { IsErrOf result LineFault.Failed → Rose (T.faults out.old) (T.faults out.new) }
    ensures stopped { IsErrOf result LineFault.Stopped → T.stopped page.new.taker }
{
    let Ok(()) = page.splitter.feed(piece) else {
        return Err(LineFault::Memory);
    };
    take_lines(alloc, reader, identity, page, out)?;
    Ok(())
}

/// Reads some more of a log below a cut, at least one byte; none at the log's end.
pub fn read_some<L: LogSource>(
    logs: &mut L,
    name: &Name,
    at: u64,
    cut: u64,
    chunk: &mut [u8],
) -> Result<usize, LogsFailed>
    requires ready { L.ready logs.old name.now at }
    requires below { at < cut }
    requires chunk { 0 < length chunk.old }
    ensures grows { OnlyGrow (L.folder logs.old) (L.folder logs.new) }
    ensures goes_logs { L.goes logs.old logs.new }
    ensures part { IfOk result (λ count. IsPart (L.folder logs.new) name.now at cut (take count chunk.new)) }
    ensures end { IfOk result (λ count. (0 < count) ⊎ IsReadUp (L.folder logs.new) name.now at cut) }
    ensures fits { IfOk result (λ count. count ≤ length chunk.new) }
    ensures below { IfOk result (λ count. at + count ≤ cut) }
    ensures ready { IfOk result (λ count. L.ready logs.new name.now (at + count)) }
    ensures given { MatchResult result (λ count. L.given logs.new ≡ L.given logs.old + count) (λ _. L.given logs.new ≡ L.given logs.old) }
    ensures reads { L.reads logs.new ≤ L.reads logs.old + 1 }
    ensures cause { HasCause (L.faults logs.old) (L.faults logs.new) result }
{
    let want = (cut - at).min(chunk.len() as u64) as usize;
    let count = logs.give(name, at, &mut chunk[..want])?;
    Ok(count)
}
