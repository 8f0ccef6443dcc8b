// Logs, one after the other, to a taker.
ghost use Rattle.std.specs.Prelude.{◌≡◌, ◌⊎◌, ◌≤◌, ◌<◌, ◌^◌, ◌+◌, ◌-◌, ◌++◌, ℕ, List, Bool, true, length, map, Option, OnOk, OnErr, IfOk, IfErr, IsErrOf};
ghost use Rattle.lp_model.specs.Outside.{Rose, OnlyGrow, Told};
ghost use Rattle.log_reading.specs.Page.{IsTooMany, IsWithin};
ghost use Rattle.log_reading.specs.Spans.{AllSpans, AreReadable, IsSpan, AreKept, TakesSpans, ReadsAhead, OnBadLine, spans_met, spans_bad_lines, spans_size, took_of};
ghost use Rattle.log_reading.specs.UpTo.{StopsUpTo, TakesUpTo};

use crate::logs::take_noted;
use crate::{LogSource, Page, RunFault, Span, Taker, TookList};
use line_input::LineReader;
use std::alloc::Global;

/// Takes spans, in order: of each its rows, and then the end of its log.
pub fn take_spans<R: LineReader, L: LogSource, T: Taker<O>, O>(
    alloc: Global,
    reader: &R,
    waits: bool,
    logs: &mut L,
    spans: &[Span],
    chunk: &mut [u8],
    page: &mut Page<T>,
    took: &mut TookList,
    out: &mut O,
) -> Result<(), RunFault>
    requires readable { AreReadable L.folder L.ready logs.old spans.now }
    requires spans { AllSpans spans.now IsSpan }
    requires chunk { 0 < length chunk.old }
    requires rows { page.old.rows + spans_size spans.now + length spans.now < 2 ^ 63 }
    requires bad { page.old.bad + spans_size spans.now + length spans.now < 2 ^ 63 }
    requires within { IsWithin page.old.most_bad page.old.bad }
    requires taken { T.count page.old.taker + spans_size spans.now + length spans.now < 2 ^ 63 }
    requires handed { T.handed_on page.old.taker out.old }
    ensures grows { OnlyGrow (L.folder logs.old) (L.folder logs.new) }
    ensures goes_logs { L.goes logs.old logs.new }
    ensures takes { OnOk result (Told (L.folder logs.new) (λ folder. AreKept (R.format reader.now) waits spans.now folder
        → TakesSpans T.takes (R.format reader.now) waits folder spans.now page.old page.new out.old out.new)) }
    ensures stops { OnErr result (Told (L.folder logs.new) (λ folder. AreKept (R.format reader.now) waits spans.now folder
        → T.stops page.old.taker out.old (spans_met (R.format reader.now) waits folder spans.now) page.new.taker out.new)) }
    ensures too_many { IfErr result (λ fault. OnBadLine fault (λ line. Told (L.folder logs.new) (λ folder. AreKept (R.format reader.now) waits spans.now folder
        → IsTooMany page.old.most_bad page.old.bad (spans_bad_lines (R.format reader.now) waits folder spans.now) line))) }
    // Of two faults the one that comes first is told: where the taker stopped no bad line before was one too many, and before one
    // that is it had taken all.
    ensures in_turn { OnErr result (Told (L.folder logs.new) (λ folder. AreKept (R.format reader.now) waits spans.now folder
        → StopsUpTo T.stops (R.format reader.now) waits folder spans.now page.old page.new out.old out.new)) }
    ensures behind { IfErr result (λ fault. OnBadLine fault (λ line. Told (L.folder logs.new) (λ folder. AreKept (R.format reader.now) waits spans.now folder
        → TakesUpTo T.takes (R.format reader.now) waits folder spans.now line page.old page.new out.old out.new))) }
    ensures within { OnOk result (IsWithin page.new.most_bad page.new.bad) }
    ensures most { page.new.most_bad ≡ page.old.most_bad }
    ensures took { OnOk result (Told (L.folder logs.new) (λ folder. AreKept (R.format reader.now) waits spans.now folder
        → took.new ≡ took.old ++ map (took_of (R.format reader.now) waits folder) spans.now)) }
    ensures given { L.given logs.new ≤ L.given logs.old + spans_size spans.now }
    ensures ahead { (L.given logs.new ≡ L.given logs.old) ⊎ ReadsAhead T.takes T.goes T.handed_on (R.format reader.now) waits (L.folder logs.new) spans.now (length chunk.old) (L.given logs.old) (L.given logs.new) page.old.taker out.old out.new }
    ensures later_logs { L.faults logs.old ≤ L.faults logs.new }
    ensures logs { IsErrOf result RunFault.Logs → Rose (L.faults logs.old) (L.faults logs.new) }
    ensures goes { T.goes out.old out.new }
    ensures later { T.faults out.old ≤ T.faults out.new }
    ensures output { IsErrOf result RunFault.Output → Rose (T.faults out.old) (T.faults out.new) }
    ensures stopped { IsErrOf result RunFault.Stopped → T.stopped page.new.taker }
{
    for span in spans {
        take_noted(alloc, reader, waits, logs, span, chunk, page, took, out)?;
    }
    Ok(())
}
