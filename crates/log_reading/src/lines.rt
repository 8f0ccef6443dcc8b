// A log's lines, one after the other, to a taker.
ghost use Rattle.std.specs.Prelude.{◌≡◌, ◌≤◌, ◌<◌, ◌^◌, ◌+◌, ◌++◌, ◌∷◌, [], ℕ, List, Bool, true, false, length, map, Option, Some, OnOk, OnErr, IfOk, IfErr, IsErrOf, IsTrue, IsFalse};
ghost use Rattle.std.specs.List.{position_or_len};
ghost use Rattle.lp_model.specs.Outside.{Rose};
ghost use Rattle.lp_model.specs.Lines.{Line, is_lf, is_overlong};
ghost use Rattle.lp_model.specs.Reading.{records_read, rows};
ghost use Rattle.line_input.specs.Taken.{slots_of};
ghost use Rattle.log_reading.specs.Found.{met_of};
ghost use Rattle.log_reading.specs.Page.{HasRoom, Spends, Follows, Advances, StopsOnLine, StopsIn, StopsWithin, ExceedsIn, ExceedsWithin, IsWithin, OnBad, to_come};

use crate::{LineFault, Page, TakeFault, Taker};
use line_input::{Columns, FieldsList, LineReader, Next, Taken};
use lp_outside::Name;
use std::alloc::Global;

// Hands the rows of a line to the taker.
fn take_rows<T: Taker<O>, O>(
    alloc: Global,
    identity: &Name,
    number: u64,
    columns: &Option<Columns>,
    line: &[u8],
    list: &FieldsList,
    taker: &mut T,
    out: &mut O,
) -> Result<(), TakeFault>
    requires number { number < 2 ^ 63 }
    requires room { T.count taker.old + length list.now < 2 ^ 63 }
    ensures takes { OnOk result (T.takes taker.old out.old (met_of identity.now (records_read number columns.now (rows (map (slots_of line.now) list.now)))) taker.new out.new) }
    ensures stops { OnErr result (T.stops taker.old out.old (met_of identity.now (records_read number columns.now (rows (map (slots_of line.now) list.now)))) taker.new out.new) }
    ensures count { OnOk result (T.count taker.new ≡ T.count taker.old + length list.now) }
    ensures goes { T.goes out.old out.new }
    ensures later { T.faults out.old ≤ T.faults out.new }
    ensures failed { IsErrOf result TakeFault.Failed → Rose (T.faults out.old) (T.faults out.new) }
    ensures stopped { IsErrOf result TakeFault.Stopped → T.stopped taker.new }
{
    for fields in list.as_slice() {
        taker.take(alloc, identity, number, columns, line, fields, out)?;
    }
    Ok(())
}

// Counts a bad line, and tells whether it is one too many.
fn count_bad<T>(page: &mut Page<T>) -> bool
    requires bad { page.old.bad + 1 < 2 ^ 63 }
    requires within { IsWithin page.old.most_bad page.old.bad }
    ensures taker { page.new.taker ≡ page.old.taker }
    ensures splitter { page.new.splitter ≡ page.old.splitter }
    ensures standing { page.new.standing ≡ page.old.standing }
    ensures rows { page.new.rows ≡ page.old.rows }
    ensures bad { page.new.bad ≡ page.old.bad + 1 }
    ensures most { page.new.most_bad ≡ page.old.most_bad }
    ensures within { IsFalse result → IsWithin page.new.most_bad page.new.bad }
    ensures too_many { IsTrue result → page.old.most_bad ≡ Some page.old.bad }
{
    page.bad += 1;
    match page.most_bad {
        Some(most) => page.bad > most,
        None => false,
    }
}

// Takes the line that the splitter handed out.
fn take_text<R: LineReader, T: Taker<O>, O>(
    alloc: Global,
    reader: &R,
    identity: &Name,
    page: &mut Page<T>,
    out: &mut O,
) -> Result<(), LineFault>
    requires room { HasRoom T.count page.old (length page.old.splitter.line + 1) }
    requires within { IsWithin page.old.most_bad page.old.bad }
    ensures takes { OnOk result ((line : Line) → line.number ≡ page.old.standing.lines + 1 → line.text ≡ page.old.splitter.line → is_overlong line.text ≡ false
        → Follows T.takes (R.format reader.now) identity.now (line ∷ []) page.old page.new out.old out.new) }
    ensures stops { OnErr result ((line : Line) → line.number ≡ page.old.standing.lines + 1 → line.text ≡ page.old.splitter.line → is_overlong line.text ≡ false
        → StopsOnLine T.stops (R.format reader.now) identity.now line page.old page.new out.old out.new) }
    ensures too_many { IfErr result (λ fault. OnBad fault (λ row. (line : Line) → line.number ≡ page.old.standing.lines + 1 → line.text ≡ page.old.splitter.line → is_overlong line.text ≡ false
        → ExceedsIn T.takes (R.format reader.now) identity.now (line ∷ []) page.old page.new out.old out.new row)) }
    ensures within { OnOk result (IsWithin page.new.most_bad page.new.bad) }
    ensures most { page.new.most_bad ≡ page.old.most_bad }
    ensures lines { OnOk result (page.new.standing.lines ≡ page.old.standing.lines + 1) }
    ensures rows { OnOk result (page.new.rows ≤ page.old.rows + length page.old.splitter.line + 1) }
    ensures bad { OnOk result (page.new.bad ≤ page.old.bad + 1) }
    ensures count { OnOk result (T.count page.new.taker ≤ T.count page.old.taker + length page.old.splitter.line + 1) }
    ensures splitter { page.new.splitter ≡ page.old.splitter }
    ensures goes { T.goes out.old out.new }
    ensures later { T.faults out.old ≤ T.faults out.new }
    ensures failed { IsErrOf result LineFault.Failed → Rose (T.faults out.old) (T.faults out.new) }
    ensures stopped { IsErrOf result LineFault.Stopped → T.stopped page.new.taker }
{
    let number = page.standing.lines() + 1;
    let line = page.splitter.line();
    let (many, taken) = match reader.take_line(alloc, &mut page.standing, line, &mut page.row) {
        Ok(Taken::Row) => {
            let columns = page.standing.columns();
            let taken = page
                .taker
                .take(alloc, identity, number, columns, line, &page.row, out);
            (1, taken)
        }
        Ok(Taken::Rows(list)) => {
            let columns = page.standing.columns();
            let taken = take_rows(
                alloc,
                identity,
                number,
                columns,
                line,
                &list,
                &mut page.taker,
                out,
            );
            (list.len() as u64, taken)
        }
        Ok(Taken::Bad) => {
            return if count_bad(page) {
                Err(LineFault::Bad { row: number })
            } else {
                Ok(())
            };
        }
        Ok(Taken::Passed) => return Ok(()),
        Err(_) => return Err(LineFault::Memory),
    };
    match taken {
        Ok(()) => {
            page.rows += many;
            Ok(())
        }
        Err(TakeFault::Memory) => Err(LineFault::Memory),
        Err(TakeFault::Failed) => Err(LineFault::Failed),
        Err(TakeFault::Stopped) => Err(LineFault::Stopped),
    }
}

// Passes a line that is too long, and tells whether it is one bad line too many.
fn pass_overlong<T>(page: &mut Page<T>) -> bool
    requires lines { page.old.standing.lines < 2 ^ 63 }
    requires bad { page.old.bad + 1 < 2 ^ 63 }
    requires within { IsWithin page.old.most_bad page.old.bad }
    ensures taker { page.new.taker ≡ page.old.taker }
    ensures splitter { page.new.splitter ≡ page.old.splitter }
    ensures lines { page.new.standing.lines ≡ page.old.standing.lines + 1 }
    ensures columns { page.new.standing.columns ≡ page.old.standing.columns }
    ensures rows { page.new.rows ≡ page.old.rows }
    ensures bad { page.new.bad ≡ page.old.bad + 1 }
    ensures most { page.new.most_bad ≡ page.old.most_bad }
    ensures within { IsFalse result → IsWithin page.new.most_bad page.new.bad }
    ensures too_many { IsTrue result → page.old.most_bad ≡ Some page.old.bad }
{
    page.standing.pass_line();
    count_bad(page)
}

/// Takes the next line that LF ends, and tells whether there was one.
pub fn take_next<R: LineReader, T: Taker<O>, O>(
    alloc: Global,
    reader: &R,
    identity: &Name,
    page: &mut Page<T>,
    out: &mut O,
) -> Result<bool, LineFault>
    requires room { HasRoom T.count page.old (length page.old.splitter.left + 1) }
    requires within { IsWithin page.old.most_bad page.old.bad }
    ensures advances { OnOk result ((waits : Bool) → Advances T.takes (R.format reader.now) identity.now waits [] page.old page.new out.old out.new) }
    ensures stops { OnErr result ((waits : Bool) → StopsWithin T.stops (R.format reader.now) identity.now waits [] page.old page.new out.old out.new) }
    ensures too_many { IfErr result (λ fault. OnBad fault (λ row. (waits : Bool) → ExceedsWithin T.takes (R.format reader.now) identity.now waits [] page.old page.new out.old out.new row)) }
    ensures within { OnOk result (IsWithin page.new.most_bad page.new.bad) }
    ensures most { page.new.most_bad ≡ page.old.most_bad }
    ensures spends { OnOk result (Spends T.count page.old page.new 0) }
    ensures end { OnOk result (page.new.splitter.place + length page.new.splitter.left ≡ page.old.splitter.place + length page.old.splitter.left) }
    ensures shorter { IfOk result (λ more. IsTrue more → length page.new.splitter.left < length page.old.splitter.left) }
    ensures last { IfOk result (λ more. IsFalse more → length page.new.splitter.left ≤ position_or_len is_lf page.new.splitter.left) }
    ensures goes { T.goes out.old out.new }
    ensures later { T.faults out.old ≤ T.faults out.new }
    ensures failed { IsErrOf result LineFault.Failed → Rose (T.faults out.old) (T.faults out.new) }
    ensures stopped { IsErrOf result LineFault.Stopped → T.stopped page.new.taker }
{
    match page.splitter.next_line() {
        Next::NeedMore => Ok(false),
        Next::TooLongLine => {
            if pass_overlong(page) {
                Err(LineFault::Bad {
                    row: page.standing.lines(),
                })
            } else {
                Ok(true)
            }
        }
        Next::Line => {
            take_text(alloc, reader, identity, page, out)?;
            Ok(true)
        }
    }
}

/// Takes what stands behind the last LF, where it has a text.
pub fn take_rest<R: LineReader, T: Taker<O>, O>(
    alloc: Global,
    reader: &R,
    identity: &Name,
    page: &mut Page<T>,
    out: &mut O,
) -> Result<(), LineFault>
    requires room { HasRoom T.count page.old (length page.old.splitter.left + 1) }
    requires last { length page.old.splitter.left ≤ position_or_len is_lf page.old.splitter.left }
    requires within { IsWithin page.old.most_bad page.old.bad }
    ensures takes { OnOk result (Follows T.takes (R.format reader.now) identity.now (to_come false page.old []) page.old page.new out.old out.new) }
    ensures stops { OnErr result (StopsIn T.stops (R.format reader.now) identity.now (to_come false page.old []) page.old page.new out.old out.new) }
    ensures too_many { IfErr result (λ fault. OnBad fault (λ row. ExceedsIn T.takes (R.format reader.now) identity.now (to_come false page.old []) page.old page.new out.old out.new row)) }
    ensures within { OnOk result (IsWithin page.new.most_bad page.new.bad) }
    ensures most { page.new.most_bad ≡ page.old.most_bad }
    ensures spends { OnOk result (Spends T.count page.old page.new 1) }
    ensures end { OnOk result (page.new.splitter.place + length page.new.splitter.left ≡ page.old.splitter.place + length page.old.splitter.left) }
    ensures goes { T.goes out.old out.new }
    ensures later { T.faults out.old ≤ T.faults out.new }
    ensures failed { IsErrOf result LineFault.Failed → Rose (T.faults out.old) (T.faults out.new) }
    ensures stopped { IsErrOf result LineFault.Stopped → T.stopped page.new.taker }
{
    match page.splitter.unended() {
        Next::NeedMore => Ok(()),
        Next::TooLongLine => {
            if pass_overlong(page) {
                Err(LineFault::Bad {
                    row: page.standing.lines(),
                })
            } else {
                Ok(())
            }
        }
        Next::Line => {
            take_text(alloc, reader, identity, page, out)?;
            Ok(())
        }
    }
}
