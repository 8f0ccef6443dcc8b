// Looks at the parts of a payload, one after another, without taking memory.
#![tactic(auto, using(crate::proofs::Resting::rests_then))]

ghost use Rattle.std.specs.Prelude.{◌≡◌, ℕ, ◌<◌, ◌≤◌, ◌^◌, ◌↔◌, IsTrue, List, MatchResult};
ghost use Rattle.ledger.specs.Reader.{Rests, Looks, HasReason, CanRead, SomeRead, RefusedAt, moved_to};
ghost use Rattle.ledger.specs.Passing.{IsText};
ghost use Rattle.ledger.specs.Counted.{any_signed, any_stamp, kept_field};
ghost use Rattle.lp_values.specs.Stamps.{IsStamp as IsStampOf};
ghost use Rattle.ledger_model.specs.Layouts.{field, listed};
ghost use Rattle.ledger_model.specs.Numbers.{text_of, u8_bytes, i64_bytes};
ghost use Rattle.ledger_model.specs.Standings.{names_layout, columns_field, standing_layout, IsStanding};
ghost use Rattle.ledger_model.specs.Grammar.{IsMoment, IsStamp, text_field, words_layout, texts_layout, counts_layout, span_layout, spans_layout, list_layout, lists_layout, kept_layout};

use crate::passing::{TextKind, pass};
use crate::refused::{damaged, moved};
use crate::{EntryReader, LedgerRefused};
use lp_outside::{Disk, Name};
use lp_values::{Part, Stamp};

pub(crate) fn text<D: Disk>(
    disk: &mut D,
    ledger: &Name,
    reader: &mut EntryReader,
    kind: TextKind,
) -> Result<(), LedgerRefused>
    ensures looks { Looks (text_of (IsText kind)) (D.state disk.old) (D.state disk.new) ledger.now reader.old reader.new result }
    ensures rests { Rests (D.state disk.old) (D.state disk.new) }
    ensures reason { HasReason (D.faults disk.old) (D.faults disk.new) result }
{
    let place = reader.place();
    let size = reader.word(disk, ledger)?;
    match pass(disk, ledger, reader, kind, u64::from(size)) {
        Ok(true) => Ok(()),
        Ok(false) => Err(damaged(place)),
        Err(_) => Err(LedgerRefused::DiskFault),
    }
}

fn texts<D: Disk>(
    disk: &mut D,
    ledger: &Name,
    reader: &mut EntryReader,
    count: u64,
) -> Result<(), LedgerRefused>
    ensures looks { Looks (listed (λ before. text_field) count) (D.state disk.old) (D.state disk.new) ledger.now reader.old reader.new result }
    ensures rests { Rests (D.state disk.old) (D.state disk.new) }
    ensures reason { HasReason (D.faults disk.old) (D.faults disk.new) result }
{
    for _index in 0..count {
        text(disk, ledger, reader, TextKind::Utf8)?;
    }
    Ok(())
}

fn words<D: Disk>(
    disk: &mut D,
    ledger: &Name,
    reader: &mut EntryReader,
) -> Result<(), LedgerRefused>
    ensures looks { Looks words_layout (D.state disk.old) (D.state disk.new) ledger.now reader.old reader.new result }
    ensures rests { Rests (D.state disk.old) (D.state disk.new) }
    ensures reason { HasReason (D.faults disk.old) (D.faults disk.new) result }
{
    let count = reader.word(disk, ledger)?;
    texts(disk, ledger, reader, u64::from(count))
}

/// The words, the query and the template.
pub fn check_texts<D: Disk>(
    disk: &mut D,
    ledger: &Name,
    reader: &mut EntryReader,
) -> Result<(), LedgerRefused>
    ensures looks { Looks texts_layout (D.state disk.old) (D.state disk.new) ledger.now reader.old reader.new result }
    ensures rests { Rests (D.state disk.old) (D.state disk.new) }
    ensures reason { HasReason (D.faults disk.old) (D.faults disk.new) result }
{
    words(disk, ledger, reader)?;
    text(disk, ledger, reader, TextKind::Utf8)?;
    text(disk, ledger, reader, TextKind::Any)
}

/// The counts of records, rows and bad lines.
pub fn check_counts<D: Disk>(
    disk: &mut D,
    ledger: &Name,
    reader: &mut EntryReader,
) -> Result<(), LedgerRefused>
    ensures looks { Looks counts_layout (D.state disk.old) (D.state disk.new) ledger.now reader.old reader.new result }
    ensures rests { Rests (D.state disk.old) (D.state disk.new) }
    ensures reason { HasReason (D.faults disk.old) (D.faults disk.new) result }
{
    reader.number(disk, ledger)?;
    reader.number(disk, ledger)?;
    reader.number(disk, ledger)?;
    Ok(())
}

fn names<D: Disk>(
    disk: &mut D,
    ledger: &Name,
    reader: &mut EntryReader,
) -> Result<(), LedgerRefused>
    ensures looks { Looks names_layout (D.state disk.old) (D.state disk.new) ledger.now reader.old reader.new result }
    ensures rests { Rests (D.state disk.old) (D.state disk.new) }
    ensures reason { HasReason (D.faults disk.old) (D.faults disk.new) result }
{
    let place = reader.place();
    let count = reader.short(disk, ledger)?;
    if count > 1024 {
        return Err(damaged(place));
    }
    texts(disk, ledger, reader, u64::from(count))
}

fn columns<D: Disk>(
    disk: &mut D,
    ledger: &Name,
    reader: &mut EntryReader,
) -> Result<(), LedgerRefused>
    ensures looks { Looks columns_field (D.state disk.old) (D.state disk.new) ledger.now reader.old reader.new result }
    ensures rests { Rests (D.state disk.old) (D.state disk.new) }
    ensures reason { HasReason (D.faults disk.old) (D.faults disk.new) result }
{
    let place = reader.place();
    match reader.byte(disk, ledger)? {
        0 => Ok(()),
        1 => match names(disk, ledger, reader) {
            Ok(()) => Ok(()),
            Err(refused) => Err(moved(refused, place)),
        },
        _ => Err(damaged(place)),
    }
}

/// The parts of a standing.
fn lines<D: Disk>(
    disk: &mut D,
    ledger: &Name,
    reader: &mut EntryReader,
    most: u64,
) -> Result<(), LedgerRefused>
    ensures looks { Looks (standing_layout most) (D.state disk.old) (D.state disk.new) ledger.now reader.old reader.new result }
    ensures rests { Rests (D.state disk.old) (D.state disk.new) }
    ensures reason { HasReason (D.faults disk.old) (D.faults disk.new) result }
{
    let place = reader.place();
    let count = reader.number(disk, ledger)?;
    if count > most {
        return Err(damaged(place));
    }
    columns(disk, ledger, reader)
}

fn standing<D: Disk>(
    disk: &mut D,
    ledger: &Name,
    reader: &mut EntryReader,
    most: u64,
) -> Result<(), LedgerRefused>
    ensures looks { Looks (text_of (IsStanding most)) (D.state disk.old) (D.state disk.new) ledger.now reader.old reader.new result }
    ensures rests { Rests (D.state disk.old) (D.state disk.new) }
    ensures reason { HasReason (D.faults disk.old) (D.faults disk.new) result }
{
    let place = reader.place();
    let size = reader.word(disk, ledger)?;
    let start = reader.place();
    match lines(disk, ledger, reader, most) {
        Ok(()) if reader.place().saturating_sub(start) == u64::from(size) => Ok(()),
        Ok(()) => Err(damaged(place)),
        Err(refused) => Err(moved(refused, place)),
    }
}

fn span<D: Disk>(disk: &mut D, ledger: &Name, reader: &mut EntryReader) -> Result<(), LedgerRefused>
    ensures looks { Looks span_layout (D.state disk.old) (D.state disk.new) ledger.now reader.old reader.new result }
    ensures rests { Rests (D.state disk.old) (D.state disk.new) }
    ensures reason { HasReason (D.faults disk.old) (D.faults disk.new) result }
{
    reader.take_name(disk, ledger)?;
    let from = reader.number(disk, ledger)?;
    let place = reader.place();
    let to = reader.number(disk, ledger)?;
    if to < from {
        return Err(damaged(place));
    }
    standing(disk, ledger, reader, to)
}

fn span_items<D: Disk>(
    disk: &mut D,
    ledger: &Name,
    reader: &mut EntryReader,
    count: u64,
) -> Result<(), LedgerRefused>
    ensures looks { Looks (listed (λ before. span_layout) count) (D.state disk.old) (D.state disk.new) ledger.now reader.old reader.new result }
    ensures rests { Rests (D.state disk.old) (D.state disk.new) }
    ensures reason { HasReason (D.faults disk.old) (D.faults disk.new) result }
{
    for _index in 0..count {
        span(disk, ledger, reader)?;
    }
    Ok(())
}

fn spans<D: Disk>(
    disk: &mut D,
    ledger: &Name,
    reader: &mut EntryReader,
) -> Result<(), LedgerRefused>
    ensures looks { Looks spans_layout (D.state disk.old) (D.state disk.new) ledger.now reader.old reader.new result }
    ensures rests { Rests (D.state disk.old) (D.state disk.new) }
    ensures reason { HasReason (D.faults disk.old) (D.faults disk.new) result }
{
    let place = reader.place();
    let count = reader.word(disk, ledger)?;
    if count > 100_000 {
        return Err(damaged(place));
    }
    span_items(disk, ledger, reader, u64::from(count))
}

fn exists(seconds: i64, part: Part) -> bool
    ensures { IsTrue result ↔ IsStampOf seconds part }
{
    Stamp::new(seconds, part).is_some()
}

/// Whether there is a stamp of a part and of Unix seconds.
fn is_stamp(code: u8, seconds: i64) -> bool
    ensures { IsTrue result ↔ IsStamp code seconds }
{
    match code {
        0 => exists(seconds, Part::Date),
        1 => exists(seconds, Part::Time),
        2 => exists(seconds, Part::Both),
        _ => false,
    }
}

fn stamp<D: Disk>(
    disk: &mut D,
    ledger: &Name,
    reader: &mut EntryReader,
) -> Result<(), LedgerRefused>
    ensures looks { Looks any_stamp (D.state disk.old) (D.state disk.new) ledger.now reader.old reader.new result }
    ensures rests { Rests (D.state disk.old) (D.state disk.new) }
    ensures reason { HasReason (D.faults disk.old) (D.faults disk.new) result }
{
    let place = reader.place();
    let code = reader.byte(disk, ledger)?;
    match reader.signed(disk, ledger) {
        Ok(seconds) if is_stamp(code, seconds) => Ok(()),
        Ok(_) => Err(damaged(place)),
        Err(refused) => Err(moved(refused, place)),
    }
}

fn signed<D: Disk>(
    disk: &mut D,
    ledger: &Name,
    reader: &mut EntryReader,
) -> Result<(), LedgerRefused>
    ensures looks { Looks any_signed (D.state disk.old) (D.state disk.new) ledger.now reader.old reader.new result }
    ensures rests { Rests (D.state disk.old) (D.state disk.new) }
    ensures reason { HasReason (D.faults disk.old) (D.faults disk.new) result }
{
    reader.signed(disk, ledger)?;
    Ok(())
}

/// A value, whose parts are no fields of their own.
fn value_parts<D: Disk>(
    disk: &mut D,
    ledger: &Name,
    reader: &mut EntryReader,
) -> Result<(), LedgerRefused>
    ensures looks { (file : List ℕ) (to : ℕ) → CanRead (D.state disk.old) ledger.now file to reader.old → CanRead (D.state disk.new) ledger.now file to reader.new
        × MatchResult result (λ _. SomeRead kept_field file to reader.old.at reader.new.at) (λ refused. RefusedAt kept_field file to reader.old.at (moved_to refused reader.old.at)) }
    ensures rests { Rests (D.state disk.old) (D.state disk.new) }
    ensures reason { HasReason (D.faults disk.old) (D.faults disk.new) result }
{
    let place = reader.place();
    match reader.byte(disk, ledger)? {
        0 => Ok(()),
        1 => signed(disk, ledger, reader),
        2 => signed(disk, ledger, reader),
        3 => text(disk, ledger, reader, TextKind::Utf8),
        4 => stamp(disk, ledger, reader),
        _ => Err(damaged(place)),
    }
}

fn value<D: Disk>(
    disk: &mut D,
    ledger: &Name,
    reader: &mut EntryReader,
) -> Result<(), LedgerRefused>
    ensures looks { Looks kept_field (D.state disk.old) (D.state disk.new) ledger.now reader.old reader.new result }
    ensures rests { Rests (D.state disk.old) (D.state disk.new) }
    ensures reason { HasReason (D.faults disk.old) (D.faults disk.new) result }
{
    let place = reader.place();
    match value_parts(disk, ledger, reader) {
        Ok(()) => Ok(()),
        Err(refused) => Err(moved(refused, place)),
    }
}

fn value_items<D: Disk>(
    disk: &mut D,
    ledger: &Name,
    reader: &mut EntryReader,
    count: u64,
) -> Result<(), LedgerRefused>
    ensures looks { Looks (listed (λ before. kept_field) count) (D.state disk.old) (D.state disk.new) ledger.now reader.old reader.new result }
    ensures rests { Rests (D.state disk.old) (D.state disk.new) }
    ensures reason { HasReason (D.faults disk.old) (D.faults disk.new) result }
{
    for _index in 0..count {
        value(disk, ledger, reader)?;
    }
    Ok(())
}

fn list<D: Disk>(disk: &mut D, ledger: &Name, reader: &mut EntryReader) -> Result<(), LedgerRefused>
    ensures looks { Looks list_layout (D.state disk.old) (D.state disk.new) ledger.now reader.old reader.new result }
    ensures rests { Rests (D.state disk.old) (D.state disk.new) }
    ensures reason { HasReason (D.faults disk.old) (D.faults disk.new) result }
{
    let count = reader.number(disk, ledger)?;
    value_items(disk, ledger, reader, count)
}

fn list_items<D: Disk>(
    disk: &mut D,
    ledger: &Name,
    reader: &mut EntryReader,
    count: u64,
) -> Result<(), LedgerRefused>
    ensures looks { Looks (listed (λ before. list_layout) count) (D.state disk.old) (D.state disk.new) ledger.now reader.old reader.new result }
    ensures rests { Rests (D.state disk.old) (D.state disk.new) }
    ensures reason { HasReason (D.faults disk.old) (D.faults disk.new) result }
{
    for _index in 0..count {
        list(disk, ledger, reader)?;
    }
    Ok(())
}

fn lists<D: Disk>(
    disk: &mut D,
    ledger: &Name,
    reader: &mut EntryReader,
) -> Result<(), LedgerRefused>
    ensures looks { Looks lists_layout (D.state disk.old) (D.state disk.new) ledger.now reader.old reader.new result }
    ensures rests { Rests (D.state disk.old) (D.state disk.new) }
    ensures reason { HasReason (D.faults disk.old) (D.faults disk.new) result }
{
    let count = reader.word(disk, ledger)?;
    list_items(disk, ledger, reader, u64::from(count))
}

/// The spans and the kept lists.
pub fn check_kept<D: Disk>(
    disk: &mut D,
    ledger: &Name,
    reader: &mut EntryReader,
) -> Result<(), LedgerRefused>
    ensures looks { Looks kept_layout (D.state disk.old) (D.state disk.new) ledger.now reader.old reader.new result }
    ensures rests { Rests (D.state disk.old) (D.state disk.new) }
    ensures reason { HasReason (D.faults disk.old) (D.faults disk.new) result }
{
    spans(disk, ledger, reader)?;
    lists(disk, ledger, reader)
}
