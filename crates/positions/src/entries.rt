// The places of an entry's spans.
ghost use Rattle.std.specs.Prelude.{◌≡◌, ℕ, ◌<◌, ◌^◌, List, [], ◌∷◌, ◌++◌, length, flat_map, Option, Some, MatchResult};
ghost use Rattle.ledger_model.specs.Entries.{Entry, Span};
ghost use Rattle.ledger_model.specs.Grammar.{IsEntry, span_layout, payload_of};
ghost use Rattle.ledger_model.specs.Numbers.{text_bytes};
ghost use Rattle.ledger.specs.Reader.{Rests};
ghost use Rattle.ledger.specs.Written.{span_of};
ghost use Rattle.positions.specs.Faults.{IsNoFault, HasLoadReason};
ghost use Rattle.positions.specs.Stands.{Stands};
ghost use Rattle.positions.specs.Places.{Remembers, Keeps, kept_of, first_of};
ghost use Rattle.positions.specs.Loads.{AreSpans};

use crate::LoadFault;
use crate::fields::{skip, skip_text, skip_words, take_count, take_number};
use crate::places::{Places, place_of, put};
use ledger::{EntryReader, EntrySpan, Part2};
use line_input::StandingFault;
use lp_outside::{Disk, Name};
use lp_values::Bytes;
use std::alloc::Global;

/// The bytes of an entry in front of its input text: the form and the moment.
const FRONT: u64 = 9;

// The text that says how logs are read, unless one is kept already.
fn take_input<D: Disk>(
    alloc: Global,
    disk: &mut D,
    ledger: &Name,
    reader: &mut EntryReader,
    to: u64,
    input: &mut Option<Bytes>,
) -> Result<(), LoadFault>
    ensures takes { (text more : List ℕ) → length text < 2 ^ 32 → Stands (D.state disk.old) ledger.now to reader.old (text_bytes text ++ more)
        → MatchResult result (λ _. (input.new ≡ first_of input.old text) × Stands (D.state disk.new) ledger.now to reader.new more) IsNoFault }
    ensures rests { Rests (D.state disk.old) (D.state disk.new) }
    ensures reason { HasLoadReason (D.faults disk.old) (D.faults disk.new) result }
{
    if input.is_some() {
        skip_text(disk, ledger, reader, to)?;
        return Ok(());
    }
    let text = reader.take_text(alloc, disk, ledger)?;
    *input = Some(text);
    Ok(())
}

// The next span.
fn take_span<D: Disk>(
    alloc: Global,
    disk: &mut D,
    ledger: &Name,
    reader: &mut EntryReader,
) -> Result<EntrySpan, LoadFault>
    ensures takes { (to : ℕ) (span : Span) (more : List ℕ) → span_layout.Fits span → Stands (D.state disk.old) ledger.now to reader.old (span_layout.spell span ++ more)
        → MatchResult result (λ found. (span_of found ≡ span) × Stands (D.state disk.new) ledger.now to reader.new more) IsNoFault }
    ensures rests { Rests (D.state disk.old) (D.state disk.new) }
    ensures reason { HasLoadReason (D.faults disk.old) (D.faults disk.new) result }
{
    let identity = reader.take_name(disk, ledger)?;
    let from = take_number(disk, ledger, reader)?;
    let to = take_number(disk, ledger, reader)?;
    let standing = reader.take_text(alloc, disk, ledger)?;
    Ok(EntrySpan {
        identity,
        from,
        to,
        standing,
    })
}

// The place of the next span.
fn take_place<D: Disk>(
    alloc: Global,
    disk: &mut D,
    ledger: &Name,
    reader: &mut EntryReader,
    places: &mut Places,
) -> Result<(), LoadFault>
    ensures takes { (to : ℕ) (before : List Span) (span : Span) (more : List ℕ) → span_layout.Fits span → Remembers before places.old.entries → Stands (D.state disk.old) ledger.now to reader.old (span_layout.spell span ++ more)
        → MatchResult result (λ _. Remembers (before ++ span ∷ []) places.new.entries × Stands (D.state disk.new) ledger.now to reader.new more) IsNoFault }
    ensures rests { Rests (D.state disk.old) (D.state disk.new) }
    ensures reason { HasLoadReason (D.faults disk.old) (D.faults disk.new) result }
{
    let at = reader.place();
    let span = take_span(alloc, disk, ledger, reader)?;
    match place_of(alloc, &span) {
        Ok(place) => {
            put(places, &span.identity, place)?;
            Ok(())
        }
        // Only a disk that changed since the walk has such bytes.
        Err(StandingFault::Malformed { at: _ }) => Err(LoadFault::LedgerFault {
            part: Part2::Ledger,
            at,
        }),
        Err(StandingFault::Memory) => Err(LoadFault::Memory),
    }
}

// The places of so many spans.
fn take_places<D: Disk>(
    alloc: Global,
    disk: &mut D,
    ledger: &Name,
    reader: &mut EntryReader,
    count: u32,
    places: &mut Places,
) -> Result<(), LoadFault>
    ensures takes { (to : ℕ) (before spans : List Span) (more : List ℕ) → length spans ≡ count → AreSpans spans → Remembers before places.old.entries → Stands (D.state disk.old) ledger.now to reader.old (flat_map span_layout.spell spans ++ more)
        → MatchResult result (λ _. Remembers (before ++ spans) places.new.entries) IsNoFault }
    ensures rests { Rests (D.state disk.old) (D.state disk.new) }
    ensures reason { HasLoadReason (D.faults disk.old) (D.faults disk.new) result }
{
    for _index in 0..count {
        take_place(alloc, disk, ledger, reader, places)?;
    }
    Ok(())
}

/// Takes an entry's places, and its input text where none is kept.
pub(crate) fn take_entry<D: Disk>(
    alloc: Global,
    disk: &mut D,
    ledger: &Name,
    reader: &mut EntryReader,
    to: u64,
    input: &mut Option<Bytes>,
    places: &mut Places,
) -> Result<(), LoadFault>
    ensures takes { (entries : List Entry) (entry : Entry) (more : List ℕ) → IsEntry entry → Keeps entries (kept_of input.old places.old.entries) → Stands (D.state disk.old) ledger.now to reader.old (payload_of entry ++ more)
        → MatchResult result (λ _. Keeps (entries ++ entry ∷ []) (kept_of input.new places.new.entries)) IsNoFault }
    ensures rests { Rests (D.state disk.old) (D.state disk.new) }
    ensures reason { HasLoadReason (D.faults disk.old) (D.faults disk.new) result }
{
    skip(reader, FRONT, to);
    take_input(alloc, disk, ledger, reader, to, input)?;
    skip_words(disk, ledger, reader, to)?;
    // The query and the template.
    skip_text(disk, ledger, reader, to)?;
    skip_text(disk, ledger, reader, to)?;
    let count = take_count(disk, ledger, reader)?;
    take_places(alloc, disk, ledger, reader, count, places)
}
