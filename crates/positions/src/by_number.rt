// What is read of logs whose rotated files are numbered.
ghost use Rattle.std.specs.Prelude.{◌≡◌, ◌⊎◌, ◌≤◌, ◌<◌, ◌+◌, ◌-◌, ◌^◌, ◌++◌, ◌∷◌, [], false, true, length, List, ℕ, Option, OnOk, IfOk, IfErr, IfSome, IsErrOf, MatchBool};
ghost use Rattle.lp_model.specs.Outside.{Folder, OnlyGrow, Rose, Told};
ghost use Rattle.ledger_model.specs.Entries.{Entry};
ghost use Rattle.run_model.specs.Listed.{rotated_files};
ghost use Rattle.generations.specs.Ranges.{Has, HasAll};
ghost use Rattle.generations.specs.There.{AreThere};
ghost use Rattle.generations.specs.Files.{IsKnownAs, IsLiveAs, live_part};
ghost use Rattle.log_listing.specs.Firsts.{Knows, firsts, is_among};
ghost use Rattle.positions.specs.Spans.{AddsSpans};
ghost use Rattle.positions.specs.Spanning.{has_stars, IsListable, IsStem, IsBadStem, StopsStem};
ghost use Rattle.positions.specs.SpanSteps.{Tells, AddsSpan, StopsNumber, StopsListed, StopsRotated, AddsStem, AddsFiles, StopsStemOf, AddsText, AreStemSpans, StopsStems, IsOther, file_of, live_file};
ghost use Rattle.positions.specs.Readable.{AreReadable, StayReadable};
ghost use Rattle.positions.specs.declared.spans.SpanFault.TheVariants as F;

use crate::known::known_of;
use crate::places::Places;
use crate::spans::{SpanFault, Spans, add_span};
use generations::{
    ListedFile, Numbers, ThereFault, first_of, generation_name, is_live, last_of, numbers_there,
};
use lp_outside::{Logs, Name, NameFault};
use lp_values::TextList;
use std::alloc::Global;
use std::collections::BTreeSet;

// The span of a rotated file, which has to be there.
fn add_generation<L: Logs>(
    alloc: Global,
    logs: &mut L,
    places: &Places,
    stem: &Name,
    numbers: &Numbers,
    number: u64,
    spans: &mut Spans,
) -> Result<(), SpanFault>
    requires few { length spans.old ≤ 100000 }
    requires some { 0 < number }
    ensures grows { OnlyGrow (L.folder logs.old) (L.folder logs.new) }
    ensures given { L.given logs.new ≡ L.given logs.old }
    ensures later { L.faults logs.old ≤ L.faults logs.new }
    ensures steady { OnOk result (L.faults logs.new ≡ L.faults logs.old) }
    ensures adds { OnOk result (AddsSpan places.now.entries (L.folder logs.old) (L.folder logs.new) (file_of stem.now number) spans.old spans.new) }
    ensures there { OnOk result (Has numbers.now number) }
    ensures few { OnOk result (length spans.new ≤ 100000) }
    ensures stopped { IfErr result (StopsNumber places.now.entries (L.folder logs.new) (length spans.old) stem.now numbers.now number) }
    ensures failed { IsErrOf result F.LogsFault → Rose (L.faults logs.old) (L.faults logs.new) }
    ensures wants { IsErrOf result F.Memory → L.faults logs.new ≡ L.faults logs.old }
{
    if !numbers.contains(&number) {
        return Err(SpanFault::LostLog(stem.copy(), number));
    }
    match generation_name(stem, number) {
        Ok(name) => {
            let file = ListedFile {
                identity: name.copy(),
                name,
            };
            add_span(alloc, logs, places, &file, spans)
        }
        Err(fault) => Err(SpanFault::BadName(fault)),
    }
}

// The spans of a stem's rotated files from one number up to another.
fn add_rotated<L: Logs>(
    alloc: Global,
    logs: &mut L,
    places: &Places,
    stem: &Name,
    numbers: &Numbers,
    first: u64,
    last: u64,
    spans: &mut Spans,
) -> Result<(), SpanFault>
    requires few { length spans.old ≤ 100000 }
    requires some { 0 < first }
    requires small { last < 2 ^ 63 }
    ensures grows { OnlyGrow (L.folder logs.old) (L.folder logs.new) }
    ensures given { L.given logs.new ≡ L.given logs.old }
    ensures later { L.faults logs.old ≤ L.faults logs.new }
    ensures steady { OnOk result (L.faults logs.new ≡ L.faults logs.old) }
    ensures adds { OnOk result (AddsSpans places.now.entries (L.folder logs.old) (L.folder logs.new) (rotated_files stem.now first (last + 1 - first)) spans.old spans.new) }
    ensures there { OnOk result (HasAll numbers.now first last) }
    ensures few { OnOk result (length spans.new ≤ 100000) }
    ensures stopped { IfErr result (StopsRotated places.now.entries (L.folder logs.old) (L.folder logs.new) spans.old stem.now numbers.now first last) }
    ensures failed { IsErrOf result F.LogsFault → Rose (L.faults logs.old) (L.faults logs.new) }
    ensures wants { IsErrOf result F.Memory → L.faults logs.new ≡ L.faults logs.old }
{
    for number in first..last + 1 {
        add_generation(alloc, logs, places, stem, numbers, number, spans)?;
    }
    Ok(())
}

// The span of a stem's own file as a generation, where it is there.
fn add_live<L: Logs>(
    alloc: Global,
    logs: &mut L,
    places: &Places,
    stem: &Name,
    live: bool,
    number: u64,
    spans: &mut Spans,
) -> Result<(), SpanFault>
    requires few { length spans.old ≤ 100000 }
    requires some { 0 < number }
    ensures grows { OnlyGrow (L.folder logs.old) (L.folder logs.new) }
    ensures given { L.given logs.new ≡ L.given logs.old }
    ensures later { L.faults logs.old ≤ L.faults logs.new }
    ensures steady { OnOk result (L.faults logs.new ≡ L.faults logs.old) }
    ensures adds { OnOk result (AddsSpans places.now.entries (L.folder logs.old) (L.folder logs.new) (live_part live stem.now number) spans.old spans.new) }
    ensures few { OnOk result (length spans.new ≤ 100000) }
    ensures stopped { IfErr result (λ fault. (live ≡ true) × StopsListed places.now.entries (L.folder logs.new) (length spans.old) (live_file stem.now number) fault) }
    ensures failed { IsErrOf result F.LogsFault → Rose (L.faults logs.old) (L.faults logs.new) }
    ensures wants { IsErrOf result F.Memory → L.faults logs.new ≡ L.faults logs.old }
{
    if !live {
        return Ok(());
    }
    match generation_name(stem, number) {
        Ok(identity) => {
            let file = ListedFile {
                name: stem.copy(),
                identity,
            };
            add_span(alloc, logs, places, &file, spans)
        }
        Err(fault) => Err(SpanFault::BadName(fault)),
    }
}

// Whether no file of a stem has to be read.
fn has_none(live: bool, first: u64, newest: u64) -> bool
    ensures { MatchBool result ((live ≡ false) × (newest < first)) ((live ≡ true) ⊎ (first ≤ newest)) }
{
    !live && newest < first
}

// The spans of a stem, of which these rotated files are there: generation by generation, the stem's own file last.
fn add_files<L: Logs>(
    alloc: Global,
    logs: &mut L,
    places: &Places,
    stem: &Name,
    numbers: &Numbers,
    live: bool,
    known: Option<u64>,
    spans: &mut Spans,
) -> Result<(), SpanFault>
    requires few { length spans.old ≤ 100000 }
    requires listable { IsListable stem.now }
    requires known { IfSome known (λ number. 0 < number) }
    requires numbers { (number : ℕ) → Has numbers.now number → (0 < number) × (number < 2 ^ 63) }
    ensures grows { OnlyGrow (L.folder logs.old) (L.folder logs.new) }
    ensures given { L.given logs.new ≡ L.given logs.old }
    ensures later { L.faults logs.old ≤ L.faults logs.new }
    ensures steady { OnOk result (L.faults logs.new ≡ L.faults logs.old) }
    ensures adds { OnOk result (AddsFiles places.now.entries (L.folder logs.old) (L.folder logs.new) stem.now numbers.now live known spans.old spans.new) }
    ensures few { OnOk result (length spans.new ≤ 100000) }
    ensures stopped { IfErr result (λ fault. (start : Option Folder) (entries : List Entry) (reached : List (List ℕ)) → OnlyGrow start (L.folder logs.old) → Told start (λ folder. AreThere folder stem.now numbers.now) → Told start (λ folder. IsLiveAs folder stem.now live) → IsKnownAs entries stem.now known → is_among reached stem.now ≡ false
        → StopsStem places.now.entries entries start (L.folder logs.new) reached (length spans.old) stem.now fault) }
    ensures other { IfErr result IsOther }
    ensures failed { IsErrOf result F.LogsFault → Rose (L.faults logs.old) (L.faults logs.new) }
    ensures wants { IsErrOf result F.Memory → L.faults logs.new ≡ L.faults logs.old }
{
    let first = first_of(numbers, known);
    let newest = last_of(numbers);
    if has_none(live, first, newest) {
        return match known {
            Some(number) => Err(SpanFault::LostLog(stem.copy(), number)),
            None => Err(SpanFault::NoSuchLog(stem.copy())),
        };
    }
    add_rotated(alloc, logs, places, stem, numbers, first, newest, spans)?;
    add_live(
        alloc,
        logs,
        places,
        stem,
        live,
        (newest + 1).max(first),
        spans,
    )
}

// The spans of a stem. However many generations there are, their names are asked for once.
fn add_stem<L: Logs>(
    alloc: Global,
    logs: &mut L,
    places: &Places,
    stem: &Name,
    spans: &mut Spans,
) -> Result<(), SpanFault>
    requires few { length spans.old ≤ 100000 }
    requires one { IsStem stem.now }
    ensures grows { OnlyGrow (L.folder logs.old) (L.folder logs.new) }
    ensures given { L.given logs.new ≡ L.given logs.old }
    ensures later { L.faults logs.old ≤ L.faults logs.new }
    ensures steady { OnOk result (L.faults logs.new ≡ L.faults logs.old) }
    ensures adds { OnOk result (AddsStem places.now.entries (L.folder logs.old) (L.folder logs.new) stem.now spans.old spans.new) }
    ensures few { OnOk result (length spans.new ≤ 100000) }
    ensures stopped { IfErr result (StopsStemOf places.now.entries (L.folder logs.old) (L.folder logs.new) (length spans.old) stem.now) }
    ensures other { IfErr result IsOther }
    ensures failed { IsErrOf result F.LogsFault → Rose (L.faults logs.old) (L.faults logs.new) }
    ensures wants { IsErrOf result F.Memory → L.faults logs.new ≡ L.faults logs.old }
{
    let live = match is_live(logs, stem) {
        Ok(live) => live,
        Err(_) => return Err(SpanFault::LogsFault),
    };
    let numbers = match numbers_there(alloc, logs, stem) {
        Ok(numbers) => numbers,
        Err(ThereFault::BadName(fault)) => return Err(SpanFault::BadName(fault)),
        Err(ThereFault::Logs) => return Err(SpanFault::LogsFault),
        Err(ThereFault::Memory) => return Err(SpanFault::Memory),
    };
    match known_of(places, stem) {
        Ok(known) => add_files(alloc, logs, places, stem, &numbers, live, known, spans),
        Err(fault) => Err(SpanFault::BadName(fault)),
    }
}

// Whether a name would match several files.
fn has_stars(name: &Name) -> bool
    ensures { result ≡ has_stars name.now }
{
    name.as_str()
        .as_bytes()
        .iter()
        .any(|byte| *byte == b'*' || *byte == b'?')
}

// The stem that a text is.
fn stem_of(text: &str) -> Result<Name, NameFault>
    ensures ok { IfOk result (λ stem. (stem ≡ text.now) × IsStem text.now) }
    ensures err { IfErr result (IsBadStem text.now) }
{
    match Name::read(text) {
        Ok(name) => {
            if has_stars(&name) {
                return Err(NameFault::Stars);
            }
            Ok(name)
        }
        Err(fault) => Err(fault),
    }
}

// The spans of the stem that a text is, unless it has them.
fn add_text<L: Logs>(
    alloc: Global,
    logs: &mut L,
    places: &Places,
    text: &str,
    seen: &mut BTreeSet<Name>,
    spans: &mut Spans,
) -> Result<(), SpanFault>
    requires few { length spans.old ≤ 100000 }
    ensures grows { OnlyGrow (L.folder logs.old) (L.folder logs.new) }
    ensures given { L.given logs.new ≡ L.given logs.old }
    ensures later { L.faults logs.old ≤ L.faults logs.new }
    ensures steady { OnOk result (L.faults logs.new ≡ L.faults logs.old) }
    ensures adds { OnOk result (AddsText places.now.entries (L.folder logs.old) (L.folder logs.new) text.now seen.old spans.old spans.new) }
    ensures readable { OnOk result (StayReadable (L.folder logs.old) (L.folder logs.new) spans.old spans.new) }
    ensures knows { OnOk result ((texts : List (List ℕ)) → Knows seen.old (firsts texts) → Knows seen.new (firsts (texts ++ text.now ∷ []))) }
    ensures few { OnOk result (length spans.new ≤ 100000) }
    ensures stopped { IfErr result (λ fault. (start : Option Folder) (entries : List Entry) (texts : List (List ℕ)) → OnlyGrow start (L.folder logs.old) → Tells entries places.now.entries → Knows seen.old (firsts texts) → StopsStem places.now.entries entries start (L.folder logs.new) (firsts texts) (length spans.old) text.now fault) }
    ensures other { IfErr result IsOther }
    ensures failed { IsErrOf result F.LogsFault → Rose (L.faults logs.old) (L.faults logs.new) }
    ensures wants { IsErrOf result F.Memory → L.faults logs.new ≡ L.faults logs.old }
{
    let stem = match stem_of(text) {
        Ok(stem) => stem,
        Err(fault) => return Err(SpanFault::BadName(fault)),
    };
    if !seen.insert(stem.copy())? {
        return Ok(());
    }
    add_stem(alloc, logs, places, &stem, spans)
}

/// What is read of the stems that texts are, each at its first place.
pub(crate) fn spans_of_stems<L: Logs>(
    alloc: Global,
    logs: &mut L,
    places: &Places,
    texts: &TextList,
) -> Result<Spans, SpanFault>
    ensures grows { OnlyGrow (L.folder logs.old) (L.folder logs.new) }
    ensures given { L.given logs.new ≡ L.given logs.old }
    ensures later { L.faults logs.old ≤ L.faults logs.new }
    ensures steady { OnOk result (L.faults logs.new ≡ L.faults logs.old) }
    ensures spans { IfOk result (λ spans. (entries : List Entry) → Tells entries places.now.entries → AreStemSpans places.now.entries entries texts.now (L.folder logs.old) (L.folder logs.new) spans) }
    ensures readable { IfOk result (AreReadable (L.folder logs.new)) }
    ensures few { IfOk result (λ spans. length spans ≤ 100000) }
    ensures stopped { IfErr result (StopsStems places.now.entries (L.folder logs.old) (L.folder logs.new) texts.now) }
    ensures other { IfErr result IsOther }
    ensures failed { IsErrOf result F.LogsFault → Rose (L.faults logs.old) (L.faults logs.new) }
    ensures wants { IsErrOf result F.Memory → L.faults logs.new ≡ L.faults logs.old }
{
    let mut seen = BTreeSet::new(alloc);
    let mut spans = Spans::new(alloc);
    for text in texts.as_slice() {
        add_text(alloc, logs, places, text.as_str(), &mut seen, &mut spans)?;
    }
    Ok(spans)
}
