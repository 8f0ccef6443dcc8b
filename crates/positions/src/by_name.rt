// What is read of logs that are told apart by their names.
ghost use Rattle.std.specs.Prelude.{◌≡◌, ◌≤◌, false, length, List, ℕ, Option, OnOk, IfOk, IfErr, IsErrOf};
ghost use Rattle.lp_model.specs.Outside.{Folder, OnlyGrow, Rose};
ghost use Rattle.log_listing.specs.Firsts.{Knows, with_name, with_names, is_among};
ghost use Rattle.log_listing.specs.Listed.{Adds, Lists};
ghost use Rattle.positions.specs.Spans.{StopsFile};
ghost use Rattle.positions.specs.Spanning.{plain_file, StopsName};
ghost use Rattle.positions.specs.SpanSteps.{identities_of, ArePlain, AddsPlain, StopsAmong, StopsNames};
ghost use Rattle.positions.specs.Readable.{AreReadable};
ghost use Rattle.positions.specs.declared.spans.SpanFault.TheVariants as F;

use crate::places::Places;
use crate::spans::{SpanFault, Spans, add_span};
use generations::ListedFile;
use lp_outside::{Logs, LogsError, Name, NameList};
use lp_values::TextList;
use std::alloc::Global;
use std::collections::BTreeSet;

// The span of a file that a name matches, unless its log has one.
fn add_match<L: Logs>(
    alloc: Global,
    logs: &mut L,
    places: &Places,
    name: &Name,
    seen: &mut BTreeSet<Name>,
    spans: &mut Spans,
) -> Result<(), SpanFault>
    requires few { length spans.old ≤ 100000 }
    requires knows { Knows seen.old (identities_of spans.old) }
    ensures grows { OnlyGrow (L.folder logs.old) (L.folder logs.new) }
    ensures given { L.given logs.new ≡ L.given logs.old }
    ensures later { L.faults logs.old ≤ L.faults logs.new }
    ensures steady { OnOk result (L.faults logs.new ≡ L.faults logs.old) }
    ensures all { OnOk result (identities_of spans.new ≡ with_name (identities_of spans.old) name.now) }
    ensures plain { OnOk result (AddsPlain places.now.entries (L.folder logs.old) (L.folder logs.new) spans.old spans.new) }
    ensures knows { OnOk result (Knows seen.new (identities_of spans.new)) }
    ensures few { OnOk result (length spans.new ≤ 100000) }
    ensures stopped { IfErr result (λ fault. (is_among (identities_of spans.old) name.now ≡ false) × StopsFile places.now.entries (L.folder logs.new) (length spans.old) (plain_file name.now) fault) }
    ensures failed { IsErrOf result F.LogsFault → Rose (L.faults logs.old) (L.faults logs.new) }
    ensures wants { IsErrOf result F.Memory → L.faults logs.new ≡ L.faults logs.old }
{
    if !seen.insert(name.copy())? {
        return Ok(());
    }
    let file = ListedFile {
        name: name.copy(),
        identity: name.copy(),
    };
    add_span(alloc, logs, places, &file, spans)
}

// The spans of files that a name matches.
fn add_matches<L: Logs>(
    alloc: Global,
    logs: &mut L,
    places: &Places,
    found: &NameList,
    seen: &mut BTreeSet<Name>,
    spans: &mut Spans,
) -> Result<(), SpanFault>
    requires few { length spans.old ≤ 100000 }
    requires knows { Knows seen.old (identities_of spans.old) }
    ensures grows { OnlyGrow (L.folder logs.old) (L.folder logs.new) }
    ensures given { L.given logs.new ≡ L.given logs.old }
    ensures later { L.faults logs.old ≤ L.faults logs.new }
    ensures steady { OnOk result (L.faults logs.new ≡ L.faults logs.old) }
    ensures all { OnOk result (identities_of spans.new ≡ with_names (identities_of spans.old) found.now) }
    ensures plain { OnOk result (AddsPlain places.now.entries (L.folder logs.old) (L.folder logs.new) spans.old spans.new) }
    ensures knows { OnOk result (Knows seen.new (identities_of spans.new)) }
    ensures few { OnOk result (length spans.new ≤ 100000) }
    ensures stopped { IfErr result (StopsAmong places.now.entries (L.folder logs.old) (L.folder logs.new) spans.old found.now) }
    ensures failed { IsErrOf result F.LogsFault → Rose (L.faults logs.old) (L.faults logs.new) }
    ensures wants { IsErrOf result F.Memory → L.faults logs.new ≡ L.faults logs.old }
{
    for name in found.as_slice() {
        add_match(alloc, logs, places, name, seen, spans)?;
    }
    Ok(())
}

// The spans of the logs that a text lists.
fn add_name<L: Logs>(
    alloc: Global,
    logs: &mut L,
    places: &Places,
    text: &str,
    seen: &mut BTreeSet<Name>,
    spans: &mut Spans,
) -> Result<(), SpanFault>
    requires few { length spans.old ≤ 100000 }
    requires knows { Knows seen.old (identities_of spans.old) }
    ensures grows { OnlyGrow (L.folder logs.old) (L.folder logs.new) }
    ensures given { L.given logs.new ≡ L.given logs.old }
    ensures later { L.faults logs.old ≤ L.faults logs.new }
    ensures steady { OnOk result (L.faults logs.new ≡ L.faults logs.old) }
    ensures adds { OnOk result (Adds (L.folder logs.old) text.now (identities_of spans.old) (identities_of spans.new)) }
    ensures plain { OnOk result (AddsPlain places.now.entries (L.folder logs.old) (L.folder logs.new) spans.old spans.new) }
    ensures knows { OnOk result (Knows seen.new (identities_of spans.new)) }
    ensures few { OnOk result (length spans.new ≤ 100000) }
    ensures stopped { IfErr result (λ fault. (start : Option Folder) → OnlyGrow start (L.folder logs.old) → ArePlain places.now.entries start (L.folder logs.old) spans.old → StopsName places.now.entries start (L.folder logs.new) (identities_of spans.old) text.now fault) }
    ensures failed { IsErrOf result F.LogsFault → Rose (L.faults logs.old) (L.faults logs.new) }
    ensures wants { IsErrOf result F.Memory → L.faults logs.new ≡ L.faults logs.old }
{
    let name = match Name::read(text) {
        Ok(name) => name,
        Err(fault) => return Err(SpanFault::BadName(fault)),
    };
    let found = match logs.names(alloc, &name) {
        Ok(found) => found,
        Err(LogsError::Failed) => return Err(SpanFault::LogsFault),
        Err(LogsError::Memory) => return Err(SpanFault::Memory),
    };
    if found.len() == 0 {
        return Err(SpanFault::NoSuchLog(name));
    }
    add_matches(alloc, logs, places, &found, seen, spans)
}

/// What is read of the logs that texts list, each log at its first place.
pub(crate) fn spans_of_names<L: Logs>(
    alloc: Global,
    logs: &mut L,
    places: &Places,
    texts: &TextList,
) -> Result<Spans, SpanFault>
    ensures grows { OnlyGrow (L.folder logs.old) (L.folder logs.new) }
    ensures given { L.given logs.new ≡ L.given logs.old }
    ensures later { L.faults logs.old ≤ L.faults logs.new }
    ensures steady { OnOk result (L.faults logs.new ≡ L.faults logs.old) }
    ensures lists { IfOk result (λ spans. Lists (L.folder logs.old) texts.now (identities_of spans)) }
    ensures plain { IfOk result (ArePlain places.now.entries (L.folder logs.old) (L.folder logs.new)) }
    ensures readable { IfOk result (AreReadable (L.folder logs.new)) }
    ensures few { IfOk result (λ spans. length spans ≤ 100000) }
    ensures stopped { IfErr result (StopsNames places.now.entries (L.folder logs.old) (L.folder logs.new) texts.now) }
    ensures failed { IsErrOf result F.LogsFault → Rose (L.faults logs.old) (L.faults logs.new) }
    ensures wants { IsErrOf result F.Memory → L.faults logs.new ≡ L.faults logs.old }
{
    let mut seen = BTreeSet::new(alloc);
    let mut spans = Spans::new(alloc);
    for text in texts.as_slice() {
        add_name(alloc, logs, places, text.as_str(), &mut seen, &mut spans)?;
    }
    Ok(spans)
}
