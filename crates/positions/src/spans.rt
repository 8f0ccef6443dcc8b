// What a run reads of its logs.
ghost use Rattle.std.specs.Prelude.{◌≡◌, ◌≤◌, length, IfOk, IfErr, OnOk, IsErrOf};
ghost use Rattle.lp_model.specs.Outside.{OnlyGrow, Rose};
ghost use Rattle.generations.specs.Files.{listed_of};
ghost use Rattle.positions.specs.Places.{place_in};
ghost use Rattle.positions.specs.Spans.{start_of, IsSpanOf, IsRefusedFile, StopsFile, Agrees, IsChanged};
ghost use Rattle.positions.specs.SpanSteps.{AddsSpan};
ghost use Rattle.positions.specs.declared.spans.SpanFault.TheVariants as F;

use crate::places::Places;
use crate::{Place, Positions};
use generations::ListedFile;
use ledger::InputText;
use line_input::Standing;
use log_reading::Span;
use lp_outside::{Logs, Name, NameFault};
use lp_values::{Bytes, ListOf};
use std::alloc::{AllocError, AllocFailed, Global};

/// The most logs of a run.
const MOST_LOGS: usize = 100_000;

/// What a run reads, log by log.
pub type Spans = ListOf<Span>;

/// Why the logs of a run can't be read from where the runs before it left them.
#[derive(Drop)]
pub enum SpanFault {
    /// No file has this name, or matches it.
    NoSuchLog(Name),
    /// A generation of this stem that has to be read is gone.
    LostLog(Name, u64),
    /// A file is shorter than what was read of it.
    Shrunk { name: Name, kept: u64, found: u64 },
    /// The ledger's runs read their logs otherwise.
    InputChanged { kept: Bytes, given: Bytes },
    /// More than 100,000 logs.
    TooManyLogs,
    /// A call of the logs failed.
    LogsFault,
    /// A name is no name of a log.
    BadName(NameFault),
    /// Memory was refused.
    Memory,
}

impl From<AllocError> for SpanFault {
    ghost from_gives = { λ _ e. e ≡ F.Memory };

    fn from(_: AllocError) -> Self {
        SpanFault::Memory
    }
}

impl<T: Drop> From<AllocFailed<T>> for SpanFault {
    ghost from_gives = { λ _ e. e ≡ F.Memory };

    fn from(_: AllocFailed<T>) -> Self {
        SpanFault::Memory
    }
}

// The bytes of a text.
fn bytes_of(alloc: Global, text: &[u8]) -> Result<Bytes, AllocError>
    ensures { IfOk result (λ bytes. bytes ≡ text.now) }
{
    let mut bytes = Bytes::new(alloc);
    bytes.add(text)?;
    Ok(bytes)
}

// Where a log is read from: its place, or its start.
fn start_of(alloc: Global, places: &Places, identity: &Name) -> Result<Place, AllocError>
    ensures { IfOk result (λ start. start ≡ start_of (place_in places.now.entries identity.now)) }
{
    match places.get(identity) {
        Some(Some(place)) => {
            let standing = place.standing.copy(alloc)?;
            Ok(Place {
                to: place.to,
                standing,
            })
        }
        _ => Ok(Place {
            to: 0,
            standing: Standing::new(),
        }),
    }
}

// The span of a file that is listed.
fn span_of<L: Logs>(
    alloc: Global,
    logs: &mut L,
    places: &Places,
    file: &ListedFile,
) -> Result<Span, SpanFault>
    ensures grows { OnlyGrow (L.folder logs.old) (L.folder logs.new) }
    ensures given { L.given logs.new ≡ L.given logs.old }
    ensures later { L.faults logs.old ≤ L.faults logs.new }
    ensures steady { OnOk result (L.faults logs.new ≡ L.faults logs.old) }
    ensures ok { IfOk result (IsSpanOf places.now.entries (L.folder logs.old) (L.folder logs.new) (listed_of file.now)) }
    ensures refused { IfErr result (IsRefusedFile places.now.entries (L.folder logs.new) (listed_of file.now)) }
    ensures failed { IsErrOf result F.LogsFault → Rose (L.faults logs.old) (L.faults logs.new) }
    ensures wants { IsErrOf result F.Memory → L.faults logs.new ≡ L.faults logs.old }
{
    let listed = match logs.length(&file.name) {
        Ok(Some(listed)) => listed,
        Ok(None) => return Err(SpanFault::NoSuchLog(file.name.copy())),
        Err(_) => return Err(SpanFault::LogsFault),
    };
    let start = match start_of(alloc, places, &file.identity) {
        Ok(start) => start,
        Err(_) => return Err(SpanFault::Memory),
    };
    if listed < start.to {
        return Err(SpanFault::Shrunk {
            name: file.name.copy(),
            kept: start.to,
            found: listed,
        });
    }
    let Place { to, standing } = start;
    Ok(Span {
        name: file.name.copy(),
        identity: file.identity.copy(),
        from: to,
        listed,
        standing,
    })
}

/// Adds the span of a file behind others.
pub(crate) fn add_span<L: Logs>(
    alloc: Global,
    logs: &mut L,
    places: &Places,
    file: &ListedFile,
    spans: &mut Spans,
) -> Result<(), SpanFault>
    requires few { length spans.old ≤ 100000 }
    ensures grows { OnlyGrow (L.folder logs.old) (L.folder logs.new) }
    ensures given { L.given logs.new ≡ L.given logs.old }
    ensures later { L.faults logs.old ≤ L.faults logs.new }
    ensures steady { OnOk result (L.faults logs.new ≡ L.faults logs.old) }
    ensures adds { OnOk result (AddsSpan places.now.entries (L.folder logs.old) (L.folder logs.new) (listed_of file.now) spans.old spans.new) }
    ensures few { OnOk result (length spans.new ≤ 100000) }
    ensures stopped { IfErr result (StopsFile places.now.entries (L.folder logs.new) (length spans.old) (listed_of file.now)) }
    ensures failed { IsErrOf result F.LogsFault → Rose (L.faults logs.old) (L.faults logs.new) }
    ensures wants { IsErrOf result F.Memory → L.faults logs.new ≡ L.faults logs.old }
{
    if spans.len() >= MOST_LOGS {
        return Err(SpanFault::TooManyLogs);
    }
    let span = span_of(alloc, logs, places, file)?;
    spans.push(span)?;
    Ok(())
}

impl Positions {
    /// Whether a run reads its logs as the ledger's first run did.
    pub fn check_input(&self, alloc: Global, input: &InputText) -> Result<(), SpanFault>
        ensures ok { OnOk result (Agrees self.now.input input.now) }
        ensures changed { IfErr result (IsChanged self.now.input input.now) }
    {
        let given = input.as_str().as_bytes();
        match &self.input {
            None => Ok(()),
            Some(kept) => {
                if kept.as_slice() == given {
                    return Ok(());
                }
                Err(SpanFault::InputChanged {
                    kept: bytes_of(alloc, kept.as_slice())?,
                    given: bytes_of(alloc, given)?,
                })
            }
        }
    }
}
