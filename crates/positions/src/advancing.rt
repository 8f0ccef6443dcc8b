// Kept places with an entry more.
ghost use Rattle.std.specs.Prelude.{◌≡◌, [], ◌∷◌, ◌++◌, ℕ, List, map, OnOk, OnErr, IfOk};
ghost use Rattle.std.specs.List.{AllZip};
ghost use Rattle.ledger_model.specs.Entries.{Span, Entry as PlainEntry};
ghost use Rattle.ledger_model.specs.Grammar.{IsEntry};
ghost use Rattle.ledger.specs.Written.{span_of, entry_of};
ghost use Rattle.positions.specs.Places.{Remembers, Puts, Keeps};
ghost use Rattle.positions.specs.Loads.{AreSpans};
ghost use Rattle.positions.specs.Advances.{AreSame, IsUnchanged, HasRoom, KeepsRoom, IsLeftBy, HaveRoom, LeftsHaveRoom, new_input, kept_with};

use crate::Positions;
use crate::place::Left;
use crate::places::{Places, place_of};
use ledger::{Entry, EntrySpan, InputText};
use lp_outside::Name;
use lp_values::Bytes;
use std::alloc::{AllocError, Global};

// Where spans leave their logs.
fn lefts_of(alloc: Global, spans: &[EntrySpan]) -> Result<Vec<Left>, AllocError>
    ensures { IfOk result (λ lefts. AllZip IsLeftBy (map span_of spans.now) lefts.items) }
{
    let mut lefts = Vec::with_capacity(alloc, spans.len())?;
    for span in spans {
        match place_of(alloc, span) {
            Ok(place) => lefts.push(Left {
                identity: span.identity.copy(),
                place,
            })?,
            // Memory was refused, or the span isn't in its form.
            Err(_) => return Err(AllocError),
        }
    }
    Ok(lefts)
}

// Sets a place aside for a log.
fn set_aside(places: &mut Places, identity: &Name) -> Result<(), AllocError>
    ensures same { AreSame places.old.entries places.new.entries }
    ensures keeps { KeepsRoom places.old.entries places.new.entries }
    ensures room { OnOk result (HasRoom places.new.entries identity.now) }
{
    if places.contains_key(identity) {
        return Ok(());
    }
    match places.insert(identity.copy(), None) {
        Ok(_) => Ok(()),
        Err(_) => Err(AllocError),
    }
}

// Sets places aside for the logs of spans.
fn set_all_aside(places: &mut Places, spans: &[EntrySpan]) -> Result<(), AllocError>
    ensures same { AreSame places.old.entries places.new.entries }
    ensures room { OnOk result (HaveRoom places.new.entries (map span_of spans.now)) }
{
    for span in spans {
        set_aside(places, &span.identity)?;
    }
    Ok(())
}

// Puts a place where room was set aside, which takes no memory.
fn replace(places: &mut Places, left: Left)
    requires { HasRoom places.old.entries left.identity }
    ensures puts { Puts left.identity left.place places.old.entries places.new.entries }
    ensures keeps { KeepsRoom places.old.entries places.new.entries }
{
    let Left { identity, place } = left;
    // A key that is there is never refused.
    let _ = places.insert(identity, Some(place));
}

// Puts places where room was set aside.
fn replace_all(places: &mut Places, lefts: Vec<Left>)
    requires { LeftsHaveRoom places.old.entries lefts.items }
    ensures { (before spans : List Span) → AllZip IsLeftBy spans lefts.items → AreSpans spans → Remembers before places.old.entries → Remembers (before ++ spans) places.new.entries }
{
    for left in lefts {
        replace(places, left);
    }
}

// The text to be kept where none is kept yet.
fn first_input(
    alloc: Global,
    kept: &Option<Bytes>,
    input: &InputText,
) -> Result<Option<Bytes>, AllocError>
    ensures { IfOk result (λ first. first ≡ new_input kept.now input.now) }
{
    match kept {
        Some(_) => Ok(None),
        None => {
            let mut bytes = Bytes::new(alloc);
            bytes.add(input.as_str().as_bytes())?;
            Ok(Some(bytes))
        }
    }
}

// Keeps a text, if there is one.
fn keep_input(kept: &mut Option<Bytes>, first: Option<Bytes>)
    ensures { kept.new ≡ kept_with first kept.old }
{
    match first {
        Some(text) => *kept = Some(text),
        None => {}
    }
}

impl Positions {
    /// The kept places with an entry more, which has to be in its form; after an `Err` they stay as they are.
    pub fn advance(&mut self, alloc: Global, entry: &Entry) -> Result<(), AllocError>
        ensures ok { OnOk result (IsEntry (entry_of entry.now) → (entries : List PlainEntry) → Keeps entries self.old → Keeps (entries ++ entry_of entry.now ∷ []) self.new) }
        ensures err { OnErr result (IsUnchanged self.old self.new) }
    {
        let lefts = lefts_of(alloc, entry.spans.as_slice())?;
        let input = first_input(alloc, &self.input, &entry.input)?;
        set_all_aside(&mut self.places, entry.spans.as_slice())?;
        keep_input(&mut self.input, input);
        replace_all(&mut self.places, lefts);
        Ok(())
    }
}
