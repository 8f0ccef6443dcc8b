// The generations that kept places know.
ghost use Rattle.std.specs.Prelude.{◌≡◌, ◌⊎◌, ◌<◌, ◌≤◌, IfOk, IfErr, IfSome};
ghost use Rattle.positions.specs.Spanning.{HasNoRoom, IsListable};
ghost use Rattle.positions.specs.SpanSteps.{IsKnownIn, KnowsMore};

use crate::Place;
use crate::places::Places;
use generations::known_generation_of;
use lp_outside::{Name, NameFault};
use lp_values::bytes_to;

// The greater of two numbers.
fn greater(number: u64, other: u64) -> u64
    ensures first { number ≤ result }
    ensures second { other ≤ result }
    ensures one { (result ≡ number) ⊎ (result ≡ other) }
{
    if number > other { number } else { other }
}

// The greatest generation of a stem, with that of one place more.
fn with_generation(
    front: &[u8],
    identity: &Name,
    place: &Option<Place>,
    known: Option<u64>,
) -> Option<u64>
    ensures { KnowsMore front.now identity.now place.now known result }
{
    if place.is_none() {
        return known;
    }
    match known_generation_of(front, identity) {
        Some(number) => match known {
            Some(other) => Some(greater(other, number)),
            None => Some(number),
        },
        None => known,
    }
}

/// The greatest generation of a stem that places are kept of. The names of a stem's generations stand together in the order
/// of places, so only those are looked at.
pub(crate) fn known_of(places: &Places, stem: &Name) -> Result<Option<u64>, NameFault>
    ensures ok { IfOk result (λ known. IsKnownIn places.now.entries stem.now known) }
    ensures some { IfOk result (λ known. IfSome known (λ number. 0 < number)) }
    ensures listable { IfOk result (λ _. IsListable stem.now) }
    ensures err { IfErr result (HasNoRoom stem.now) }
{
    let pattern = match stem.with_suffix(".*") {
        Ok(pattern) => pattern,
        Err(fault) => return Err(fault),
    };
    // Digits stand between these two bytes.
    let end = match stem.with_suffix(".:") {
        Ok(end) => end,
        Err(fault) => return Err(fault),
    };
    let bytes = pattern.as_str().as_bytes();
    let front = bytes_to(bytes, bytes.len() - 1);
    let mut known = None;
    for (identity, place) in places.range(pattern.copy()..end) {
        known = with_generation(front, identity, place, known);
    }
    Ok(known)
}
