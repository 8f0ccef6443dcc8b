// Places by the identities of logs.
ghost use Rattle.std.specs.Prelude.{◌≡◌, Some, OnOk, MatchResult};
ghost use Rattle.ledger_model.specs.Standings.{IsStanding};
ghost use Rattle.ledger.specs.Written.{span_of};
ghost use Rattle.line_input.specs.declared.standing_bytes.StandingFault.TheVariants as F;
ghost use Rattle.positions.specs.Places.{IsEndOf, Puts};

use crate::Place;
use ledger::EntrySpan;
use line_input::{Standing, StandingFault};
use lp_outside::Name;
use std::alloc::{AllocError, Global};
use std::collections::BTreeMap;

/// Places by the identities of logs; one may be set aside for a log that has none yet.
pub(crate) type Places = BTreeMap<Name, Option<Place>>;

/// Where a span ends, and how its log stands there.
pub(crate) fn place_of(alloc: Global, span: &EntrySpan) -> Result<Place, StandingFault>
    ensures { IsStanding span.now.to span.now.standing → MatchResult result (IsEndOf (span_of span.now)) (λ fault. fault ≡ F.Memory) }
{
    match Standing::from_bytes(alloc, span.standing.as_slice()) {
        Ok(standing) => {
            // A line has a byte at least, so no span in its form has more lines.
            if standing.lines() > span.to {
                return Err(StandingFault::Malformed { at: 0 });
            }
            Ok(Place {
                to: span.to,
                standing,
            })
        }
        Err(fault) => Err(fault),
    }
}

/// Puts a place, in the stead of the one that the log had.
pub(crate) fn put(places: &mut Places, identity: &Name, place: Place) -> Result<(), AllocError>
    ensures { OnOk result (Puts identity.now place places.old.entries places.new.entries) }
{
    match places.insert(identity.copy(), Some(place)) {
        Ok(_) => Ok(()),
        Err(_) => Err(AllocError),
    }
}
