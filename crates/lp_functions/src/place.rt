// What an argument may be.
ghost use Rattle.std.specs.Prelude.{◌≡◌};
ghost use Rattle.lp_functions.specs.Fitting.{takes, fits, same_kind};

use lp_values::Kind;

/// A set of kinds, as a place of the table has it.
#[derive(Clone, Copy)]
pub(crate) enum Place {
    Integer,
    Real,
    Number,
    NumberOrText,
    Text,
    Stamp,
    Value,
}

impl Place {
    /// Whether a kind is of the set. Any is of each.
    pub(crate) fn takes(self, kind: Kind) -> bool
        ensures { result ≡ takes self kind }
    {
        match (self, kind) {
            (_, Kind::Any) => true,
            (Place::Value, _) => true,
            (Place::Integer, Kind::Integer) => true,
            (Place::Real, Kind::Real) => true,
            (Place::Number, Kind::Integer) => true,
            (Place::Number, Kind::Real) => true,
            (Place::NumberOrText, Kind::Integer) => true,
            (Place::NumberOrText, Kind::Real) => true,
            (Place::NumberOrText, Kind::Text) => true,
            (Place::Text, Kind::Text) => true,
            (Place::Stamp, Kind::Stamp) => true,
            _ => false,
        }
    }
}

pub(crate) fn same_kind(a: Kind, b: Kind) -> bool
    ensures { result ≡ same_kind a b }
{
    match (a, b) {
        (Kind::Integer, Kind::Integer) => true,
        (Kind::Real, Kind::Real) => true,
        (Kind::Text, Kind::Text) => true,
        (Kind::Stamp, Kind::Stamp) => true,
        (Kind::Any, Kind::Any) => true,
        _ => false,
    }
}

/// Whether there are as many kinds as places, and each is of its place.
pub(crate) fn fits(places: &[Place], kinds: &[Kind]) -> bool
    ensures { result ≡ fits places.now kinds.now }
{
    match places {
        [] => kinds.is_empty(),
        [place, places @ ..] => match kinds {
            [] => false,
            [kind, kinds @ ..] => place.takes(*kind) && fits(places, kinds),
        },
    }
}
