// Which kinds go together.
ghost use Rattle.std.specs.Prelude.{◌≡◌};
ghost use Rattle.query_types.specs.Meanings.{Answers, agree, if_agrees, if_fits, sharper};
ghost use Rattle.query_types.specs.Meanings.{fits as kinds_fit};

use crate::{Meaning, TableColumns, TypeFault};
use lp_values::Kind;

/// Whether two kinds fit: where they are equal, one is Any, or both are numbers.
pub fn fits(left: Kind, right: Kind) -> bool
    ensures { result ≡ kinds_fit left right }
{
    match (left, right) {
        (Kind::Any, _) | (_, Kind::Any) => true,
        (Kind::Integer | Kind::Real, Kind::Integer | Kind::Real) => true,
        (Kind::Text, Kind::Text) => true,
        (Kind::Stamp, Kind::Stamp) => true,
        _ => false,
    }
}

/// Whether two kinds agree: where they are equal, or one is Any.
pub fn agree(left: Kind, right: Kind) -> bool
    ensures { result ≡ agree left right }
{
    match (left, right) {
        (Kind::Any, _) | (_, Kind::Any) => true,
        (Kind::Integer, Kind::Integer) => true,
        (Kind::Real, Kind::Real) => true,
        (Kind::Text, Kind::Text) => true,
        (Kind::Stamp, Kind::Stamp) => true,
        _ => false,
    }
}

/// Of two kinds that agree the one that isn't Any.
pub fn sharper(kind: Kind, other: Kind) -> Kind
    ensures { result ≡ sharper kind other }
{
    match kind {
        Kind::Any => other,
        kind => kind,
    }
}

/// A right side at this place, whose kind has to fit.
pub fn if_fits(
    table: &TableColumns,
    kind: Kind,
    at: u32,
    meaning: Meaning,
) -> Result<Meaning, TypeFault>
    ensures { Answers (λ meaning. meaning) result (if_fits table.now.columns kind at meaning) }
{
    if fits(kind, meaning.kind(table)) {
        Ok(meaning)
    } else {
        Err(TypeFault::KindMismatch { at })
    }
}

/// A value of a CASE at this place, whose kind has to agree.
pub(crate) fn if_agrees(
    table: &TableColumns,
    kind: Kind,
    at: u32,
    meaning: Meaning,
) -> Result<Meaning, TypeFault>
    ensures { Answers (λ meaning. meaning) result (if_agrees table.now.columns kind at meaning) }
{
    if agree(kind, meaning.kind(table)) {
        Ok(meaning)
    } else {
        Err(TypeFault::KindMismatch { at })
    }
}
