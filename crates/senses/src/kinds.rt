// The kinds of what expressions mean.
ghost use Rattle.std.specs.Prelude.{◌≡◌, IfOk, map};
ghost use Rattle.lp_values.specs.declared.kind.Kind.TheVariants.{Any};
ghost use Rattle.senses.specs.Senses.{kind_of_aggregate, kind_of_case, kind_sensed, sense_of};

use crate::sense::SenseForm;
use lp_values::{AggKind, Kind};
use query_types::{KindList, TableColumns, sharper};
use std::alloc::{AllocError, Global};

// The kind of an aggregate over an argument of a kind.
fn kind_of_aggregate(how: AggKind, kind: Kind) -> Kind
    ensures { result ≡ kind_of_aggregate how kind }
{
    match how {
        AggKind::CountAll | AggKind::Count => Kind::Integer,
        AggKind::Sum(of) | AggKind::Avg(of) => of,
        AggKind::Min | AggKind::Max => kind,
        AggKind::PropCount => Kind::Real,
    }
}

/// The kind of a sense over a table.
pub fn kind_of_sense(table: &TableColumns, sense: &SenseForm) -> Kind
    ensures { result ≡ kind_sensed table.now.columns (sense_of sense.now) }
{
    match sense {
        SenseForm::Field { at: _, meaning } => meaning.kind(table),
        SenseForm::Fixed(meaning) => meaning.kind(table),
        SenseForm::Formed { kind, by: _, of: _ } => *kind,
        SenseForm::Aggregate { at: _, how, of } => {
            kind_of_aggregate(*how, kind_of_sense(table, of))
        }
        SenseForm::Grouping { at: _, of: _ } => Kind::Integer,
    }
}

/// The kinds of senses.
pub fn kinds_of_senses(
    alloc: Global,
    table: &TableColumns,
    senses: &[SenseForm],
) -> Result<KindList, AllocError>
    ensures { IfOk result (λ kinds. kinds ≡ map (kind_sensed table.now.columns) (map sense_of senses.now)) }
{
    let mut kinds = KindList::new(alloc);
    for sense in senses {
        kinds.push(kind_of_sense(table, sense))?;
    }
    Ok(kinds)
}

/// The kind of a CASE from what stands behind its subject.
pub fn kind_of_case(table: &TableColumns, parts: &[SenseForm]) -> Kind
    ensures { result ≡ kind_of_case table.now.columns Any (map sense_of parts.now) }
{
    let mut kind = Kind::Any;
    let mut rest = parts;
    while let [_, value, behind @ ..] = rest {
        kind = sharper(kind, kind_of_sense(table, value));
        rest = behind;
    }
    match rest {
        [value] => sharper(kind, kind_of_sense(table, value)),
        _ => kind,
    }
}
