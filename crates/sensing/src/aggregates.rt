// Aggregates and GROUPING by their names.
ghost use Rattle.std.specs.Prelude.{◌≡◌};
ghost use Rattle.query_types.specs.Meanings.{Answers};
ghost use Rattle.senses.specs.Senses.{sense_of};
ghost use Rattle.sensing.specs.declared.aggregates.Asked.TheVariants.{Sum, Avg};
ghost use Rattle.sensing.specs.Sensing.{all_rows, asked, asked_senses};

use lp_values::{AggKind, Kind, Value};
use query_types::{Meaning, TableColumns, TypeFault, fits};
use senses::{SenseForm, aggregate, grouping, kind_of_sense};
use std::alloc::Global;

/// An aggregate of one argument, or GROUPING.
#[derive(Clone, Copy, Debug, PartialEq, Eq)]
pub enum Asked {
    Count,
    Sum,
    Avg,
    Min,
    Max,
    Grouping,
}

/// Which of them a name is.
pub(crate) fn asked_by(name: &str) -> Asked
    ensures { result ≡ asked name.now }
{
    if name.eq_ignore_ascii_case("COUNT") {
        Asked::Count
    } else if name.eq_ignore_ascii_case("SUM") {
        Asked::Sum
    } else if name.eq_ignore_ascii_case("AVG") {
        Asked::Avg
    } else if name.eq_ignore_ascii_case("MIN") {
        Asked::Min
    } else if name.eq_ignore_ascii_case("MAX") {
        Asked::Max
    } else {
        Asked::Grouping
    }
}

// SUM of an argument at its place.
fn sum(
    alloc: Global,
    table: &TableColumns,
    at: u32,
    place: u32,
    of: SenseForm,
) -> Result<SenseForm, TypeFault>
    ensures { Answers sense_of result (asked_senses table.now.columns at Sum place (sense_of of)) }
{
    let kind = kind_of_sense(table, &of);
    if fits(Kind::Integer, kind) {
        Ok(aggregate(alloc, at, AggKind::Sum(kind), of)?)
    } else {
        Err(TypeFault::KindMismatch { at: place })
    }
}

// AVG of an argument at its place.
fn average(
    alloc: Global,
    table: &TableColumns,
    at: u32,
    place: u32,
    of: SenseForm,
) -> Result<SenseForm, TypeFault>
    ensures { Answers sense_of result (asked_senses table.now.columns at Avg place (sense_of of)) }
{
    let kind = kind_of_sense(table, &of);
    if fits(Kind::Integer, kind) {
        Ok(aggregate(alloc, at, AggKind::Avg(kind), of)?)
    } else {
        Err(TypeFault::KindMismatch { at: place })
    }
}

/// An aggregate, or GROUPING, of an argument at its place.
pub(crate) fn asked_sense(
    alloc: Global,
    table: &TableColumns,
    at: u32,
    asked: Asked,
    place: u32,
    of: SenseForm,
) -> Result<SenseForm, TypeFault>
    ensures { Answers sense_of result (asked_senses table.now.columns at asked place (sense_of of)) }
{
    match asked {
        Asked::Count => Ok(aggregate(alloc, at, AggKind::Count, of)?),
        Asked::Sum => sum(alloc, table, at, place, of),
        Asked::Avg => average(alloc, table, at, place, of),
        Asked::Min => Ok(aggregate(alloc, at, AggKind::Min, of)?),
        Asked::Max => Ok(aggregate(alloc, at, AggKind::Max, of)?),
        Asked::Grouping => Ok(grouping(alloc, at, of)?),
    }
}

/// An aggregate of all rows, which may stand where aggregates may.
pub(crate) fn all_rows(
    alloc: Global,
    wide: bool,
    at: u32,
    how: AggKind,
) -> Result<SenseForm, TypeFault>
    ensures { Answers sense_of result (all_rows wide at how) }
{
    if wide {
        let nothing = SenseForm::Fixed(Meaning::constant(Value::Null));
        Ok(aggregate(alloc, at, how, nothing)?)
    } else {
        Err(TypeFault::NestedAggregate { at })
    }
}
