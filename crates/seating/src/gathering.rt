// The aggregates that a query asks of its groups, each once.
ghost use Rattle.std.specs.Prelude.{◌≡◌, OnOk, IfOk, map};
ghost use Rattle.std.specs.List.{list_any, position};
ghost use Rattle.senses.specs.Senses.{sense_of, senses_of};
ghost use Rattle.senses.specs.Checks.{check_of};
ghost use Rattle.senses.specs.Clauses.{clauses_of};
ghost use Rattle.seating.specs.Gathered.{aggregates_of, all_gathered, counted_of, gathered, gathered_in, same_counted, with_counted};

use lp_values::AggKind;
use senses::{SenseCheck, SenseClauses, SenseForm, copied, is_same_aggregate, is_same_sense};
use std::alloc::{AllocError, Global};

/// An aggregate and its argument.
#[derive(Drop)]
pub struct Aggregate {
    pub how: AggKind,
    pub of: SenseForm,
}

// Whether an aggregate of an argument is another.
fn is_same_counted(how: AggKind, of: &SenseForm, other: &Aggregate) -> bool
    ensures { result ≡ same_counted how (sense_of of.now) (counted_of other.now) }
{
    is_same_aggregate(how, other.how) && is_same_sense(of, &other.of)
}

fn place_of_counted(found: &[Aggregate], how: AggKind, of: &SenseForm) -> Option<usize>
    ensures { result ≡ position (λ other. same_counted how (sense_of of.now) (counted_of other)) found.now }
{
    found
        .iter()
        .position(|other| is_same_counted(how, of, other))
}

fn has_counted(found: &[Aggregate], how: AggKind, of: &SenseForm) -> bool
    ensures { result ≡ list_any (λ other. same_counted how (sense_of of.now) (counted_of other)) found.now }
{
    found.iter().any(|other| is_same_counted(how, of, other))
}

/// The place of an aggregate of an argument among some.
pub(crate) fn aggregate_place(found: &[Aggregate], how: AggKind, of: &SenseForm) -> Option<usize>
    ensures { result ≡ position (same_counted how (sense_of of.now)) (map counted_of found.now) }
{
    place_of_counted(found, how, of)
}

// Adds an aggregate of an argument, where it isn't there.
fn add_aggregate(
    alloc: Global,
    found: &mut Vec<Aggregate>,
    how: AggKind,
    of: &SenseForm,
) -> Result<(), AllocError>
    ensures { OnOk result (map counted_of found.new.items ≡ with_counted (map counted_of found.old.items) how (sense_of of.now)) }
{
    if has_counted(found.as_slice(), how, of) {
        return Ok(());
    }
    let of = copied(alloc, of)?;
    found.push(Aggregate { how, of })?;
    Ok(())
}

// Adds the aggregates of some senses.
#[cycle(gathered)]
fn gather_all(
    alloc: Global,
    found: &mut Vec<Aggregate>,
    senses: &[SenseForm],
) -> Result<(), AllocError>
    ensures { OnOk result (map counted_of found.new.items ≡ all_gathered (map counted_of found.old.items) (senses_of (map sense_of senses.now))) }
{
    for sense in senses {
        gather(alloc, found, sense)?;
    }
    Ok(())
}

// Adds the aggregates of a sense.
#[cycle(gathered)]
fn gather(alloc: Global, found: &mut Vec<Aggregate>, sense: &SenseForm) -> Result<(), AllocError>
    ensures { OnOk result (map counted_of found.new.items ≡ gathered (map counted_of found.old.items) (sense_of sense.now)) }
{
    match sense {
        SenseForm::Field { .. } | SenseForm::Fixed(_) | SenseForm::Grouping { .. } => Ok(()),
        SenseForm::Formed { kind: _, by: _, of } => gather_all(alloc, found, of.as_slice()),
        SenseForm::Aggregate { at: _, how, of } => add_aggregate(alloc, found, *how, of),
    }
}

// Adds the aggregates of a condition.
fn gather_in(
    alloc: Global,
    found: &mut Vec<Aggregate>,
    check: &SenseCheck,
) -> Result<(), AllocError>
    ensures { OnOk result (map counted_of found.new.items ≡ gathered_in (map counted_of found.old.items) (check_of check.now)) }
{
    match check {
        SenseCheck::Or(left, right) => {
            gather_in(alloc, found, left)?;
            gather_in(alloc, found, right)
        }
        SenseCheck::And(left, right) => {
            gather_in(alloc, found, left)?;
            gather_in(alloc, found, right)
        }
        SenseCheck::Not(inner) => gather_in(alloc, found, inner),
        SenseCheck::Compare {
            how: _,
            left,
            right,
        } => {
            gather(alloc, found, left)?;
            gather(alloc, found, right)
        }
        SenseCheck::IsNull { value, negated: _ } => gather(alloc, found, value),
        SenseCheck::Like {
            value,
            pattern: _,
            negated: _,
        } => gather(alloc, found, value),
        SenseCheck::Between {
            value,
            low,
            high,
            negated: _,
        } => {
            gather(alloc, found, value)?;
            gather(alloc, found, low)?;
            gather(alloc, found, high)
        }
        SenseCheck::Within {
            value,
            items,
            negated: _,
        } => {
            gather(alloc, found, value)?;
            gather_all(alloc, found, items.items.as_slice())
        }
        SenseCheck::Contained {
            value,
            values: _,
            negated: _,
        } => gather(alloc, found, value),
    }
}

/// The aggregates of SELECT, and behind them those of HAVING.
pub(crate) fn aggregates_of(
    alloc: Global,
    clauses: &SenseClauses,
) -> Result<Vec<Aggregate>, AllocError>
    ensures { IfOk result (λ found. map counted_of found.items ≡ aggregates_of (clauses_of clauses.now)) }
{
    let mut found = Vec::new(alloc);
    gather_all(alloc, &mut found, clauses.items.items.as_slice())?;
    if let Some(check) = &clauses.having {
        gather_in(alloc, &mut found, check)?;
    }
    Ok(found)
}
