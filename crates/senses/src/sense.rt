// What an expression means in a query with groups, as it lies in memory.
ghost use Rattle.std.specs.Prelude.{◌≡◌, IfOk, map};
ghost use Rattle.query_types.specs.Terms.{maker_of};
ghost use Rattle.senses.specs.Senses.{formed, aggregate, grouping, sense_of, senses_of};

use lp_values::{AggKind, Kind};
use query_types::{Meaning, Operation};
use std::alloc::{AllocError, Global};

/// What an expression means, with the places of its fields, aggregates and GROUPINGs.
#[derive(Drop)]
pub enum SenseForm {
    /// A column of the table, or one that it doesn't list, which a word at this place means.
    Field {
        at: u32,
        meaning: Meaning,
    },
    /// A value that is the same in each row.
    Fixed(Meaning),
    /// What is made of others, and its kind.
    Formed {
        kind: Kind,
        by: Operation,
        of: Vec<SenseForm>,
    },
    /// An aggregate of its argument.
    Aggregate {
        at: u32,
        how: AggKind,
        of: Box<SenseForm>,
    },
    Grouping {
        at: u32,
        of: Box<SenseForm>,
    },
}

/// Senses in order.
#[derive(Drop)]
pub struct SenseList {
    pub items: Vec<SenseForm>,
}

/// What is made of others.
pub fn formed(kind: Kind, by: Operation, of: Vec<SenseForm>) -> SenseForm
    ensures { sense_of result ≡ formed kind (maker_of by) (senses_of (map sense_of of.items)) }
{
    SenseForm::Formed { kind, by, of }
}

/// An aggregate of its argument.
pub fn aggregate(
    alloc: Global,
    at: u32,
    how: AggKind,
    of: SenseForm,
) -> Result<SenseForm, AllocError>
    ensures { IfOk result (λ sense. sense_of sense ≡ aggregate at how (sense_of of)) }
{
    let of = Box::new(alloc, of)?;
    Ok(SenseForm::Aggregate { at, how, of })
}

/// GROUPING of an expression.
pub fn grouping(alloc: Global, at: u32, of: SenseForm) -> Result<SenseForm, AllocError>
    ensures { IfOk result (λ sense. sense_of sense ≡ grouping at (sense_of of)) }
{
    let of = Box::new(alloc, of)?;
    Ok(SenseForm::Grouping { at, of })
}

/// The same again.
pub fn copied(alloc: Global, sense: &SenseForm) -> Result<SenseForm, AllocError>
    ensures { IfOk result (λ copy. sense_of copy ≡ sense_of sense.now) }
{
    match sense {
        SenseForm::Field { at, meaning } => {
            let meaning = meaning.copy(alloc)?;
            Ok(SenseForm::Field { at: *at, meaning })
        }
        SenseForm::Fixed(meaning) => Ok(SenseForm::Fixed(meaning.copy(alloc)?)),
        SenseForm::Formed { kind, by, of } => {
            let mut parts = Vec::new(alloc);
            for part in of {
                parts.push(copied(alloc, part)?)?;
            }
            let operation = by.copy(alloc)?;
            Ok(formed(*kind, operation, parts))
        }
        SenseForm::Aggregate { at, how, of } => {
            let of = copied(alloc, of)?;
            aggregate(alloc, *at, *how, of)
        }
        SenseForm::Grouping { at, of } => {
            let of = copied(alloc, of)?;
            grouping(alloc, *at, of)
        }
    }
}
