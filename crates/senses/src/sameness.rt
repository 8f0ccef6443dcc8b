// Which expressions are equal by their form.
ghost use Rattle.std.specs.Prelude.{◌≡◌, map};
ghost use Rattle.std.specs.List.{list_any, position};
ghost use Rattle.lp_values.specs.declared.kind.Kind.TheVariants.{Any};
ghost use Rattle.query_types.specs.Terms.{maker_of};
ghost use Rattle.senses.specs.Senses.{field, fixed, formed, aggregate, grouping, is_key, same_aggregate, same_sense, same_senses, sense_of, senses_of};

use crate::sense::SenseForm;
use lp_values::AggKind;
use query_types::{Meaning, Operation, is_same_operation};

/// Whether two aggregates are one and the same.
pub fn is_same_aggregate(how: AggKind, other: AggKind) -> bool
    ensures { result ≡ same_aggregate how other }
{
    match (how, other) {
        (AggKind::CountAll, AggKind::CountAll) => true,
        (AggKind::Count, AggKind::Count) => true,
        (AggKind::Sum(_), AggKind::Sum(_)) => true,
        (AggKind::Avg(_), AggKind::Avg(_)) => true,
        (AggKind::Min, AggKind::Min) => true,
        (AggKind::Max, AggKind::Max) => true,
        (AggKind::PropCount, AggKind::PropCount) => true,
        _ => false,
    }
}

// Whether a sense is this field.
fn is_field(meaning: &Meaning, other: &SenseForm) -> bool
    ensures { result ≡ same_sense (field 0 meaning.now) (sense_of other.now) }
{
    match other {
        SenseForm::Field {
            at: _,
            meaning: other,
        } => meaning.is(other),
        SenseForm::Fixed(_) => false,
        SenseForm::Formed { .. } => false,
        SenseForm::Aggregate { .. } | SenseForm::Grouping { .. } => false,
    }
}

// Whether a sense is this value.
fn is_fixed(meaning: &Meaning, other: &SenseForm) -> bool
    ensures { result ≡ same_sense (fixed meaning.now) (sense_of other.now) }
{
    match other {
        SenseForm::Fixed(other) => meaning.is(other),
        SenseForm::Field { .. } => false,
        SenseForm::Formed { .. } => false,
        SenseForm::Aggregate { .. } | SenseForm::Grouping { .. } => false,
    }
}

// Whether the parts of a sense are those of another, one by one.
#[cycle(senses)]
fn are_same_senses(parts: &[SenseForm], others: &[SenseForm]) -> bool
    ensures { result ≡ same_senses (senses_of (map sense_of parts.now)) (senses_of (map sense_of others.now)) }
{
    let mut rest = others;
    for part in parts {
        match rest {
            [] => return false,
            [first, behind @ ..] => {
                if !is_same_sense(part, first) {
                    return false;
                }
                rest = behind;
            }
        }
    }
    rest.is_empty()
}

// Whether a sense is made so of such parts.
#[cycle(senses)]
fn is_formed(by: &Operation, of: &Vec<SenseForm>, other: &SenseForm) -> bool
    ensures { result ≡ same_sense (formed Any (maker_of by.now) (senses_of (map sense_of of.now.items))) (sense_of other.now) }
{
    match other {
        SenseForm::Formed {
            kind: _,
            by: other_by,
            of: others,
        } => {
            is_same_operation(by, other_by) && are_same_senses(of.as_slice(), others.as_slice())
        }
        SenseForm::Field { .. } | SenseForm::Fixed(_) => false,
        SenseForm::Aggregate { .. } | SenseForm::Grouping { .. } => false,
    }
}

// Whether a sense is this aggregate of such an argument.
#[cycle(senses)]
fn is_aggregate_of(how: AggKind, of: &SenseForm, other: &SenseForm) -> bool
    ensures { result ≡ same_sense (aggregate 0 how (sense_of of.now)) (sense_of other.now) }
{
    match other {
        SenseForm::Aggregate {
            at: _,
            how: other_how,
            of: other,
        } => is_same_aggregate(how, *other_how) && is_same_sense(of, other),
        SenseForm::Field { .. } | SenseForm::Fixed(_) => false,
        SenseForm::Formed { .. } | SenseForm::Grouping { .. } => false,
    }
}

// Whether a sense is GROUPING of this.
#[cycle(senses)]
fn is_grouping_of(of: &SenseForm, other: &SenseForm) -> bool
    ensures { result ≡ same_sense (grouping 0 (sense_of of.now)) (sense_of other.now) }
{
    match other {
        SenseForm::Grouping { at: _, of: other } => is_same_sense(of, other),
        SenseForm::Field { .. } | SenseForm::Fixed(_) => false,
        SenseForm::Formed { .. } | SenseForm::Aggregate { .. } => false,
    }
}

/// Whether two senses are equal, wherever they stand.
#[cycle(senses)]
pub fn is_same_sense(sense: &SenseForm, other: &SenseForm) -> bool
    ensures { result ≡ same_sense (sense_of sense.now) (sense_of other.now) }
{
    match sense {
        SenseForm::Field { at: _, meaning } => is_field(meaning, other),
        SenseForm::Fixed(meaning) => is_fixed(meaning, other),
        SenseForm::Formed { kind: _, by, of } => is_formed(by, of, other),
        SenseForm::Aggregate { at: _, how, of } => is_aggregate_of(*how, of, other),
        SenseForm::Grouping { at: _, of } => is_grouping_of(of, other),
    }
}

fn place_of_same(senses: &[SenseForm], sense: &SenseForm) -> Option<usize>
    ensures { result ≡ position (λ other. same_sense (sense_of sense.now) (sense_of other)) senses.now }
{
    senses.iter().position(|other| is_same_sense(sense, other))
}

/// The place of the first of some senses that one equals.
pub fn first_same(senses: &[SenseForm], sense: &SenseForm) -> Option<usize>
    ensures { result ≡ position (same_sense (sense_of sense.now)) (map sense_of senses.now) }
{
    place_of_same(senses, sense)
}

fn has_same(senses: &[SenseForm], sense: &SenseForm) -> bool
    ensures { result ≡ list_any (λ other. same_sense (sense_of sense.now) (sense_of other)) senses.now }
{
    senses.iter().any(|other| is_same_sense(sense, other))
}

/// Whether a sense equals a key.
pub fn is_key(keys: &[SenseForm], sense: &SenseForm) -> bool
    ensures { result ≡ is_key (map sense_of keys.now) (sense_of sense.now) }
{
    has_same(keys, sense)
}
