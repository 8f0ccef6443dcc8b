// What conditions mean where aliases are in force.
ghost use Rattle.std.specs.Prelude.{◌≡◌, map, option_map, IfOk};
ghost use Rattle.grammar.specs.Trees.{Test as test};
ghost use Rattle.grammar.specs.Trees.{trees_of as listed};
ghost use Rattle.query_tree.specs.Views.{given_of, tree_of, trees_of, test_of, placed_of, number_of};
ghost use Rattle.query_types.specs.Meanings.{Answers};
ghost use Rattle.senses.specs.Senses.{listed_senses, sense_of};
ghost use Rattle.sensing.specs.Sensing.{named_of};
ghost use Rattle.senses.specs.Checks.{either, both, opposite, boxed_check, check_of};
ghost use Rattle.sensing.specs.Checked.{fit_sensed, all_fit_sensed, contained_sense, checked, maybe_checked};

use crate::alias::SenseAlias;
use crate::fitting::fitting_sense;
use crate::sensing::sensed;
use lp_values::{Compare, Kind, Value};
use query_tree::{Cond, Expr, ExprList, Given, Placed};
use query_types::{TableColumns, TypeFault, fits};
use senses::{SenseCheck, SenseForm, SenseList, kind_of_sense};
use std::alloc::{AllocError, Global};
use std::rc::Rc;

// A right side, whose kind has to fit.
fn fit_sensed(
    alloc: Global,
    wide: bool,
    table: &TableColumns,
    moment: &Value,
    aliases: &[SenseAlias],
    kind: Kind,
    right: &Expr,
) -> Result<SenseForm, TypeFault>
    ensures { Answers sense_of result (fit_sensed wide table.now moment.now (map named_of aliases.now) kind (tree_of right.now)) }
{
    let sense = sensed(alloc, wide, table, moment, aliases, right)?;
    fitting_sense(table, kind, right.place(), sense)
}

// The values of an IN.
fn all_fit_sensed(
    alloc: Global,
    wide: bool,
    table: &TableColumns,
    moment: &Value,
    aliases: &[SenseAlias],
    kind: Kind,
    items: &ExprList,
) -> Result<SenseList, TypeFault>
    ensures { Answers listed_senses result (all_fit_sensed wide table.now moment.now (map named_of aliases.now) kind (listed (trees_of items.now))) }
{
    let mut senses = Vec::new(alloc);
    for item in &items.items {
        let sense = fit_sensed(alloc, wide, table, moment, aliases, kind, item)?;
        senses.push(sense)?;
    }
    Ok(SenseList { items: senses })
}

// A comparison of two sides.
#[inline(never)]
fn compared(
    alloc: Global,
    wide: bool,
    table: &TableColumns,
    moment: &Value,
    aliases: &[SenseAlias],
    how: Compare,
    left: &Expr,
    right: &Expr,
) -> Result<Box<SenseCheck>, TypeFault>
    ensures { Answers boxed_check result (checked wide table.now moment.now (map named_of aliases.now) (test.Compare 0 (number_of how) (tree_of left.now) (tree_of right.now))) }
{
    let left = sensed(alloc, wide, table, moment, aliases, left)?;
    let kind = kind_of_sense(table, &left);
    let right = fit_sensed(alloc, wide, table, moment, aliases, kind, right)?;
    Ok(Box::new(alloc, SenseCheck::Compare { how, left, right })?)
}

// A test for NULL.
#[inline(never)]
fn null(
    alloc: Global,
    wide: bool,
    table: &TableColumns,
    moment: &Value,
    aliases: &[SenseAlias],
    value: &Expr,
    negated: bool,
) -> Result<Box<SenseCheck>, TypeFault>
    ensures { Answers boxed_check result (checked wide table.now moment.now (map named_of aliases.now) (test.IsNull 0 (tree_of value.now) negated)) }
{
    let value = sensed(alloc, wide, table, moment, aliases, value)?;
    Ok(Box::new(alloc, SenseCheck::IsNull { value, negated })?)
}

// A test for a likeness.
#[inline(never)]
fn like(
    alloc: Global,
    wide: bool,
    table: &TableColumns,
    moment: &Value,
    aliases: &[SenseAlias],
    value: &Expr,
    pattern: &Placed,
    negated: bool,
) -> Result<Box<SenseCheck>, TypeFault>
    ensures { Answers boxed_check result (checked wide table.now moment.now (map named_of aliases.now) (test.Like 0 (tree_of value.now) (placed_of pattern.now) negated)) }
{
    let value = fit_sensed(alloc, wide, table, moment, aliases, Kind::Text, value)?;
    let pattern = pattern.text.copy(alloc)?;
    let check = SenseCheck::Like {
        value,
        pattern,
        negated,
    };
    Ok(Box::new(alloc, check)?)
}

// A test between two values.
#[inline(never)]
fn between(
    alloc: Global,
    wide: bool,
    table: &TableColumns,
    moment: &Value,
    aliases: &[SenseAlias],
    value: &Expr,
    low: &Expr,
    high: &Expr,
    negated: bool,
) -> Result<Box<SenseCheck>, TypeFault>
    ensures { Answers boxed_check result (checked wide table.now moment.now (map named_of aliases.now) (test.Between 0 (tree_of value.now) (tree_of low.now) (tree_of high.now) negated)) }
{
    let value = sensed(alloc, wide, table, moment, aliases, value)?;
    let kind = kind_of_sense(table, &value);
    let low = fit_sensed(alloc, wide, table, moment, aliases, kind, low)?;
    let high = fit_sensed(alloc, wide, table, moment, aliases, kind, high)?;
    let check = SenseCheck::Between {
        value,
        low,
        high,
        negated,
    };
    Ok(Box::new(alloc, check)?)
}

// A test among values.
#[inline(never)]
fn within(
    alloc: Global,
    wide: bool,
    table: &TableColumns,
    moment: &Value,
    aliases: &[SenseAlias],
    value: &Expr,
    items: &ExprList,
    negated: bool,
) -> Result<Box<SenseCheck>, TypeFault>
    ensures { Answers boxed_check result (checked wide table.now moment.now (map named_of aliases.now) (test.InList 0 (tree_of value.now) (listed (trees_of items.now)) negated)) }
{
    let value = sensed(alloc, wide, table, moment, aliases, value)?;
    let kind = kind_of_sense(table, &value);
    let items = all_fit_sensed(alloc, wide, table, moment, aliases, kind, items)?;
    let check = SenseCheck::Within {
        value,
        items,
        negated,
    };
    Ok(Box::new(alloc, check)?)
}

// A value of which it is asked whether it is one of those that a subquery gave, where its kind fits.
fn contained_sense(
    table: &TableColumns,
    at: u32,
    negated: bool,
    given: &Option<Given>,
    value: SenseForm,
) -> Result<SenseCheck, TypeFault>
    ensures { Answers check_of result (contained_sense table.now.columns at negated (option_map given_of given.now) (sense_of value)) }
{
    let Some(given) = given else {
        drop(value);
        return Err(TypeFault::UnknownFunction { at });
    };
    if !fits(kind_of_sense(table, &value), given.kind) {
        drop(value);
        return Err(TypeFault::KindMismatch { at: given.place });
    }
    Ok(SenseCheck::Contained {
        value,
        values: Rc::clone(&given.values)?,
        negated,
    })
}

// A test among the values of a subquery.
#[inline(never)]
fn contained(
    alloc: Global,
    wide: bool,
    table: &TableColumns,
    moment: &Value,
    aliases: &[SenseAlias],
    at: u32,
    value: &Expr,
    negated: bool,
    given: &Option<Given>,
) -> Result<Box<SenseCheck>, TypeFault>
    ensures { Answers boxed_check result (checked wide table.now moment.now (map named_of aliases.now) (test.InQuery at (tree_of value.now) negated (option_map given_of given.now))) }
{
    let value = sensed(alloc, wide, table, moment, aliases, value)?;
    let check = contained_sense(table, at, negated, given, value)?;
    Ok(Box::new(alloc, check)?)
}

// The first or the second.
#[inline(never)]
fn or(
    alloc: Global,
    left: Box<SenseCheck>,
    right: Box<SenseCheck>,
) -> Result<Box<SenseCheck>, AllocError>
    ensures { IfOk result (λ check. boxed_check check ≡ either (boxed_check left) (boxed_check right)) }
{
    Ok(Box::new(alloc, SenseCheck::Or(left, right))?)
}

// The first and the second.
#[inline(never)]
fn and(
    alloc: Global,
    left: Box<SenseCheck>,
    right: Box<SenseCheck>,
) -> Result<Box<SenseCheck>, AllocError>
    ensures { IfOk result (λ check. boxed_check check ≡ both (boxed_check left) (boxed_check right)) }
{
    Ok(Box::new(alloc, SenseCheck::And(left, right))?)
}

// Not the condition.
#[inline(never)]
fn not(alloc: Global, inner: Box<SenseCheck>) -> Result<Box<SenseCheck>, AllocError>
    ensures { IfOk result (λ check. boxed_check check ≡ opposite (boxed_check inner)) }
{
    Ok(Box::new(alloc, SenseCheck::Not(inner))?)
}

// What a condition means, in a box: a level of a long chain of OR costs little stack.
fn boxed(
    alloc: Global,
    wide: bool,
    table: &TableColumns,
    moment: &Value,
    aliases: &[SenseAlias],
    test: &Cond,
) -> Result<Box<SenseCheck>, TypeFault>
    ensures { Answers boxed_check result (checked wide table.now moment.now (map named_of aliases.now) (test_of test.now)) }
{
    match test {
        Cond::Or { at: _, left, right } => {
            let left = boxed(alloc, wide, table, moment, aliases, left)?;
            let right = boxed(alloc, wide, table, moment, aliases, right)?;
            Ok(or(alloc, left, right)?)
        }
        Cond::And { at: _, left, right } => {
            let left = boxed(alloc, wide, table, moment, aliases, left)?;
            let right = boxed(alloc, wide, table, moment, aliases, right)?;
            Ok(and(alloc, left, right)?)
        }
        Cond::Not { at: _, inner } => {
            let inner = boxed(alloc, wide, table, moment, aliases, inner)?;
            Ok(not(alloc, inner)?)
        }
        Cond::Compare {
            at: _,
            how,
            left,
            right,
        } => compared(alloc, wide, table, moment, aliases, *how, left, right),
        Cond::IsNull {
            at: _,
            value,
            negated,
        } => null(alloc, wide, table, moment, aliases, value, *negated),
        Cond::Between {
            at: _,
            value,
            low,
            high,
            negated,
        } => between(
            alloc, wide, table, moment, aliases, value, low, high, *negated,
        ),
        Cond::InList {
            at: _,
            value,
            items,
            negated,
        } => within(alloc, wide, table, moment, aliases, value, items, *negated),
        Cond::Like {
            at: _,
            value,
            pattern,
            negated,
        } => like(
            alloc, wide, table, moment, aliases, value, pattern, *negated,
        ),
        Cond::InQuery {
            at,
            value,
            subquery: _,
            negated,
            given,
        } => contained(
            alloc, wide, table, moment, aliases, *at, value, *negated, given,
        ),
    }
}

/// What WHERE or HAVING means, or its first fault from the left. `wide` tells whether aggregates may stand.
pub fn maybe_checked(
    alloc: Global,
    wide: bool,
    table: &TableColumns,
    moment: &Value,
    aliases: &[SenseAlias],
    condition: &Option<Cond>,
) -> Result<Option<SenseCheck>, TypeFault>
    ensures { Answers (λ check. option_map check_of check) result (maybe_checked wide table.now moment.now (map named_of aliases.now) (option_map test_of condition.now)) }
{
    match condition {
        None => Ok(None),
        Some(condition) => {
            let check = boxed(alloc, wide, table, moment, aliases, condition)?;
            Ok(Some(Box::into_inner(check)))
        }
    }
}
