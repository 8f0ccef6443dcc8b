// What conditions mean where aliases are in force.
ghost use Rattle.std.specs.Prelude.{◌≡◌, List, map, option_map, IfOk};
ghost use Rattle.grammar.specs.Trees.{Test as test};
ghost use Rattle.grammar.specs.Trees.{trees_of as listed};
ghost use Rattle.query_tree.specs.Views.{given_of, tree_of, trees_of, test_of, placed_of, number_of};
ghost use Rattle.query_types.specs.Meanings.{Answers};
ghost use Rattle.query_types.specs.Boxed.{boxed_filter};
ghost use Rattle.query_types.specs.Conditions.{either, both, opposite, filter_of, fitting, all_fitting, contained_in, filtered};

use lp_values::{Compare, Kind, Value};
use query_tree::{Cond, Expr, ExprList, Given, Placed};
use query_types::{
    Alias, Condition, Meaning, MeaningList, TableColumns, TypeFault, fits, if_fits, meant,
};
use std::alloc::{AllocError, Global};
use std::rc::Rc;

// A right side, whose kind has to fit.
fn fitting(
    alloc: Global,
    table: &TableColumns,
    moment: &Value,
    aliases: &[Alias],
    kind: Kind,
    right: &Expr,
) -> Result<Meaning, TypeFault>
    ensures { Answers (λ meaning. meaning) result (fitting table.now moment.now aliases.now kind (tree_of right.now)) }
{
    let meaning = meant(alloc, table, moment, aliases, right)?;
    if_fits(table, kind, right.place(), meaning)
}

// The values of an IN.
fn all_fitting(
    alloc: Global,
    table: &TableColumns,
    moment: &Value,
    aliases: &[Alias],
    kind: Kind,
    items: &ExprList,
) -> Result<MeaningList, TypeFault>
    ensures { Answers (λ meanings. meanings) result (all_fitting table.now moment.now aliases.now kind (listed (trees_of items.now))) }
{
    let mut meanings = MeaningList::new(alloc);
    for item in &items.items {
        let meaning = fitting(alloc, table, moment, aliases, kind, item)?;
        meanings.push(meaning)?;
    }
    Ok(meanings)
}

// A comparison of two sides.
#[inline(never)]
fn compared(
    alloc: Global,
    table: &TableColumns,
    moment: &Value,
    aliases: &[Alias],
    how: Compare,
    left: &Expr,
    right: &Expr,
) -> Result<Box<Condition>, TypeFault>
    ensures { Answers boxed_filter result (filtered table.now moment.now aliases.now (test.Compare 0 (number_of how) (tree_of left.now) (tree_of right.now))) }
{
    let left = meant(alloc, table, moment, aliases, left)?;
    let right = fitting(alloc, table, moment, aliases, left.kind(table), right)?;
    Ok(Box::new(alloc, Condition::Compare { how, left, right })?)
}

// A test for NULL.
#[inline(never)]
fn null(
    alloc: Global,
    table: &TableColumns,
    moment: &Value,
    aliases: &[Alias],
    value: &Expr,
    negated: bool,
) -> Result<Box<Condition>, TypeFault>
    ensures { Answers boxed_filter result (filtered table.now moment.now aliases.now (test.IsNull 0 (tree_of value.now) negated)) }
{
    let value = meant(alloc, table, moment, aliases, value)?;
    Ok(Box::new(alloc, Condition::IsNull { value, negated })?)
}

// A test for a likeness.
#[inline(never)]
fn like(
    alloc: Global,
    table: &TableColumns,
    moment: &Value,
    aliases: &[Alias],
    value: &Expr,
    pattern: &Placed,
    negated: bool,
) -> Result<Box<Condition>, TypeFault>
    ensures { Answers boxed_filter result (filtered table.now moment.now aliases.now (test.Like 0 (tree_of value.now) (placed_of pattern.now) negated)) }
{
    let value = fitting(alloc, table, moment, aliases, Kind::Text, value)?;
    let pattern = pattern.text.copy(alloc)?;
    let condition = Condition::Like {
        value,
        pattern,
        negated,
    };
    Ok(Box::new(alloc, condition)?)
}

// A test between two values.
#[inline(never)]
fn between(
    alloc: Global,
    table: &TableColumns,
    moment: &Value,
    aliases: &[Alias],
    value: &Expr,
    low: &Expr,
    high: &Expr,
    negated: bool,
) -> Result<Box<Condition>, TypeFault>
    ensures { Answers boxed_filter result (filtered table.now moment.now aliases.now (test.Between 0 (tree_of value.now) (tree_of low.now) (tree_of high.now) negated)) }
{
    let value = meant(alloc, table, moment, aliases, value)?;
    let kind = value.kind(table);
    let low = fitting(alloc, table, moment, aliases, kind, low)?;
    let high = fitting(alloc, table, moment, aliases, kind, high)?;
    let condition = Condition::Between {
        value,
        low,
        high,
        negated,
    };
    Ok(Box::new(alloc, condition)?)
}

// A test among values.
#[inline(never)]
fn within(
    alloc: Global,
    table: &TableColumns,
    moment: &Value,
    aliases: &[Alias],
    value: &Expr,
    items: &ExprList,
    negated: bool,
) -> Result<Box<Condition>, TypeFault>
    ensures { Answers boxed_filter result (filtered table.now moment.now aliases.now (test.InList 0 (tree_of value.now) (listed (trees_of items.now)) negated)) }
{
    let value = meant(alloc, table, moment, aliases, value)?;
    let items = all_fitting(alloc, table, moment, aliases, value.kind(table), items)?;
    let condition = Condition::Within {
        value,
        items,
        negated,
    };
    Ok(Box::new(alloc, condition)?)
}

// A value of which it is asked whether it is one of those that a subquery gave, where its kind fits.
fn contained_in(
    table: &TableColumns,
    at: u32,
    negated: bool,
    given: &Option<Given>,
    value: Meaning,
) -> Result<Condition, TypeFault>
    ensures { Answers filter_of result (contained_in table.now.columns at negated (option_map given_of given.now) value) }
{
    let Some(given) = given else {
        return Err(TypeFault::UnknownFunction { at });
    };
    if !fits(value.kind(table), given.kind) {
        return Err(TypeFault::KindMismatch { at: given.place });
    }
    Ok(Condition::Contained {
        value,
        values: Rc::clone(&given.values)?,
        negated,
    })
}

// A test among the values of a subquery.
#[inline(never)]
fn contained(
    alloc: Global,
    table: &TableColumns,
    moment: &Value,
    aliases: &[Alias],
    at: u32,
    value: &Expr,
    negated: bool,
    given: &Option<Given>,
) -> Result<Box<Condition>, TypeFault>
    ensures { Answers boxed_filter result (filtered table.now moment.now aliases.now (test.InQuery at (tree_of value.now) negated (option_map given_of given.now))) }
{
    let value = meant(alloc, table, moment, aliases, value)?;
    let condition = contained_in(table, at, negated, given, value)?;
    Ok(Box::new(alloc, condition)?)
}

// The first or the second.
#[inline(never)]
fn or(
    alloc: Global,
    left: Box<Condition>,
    right: Box<Condition>,
) -> Result<Box<Condition>, AllocError>
    ensures { IfOk result (λ condition. boxed_filter condition ≡ either (boxed_filter left) (boxed_filter right)) }
{
    Ok(Box::new(alloc, Condition::Or(left, right))?)
}

// The first and the second.
#[inline(never)]
fn and(
    alloc: Global,
    left: Box<Condition>,
    right: Box<Condition>,
) -> Result<Box<Condition>, AllocError>
    ensures { IfOk result (λ condition. boxed_filter condition ≡ both (boxed_filter left) (boxed_filter right)) }
{
    Ok(Box::new(alloc, Condition::And(left, right))?)
}

// Not the condition.
#[inline(never)]
fn not(alloc: Global, inner: Box<Condition>) -> Result<Box<Condition>, AllocError>
    ensures { IfOk result (λ condition. boxed_filter condition ≡ opposite (boxed_filter inner)) }
{
    Ok(Box::new(alloc, Condition::Not(inner))?)
}

// What a condition means, in a box: a level of a long chain of OR costs little stack.
fn boxed(
    alloc: Global,
    table: &TableColumns,
    moment: &Value,
    aliases: &[Alias],
    test: &Cond,
) -> Result<Box<Condition>, TypeFault>
    ensures { Answers boxed_filter result (filtered table.now moment.now aliases.now (test_of test.now)) }
{
    match test {
        Cond::Or { at: _, left, right } => {
            let left = boxed(alloc, table, moment, aliases, left)?;
            let right = boxed(alloc, table, moment, aliases, right)?;
            Ok(or(alloc, left, right)?)
        }
        Cond::And { at: _, left, right } => {
            let left = boxed(alloc, table, moment, aliases, left)?;
            let right = boxed(alloc, table, moment, aliases, right)?;
            Ok(and(alloc, left, right)?)
        }
        Cond::Not { at: _, inner } => {
            let inner = boxed(alloc, table, moment, aliases, inner)?;
            Ok(not(alloc, inner)?)
        }
        Cond::Compare {
            at: _,
            how,
            left,
            right,
        } => compared(alloc, table, moment, aliases, *how, left, right),
        Cond::IsNull {
            at: _,
            value,
            negated,
        } => null(alloc, table, moment, aliases, value, *negated),
        Cond::Between {
            at: _,
            value,
            low,
            high,
            negated,
        } => between(alloc, table, moment, aliases, value, low, high, *negated),
        Cond::InList {
            at: _,
            value,
            items,
            negated,
        } => within(alloc, table, moment, aliases, value, items, *negated),
        Cond::Like {
            at: _,
            value,
            pattern,
            negated,
        } => like(alloc, table, moment, aliases, value, pattern, *negated),
        Cond::InQuery {
            at,
            value,
            subquery: _,
            negated,
            given,
        } => contained(alloc, table, moment, aliases, *at, value, *negated, given),
    }
}

/// What a condition means, or its first fault from the left.
pub fn filtered(
    alloc: Global,
    table: &TableColumns,
    moment: &Value,
    aliases: &[Alias],
    test: &Cond,
) -> Result<Condition, TypeFault>
    ensures { Answers filter_of result (filtered table.now moment.now aliases.now (test_of test.now)) }
{
    let condition = boxed(alloc, table, moment, aliases, test)?;
    Ok(Box::into_inner(condition))
}
