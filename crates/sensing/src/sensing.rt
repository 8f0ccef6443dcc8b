// What expressions mean where aliases are in force.
ghost use Rattle.std.specs.Prelude.{◌≡◌, true, IfOk, None, map};
ghost use Rattle.grammar.specs.Trees.{Tree as tree};
ghost use Rattle.grammar.specs.Trees.{trees_of as listed};
ghost use Rattle.grammar.specs.Trees.{whens_of as branched};
ghost use Rattle.lp_values.specs.declared.kind.Kind.TheVariants.{Any};
ghost use Rattle.query_tree.specs.Views.{placed_of, tree_of, trees_of, whens_of};
ghost use Rattle.query_types.specs.Meanings.{Answers};
ghost use Rattle.senses.specs.Senses.{sense_of};
ghost use Rattle.sensing.specs.Sensing.{alias_senses, branches_sensed, case_closed, case_senses, named_of, sensed, stamp_senses, word_senses};

use crate::aggregates::all_rows;
use crate::alias::{SenseAlias, find_alias};
use crate::calls::{call_sense, is_wide_within, standing};
use crate::fitting::{agreeing_sense, fitting_sense};
use lp_values::{AggKind, Kind, Text, Value};
use query_tree::{Expr, ExprList, Placed, WhenList};
use query_types::{Meaning, Operation, TableColumns, TypeFault, sharper, stamp_means};
use senses::{SenseForm, formed, kind_of_case, kind_of_sense};
use std::alloc::{AllocError, Global};

// A column that the table doesn't list.
fn other_sense(
    alloc: Global,
    table: &TableColumns,
    at: u32,
    name: &str,
) -> Result<SenseForm, TypeFault>
    ensures { Answers sense_of result (alias_senses true None table.now.others at name.now) }
{
    if table.others {
        let meaning = Meaning::other(alloc, name)?;
        Ok(SenseForm::Field { at, meaning })
    } else {
        Err(TypeFault::UnknownField { at })
    }
}

// What a word means: a column, an alias, or a column that the table doesn't list.
fn word_sense(
    alloc: Global,
    wide: bool,
    table: &TableColumns,
    aliases: &[SenseAlias],
    at: u32,
    name: &str,
) -> Result<SenseForm, TypeFault>
    ensures { Answers sense_of result (word_senses wide table.now (map named_of aliases.now) at name.now) }
{
    if let Some(index) = table.find(name) {
        let meaning = Meaning::column(index);
        return Ok(SenseForm::Field { at, meaning });
    }
    match find_alias(aliases, name) {
        Some(alias) => alias.meant(alloc, wide),
        None => other_sense(alloc, table, at, name),
    }
}

// TIMESTAMP.
fn stamp_sense(alloc: Global, value: &Placed, pattern: &Placed) -> Result<SenseForm, TypeFault>
    ensures { Answers sense_of result (stamp_senses (placed_of value.now) (placed_of pattern.now)) }
{
    Ok(SenseForm::Fixed(stamp_means(alloc, value, pattern)?))
}

// A CASE of its subject and of what stands behind it.
fn case_sense(
    alloc: Global,
    table: &TableColumns,
    subject: SenseForm,
    parts: Vec<SenseForm>,
) -> Result<SenseForm, AllocError>
    ensures { IfOk result (λ sense. sense_of sense ≡ case_senses table.now.columns (sense_of subject) (map sense_of parts.items)) }
{
    let kind = kind_of_case(table, parts.as_slice());
    let mut all = Vec::new(alloc);
    all.push(subject)?;
    let mut parts = parts;
    all.append(&mut parts)?;
    Ok(formed(kind, Operation::Case, all))
}

// A CASE whose ELSE means this, where its kind agrees.
fn case_closed(
    alloc: Global,
    table: &TableColumns,
    subject: SenseForm,
    parts: Vec<SenseForm>,
    at: u32,
    last: SenseForm,
) -> Result<SenseForm, TypeFault>
    ensures { Answers sense_of result (case_closed table.now.columns (sense_of subject) (map sense_of parts.items) at (sense_of last)) }
{
    let kind = kind_of_case(table, parts.as_slice());
    let last = agreeing_sense(table, kind, at, last)?;
    let mut parts = parts;
    parts.push(last)?;
    Ok(case_sense(alloc, table, subject, parts)?)
}

// A call.
#[cycle(sensed)]
fn call_sensed(
    alloc: Global,
    wide: bool,
    table: &TableColumns,
    moment: &Value,
    aliases: &[SenseAlias],
    at: u32,
    name: &Text,
    arguments: &ExprList,
) -> Result<SenseForm, TypeFault>
    ensures { Answers sense_of result (sensed wide table.now moment.now (map named_of aliases.now) (tree.Call at name.now (listed (trees_of arguments.now)))) }
{
    let callee = standing(wide, at, name.as_str(), arguments.len())?;
    let within = is_wide_within(wide, name.as_str());
    let mut senses = Vec::new(alloc);
    for argument in &arguments.items {
        let sense = sensed(alloc, within, table, moment, aliases, argument)?;
        senses.push(sense)?;
    }
    call_sense(alloc, table, moment, at, name, arguments, callee, senses)
}

// The branches of a CASE whose subject has this kind.
#[cycle(sensed)]
fn branches_sensed(
    alloc: Global,
    wide: bool,
    table: &TableColumns,
    moment: &Value,
    aliases: &[SenseAlias],
    subject: Kind,
    branches: &WhenList,
) -> Result<Vec<SenseForm>, TypeFault>
    ensures { Answers (λ senses. map sense_of senses.items) result (branches_sensed wide table.now moment.now (map named_of aliases.now) subject Any (branched (whens_of branches.now))) }
{
    let mut kind = Kind::Any;
    let mut parts = Vec::new(alloc);
    for branch in &branches.items {
        let test = sensed(alloc, wide, table, moment, aliases, &branch.test)?;
        let test = fitting_sense(table, subject, branch.test.place(), test)?;
        let value = sensed(alloc, wide, table, moment, aliases, &branch.value)?;
        let value = agreeing_sense(table, kind, branch.value.place(), value)?;
        kind = sharper(kind, kind_of_sense(table, &value));
        parts.push(test)?;
        parts.push(value)?;
    }
    Ok(parts)
}

/// What an expression means in a run of this moment, or its first fault. `wide` tells whether aggregates may stand.
#[cycle(sensed)]
pub fn sensed(
    alloc: Global,
    wide: bool,
    table: &TableColumns,
    moment: &Value,
    aliases: &[SenseAlias],
    expr: &Expr,
) -> Result<SenseForm, TypeFault>
    ensures { Answers sense_of result (sensed wide table.now moment.now (map named_of aliases.now) (tree_of expr.now)) }
{
    match expr {
        Expr::Integer { at: _, value } => {
            Ok(SenseForm::Fixed(Meaning::constant(Value::Int(*value))))
        }
        Expr::Real { at: _, value } => {
            Ok(SenseForm::Fixed(Meaning::constant(Value::Real(*value))))
        }
        Expr::Text { at: _, value } => {
            let text = value.copy(alloc)?;
            Ok(SenseForm::Fixed(Meaning::constant(Value::Text(text))))
        }
        Expr::Null { at: _ } => Ok(SenseForm::Fixed(Meaning::constant(Value::Null))),
        Expr::Timestamp {
            at: _,
            value,
            pattern,
        } => stamp_sense(alloc, value, pattern),
        Expr::Word { at, name } => { word_sense(alloc, wide, table, aliases, *at, name.as_str()) }
        Expr::Call {
            at,
            name,
            arguments,
        } => call_sensed(alloc, wide, table, moment, aliases, *at, name, arguments),
        Expr::CountAll { at } => all_rows(alloc, wide, *at, AggKind::CountAll),
        Expr::PropCountAll { at } => all_rows(alloc, wide, *at, AggKind::PropCount),
        Expr::Case {
            at: _,
            subject,
            branches,
            otherwise,
        } => {
            let subject = sensed(alloc, wide, table, moment, aliases, subject)?;
            let kind = kind_of_sense(table, &subject);
            let parts = branches_sensed(alloc, wide, table, moment, aliases, kind, branches)?;
            match otherwise {
                None => Ok(case_sense(alloc, table, subject, parts)?),
                Some(value) => {
                    let last = sensed(alloc, wide, table, moment, aliases, value)?;
                    case_closed(alloc, table, subject, parts, value.place(), last)
                }
            }
        }
    }
}
