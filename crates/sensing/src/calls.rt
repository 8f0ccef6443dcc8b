// What calls mean, whose arguments are known.
ghost use Rattle.std.specs.Prelude.{◌≡◌, ◌&&◌, not, ◌≢◌, ◌∷◌, [], IfSome, IsNone, length, map};
ghost use Rattle.grammar.specs.Trees.{trees_of as listed};
ghost use Rattle.query_tree.specs.Views.{trees_of};
ghost use Rattle.query_types.specs.Calls.{is_counting};
ghost use Rattle.query_types.specs.Terms.{maker_of};
ghost use Rattle.query_types.specs.Meanings.{Answers};
ghost use Rattle.senses.specs.Senses.{sense_of};
ghost use Rattle.sensing.specs.Sensing.{aggregate_senses, call_senses, first_place, formed_of_kind, function_senses, standing};

use crate::aggregates::{asked_by, asked_sense};
use lp_functions::Function;
use lp_values::{Kind, Text, Value};
use query_tree::ExprList;
use query_types::{
    Callee, Operation, TableColumns, TypeFault, is_counting, known, moment_as, moment_said,
    operation_of, pattern_among,
};
use senses::{SenseForm, formed, kinds_of_senses};
use std::alloc::Global;

/// What stands before parentheses, where it is known, takes so many arguments, and may stand.
pub(crate) fn standing(wide: bool, at: u32, name: &str, many: usize) -> Result<Callee, TypeFault>
    ensures { Answers (λ callee. callee) result (standing wide at name.now many) }
{
    let found = known(at, many, Callee::of(name))?;
    if wide || !is_counting(name) {
        Ok(found)
    } else {
        Err(TypeFault::NestedAggregate { at })
    }
}

/// Whether aggregates may stand in the arguments of a call.
pub(crate) fn is_wide_within(wide: bool, name: &str) -> bool
    ensures { result ≡ (wide && not (is_counting name.now)) }
{
    wide && !is_counting(name)
}

// What is made of arguments, where they have such a kind.
fn formed_of_kind(
    at: u32,
    kind: Option<Kind>,
    by: Operation,
    senses: Vec<SenseForm>,
) -> Result<SenseForm, TypeFault>
    ensures { Answers sense_of result (formed_of_kind at kind (maker_of by) (map sense_of senses.items)) }
{
    match kind {
        Some(kind) => Ok(formed(kind, by, senses)),
        None => Err(TypeFault::KindMismatch { at }),
    }
}

// A function's call.
fn function_sense(
    alloc: Global,
    table: &TableColumns,
    at: u32,
    function: Function,
    arguments: &ExprList,
    senses: Vec<SenseForm>,
) -> Result<SenseForm, TypeFault>
    ensures { Answers sense_of result (function_senses table.now.columns at function (listed (trees_of arguments.now)) (map sense_of senses.items)) }
{
    let kinds = kinds_of_senses(alloc, table, senses.as_slice())?;
    let place = function.pattern_place(kinds.as_slice());
    let pattern = pattern_among(place, arguments)?;
    let operation = operation_of(alloc, function, pattern)?;
    formed_of_kind(at, function.kind(kinds.as_slice()), operation, senses)
}

// The place of the first argument.
fn first_place(arguments: &ExprList) -> u32
    ensures { result ≡ first_place (listed (trees_of arguments.now)) }
{
    match arguments.get(0) {
        Some(argument) => argument.place(),
        None => 0,
    }
}

// The only one of some senses.
fn only(senses: Vec<SenseForm>) -> Option<SenseForm>
    ensures one { IfSome result (λ sense. map sense_of senses.items ≡ sense_of sense ∷ []) }
    ensures other { IsNone result → length senses.items ≢ 1 }
{
    let mut senses = senses;
    if senses.len() == 1 {
        senses.pop()
    } else {
        None
    }
}

// A call of an aggregate, or of GROUPING.
fn aggregate_sense(
    alloc: Global,
    table: &TableColumns,
    at: u32,
    name: &str,
    arguments: &ExprList,
    senses: Vec<SenseForm>,
) -> Result<SenseForm, TypeFault>
    ensures { Answers sense_of result (aggregate_senses table.now.columns at name.now (listed (trees_of arguments.now)) (map sense_of senses.items)) }
{
    match only(senses) {
        Some(of) => asked_sense(alloc, table, at, asked_by(name), first_place(arguments), of),
        None => Err(TypeFault::WrongArity { at }),
    }
}

/// A call with arguments that mean this.
pub(crate) fn call_sense(
    alloc: Global,
    table: &TableColumns,
    moment: &Value,
    at: u32,
    name: &Text,
    arguments: &ExprList,
    callee: Callee,
    senses: Vec<SenseForm>,
) -> Result<SenseForm, TypeFault>
    ensures { Answers sense_of result (call_senses table.now.columns moment.now at name.now (listed (trees_of arguments.now)) callee (map sense_of senses.items)) }
{
    match callee {
        Callee::Function(function) => {
            function_sense(alloc, table, at, function, arguments, senses)
        }
        Callee::Now(part) => {
            let value = moment_as(alloc, part, moment)?;
            Ok(SenseForm::Fixed(moment_said(alloc, value)))
        }
        Callee::Aggregate => { aggregate_sense(alloc, table, at, name.as_str(), arguments, senses) }
        Callee::Unknown => Err(TypeFault::UnknownFunction { at }),
    }
}
