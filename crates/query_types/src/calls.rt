// What calls mean, whose arguments are known.
ghost use Rattle.std.specs.Prelude.{◌≡◌, IfOk, length, map, option_map, option_copied};
ghost use Rattle.grammar.specs.Trees.{trees_of as listed};
ghost use Rattle.query_tree.specs.Views.{tree_of, trees_of};
ghost use Rattle.query_types.specs.Terms.{maker_of, term_of};
ghost use Rattle.query_types.specs.Meanings.{Answers, call_means, function_means, known, made_of_kind, maker, pattern_among, pattern_given};

use crate::callee::Callee;
use crate::form::{Form, Operation, made};
use crate::kinds::kinds_of_forms;
use crate::stamps::{moment_as, moment_said, pattern_of};
use crate::{Meaning, TableColumns, TypeFault};
use lp_functions::Function;
use lp_time::Pattern;
use lp_values::{Kind, Value};
use query_tree::{Expr, ExprList};
use std::alloc::{AllocError, Global};
use std::rc::Rc;

/// What stands before parentheses, where it is known and takes so many arguments.
pub fn known(at: u32, many: usize, found: Callee) -> Result<Callee, TypeFault>
    ensures { Answers (λ callee. callee) result (known at many found) }
{
    match found {
        Callee::Unknown => Err(TypeFault::UnknownFunction { at }),
        found if found.has_arity(many) => Ok(found),
        _ => Err(TypeFault::WrongArity { at }),
    }
}

// The pattern that an argument is.
fn pattern_given(argument: Option<&Expr>) -> Result<Option<Pattern>, TypeFault>
    ensures { Answers (λ pattern. pattern) result (pattern_given (option_map tree_of (option_copied argument.entry))) }
{
    match argument {
        None => Ok(None),
        Some(Expr::Text { at, value }) => Ok(Some(pattern_of(*at, value)?)),
        Some(argument) => Err(TypeFault::BadPattern {
            at: argument.place(),
        }),
    }
}

/// The pattern among arguments, where the function wants one.
pub fn pattern_among(
    place: Option<usize>,
    arguments: &ExprList,
) -> Result<Option<Pattern>, TypeFault>
    ensures { Answers (λ pattern. pattern) result (pattern_among place (listed (trees_of arguments.now))) }
{
    match place {
        None => Ok(None),
        Some(place) => pattern_given(arguments.get(place)),
    }
}

/// How a function makes its value.
pub fn operation_of(
    alloc: Global,
    function: Function,
    pattern: Option<Pattern>,
) -> Result<Operation, AllocError>
    ensures { IfOk result (λ operation. maker_of operation ≡ maker function pattern) }
{
    match pattern {
        None => Ok(Operation::Call(function)),
        Some(pattern) => {
            let pattern = Rc::new(alloc, pattern)?;
            match function {
                Function::ToString => Ok(Operation::Write(pattern)),
                _ => Ok(Operation::Read(pattern)),
            }
        }
    }
}

// What is made of arguments, where they have such a kind.
fn made_of_kind(
    at: u32,
    kind: Option<Kind>,
    by: Operation,
    forms: Vec<Form>,
) -> Result<Meaning, TypeFault>
    ensures { Answers (λ meaning. meaning) result (made_of_kind at kind (maker_of by) (map term_of forms.items)) }
{
    match kind {
        Some(kind) => Ok(Meaning::new(made(kind, by, forms))),
        None => Err(TypeFault::KindMismatch { at }),
    }
}

// A function's call.
fn function_means(
    alloc: Global,
    table: &TableColumns,
    at: u32,
    function: Function,
    arguments: &ExprList,
    forms: Vec<Form>,
) -> Result<Meaning, TypeFault>
    ensures { Answers (λ meaning. meaning) result (function_means table.now.columns at function (listed (trees_of arguments.now)) (map term_of forms.items)) }
{
    let kinds = kinds_of_forms(alloc, table, forms.as_slice())?;
    let place = function.pattern_place(kinds.as_slice());
    let pattern = pattern_among(place, arguments)?;
    let operation = operation_of(alloc, function, pattern)?;
    made_of_kind(at, function.kind(kinds.as_slice()), operation, forms)
}

/// A call with arguments that mean this.
pub(crate) fn call_means(
    alloc: Global,
    table: &TableColumns,
    moment: &Value,
    at: u32,
    callee: Callee,
    arguments: &ExprList,
    forms: Vec<Form>,
) -> Result<Meaning, TypeFault>
    ensures { Answers (λ meaning. meaning) result (call_means table.now.columns moment.now at callee (listed (trees_of arguments.now)) (map term_of forms.items)) }
{
    match callee {
        Callee::Function(function) => {
            function_means(alloc, table, at, function, arguments, forms)
        }
        Callee::Now(part) => Ok(moment_said(alloc, moment_as(alloc, part, moment)?)),
        Callee::Aggregate | Callee::Unknown => Err(TypeFault::UnknownFunction { at }),
    }
}
