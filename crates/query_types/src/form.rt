// What an expression means, as it lies in memory.
ghost use Rattle.std.specs.Prelude.{◌≡◌, IfOk, map};
ghost use Rattle.query_types.specs.Terms.{maker_of, term_of, terms_of, has_column};
ghost use Rattle.query_types.specs.Terms.{Term as term};

use lp_functions::Function;
use lp_time::Pattern;
use lp_values::{Kind, Text, Value};
use std::alloc::{AllocError, Global};
use std::rc::Rc;

/// How a value is made of others.
#[derive(Drop)]
pub enum Operation {
    /// A function's value.
    Call(Function),
    /// CASE: of its subject, of each WHEN and its THEN, and of ELSE where it stands.
    Case,
    /// A stamp written by a pattern.
    Write(Rc<Pattern>),
    /// A stamp read from a text by a pattern.
    Read(Rc<Pattern>),
    /// A value that the query states: the stamp of a TIMESTAMP, of its two texts, or the moment of the run, of nothing.
    Stated(Value),
    /// NULL, for a column of this name, which the table doesn't list.
    Unlisted(Text),
}

/// What an expression means: nothing in it is looked up by name.
#[derive(Drop)]
pub enum Form {
    /// The column at this place of the table.
    Column(usize),
    /// A value that is the same in each row.
    Constant(Value),
    /// What is made of others, and its kind.
    Made {
        kind: Kind,
        by: Operation,
        of: Vec<Form>,
    },
}

impl Operation {
    /// The same again.
    pub fn copy(&self, alloc: Global) -> Result<Operation, AllocError>
        ensures { IfOk result (λ copy. maker_of copy ≡ maker_of self.now) }
    {
        match self {
            Operation::Call(function) => Ok(Operation::Call(*function)),
            Operation::Case => Ok(Operation::Case),
            Operation::Write(pattern) => Ok(Operation::Write(Rc::clone(pattern)?)),
            Operation::Read(pattern) => Ok(Operation::Read(Rc::clone(pattern)?)),
            Operation::Stated(value) => Ok(Operation::Stated(value.copy(alloc)?)),
            Operation::Unlisted(name) => Ok(Operation::Unlisted(name.copy(alloc)?)),
        }
    }
}

/// What is made of others.
pub fn made(kind: Kind, by: Operation, of: Vec<Form>) -> Form
    ensures { term_of result ≡ term.made kind (maker_of by) (terms_of (map term_of of.items)) }
{
    Form::Made { kind, by, of }
}

/// The same again.
pub(crate) fn copied(alloc: Global, form: &Form) -> Result<Form, AllocError>
    ensures { IfOk result (λ copy. term_of copy ≡ term_of form.now) }
{
    match form {
        Form::Column(index) => Ok(Form::Column(*index)),
        Form::Constant(value) => Ok(Form::Constant(value.copy(alloc)?)),
        Form::Made { kind, by, of } => {
            let mut parts = Vec::new(alloc);
            for part in of {
                parts.push(copied(alloc, part)?)?;
            }
            let operation = by.copy(alloc)?;
            Ok(made(*kind, operation, parts))
        }
    }
}

/// Whether a form has the column at a place.
pub(crate) fn has_column(index: usize, form: &Form) -> bool
    ensures { result ≡ has_column index (term_of form.now) }
{
    match form {
        Form::Column(place) => *place == index,
        Form::Constant(_) => false,
        Form::Made { kind: _, by: _, of } => {
            for part in of {
                if has_column(index, part) {
                    return true;
                }
            }
            false
        }
    }
}
