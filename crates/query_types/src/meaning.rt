// What an expression means once its names are replaced.
ghost use Rattle.std.specs.Prelude.{◌≡◌, IfOk};
ghost use Rattle.query_types.specs.Meanings.{kind_meant, other};
ghost use Rattle.query_types.specs.Orders.{same_term};
ghost use Rattle.query_types.specs.Terms.{term_of, has_column};
ghost use Rattle.query_types.specs.Terms.{Term as term};

use crate::TableColumns;
use crate::form::{Form, Operation, copied, has_column, made};
use crate::ordering::is_same;
use lp_values::{Kind, ListOf, Text, Value};
use std::alloc::{AllocError, Global};
use std::marker::Model;

/// What an expression means.
#[derive(Drop)]
pub struct Meaning {
    form: Form,
}

impl Model for Meaning {
    ghost use Rattle.std.specs.Prelude.{List};
    ghost use Rattle.std.specs.Coded.{code_by, codes};
    ghost use Rattle.query_types.specs.Terms.{Term, term_of};
    ghost use Rattle.query_types.specs.Codes.{Step, steps_in, term_made, made_back};

    ghost Value = { Term };

    ghost coded = { code_by (List Step) (Prim.hlevel codes) steps_in term_made made_back };

    ghost view = { λ meaning. term_of meaning.form };
}

pub type MeaningList = ListOf<Meaning>;

impl Meaning {
    pub fn new(form: Form) -> Meaning
        ensures { result ≡ term_of form }
    {
        Meaning { form }
    }

    /// A column of the table.
    pub fn column(index: usize) -> Meaning
        ensures { result ≡ term.column index }
    {
        Meaning::new(Form::Column(index))
    }

    /// A column that the table doesn't list.
    pub fn other(alloc: Global, name: &str) -> Result<Meaning, AllocError>
        ensures { IfOk result (λ meaning. meaning ≡ other name.now) }
    {
        let name = Text::from_str(alloc, name)?;
        let parts = Vec::new(alloc);
        Ok(Meaning::new(made(Kind::Any, Operation::Unlisted(name), parts)))
    }

    /// A value that is the same in each row.
    pub fn constant(value: Value) -> Meaning
        ensures { result ≡ term.constant value }
    {
        Meaning::new(Form::Constant(value))
    }

    pub fn form(&self) -> &Form
        ensures { term_of result.now ≡ self.now }
    {
        &self.form
    }

    pub fn into_form(self) -> Form
        ensures { term_of result ≡ self }
    {
        let Meaning { form } = self;
        form
    }

    pub fn copy(&self, alloc: Global) -> Result<Meaning, AllocError>
        ensures { IfOk result (λ copy. copy ≡ self.now) }
    {
        Ok(Meaning::new(copied(alloc, &self.form)?))
    }

    /// Its kind over a table.
    pub fn kind(&self, table: &TableColumns) -> Kind
        ensures { result ≡ kind_meant table.now.columns self.now }
    {
        match &self.form {
            Form::Column(index) => table.kind(*index),
            Form::Constant(value) => value.kind(),
            Form::Made { kind, by: _, of: _ } => *kind,
        }
    }

    /// Whether it is another by its form.
    pub fn is(&self, other: &Meaning) -> bool
        ensures { result ≡ same_term self.now other.now }
    {
        is_same(&self.form, &other.form)
    }

    /// Whether it has the column at a place of the table.
    pub fn has_column(&self, index: usize) -> bool
        ensures { result ≡ has_column index self.now }
    {
        has_column(index, &self.form)
    }
}
