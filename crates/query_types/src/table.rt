// The columns of a run.
ghost use Rattle.std.specs.Prelude.{◌≡◌};
ghost use Rattle.std.specs.List.{position};
ghost use Rattle.std.specs.Str.{str_eq_ignore_ascii_case};
ghost use Rattle.query_types.specs.Meanings.{column_named, kind_at};

use lp_values::{Kind, ListOf, Text};

/// A column: its name as the table spells it, and its kind.
#[derive(Drop)]
pub struct NamedKind {
    pub name: Text,
    pub kind: Kind,
}

pub type NamedKinds = ListOf<NamedKind>;

/// The columns of a run. `others` tells that any other name is a column of kind Any that is NULL in each row.
#[derive(Drop)]
pub struct TableColumns {
    pub columns: NamedKinds,
    pub others: bool,
}

impl TableColumns {
    /// The place of the first column of this name, ASCII case ignored.
    pub fn find(&self, name: &str) -> Option<usize>
        ensures { result ≡ column_named self.now.columns name.now }
    {
        self.columns
            .as_slice()
            .iter()
            .position(|column| column.name.as_str().eq_ignore_ascii_case(name))
    }

    /// The kind of the column at a place; Any where there is none.
    pub fn kind(&self, index: usize) -> Kind
        ensures { result ≡ kind_at self.now.columns index }
    {
        match self.columns.get(index) {
            None => Kind::Any,
            Some(column) => column.kind,
        }
    }
}
