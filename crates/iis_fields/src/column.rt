// The columns of a log.
ghost use Rattle.std.specs.Prelude.{◌≡◌, ◌<◌, ℕ, List, IfOk, IfSome};
ghost use Rattle.iis_fields.specs.Places.{place_of};

use crate::table::place_of;
use lp_values::{ListOf, Text};
use std::alloc::{AllocError, Global};
use std::marker::Model;

/// A column of a log, seen as its name.
#[derive(Drop)]
pub struct Column {
    name: Text,
    place: Option<usize>,
    ghost found: { place ≡ place_of name },
}

impl Model for Column {
    ghost Value = { List ℕ };

    ghost view = { λ c. c.name };
}

impl Column {
    pub fn new(name: Text) -> Column
        ensures { result ≡ name }
    {
        let place = place_of(name.as_str());
        Column { name, place }
    }

    pub fn name(&self) -> &str
        ensures { result.now ≡ self.now }
    {
        self.name.as_str()
    }

    /// The place of its name among the fields that a log may have, whatever the name's case.
    pub fn place(&self) -> Option<usize>
        ensures place { result ≡ place_of self.now }
        ensures within { IfSome result (λ place. place < 22) }
    {
        self.place
    }

    pub fn copy(&self, alloc: Global) -> Result<Column, AllocError>
        ensures { IfOk result (λ copy. copy ≡ self.now) }
    {
        Ok(Column {
            name: self.name.copy(alloc)?,
            place: self.place,
        })
    }
}

pub type Columns = ListOf<Column>;

pub fn copy_columns(alloc: Global, columns: &Columns) -> Result<Columns, AllocError>
    ensures { IfOk result (λ copy. copy ≡ columns.now) }
{
    let mut copy = Columns::with_capacity(alloc, columns.len())?;
    for column in columns.as_slice() {
        copy.push(column.copy(alloc)?)?;
    }
    Ok(copy)
}
