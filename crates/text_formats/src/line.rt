// A row of a table.
ghost use Rattle.std.specs.Prelude.{◌≡◌, ◌<◌, ◌∷◌, ◌++◌, [], length, get_or, IfOk, OnOk};
ghost use Rattle.text_formats.specs.Noted.{texts_in, AreNoted};
ghost use Rattle.text_formats.specs.Tables.{scalars, cell_of, cells_of, width_at};

use crate::cells::add_cell;
use lp_values::{Bytes, ListOf, Value, ValueList, bytes_from, bytes_to};
use std::alloc::{AllocError, Global};
use std::marker::Model;

// Where a cell's text stands, and how wide it is.
#[derive(Clone, Copy)]
pub(crate) struct Cell {
    start: usize,
    size: usize,
    width: usize,
}

/// The cells of a row. Their texts stand one behind another, so that a line that is filled again takes no memory, and each
/// is printed and counted once.
#[derive(Drop)]
pub(crate) struct Line {
    texts: Bytes,
    cells: ListOf<Cell>,
}

impl Model for Line {
    ghost use Rattle.text_formats.specs.Tables.{Cells};

    ghost Value = { Cells };

    ghost use Rattle.text_formats.specs.Noted.{texts_in, AreNoted};

    ghost view = { λ l. texts_in l.texts l.cells };

    ghost invariant = { λ l. AreNoted l.texts l.cells };
}

// Appends a value's cell.
fn note(
    value: &Value,
    scratch: &mut Bytes,
    texts: &mut Bytes,
    cells: &mut ListOf<Cell>,
) -> Result<(), AllocError>
    requires { AreNoted texts.old cells.old }
    ensures noted { OnOk result (AreNoted texts.new cells.new) }
    ensures texts { OnOk result (texts_in texts.new cells.new ≡ texts_in texts.old cells.old ++ cell_of value.now ∷ []) }
{
    let start = texts.len();
    let width = add_cell(value, scratch, texts)?;
    let size = texts.len() - start;
    cells.push(Cell { start, size, width })
}

// Appends the cells of values.
fn note_all(
    values: &ValueList,
    scratch: &mut Bytes,
    texts: &mut Bytes,
    cells: &mut ListOf<Cell>,
) -> Result<(), AllocError>
    requires { cells.old ≡ [] }
    ensures noted { OnOk result (AreNoted texts.new cells.new) }
    ensures texts { OnOk result (texts_in texts.new cells.new ≡ cells_of values.now) }
{
    for value in values.as_slice() {
        note(value, scratch, texts, cells)?;
    }
    Ok(())
}

impl Line {
    pub(crate) fn new(alloc: Global) -> Self
        ensures { result ≡ [] }
    {
        Line {
            texts: Bytes::new(alloc),
            cells: ListOf::new(alloc),
        }
    }

    /// The cells of values, in the memory of another line.
    pub(crate) fn refilled(
        self,
        values: &ValueList,
        scratch: &mut Bytes,
    ) -> Result<Line, AllocError>
        ensures { IfOk result (λ line. line ≡ cells_of values.now) }
    {
        let Line {
            mut texts,
            mut cells,
        } = self;
        texts.clear();
        cells.clear();
        note_all(values, scratch, &mut texts, &mut cells)?;
        Ok(Line { texts, cells })
    }

    pub(crate) fn len(&self) -> usize
        ensures { result ≡ length self.now }
    {
        self.cells.len()
    }

    /// The width of the cell in a column.
    pub(crate) fn width_at(&self, column: usize) -> usize
        ensures { result ≡ width_at column self.now }
    {
        match self.cells.get(column) {
            None => 0,
            Some(cell) => cell.width,
        }
    }

    /// The text of the cell in a column, and its width.
    pub(crate) fn cell_at(&self, column: usize) -> (&[u8], usize)
        requires { column < length self.now }
        ensures text { result.0.now ≡ get_or self.now column [] }
        ensures width { result.1 ≡ scalars (get_or self.now column []) }
    {
        let cell = self.cells.as_slice()[column];
        let text = bytes_to(bytes_from(self.texts.as_slice(), cell.start), cell.size);
        (text, cell.width)
    }
}
