// The layout of a block.
ghost use Rattle.std.specs.Prelude.{◌≡◌, ◌<◌, ◌∷◌, ◌++◌, [], length, get_or, max, replicate, flat_map, OnOk, OnErr, if◌then◌else◌};
ghost use Rattle.lp_model.specs.Outside.{GrowsIn};
ghost use Rattle.text_formats.specs.Tables.{width_in, filled, row_line, rule_line, is_titled, block_text};
ghost use Rattle.text_formats.specs.Widths.{AreWidths};

use crate::cells::add_times;
use crate::line::Line;
use lp_values::{Bytes, ListOf};
use output_formats::Headers;
use std::alloc::AllocError;

fn wider(a: usize, b: usize) -> usize
    ensures { result ≡ max a b }
{
    if a < b { b } else { a }
}

// The width of a column of a table of a title and rows.
fn column_width(title: &Line, rows: &[Line], column: usize) -> usize
    ensures { result ≡ width_in (title.now ∷ rows.now) column }
{
    let mut width = title.width_at(column);
    for row in rows {
        width = wider(width, row.width_at(column));
    }
    width
}

// Notes the widths of the columns that the title has.
fn note_widths(title: &Line, rows: &[Line], widths: &mut ListOf<usize>) -> Result<(), AllocError>
    ensures { OnOk result (AreWidths (title.now ∷ rows.now) widths.new) }
{
    widths.clear();
    for column in 0..title.len() {
        widths.push(column_width(title, rows, column))?;
    }
    Ok(())
}

// The width of a column; a row may have more cells than the title, whose columns aren't noted.
fn noted_width(title: &Line, rows: &[Line], widths: &ListOf<usize>, column: usize) -> usize
    requires { AreWidths (title.now ∷ rows.now) widths.now }
    ensures { result ≡ width_in (title.now ∷ rows.now) column }
{
    match widths.get(column) {
        Some(width) => *width,
        None => column_width(title, rows, column),
    }
}

// Appends a cell, so many spaces, and one more.
fn add_filled(cell: &[u8], spaces: usize, to: &mut Bytes) -> Result<(), AllocError>
    ensures ok { OnOk result (to.new ≡ to.old ++ (cell.now ++ replicate spaces 32 ++ 32 ∷ [])) }
    ensures err { OnErr result (GrowsIn to.old to.new (cell.now ++ replicate spaces 32 ++ 32 ∷ [])) }
{
    to.add(cell)?;
    add_times(spaces, b' ', to)?;
    to.push(b' ')?;
    Ok(())
}

// Appends the cell of a row in a column.
fn add_entry(
    title: &Line,
    rows: &[Line],
    widths: &ListOf<usize>,
    row: &Line,
    column: usize,
    last: bool,
    to: &mut Bytes,
) -> Result<(), AllocError>
    requires widths { AreWidths (title.now ∷ rows.now) widths.now }
    requires there { column < length row.now }
    ensures ok { OnOk result (to.new ≡ to.old ++ filled (title.now ∷ rows.now) column last (get_or row.now column [])) }
    ensures err { OnErr result (GrowsIn to.old to.new (filled (title.now ∷ rows.now) column last (get_or row.now column []))) }
{
    let (cell, used) = row.cell_at(column);
    if last {
        to.add(cell)?;
        Ok(())
    } else {
        let width = noted_width(title, rows, widths, column);
        add_filled(cell, width.saturating_sub(used), to)
    }
}

fn add_row(
    title: &Line,
    rows: &[Line],
    widths: &ListOf<usize>,
    row: &Line,
    to: &mut Bytes,
) -> Result<(), AllocError>
    requires { AreWidths (title.now ∷ rows.now) widths.now }
    ensures ok { OnOk result (to.new ≡ to.old ++ row_line (title.now ∷ rows.now) row.now) }
    ensures err { OnErr result (GrowsIn to.old to.new (row_line (title.now ∷ rows.now) row.now)) }
{
    let count = row.len();
    for column in 0..count {
        add_entry(title, rows, widths, row, column, column + 1 == count, to)?;
    }
    to.push(b'\n')?;
    Ok(())
}

fn add_dashes(width: usize, last: bool, to: &mut Bytes) -> Result<(), AllocError>
    ensures ok { OnOk result (to.new ≡ to.old ++ (replicate width 45 ++ (if last then [] else 32 ∷ []))) }
    ensures err { OnErr result (GrowsIn to.old to.new (replicate width 45 ++ (if last then [] else 32 ∷ []))) }
{
    add_times(width, b'-', to)?;
    if !last {
        to.push(b' ')?;
    }
    Ok(())
}

fn add_rule(
    title: &Line,
    rows: &[Line],
    widths: &ListOf<usize>,
    to: &mut Bytes,
) -> Result<(), AllocError>
    requires { AreWidths (title.now ∷ rows.now) widths.now }
    ensures ok { OnOk result (to.new ≡ to.old ++ rule_line (title.now ∷ rows.now) title.now) }
    ensures err { OnErr result (GrowsIn to.old to.new (rule_line (title.now ∷ rows.now) title.now)) }
{
    let count = title.len();
    for column in 0..count {
        let width = noted_width(title, rows, widths, column);
        add_dashes(width, column + 1 == count, to)?;
    }
    to.push(b'\n')?;
    Ok(())
}

fn is_titled(headers: Headers) -> bool
    ensures { result ≡ is_titled headers }
{
    match headers {
        Headers::Auto | Headers::On => true,
        Headers::Off => false,
    }
}

fn add_title(
    headers: Headers,
    title: &Line,
    rows: &[Line],
    widths: &ListOf<usize>,
    to: &mut Bytes,
) -> Result<(), AllocError>
    requires { AreWidths (title.now ∷ rows.now) widths.now }
    ensures ok { OnOk result (to.new ≡ to.old ++ (if is_titled headers then row_line (title.now ∷ rows.now) title.now ++ rule_line (title.now ∷ rows.now) title.now else [])) }
    ensures err { OnErr result (GrowsIn to.old to.new (if is_titled headers then row_line (title.now ∷ rows.now) title.now ++ rule_line (title.now ∷ rows.now) title.now else [])) }
{
    if is_titled(headers) {
        add_row(title, rows, widths, title, to)?;
        add_rule(title, rows, widths, to)
    } else {
        Ok(())
    }
}

fn add_rows(
    title: &Line,
    rows: &[Line],
    widths: &ListOf<usize>,
    to: &mut Bytes,
) -> Result<(), AllocError>
    requires { AreWidths (title.now ∷ rows.now) widths.now }
    ensures ok { OnOk result (to.new ≡ to.old ++ flat_map (row_line (title.now ∷ rows.now)) rows.now) }
    ensures err { OnErr result (GrowsIn to.old to.new (flat_map (row_line (title.now ∷ rows.now)) rows.now)) }
{
    for row in rows {
        add_row(title, rows, widths, row, to)?;
    }
    Ok(())
}

/// Appends a block of rows under their title.
pub(crate) fn add_block(
    headers: Headers,
    title: &Line,
    rows: &[Line],
    widths: &mut ListOf<usize>,
    to: &mut Bytes,
) -> Result<(), AllocError>
    ensures ok { OnOk result (to.new ≡ to.old ++ block_text headers title.now rows.now) }
    ensures err { OnErr result (GrowsIn to.old to.new (block_text headers title.now rows.now)) }
{
    note_widths(title, rows, widths)?;
    add_title(headers, title, rows, widths, to)?;
    add_rows(title, rows, widths, to)
}
