// Rows.
ghost use Rattle.std.specs.Prelude.{◌≡◌, ◌++◌, ◌-◌, ℕ, List, Some, None, OnOk, IfOk, map, length, replicate, option_map, if◌then◌else◌};
ghost use Rattle.line_input.specs.Parts.{field_of};
ghost use Rattle.line_input.specs.Taken.{slots_of, reading_in};
ghost use Rattle.ncsa_input.specs.Lines.{may_end, line_fields, row_reading};

use crate::pieces::{behind_spaces, piece_at};
use crate::shape::Shape;
use line_input::{Fields, Slot, Taken};
use std::alloc::{AllocError, Global};

// Host, log name, user, time, request, status, bytes, referer, user agent, cookie.
const SHAPES: [Shape; 10] = [
    Shape::Word,
    Shape::Word,
    Shape::Word,
    Shape::Bracketed,
    Shape::Quoted,
    Shape::Word,
    Shape::Word,
    Shape::Quoted,
    Shape::Quoted,
    Shape::Quoted,
];

fn may_end(parts: usize) -> bool
    ensures { result ≡ may_end parts }
{
    parts == 7 || parts == 9 || parts == 10
}

// Puts the fields of a line into `row`, and tells whether it has the form of a row.
fn read_fields(alloc: Global, line: &[u8], row: &mut Fields) -> Result<bool, AllocError>
    ensures { IfOk result (λ is_row. (if is_row then Some (slots_of line.now row.new) else None) ≡ option_map (map field_of) (line_fields line.now)) }
{
    row.clear();
    let mut at = 0;
    for shape in SHAPES {
        let Some(piece) = piece_at(shape, line, at) else {
            return Ok(false);
        };
        row.push(piece.bytes.field(alloc, line)?)?;
        if piece.end == line.len() {
            return Ok(may_end(row.len()));
        }
        let Some(next) = behind_spaces(line, piece.end) else {
            return Ok(false);
        };
        at = next;
    }
    Ok(false)
}

// Puts none in place of the fields that are missing.
fn pad(row: &mut Fields) -> Result<(), AllocError>
    ensures { OnOk result ((line : List ℕ) → slots_of line row.new ≡ slots_of line row.old ++ replicate (10 - length row.old) None) }
{
    while row.len() < 10 {
        row.push(Slot::Absent)?;
    }
    Ok(())
}

/// What a line is that isn't of spaces alone.
pub(crate) fn take_row(alloc: Global, line: &[u8], row: &mut Fields) -> Result<Taken, AllocError>
    ensures { IfOk result (λ taken. reading_in line.now row.new taken ≡ row_reading (line_fields line.now)) }
{
    if read_fields(alloc, line, row)? {
        pad(row)?;
        Ok(Taken::Row)
    } else {
        Ok(Taken::Bad)
    }
}
