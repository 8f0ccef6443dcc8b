// Rows.
ghost use Rattle.std.specs.Prelude.{◌≡◌, ◌++◌, ◌-◌, ◌<◌, false, List, ℕ, OnOk, IfOk, None, length, replicate};
ghost use Rattle.line_input.specs.Taken.{slots_of, reading_in};
ghost use Rattle.delimited_input.specs.Lines.{fields_in, is_broken, row_reading};

use crate::DelimitedOptions;
use crate::cut::cut_line;
use line_input::{Fields, Slot, Taken};
use std::alloc::{AllocError, Global};

// Puts none in place of the fields that are missing.
fn pad(row: &mut Fields, many: usize) -> Result<(), AllocError>
    ensures { OnOk result ((line : List ℕ) → slots_of line row.new ≡ slots_of line row.old ++ replicate (many - length row.old) None) }
{
    while row.len() < many {
        row.push(Slot::Absent)?;
    }
    Ok(())
}

/// What a row is under so many columns.
pub(crate) fn take_row(
    alloc: Global,
    options: DelimitedOptions,
    line: &[u8],
    many: usize,
    row: &mut Fields,
) -> Result<Taken, AllocError>
    requires filled { 0 < length line.now }
    requires whole { is_broken line.now ≡ false }
    ensures { IfOk result (λ taken. reading_in line.now row.new taken ≡ row_reading many (fields_in options line.now)) }
{
    let all = cut_line(alloc, options, line, many, row)?;
    if !all {
        return Ok(Taken::Bad);
    }
    pad(row, many)?;
    Ok(Taken::Row)
}
