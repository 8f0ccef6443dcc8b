// Logs of fields that one byte parts, line by line.
ghost use Rattle.std.specs.Prelude.{◌≡◌, ◌+◌, ◌<◌, ◌^◌, ◌↔◌, ◌∷◌, [], false, List, ℕ, length, OnOk, OnErr, IsErr, IfOk, Some, if◌then◌else◌};
ghost use Rattle.line_input.specs.Taken.{reading_in, slots_of};
ghost use Rattle.lp_model.specs.Reading.{passed, bad, rows};
ghost use Rattle.delimited_input.specs.Kept.{texts_of};
ghost use Rattle.delimited_input.specs.Lines.{fields_in, is_broken, first_reading, filled_reading, delimited_lines};
ghost use Rattle.delimited_input.specs.Names.{made_names, header_names};
ghost use Rattle.delimited_input.specs.Separators.{IsNoSeparator};
ghost use Rattle.delimited_input.specs.Setting.{first_columns, filled_columns};
ghost use Rattle.delimited_input.specs.Stepping.{columns_step, steps_look_back};

use crate::broken::is_broken;
use crate::cut::cut_line;
use crate::header::{MOST_COLUMNS, header_names, made_names};
use crate::row::take_row;
use crate::{BadOption, DelimitedOptions};
use line_input::{Fields, LineReader, Standing, Taken};
use std::alloc::{AllocError, Global};
use std::marker::Model;

/// Reads logs of fields that one byte parts. A row has as many fields as there are columns in force.
#[derive(Drop)]
pub struct Delimited {
    options: DelimitedOptions,
}

impl Model for Delimited {
    ghost use Rattle.delimited_input.specs.declared.options.DelimitedOptions.{DelimitedOptions};

    ghost Value = { DelimitedOptions };

    ghost view = { λ d. d.options };
}

impl Delimited {
    pub fn new(options: DelimitedOptions) -> Result<Delimited, BadOption>
        ensures ok { IfOk result (λ reader. reader ≡ options) }
        ensures refused { IsErr result ↔ IsNoSeparator options.separator }
    {
        match options.separator {
            b'\r' | b'\n' | b'"' => Err(BadOption),
            0x7F..=0xFF => Err(BadOption),
            _ => Ok(Delimited { options }),
        }
    }
}

// Takes the header, whose fields stand in `row`, and which names the columns.
fn take_header(
    alloc: Global,
    standing: &mut Standing,
    line: &[u8],
    row: &Fields,
) -> Result<Taken, AllocError>
    requires { standing.old.lines < 2 ^ 63 }
    ensures reading { IfOk result (λ taken. reading_in line.now row.now taken ≡ passed) }
    ensures lines { OnOk result (standing.new.lines ≡ standing.old.lines + 1) }
    ensures columns { OnOk result (standing.new.columns ≡ Some (header_names (texts_of line.now row.now))) }
    ensures err { OnErr result (standing.new ≡ standing.old) }
{
    let names = header_names(alloc, line, row)?;
    standing.set_columns(names);
    Ok(Taken::Passed)
}

// Takes the first row, whose fields stand in `row`, and which tells how many columns there are, if these are all.
fn take_first_row(
    alloc: Global,
    standing: &mut Standing,
    row: &Fields,
    all: bool,
) -> Result<Taken, AllocError>
    requires { standing.old.lines < 2 ^ 63 }
    ensures reading { IfOk result (λ taken. (line : List ℕ) → reading_in line row.now taken ≡ (if all then rows (slots_of line row.now ∷ []) else bad)) }
    ensures lines { OnOk result (standing.new.lines ≡ standing.old.lines + 1) }
    ensures columns { OnOk result (standing.new.columns ≡ (if all then Some (made_names (length row.now)) else standing.old.columns)) }
    ensures err { OnErr result (standing.new ≡ standing.old) }
{
    if !all {
        standing.pass_line();
        return Ok(Taken::Bad);
    }
    let names = made_names(alloc, row.len())?;
    standing.set_columns(names);
    Ok(Taken::Row)
}

// Takes a line before which no columns are in force.
fn take_first(
    alloc: Global,
    options: DelimitedOptions,
    standing: &mut Standing,
    line: &[u8],
    row: &mut Fields,
) -> Result<Taken, AllocError>
    requires lines { standing.old.lines < 2 ^ 63 }
    requires filled { 0 < length line.now }
    requires whole { is_broken line.now ≡ false }
    ensures reading { IfOk result (λ taken. reading_in line.now row.new taken ≡ first_reading options (fields_in options line.now)) }
    ensures lines { OnOk result (standing.new.lines ≡ standing.old.lines + 1) }
    ensures columns { OnOk result (standing.new.columns ≡ first_columns options (fields_in options line.now) standing.old.columns) }
    ensures err { OnErr result (standing.new ≡ standing.old) }
{
    let all = cut_line(alloc, options, line, MOST_COLUMNS, row)?;
    if options.header_row {
        take_header(alloc, standing, line, row)
    } else {
        take_first_row(alloc, standing, row, all)
    }
}

// Takes a line that is neither empty nor broken.
fn take_filled(
    alloc: Global,
    options: DelimitedOptions,
    standing: &mut Standing,
    line: &[u8],
    row: &mut Fields,
) -> Result<Taken, AllocError>
    requires lines { standing.old.lines < 2 ^ 63 }
    requires filled { 0 < length line.now }
    requires whole { is_broken line.now ≡ false }
    ensures reading { IfOk result (λ taken. reading_in line.now row.new taken ≡ filled_reading options (fields_in options line.now) standing.old.columns) }
    ensures lines { OnOk result (standing.new.lines ≡ standing.old.lines + 1) }
    ensures columns { OnOk result (standing.new.columns ≡ filled_columns options (fields_in options line.now) standing.old.columns) }
    ensures err { OnErr result (standing.new ≡ standing.old) }
{
    let Some(columns) = standing.columns() else {
        return take_first(alloc, options, standing, line, row);
    };
    let taken = take_row(alloc, options, line, columns.len(), row)?;
    standing.pass_line();
    Ok(taken)
}

impl LineReader for Delimited {
    ghost format = { λ s. delimited_lines s };

    ghost step = { λ s. columns_step s };

    fn take_line(
        &self,
        alloc: Global,
        standing: &mut Standing,
        line: &[u8],
        row: &mut Fields,
    ) -> Result<Taken, AllocError> {
        if line.is_empty() {
            standing.pass_line();
            return Ok(Taken::Passed);
        }
        if is_broken(line) {
            standing.pass_line();
            return Ok(Taken::Bad);
        }
        take_filled(alloc, self.options, standing, line, row)
    }

    ghost folds = { λ s. steps_look_back s };
}
