// Logs in the formats of the NCSA, line by line.
ghost use Rattle.std.specs.Prelude.{◌≡◌, IfOk};
ghost use Rattle.line_input.specs.Taken.{reading_in};
ghost use Rattle.lp_model.specs.Reading.{Columns};
ghost use Rattle.std.specs.Prelude.{None};
ghost use Rattle.ncsa_input.specs.Lines.{is_of_spaces, ncsa_reading, ncsa_lines};
ghost use Rattle.ncsa_input.specs.Stepping.{no_columns_set};

use crate::row::take_row;
use line_input::{Fields, LineReader, Standing, Taken};
use std::alloc::{AllocError, Global};

/// Reads logs in the common log format, the combined one, and that with a cookie. A row has ten fields.
#[derive(Clone, Copy)]
pub struct Ncsa;

fn is_of_spaces(line: &[u8]) -> bool
    ensures { result ≡ is_of_spaces line.now }
{
    line.iter().all(|byte| *byte == b' ')
}

fn take(alloc: Global, line: &[u8], row: &mut Fields) -> Result<Taken, AllocError>
    ensures { IfOk result (λ taken. reading_in line.now row.new taken ≡ ncsa_reading line.now None) }
{
    if is_of_spaces(line) {
        return Ok(Taken::Passed);
    }
    take_row(alloc, line, row)
}

#[tactic(auto, unfolding(crate::specs::Lines::ncsa_lines))]
impl LineReader for Ncsa {
    ghost format = { λ s. ncsa_lines };

    ghost step = { λ s columns line. columns };

    fn take_line(
        &self,
        alloc: Global,
        standing: &mut Standing,
        line: &[u8],
        row: &mut Fields,
    ) -> Result<Taken, AllocError> {
        let taken = take(alloc, line, row)?;
        standing.pass_line();
        Ok(taken)
    }

    ghost folds = { λ s. no_columns_set };
}
