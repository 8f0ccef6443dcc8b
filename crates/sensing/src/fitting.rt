// Which kinds go together.
ghost use Rattle.query_types.specs.Meanings.{Answers};
ghost use Rattle.senses.specs.Senses.{sense_of};
ghost use Rattle.sensing.specs.Sensing.{agreeing_sense, fitting_sense};

use lp_values::Kind;
use query_types::{TableColumns, TypeFault, agree, fits};
use senses::{SenseForm, kind_of_sense};

/// A right side at this place, whose kind has to fit.
pub(crate) fn fitting_sense(
    table: &TableColumns,
    kind: Kind,
    at: u32,
    sense: SenseForm,
) -> Result<SenseForm, TypeFault>
    ensures { Answers sense_of result (fitting_sense table.now.columns kind at (sense_of sense)) }
{
    if fits(kind, kind_of_sense(table, &sense)) {
        Ok(sense)
    } else {
        Err(TypeFault::KindMismatch { at })
    }
}

/// A value of a CASE at this place, whose kind has to agree.
pub(crate) fn agreeing_sense(
    table: &TableColumns,
    kind: Kind,
    at: u32,
    sense: SenseForm,
) -> Result<SenseForm, TypeFault>
    ensures { Answers sense_of result (agreeing_sense table.now.columns kind at (sense_of sense)) }
{
    if agree(kind, kind_of_sense(table, &sense)) {
        Ok(sense)
    } else {
        Err(TypeFault::KindMismatch { at })
    }
}
