// One row a word.
ghost use Rattle.std.specs.Prelude.{◌≡◌, ◌∷◌, [], Some, IfOk, List, map, refl};
ghost use Rattle.line_input.specs.Words.{text_words};
ghost use Rattle.line_input.specs.Parts.{is_gap, parts_by};
ghost use Rattle.line_input.specs.Taken.{part_of, slots_of};

use crate::{Extent, Fields, FieldsList, Gap, LineReader, Standing, Taken};
use std::alloc::{AllocError, Global};

#[derive(Clone, Copy)]
pub struct TextWords;

// The row of one word.
fn word_row(alloc: Global, line: &[u8], word: Extent) -> Result<Fields, AllocError>
    ensures { IfOk result (λ fields. slots_of line.now fields ≡ Some (part_of line.now word.from word.to) ∷ []) }
{
    let slot = word.slot(alloc, line)?;
    let mut fields = Fields::new(alloc);
    fields.push(slot)?;
    Ok(fields)
}

// The rows of a line's words.
fn word_rows(alloc: Global, line: &[u8]) -> Result<FieldsList, AllocError>
    ensures { IfOk result (λ rows. map (slots_of line.now) rows ≡ map (λ word. Some word ∷ []) (parts_by (is_gap Gap.Words) line.now)) }
{
    let mut rows = FieldsList::new(alloc);
    let mut at = 0;
    while let Some(word) = Gap::Words.next_part(line, at) {
        rows.push(word_row(alloc, line, word)?)?;
        at = word.to;
    }
    Ok(rows)
}

impl LineReader for TextWords {
    ghost format = { λ s. text_words };

    ghost step = { λ s columns line. columns };

    fn take_line(
        &self,
        alloc: Global,
        standing: &mut Standing,
        line: &[u8],
        _row: &mut Fields,
    ) -> Result<Taken, AllocError> {
        let rows = word_rows(alloc, line)?;
        standing.pass_line();
        Ok(Taken::Rows(rows))
    }

    ghost folds = { λ s before line. refl };
}
