// Writes an entry, field by field.
ghost use Rattle.std.specs.Prelude.{◌≡◌, ◌+◌, ◌≤◌, ◌<◌, ◌^◌, ◌++◌, ◌∷◌, ℕ, ℤ, List, [], length, map, OnOk};
ghost use Rattle.lp_model.specs.Outside.{HasCause};
ghost use Rattle.ledger.specs.Spelling.{Goes, Spells};
ghost use Rattle.ledger.specs.Written.{part_code, kept_of, span_of, output_of, entry_of};
ghost use Rattle.ledger_model.specs.Numbers.{u64_bytes, i64_bytes, text_bytes};
ghost use Rattle.ledger_model.specs.Grammar.{kept_bytes, words_layout, span_layout, spans_layout, list_layout, lists_layout, output_layout, outputs_layout, head_layout, texts_layout, kept_layout, counts_layout, ending_layout, payload_of};

use crate::spelling::Speller;
use crate::{Entry, EntrySpan, InputText, Output};
use lp_outside::{Disk, DiskFailed, Name};
use lp_values::{Bytes, Part, Stamp, Text, Value, ValueList};

fn add_word<D: Disk>(
    disk: &mut D,
    ledger: &Name,
    speller: &mut Speller,
    word: &Text,
) -> Result<(), DiskFailed>
    ensures goes { Goes (D.state disk.old) (D.state disk.new) ledger.now speller.old speller.new }
    ensures spells { OnOk result (Spells (D.state disk.old) (D.state disk.new) ledger.now speller.old speller.new (text_bytes word.now)) }
    ensures cause { HasCause (D.faults disk.old) (D.faults disk.new) result }
{
    speller.add_text(disk, ledger, word.as_str().as_bytes())
}

fn add_name<D: Disk>(
    disk: &mut D,
    ledger: &Name,
    speller: &mut Speller,
    name: &Name,
) -> Result<(), DiskFailed>
    ensures goes { Goes (D.state disk.old) (D.state disk.new) ledger.now speller.old speller.new }
    ensures spells { OnOk result (Spells (D.state disk.old) (D.state disk.new) ledger.now speller.old speller.new (text_bytes name.now)) }
    ensures cause { HasCause (D.faults disk.old) (D.faults disk.new) result }
{
    speller.add_text(disk, ledger, name.as_str().as_bytes())
}

fn add_bytes<D: Disk>(
    disk: &mut D,
    ledger: &Name,
    speller: &mut Speller,
    bytes: &Bytes,
) -> Result<(), DiskFailed>
    ensures goes { Goes (D.state disk.old) (D.state disk.new) ledger.now speller.old speller.new }
    ensures spells { OnOk result (Spells (D.state disk.old) (D.state disk.new) ledger.now speller.old speller.new (text_bytes bytes.now)) }
    ensures cause { HasCause (D.faults disk.old) (D.faults disk.new) result }
{
    speller.add_text(disk, ledger, bytes.as_slice())
}

fn add_words<D: Disk>(
    disk: &mut D,
    ledger: &Name,
    speller: &mut Speller,
    words: &[Text],
) -> Result<(), DiskFailed>
    ensures goes { Goes (D.state disk.old) (D.state disk.new) ledger.now speller.old speller.new }
    ensures spells { OnOk result (Spells (D.state disk.old) (D.state disk.new) ledger.now speller.old speller.new (words_layout.spell words.now)) }
    ensures cause { HasCause (D.faults disk.old) (D.faults disk.new) result }
{
    speller.add_count(disk, ledger, words.len())?;
    for word in words {
        add_word(disk, ledger, speller, word)?;
    }
    Ok(())
}

fn add_span<D: Disk>(
    disk: &mut D,
    ledger: &Name,
    speller: &mut Speller,
    span: &EntrySpan,
) -> Result<(), DiskFailed>
    ensures goes { Goes (D.state disk.old) (D.state disk.new) ledger.now speller.old speller.new }
    ensures spells { OnOk result (Spells (D.state disk.old) (D.state disk.new) ledger.now speller.old speller.new (span_layout.spell (span_of span.now))) }
    ensures cause { HasCause (D.faults disk.old) (D.faults disk.new) result }
{
    add_name(disk, ledger, speller, &span.identity)?;
    speller.add_number(disk, ledger, span.from)?;
    speller.add_number(disk, ledger, span.to)?;
    add_bytes(disk, ledger, speller, &span.standing)
}

fn add_spans<D: Disk>(
    disk: &mut D,
    ledger: &Name,
    speller: &mut Speller,
    spans: &[EntrySpan],
) -> Result<(), DiskFailed>
    ensures goes { Goes (D.state disk.old) (D.state disk.new) ledger.now speller.old speller.new }
    ensures spells { OnOk result (Spells (D.state disk.old) (D.state disk.new) ledger.now speller.old speller.new (spans_layout.spell (map span_of spans.now))) }
    ensures cause { HasCause (D.faults disk.old) (D.faults disk.new) result }
{
    speller.add_count(disk, ledger, spans.len())?;
    for span in spans {
        add_span(disk, ledger, speller, span)?;
    }
    Ok(())
}

fn part_byte(part: Part) -> u8
    ensures { result ≡ part_code part }
{
    match part {
        Part::Date => 0,
        Part::Time => 1,
        Part::Both => 2,
    }
}

/// A tag, and a number.
fn add_tagged<D: Disk>(
    disk: &mut D,
    ledger: &Name,
    speller: &mut Speller,
    tag: u8,
    number: i64,
) -> Result<(), DiskFailed>
    ensures goes { Goes (D.state disk.old) (D.state disk.new) ledger.now speller.old speller.new }
    ensures spells { OnOk result (Spells (D.state disk.old) (D.state disk.new) ledger.now speller.old speller.new (tag ∷ i64_bytes number)) }
    ensures cause { HasCause (D.faults disk.old) (D.faults disk.new) result }
{
    speller.add_byte(disk, ledger, tag)?;
    speller.add_signed(disk, ledger, number)
}

fn add_stamp<D: Disk>(
    disk: &mut D,
    ledger: &Name,
    speller: &mut Speller,
    stamp: &Stamp,
) -> Result<(), DiskFailed>
    ensures goes { Goes (D.state disk.old) (D.state disk.new) ledger.now speller.old speller.new }
    ensures spells { OnOk result (Spells (D.state disk.old) (D.state disk.new) ledger.now speller.old speller.new (4 ∷ (part_code stamp.now.part ∷ i64_bytes stamp.now.seconds))) }
    ensures cause { HasCause (D.faults disk.old) (D.faults disk.new) result }
{
    speller.add_byte(disk, ledger, 4)?;
    let part = part_byte(stamp.part());
    speller.add_byte(disk, ledger, part)?;
    speller.add_signed(disk, ledger, stamp.seconds())
}

fn add_string<D: Disk>(
    disk: &mut D,
    ledger: &Name,
    speller: &mut Speller,
    text: &Text,
) -> Result<(), DiskFailed>
    ensures goes { Goes (D.state disk.old) (D.state disk.new) ledger.now speller.old speller.new }
    ensures spells { OnOk result (Spells (D.state disk.old) (D.state disk.new) ledger.now speller.old speller.new (3 ∷ text_bytes text.now)) }
    ensures cause { HasCause (D.faults disk.old) (D.faults disk.new) result }
{
    speller.add_byte(disk, ledger, 3)?;
    add_word(disk, ledger, speller, text)
}

fn add_value<D: Disk>(
    disk: &mut D,
    ledger: &Name,
    speller: &mut Speller,
    value: &Value,
) -> Result<(), DiskFailed>
    ensures goes { Goes (D.state disk.old) (D.state disk.new) ledger.now speller.old speller.new }
    ensures spells { OnOk result (Spells (D.state disk.old) (D.state disk.new) ledger.now speller.old speller.new (kept_bytes (kept_of value.now))) }
    ensures cause { HasCause (D.faults disk.old) (D.faults disk.new) result }
{
    match value {
        Value::Null => speller.add_byte(disk, ledger, 0),
        Value::Int(number) => add_tagged(disk, ledger, speller, 1, *number),
        Value::Real(number) => add_tagged(disk, ledger, speller, 2, number.millionths),
        Value::Text(text) => add_string(disk, ledger, speller, text),
        Value::Stamp(stamp) => add_stamp(disk, ledger, speller, stamp),
    }
}

fn add_list<D: Disk>(
    disk: &mut D,
    ledger: &Name,
    speller: &mut Speller,
    list: &[Value],
) -> Result<(), DiskFailed>
    ensures goes { Goes (D.state disk.old) (D.state disk.new) ledger.now speller.old speller.new }
    ensures spells { OnOk result (Spells (D.state disk.old) (D.state disk.new) ledger.now speller.old speller.new (list_layout.spell (map kept_of list.now))) }
    ensures cause { HasCause (D.faults disk.old) (D.faults disk.new) result }
{
    speller.add_number(disk, ledger, list.len() as u64)?;
    for value in list {
        add_value(disk, ledger, speller, value)?;
    }
    Ok(())
}

fn add_lists<D: Disk>(
    disk: &mut D,
    ledger: &Name,
    speller: &mut Speller,
    lists: &[ValueList],
) -> Result<(), DiskFailed>
    ensures goes { Goes (D.state disk.old) (D.state disk.new) ledger.now speller.old speller.new }
    ensures spells { OnOk result (Spells (D.state disk.old) (D.state disk.new) ledger.now speller.old speller.new (lists_layout.spell (map (map kept_of) lists.now))) }
    ensures cause { HasCause (D.faults disk.old) (D.faults disk.new) result }
{
    speller.add_count(disk, ledger, lists.len())?;
    for list in lists {
        add_list(disk, ledger, speller, list.as_slice())?;
    }
    Ok(())
}

fn add_output<D: Disk>(
    disk: &mut D,
    ledger: &Name,
    speller: &mut Speller,
    output: &Output,
) -> Result<(), DiskFailed>
    ensures goes { Goes (D.state disk.old) (D.state disk.new) ledger.now speller.old speller.new }
    ensures spells { OnOk result (Spells (D.state disk.old) (D.state disk.new) ledger.now speller.old speller.new ((output_layout []).spell (output_of output.now))) }
    ensures cause { HasCause (D.faults disk.old) (D.faults disk.new) result }
{
    add_name(disk, ledger, speller, &output.name)?;
    speller.add_number(disk, ledger, output.base)?;
    speller.add_number(disk, ledger, output.mark.length)?;
    speller.add_number(disk, ledger, output.mark.last)
}

fn add_outputs<D: Disk>(
    disk: &mut D,
    ledger: &Name,
    speller: &mut Speller,
    outputs: &[Output],
) -> Result<(), DiskFailed>
    ensures goes { Goes (D.state disk.old) (D.state disk.new) ledger.now speller.old speller.new }
    ensures spells { OnOk result (Spells (D.state disk.old) (D.state disk.new) ledger.now speller.old speller.new (outputs_layout.spell (map output_of outputs.now))) }
    ensures cause { HasCause (D.faults disk.old) (D.faults disk.new) result }
{
    speller.add_count(disk, ledger, outputs.len())?;
    for output in outputs {
        add_output(disk, ledger, speller, output)?;
    }
    Ok(())
}

fn add_input<D: Disk>(
    disk: &mut D,
    ledger: &Name,
    speller: &mut Speller,
    input: &InputText,
) -> Result<(), DiskFailed>
    ensures goes { Goes (D.state disk.old) (D.state disk.new) ledger.now speller.old speller.new }
    ensures spells { OnOk result (Spells (D.state disk.old) (D.state disk.new) ledger.now speller.old speller.new (text_bytes input.now)) }
    ensures cause { HasCause (D.faults disk.old) (D.faults disk.new) result }
{
    speller.add_text(disk, ledger, input.as_str().as_bytes())
}

fn moment_of(entry: &Entry) -> i64
    ensures { result ≡ entry.now.moment }
{
    entry.moment
}

/// The form, the moment and how logs are read.
fn add_head<D: Disk>(
    disk: &mut D,
    ledger: &Name,
    speller: &mut Speller,
    entry: &Entry,
) -> Result<(), DiskFailed>
    ensures goes { Goes (D.state disk.old) (D.state disk.new) ledger.now speller.old speller.new }
    ensures spells { OnOk result (Spells (D.state disk.old) (D.state disk.new) ledger.now speller.old speller.new (head_layout.spell (entry.now.form, (entry.now.moment, entry.now.input)))) }
    ensures cause { HasCause (D.faults disk.old) (D.faults disk.new) result }
{
    speller.add_byte(disk, ledger, entry.form)?;
    let moment = moment_of(entry);
    speller.add_signed(disk, ledger, moment)?;
    add_input(disk, ledger, speller, &entry.input)
}

/// The words, the query and the template.
fn add_texts<D: Disk>(
    disk: &mut D,
    ledger: &Name,
    speller: &mut Speller,
    entry: &Entry,
) -> Result<(), DiskFailed>
    ensures goes { Goes (D.state disk.old) (D.state disk.new) ledger.now speller.old speller.new }
    ensures spells { OnOk result (Spells (D.state disk.old) (D.state disk.new) ledger.now speller.old speller.new (texts_layout.spell (entry.now.words, (entry.now.query, entry.now.template)))) }
    ensures cause { HasCause (D.faults disk.old) (D.faults disk.new) result }
{
    add_words(disk, ledger, speller, entry.words.as_slice())?;
    add_word(disk, ledger, speller, &entry.query)?;
    add_bytes(disk, ledger, speller, &entry.template)
}

/// The spans and the lists.
fn add_kept<D: Disk>(
    disk: &mut D,
    ledger: &Name,
    speller: &mut Speller,
    entry: &Entry,
) -> Result<(), DiskFailed>
    ensures goes { Goes (D.state disk.old) (D.state disk.new) ledger.now speller.old speller.new }
    ensures spells { OnOk result (Spells (D.state disk.old) (D.state disk.new) ledger.now speller.old speller.new (kept_layout.spell (map span_of entry.now.spans, map (map kept_of) entry.now.lists))) }
    ensures cause { HasCause (D.faults disk.old) (D.faults disk.new) result }
{
    add_spans(disk, ledger, speller, entry.spans.as_slice())?;
    add_lists(disk, ledger, speller, entry.lists.as_slice())
}

fn add_counts<D: Disk>(
    disk: &mut D,
    ledger: &Name,
    speller: &mut Speller,
    entry: &Entry,
) -> Result<(), DiskFailed>
    ensures goes { Goes (D.state disk.old) (D.state disk.new) ledger.now speller.old speller.new }
    ensures spells { OnOk result (Spells (D.state disk.old) (D.state disk.new) ledger.now speller.old speller.new (counts_layout.spell (entry.now.processed, (entry.now.output, entry.now.bad)))) }
    ensures cause { HasCause (D.faults disk.old) (D.faults disk.new) result }
{
    speller.add_number(disk, ledger, entry.processed)?;
    speller.add_number(disk, ledger, entry.output)?;
    speller.add_number(disk, ledger, entry.bad)
}

/// The stage's length, the outputs and the counts.
fn add_ending<D: Disk>(
    disk: &mut D,
    ledger: &Name,
    speller: &mut Speller,
    entry: &Entry,
) -> Result<(), DiskFailed>
    ensures goes { Goes (D.state disk.old) (D.state disk.new) ledger.now speller.old speller.new }
    ensures spells { OnOk result (Spells (D.state disk.old) (D.state disk.new) ledger.now speller.old speller.new (ending_layout.spell (entry.now.staged, (map output_of entry.now.outputs, (entry.now.processed, (entry.now.output, entry.now.bad)))))) }
    ensures cause { HasCause (D.faults disk.old) (D.faults disk.new) result }
{
    speller.add_number(disk, ledger, entry.staged)?;
    add_outputs(disk, ledger, speller, entry.outputs.as_slice())?;
    add_counts(disk, ledger, speller, entry)
}

/// An entry's payload.
pub(crate) fn add_entry<D: Disk>(
    disk: &mut D,
    ledger: &Name,
    speller: &mut Speller,
    entry: &Entry,
) -> Result<(), DiskFailed>
    ensures goes { Goes (D.state disk.old) (D.state disk.new) ledger.now speller.old speller.new }
    ensures spells { OnOk result (Spells (D.state disk.old) (D.state disk.new) ledger.now speller.old speller.new (payload_of (entry_of entry.now))) }
    ensures cause { HasCause (D.faults disk.old) (D.faults disk.new) result }
{
    add_head(disk, ledger, speller, entry)?;
    add_texts(disk, ledger, speller, entry)?;
    add_kept(disk, ledger, speller, entry)?;
    add_ending(disk, ledger, speller, entry)
}
