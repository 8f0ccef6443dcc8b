// The text that says how a run reads its logs.
ghost use Rattle.std.specs.Prelude.{◌≡◌, IfOk, string_bytes};
ghost use Rattle.command_words.specs.Separators.{IsSeparator};
ghost use Rattle.command_words.specs.Table.{IsInRange};
ghost use Rattle.ledger_model.specs.Inputs.{format_word, input_text, rotation_word, separator_word, switch_word};
ghost use Rattle.program_meaning.specs.Inputs.{format_as, input_for, is_numbers, separator_as};
ghost use Rattle.query_tree.specs.Views.{query_of};

use command_words::{InputFormat, Rotation, Spec};
use ledger::InputText;
use lp_values::Text;
use program_meaning::input_of;
use query_tree::Query;
use std::alloc::{AllocError, Global};

fn format_word(format: InputFormat) -> &'static str
    ensures { result.now ≡ format_word (format_as format) }
{
    format.as_str()
}

fn switch_word(on: bool) -> &'static str
    ensures { result.now ≡ switch_word on }
{
    if on { "ON" } else { "OFF" }
}

// The word of a separator, and the blank behind it.
fn separator_word(alloc: Global, separator: u8) -> Result<String, AllocError>
    requires { IsSeparator separator }
    ensures { IfOk result (λ word. string_bytes word ≡ separator_word (separator_as separator)) }
{
    match separator {
        b'\t' => String::from_str(alloc, "tab "),
        b' ' => String::from_str(alloc, "space "),
        _ => {
            let character = char::from(separator);
            format!(in alloc; "{character} ")
        }
    }
}

fn rotation_word(rotation: Rotation) -> &'static str
    ensures { result.now ≡ rotation_word (is_numbers rotation) }
{
    match rotation {
        Rotation::Names => "-iRotation:NAMES",
        Rotation::Numbers => "-iRotation:NUMBERS",
    }
}

// What is asked, as a text.
fn text_for(alloc: Global, spec: &Spec, query: &Query) -> Result<String, AllocError>
    requires range { IsInRange spec.now }
    ensures { IfOk result (λ text. string_bytes text ≡ input_text (input_for spec.now (query_of query.now))) }
{
    let format = format_word(input_of(spec, query));
    let header_row = switch_word(spec.header_row);
    let separator = separator_word(alloc, spec.separator)?;
    let rotation = rotation_word(spec.rotation);
    format!(in alloc; "-i:{format} -headerRow:{header_row} -iSeparator:{separator}{rotation}")
}

/// The text that says how a query's logs are read, with all defaults filled in.
pub fn input_text(alloc: Global, spec: &Spec, query: &Query) -> Result<InputText, AllocError>
    requires range { IsInRange spec.now }
    ensures { IfOk result (λ input. input ≡ input_text (input_for spec.now (query_of query.now))) }
{
    let text = text_for(alloc, spec, query)?;
    match InputText::read(Text::from_string(text)) {
        Some(input) => Ok(input),
        None => unreachable!(),
    }
}
