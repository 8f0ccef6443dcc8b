// How logs are read, as a text.
ghost use Rattle.std.specs.Prelude.{◌≡◌, ℕ, ◌↔◌, ◌++◌, IsTrue, Bool, List, MatchBool, MatchOption};
ghost use Rattle.ledger_model.specs.Inputs.{Format, IsInput, IsSeparator, IsSeparatorByte, format_word, switch_word, separator_word, rotation_word};
ghost use Rattle.ledger.specs.Cutting.{CutsWord, CutsFormat, CutsSwitch, CutsSeparator};

use lp_values::Text;
use std::marker::Model;

/// How logs are read: their format, whether a header row stands in front, what parts fields, and how logs are told apart.
#[derive(Drop)]
pub struct InputText {
    text: Text,
}

impl Model for InputText {
    ghost Value = { List ℕ };

    ghost view = { λ t. t.text };
}

/// What stands behind a word in front of a text.
fn after<'a>(text: &'a [u8], word: &[u8]) -> Option<&'a [u8]>
    ensures { CutsWord text.now word.now result }
{
    text.strip_prefix(word)
}

fn after_format(text: &[u8]) -> Option<&[u8]>
    ensures { CutsFormat text.now result }
{
    if let Some(rest) = after(text, b"IISW3C") {
        return Some(rest);
    }
    if let Some(rest) = after(text, b"NCSA") {
        return Some(rest);
    }
    if let Some(rest) = after(text, b"CSV") {
        return Some(rest);
    }
    if let Some(rest) = after(text, b"TSV") {
        return Some(rest);
    }
    if let Some(rest) = after(text, b"TEXTLINE") {
        return Some(rest);
    }
    after(text, b"TEXTWORD")
}

fn after_switch(text: &[u8]) -> Option<&[u8]>
    ensures { CutsSwitch text.now result }
{
    if let Some(rest) = after(text, b"ON") {
        return Some(rest);
    }
    after(text, b"OFF")
}

fn is_rotation(text: &[u8]) -> bool
    ensures { MatchBool result ((numbers : Bool) × (text.now ≡ rotation_word numbers)) ((numbers : Bool) → text.now ≡ rotation_word numbers → ⊥) }
{
    if text == b"-iRotation:NAMES".as_slice() {
        return true;
    }
    if text == b"-iRotation:NUMBERS".as_slice() {
        return true;
    }
    false
}

fn is_character(byte: u8) -> bool
    ensures { MatchBool result (IsSeparatorByte byte) (IsSeparatorByte byte → ⊥) }
{
    33 <= byte && byte <= 126 && byte != b'"'
}

fn after_separator(text: &[u8]) -> Option<&[u8]>
    ensures { CutsSeparator text.now result }
{
    if let Some(rest) = after(text, b"tab ") {
        return Some(rest);
    }
    if let Some(rest) = after(text, b"space ") {
        return Some(rest);
    }
    match text {
        [byte, b' ', rest @ ..] if is_character(*byte) => Some(rest),
        _ => None,
    }
}

/// Whether a text says how logs are read.
pub(crate) fn is_input(text: &[u8]) -> bool
    ensures { MatchBool result (IsInput text.now) (IsInput text.now → ⊥) }
{
    let Some(format) = after(text, b"-i:") else {
        return false;
    };
    let Some(header) = after_format(format) else {
        return false;
    };
    let Some(switch) = after(header, b" -headerRow:") else {
        return false;
    };
    let Some(separator) = after_switch(switch) else {
        return false;
    };
    let Some(character) = after(separator, b" -iSeparator:") else {
        return false;
    };
    let Some(rotation) = after_separator(character) else {
        return false;
    };
    if is_rotation(rotation) {
        return true;
    }
    false
}

impl InputText {
    /// The text as it says how logs are read, or `None` exactly where it has another form; it is dropped then.
    pub fn read(text: Text) -> Option<InputText>
        ensures { MatchOption result (IsInput text → ⊥) (λ input. (input ≡ text) × IsInput text) }
    {
        if is_input(text.as_str().as_bytes()) {
            return Some(InputText { text });
        }
        None
    }

    pub fn as_str(&self) -> &str
        ensures { result.now ≡ self.now }
    {
        self.text.as_str()
    }
}
