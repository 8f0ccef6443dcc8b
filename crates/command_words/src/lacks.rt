// What words lack as a whole.
ghost use Rattle.std.specs.Prelude.{◌≡◌, ◌≤◌, position, length, option_map};
ghost use Rattle.command_words.specs.declared.usage.UsageKind.{UsageKind as Kind};
ghost use Rattle.command_words.specs.Words.{gives};
ghost use Rattle.command_words.specs.Usage.{is_template, asks_template, fault_of, lacking, lack_of, EachFits};
ghost use Rattle.command_words.specs.declared.setting.Setting.TheVariants as S;
ghost use Rattle.command_words.specs.declared.usage.UsageKind.TheVariants as U;

use crate::word::{any_gives, any_query, gives, value_in};
use crate::{OutputFormat, Setting, UsageFault, UsageKind};
use lp_values::Text;

fn is_template(format: Option<OutputFormat>) -> bool
    ensures { result ≡ is_template format }
{
    matches!(format, Some(OutputFormat::Tpl))
}

fn asks_template(word: &str) -> bool
    ensures { result ≡ asks_template word.now }
{
    gives(Setting::Output, word) && is_template(OutputFormat::read(value_in(word)))
}

fn rotation_place(words: &[Text]) -> Option<usize>
    ensures { result ≡ position (gives S.Rotation) words.now }
{
    words
        .iter()
        .position(|word| gives(Setting::Rotation, word.as_str()))
}

fn template_place(words: &[Text]) -> Option<usize>
    ensures { result ≡ position asks_template words.now }
{
    words.iter().position(|word| asks_template(word.as_str()))
}

// The fault at a place of the first few words.
fn fault_at(kind: UsageKind, place: usize) -> UsageFault
    requires { place ≤ 16 }
    ensures { result ≡ fault_of kind place }
{
    UsageFault {
        word: place as u32,
        kind,
    }
}

fn lacks_checkpoint(words: &[Text]) -> Option<UsageFault>
    requires { length words.now ≤ 16 }
    ensures { result ≡ lacking (gives S.Rotation) S.Checkpoint U.NeedsCheckpoint words.now }
{
    if any_gives(words, Setting::Checkpoint) {
        return None;
    }
    match rotation_place(words) {
        Some(place) => Some(fault_at(UsageKind::NeedsCheckpoint, place)),
        None => None,
    }
}

fn lacks_template(words: &[Text]) -> Option<UsageFault>
    requires { length words.now ≤ 16 }
    ensures { result ≡ lacking asks_template S.Template U.NeedsTemplate words.now }
{
    if any_gives(words, Setting::Template) {
        return None;
    }
    match template_place(words) {
        Some(place) => Some(fault_at(UsageKind::NeedsTemplate, place)),
        None => None,
    }
}

/// What words lack as a whole, of which each fits.
pub fn lack_of(words: &[Text]) -> Option<UsageFault>
    requires { EachFits words.now }
    ensures { result ≡ lack_of words.now }
{
    prove!(words.len() <= 16);
    if !any_query(words) {
        return Some(fault_at(UsageKind::NoQuery, words.len()));
    }
    match lacks_checkpoint(words) {
        Some(fault) => Some(fault),
        None => lacks_template(words),
    }
}
