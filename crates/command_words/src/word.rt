// Words: an option is `-name:value`, and any other word is the query.
ghost use Rattle.std.specs.Prelude.{◌≡◌, true, false, find, MatchOption, IfOk};
ghost use Rattle.std.specs.List.{list_any, before_first};
ghost use Rattle.std.specs.Option.{option_copied};
ghost use Rattle.command_words.specs.Words.{is_option, is_query, is_colon, gives, setting_of, value_in, given, options_in, query_in};

use crate::Setting;
use crate::setting::SETTINGS;
use crate::text::same_text;
use lp_values::{Text, TextList};
use std::alloc::{AllocError, Global};

pub fn is_option(word: &str) -> bool
    ensures { result ≡ is_option word.now }
{
    matches!(word.as_bytes(), [b'-', ..])
}

fn parts(word: &str) -> Option<(&str, &str)>
    ensures { MatchOption result (list_any is_colon word.now ≡ false) (λ parts. (list_any is_colon word.now ≡ true) × (parts.0.now ≡ before_first is_colon word.now) × (parts.1.now ≡ value_in word.now)) }
{
    word.split_once(':')
}

pub fn gives(setting: Setting, word: &str) -> bool
    ensures { result ≡ gives setting word.now }
{
    match parts(word) {
        Some((name, _)) => same_text(name.as_bytes(), setting.name().as_bytes()),
        None => false,
    }
}

pub fn value_in(word: &str) -> &str
    ensures { result.now ≡ value_in word.now }
{
    match parts(word) {
        Some((_, value)) => value,
        None => "",
    }
}

pub fn setting_of(word: &str) -> Option<Setting>
    ensures { result ≡ setting_of word.now }
{
    SETTINGS
        .iter()
        .copied()
        .find(|setting| gives(*setting, word))
}

pub fn any_gives(words: &[Text], setting: Setting) -> bool
    ensures { result ≡ list_any (gives setting) words.now }
{
    words.iter().any(|word| gives(setting, word.as_str()))
}

pub fn any_query(words: &[Text]) -> bool
    ensures { result ≡ list_any is_query words.now }
{
    words.iter().any(|word| !is_option(word.as_str()))
}

fn find_giving(words: &[Text], setting: Setting) -> Option<&Text>
    ensures { option_copied result ≡ find (gives setting) words.now }
{
    words.iter().find(|word| gives(setting, word.as_str()))
}

/// The value of the first word that gives an option.
pub fn given(words: &[Text], setting: Setting) -> Option<&str>
    ensures { option_copied result ≡ given setting words.now }
{
    match find_giving(words, setting) {
        Some(word) => Some(value_in(word.as_str())),
        None => None,
    }
}

/// The words that are options, as they stand.
pub fn options_in(alloc: Global, words: &[Text]) -> Result<TextList, AllocError>
    ensures { IfOk result (λ options. options ≡ options_in words.now) }
{
    let mut options = TextList::new(alloc);
    for word in words {
        if is_option(word.as_str()) {
            options.push(word.copy(alloc)?)?;
        }
    }
    Ok(options)
}

fn find_query(words: &[Text]) -> Option<&Text>
    ensures { option_copied result ≡ find is_query words.now }
{
    words.iter().find(|word| !is_option(word.as_str()))
}

/// The query word; an empty text where there is none.
pub fn query_in(alloc: Global, words: &[Text]) -> Result<Text, AllocError>
    ensures { IfOk result (λ query. query ≡ query_in words.now) }
{
    match find_query(words) {
        Some(word) => word.copy(alloc),
        None => Text::from_str(alloc, ""),
    }
}
