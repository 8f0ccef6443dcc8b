// Why words are refused.
ghost use Rattle.std.specs.Prelude.{◌≡◌, MatchOption};
ghost use Rattle.command_words.specs.Usage.{setting_fault, word_fault, EachFits, IsFirstFault, usage_text};

use crate::Setting;
use crate::word::{any_gives, any_query, is_option, setting_of, value_in};
use lp_values::Text;

/// Why a word is refused.
#[derive(Clone, Copy, Debug, PartialEq, Eq)]
pub enum UsageKind {
    /// No word is a query.
    NoQuery,
    /// Two words are.
    SecondQuery,
    /// No option has this name, or the word has no colon.
    UnknownOption,
    /// A word before this one gives the same option.
    Repeated,
    /// The option takes no such value.
    BadValue,
    /// `-iRotation` stands without `-iCheckpoint`.
    NeedsCheckpoint,
    /// `-o:TPL` stands without `-tpl`.
    NeedsTemplate,
}

/// The word that is refused, counted from 0, and why. Without a query it is the number of words.
#[derive(Clone, Copy, Debug, PartialEq, Eq)]
pub struct UsageFault {
    pub word: u32,
    pub kind: UsageKind,
}

impl UsageKind {
    /// The words that tell of it.
    pub fn as_str(self) -> &'static str
        ensures { result.now ≡ usage_text self }
    {
        match self {
            UsageKind::NoQuery => "no query",
            UsageKind::SecondQuery => "second query",
            UsageKind::UnknownOption => "unknown option",
            UsageKind::Repeated => "repeated option",
            UsageKind::BadValue => "bad value",
            UsageKind::NeedsCheckpoint => "needs -iCheckpoint",
            UsageKind::NeedsTemplate => "needs -tpl",
        }
    }
}

fn setting_fault(before: &[Text], word: &str, setting: Option<Setting>) -> Option<UsageKind>
    ensures { result ≡ setting_fault before.now word.now setting }
{
    match setting {
        None => Some(UsageKind::UnknownOption),
        Some(setting) if any_gives(before, setting) => Some(UsageKind::Repeated),
        Some(setting) if setting.accepts(value_in(word)) => None,
        Some(_) => Some(UsageKind::BadValue),
    }
}

// The fault of a word behind others.
fn word_fault(before: &[Text], word: &str) -> Option<UsageKind>
    ensures { result ≡ word_fault before.now word.now }
{
    if is_option(word) {
        setting_fault(before, word, setting_of(word))
    } else if any_query(before) {
        Some(UsageKind::SecondQuery)
    } else {
        None
    }
}

/// The first fault of a word.
pub fn first_fault(words: &[Text]) -> Option<UsageFault>
    ensures { MatchOption result (EachFits words.now) (IsFirstFault words.now) }
{
    for (index, word) in words.iter().enumerate() {
        if let Some(kind) = word_fault(&words[..index], word.as_str()) {
            return Some(UsageFault {
                word: index as u32,
                kind,
            });
        }
    }
    None
}
