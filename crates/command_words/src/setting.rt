// The options.
ghost use Rattle.std.specs.Prelude.{◌≡◌};
ghost use Rattle.command_words.specs.Settings.{setting_name, accepts};

use crate::values::{
    errors_in, headers_in, ledger_in, lines_in, mode_in, name_in, pattern_of, rotation_in, rows_in,
    separator_in, switch_in,
};
use crate::{InputFormat, OutputFormat};

/// An option of the command line.
#[derive(Clone, Copy, Debug, PartialEq, Eq)]
pub enum Setting {
    Input,
    Output,
    Errors,
    Stats,
    Checkpoint,
    Rotation,
    HeaderRow,
    SampleLines,
    TimeFormat,
    Separator,
    RowsToPage,
    Headers,
    OutSeparator,
    FileMode,
    Template,
}

pub const SETTINGS: [Setting; 15] = [
    Setting::Input,
    Setting::Output,
    Setting::Errors,
    Setting::Stats,
    Setting::Checkpoint,
    Setting::Rotation,
    Setting::HeaderRow,
    Setting::SampleLines,
    Setting::TimeFormat,
    Setting::Separator,
    Setting::RowsToPage,
    Setting::Headers,
    Setting::OutSeparator,
    Setting::FileMode,
    Setting::Template,
];

impl Setting {
    /// The option's name, with the `-` before it.
    pub fn name(self) -> &'static str
        ensures { result.now ≡ setting_name self }
    {
        match self {
            Setting::Input => "-i",
            Setting::Output => "-o",
            Setting::Errors => "-e",
            Setting::Stats => "-stats",
            Setting::Checkpoint => "-iCheckpoint",
            Setting::Rotation => "-iRotation",
            Setting::HeaderRow => "-headerRow",
            Setting::SampleLines => "-dtLines",
            Setting::TimeFormat => "-iTsFormat",
            Setting::Separator => "-iSeparator",
            Setting::RowsToPage => "-rtp",
            Setting::Headers => "-headers",
            Setting::OutSeparator => "-oSeparator",
            Setting::FileMode => "-fileMode",
            Setting::Template => "-tpl",
        }
    }

    /// Whether a text is a value of the option.
    pub fn accepts(self, text: &str) -> bool
        ensures { result ≡ accepts self text.now }
    {
        match self {
            Setting::Input => InputFormat::read(text).is_some(),
            Setting::Output => OutputFormat::read(text).is_some(),
            Setting::Errors => errors_in(text).is_some(),
            Setting::Stats | Setting::HeaderRow => switch_in(text).is_some(),
            Setting::Checkpoint => ledger_in(text).is_some(),
            Setting::Rotation => rotation_in(text).is_some(),
            Setting::SampleLines => lines_in(text).is_some(),
            Setting::TimeFormat => pattern_of(text).is_some(),
            Setting::Separator | Setting::OutSeparator => separator_in(text).is_some(),
            Setting::RowsToPage => rows_in(text).is_some(),
            Setting::Headers => headers_in(text).is_some(),
            Setting::FileMode => mode_in(text).is_some(),
            Setting::Template => name_in(text).is_some(),
        }
    }
}
