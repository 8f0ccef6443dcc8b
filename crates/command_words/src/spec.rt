// What the words ask for.
ghost use Rattle.std.specs.Prelude.{◌≡◌, IfOk, OnOk, MatchOption};
ghost use Rattle.command_words.specs.Usage.{AreFine, IsUsageFault};

use crate::lacks::lack_of;
use crate::table::{
    checkpoint_of, errors_of, file_mode_of, header_row_of, headers_of, input_of, out_separator_of,
    output_of, rotation_of, rows_to_page_of, sample_lines_of, separator_of, stats_of, template_of,
    time_format_of,
};
use crate::usage::first_fault;
use crate::word::{options_in, query_in};
use crate::{FileMode, InputFormat, OutputFormat, Rotation, UsageFault};
use lp_outside::Name;
use lp_time::Pattern;
use lp_values::{Text, TextList};
use output_formats::Headers;
use std::alloc::{AllocError, Global};

/// Why there is no answer.
#[derive(Clone, Copy, Debug, PartialEq, Eq)]
pub enum SpecFault {
    /// The words are refused.
    Usage(UsageFault),
    /// Memory was refused.
    Memory,
}

/// What the words ask for. A field is none where its default depends on the query, and a limit where there is none.
#[derive(Drop)]
pub struct Spec {
    pub input: Option<InputFormat>,
    pub output: Option<OutputFormat>,
    /// How many bad lines are passed over.
    pub errors: Option<u32>,
    pub stats: bool,
    /// The ledger.
    pub checkpoint: Option<Name>,
    pub rotation: Rotation,
    pub header_row: bool,
    /// From how many records the columns' kinds are judged.
    pub dt_lines: Option<u32>,
    pub ts_format: Pattern,
    pub separator: u8,
    /// After how many rows the names come again.
    pub rtp: Option<u32>,
    pub headers: Headers,
    pub out_separator: u8,
    pub file_mode: FileMode,
    pub tpl: Option<Name>,
    /// The option words, as they were given.
    pub words: TextList,
    /// The query word.
    pub query: Text,
}

impl From<AllocError> for SpecFault {
    ghost use Rattle.command_words.specs.declared.spec.SpecFault.TheVariants.{Memory};

    ghost from_gives = { λ _ e. e ≡ Memory };

    fn from(_: AllocError) -> Self {
        SpecFault::Memory
    }
}

// What the words are refused by.
fn refusal_of(words: &[Text]) -> Option<UsageFault>
    ensures { MatchOption result (AreFine words.now) (IsUsageFault words.now) }
{
    match first_fault(words) {
        Some(fault) => Some(fault),
        None => lack_of(words),
    }
}

impl Spec {
    ghost use Rattle.command_words.specs.Table.{IsAsked, IsInRange};
    ghost use Rattle.command_words.specs.Usage.{IfUsage};

    /// Reads the words of the command line, without the program's name.
    pub fn read(alloc: Global, words: &TextList) -> Result<Spec, SpecFault>
        ensures ok { IfOk result (IsAsked words.now) }
        ensures in_range { IfOk result IsInRange }
        ensures fine { OnOk result (AreFine words.now) }
        ensures usage { IfUsage result (IsUsageFault words.now) }
    {
        let words = words.as_slice();
        match refusal_of(words) {
            Some(fault) => Err(SpecFault::Usage(fault)),
            None => Ok(Spec::asked(alloc, words)?),
        }
    }

    // What words ask for.
    fn asked(alloc: Global, words: &[Text]) -> Result<Spec, AllocError>
        ensures ok { IfOk result (IsAsked words.now) }
        ensures in_range { IfOk result IsInRange }
    {
        let options = options_in(alloc, words)?;
        let query = query_in(alloc, words)?;
        Ok(Spec {
            input: input_of(words),
            output: output_of(words),
            errors: errors_of(words),
            stats: stats_of(words),
            checkpoint: checkpoint_of(words),
            rotation: rotation_of(words),
            header_row: header_row_of(words),
            dt_lines: sample_lines_of(words),
            ts_format: time_format_of(words),
            separator: separator_of(words),
            rtp: rows_to_page_of(words),
            headers: headers_of(words),
            out_separator: out_separator_of(words),
            file_mode: file_mode_of(words),
            tpl: template_of(words),
            words: options,
            query,
        })
    }
}
