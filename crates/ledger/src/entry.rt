// What one run keeps.
ghost use Rattle.std.specs.Prelude.{◌≡◌, ◌+◌, ◌-◌, ◌^◌, min, length, sum_by};
ghost use Rattle.ledger_model.specs.Grammar.{payload_of};

use crate::InputText;
use crate::sizes::{lists_size, outputs_size, spans_size, text_size, words_size};
use lp_outside::{Mark, Name};
use lp_values::{Bytes, ListOf, Text, TextList, ValueList};

/// What was read of one log.
#[derive(Drop)]
pub struct EntrySpan {
    pub identity: Name,
    /// The place where reading began, in bytes.
    pub from: u64,
    /// The place behind the last line read.
    pub to: u64,
    /// How the log stands there, as bytes.
    pub standing: Bytes,
}

/// What was written of one output.
#[derive(Drop)]
pub struct Output {
    pub name: Name,
    /// The place in the file where the text begins, in bytes.
    pub base: u64,
    pub mark: Mark,
}

pub type EntrySpanList = ListOf<EntrySpan>;

pub type OutputList = ListOf<Output>;

/// The values of each subquery.
pub type ListValues = ListOf<ValueList>;

#[derive(Drop)]
pub struct Entry {
    pub form: u8,
    /// Unix seconds.
    pub moment: i64,
    pub input: InputText,
    /// The option words as given.
    pub words: TextList,
    pub query: Text,
    /// Empty for outputs that use none.
    pub template: Bytes,
    pub spans: EntrySpanList,
    pub lists: ListValues,
    /// The stage's length in bytes.
    pub staged: u64,
    pub outputs: OutputList,
    /// Records read.
    pub processed: u64,
    /// Rows put out.
    pub output: u64,
    /// Lines that couldn't be read.
    pub bad: u64,
}

impl Entry {
    ghost use Rattle.ledger.specs.Written.{entry_of};
    ghost use Rattle.ledger.specs.Sizes.{text_length, span_length, list_length, output_length};

    /// The form, the moment and the texts.
    fn texts_size(&self) -> u64
        ensures { result ≡ min (13 + text_length self.now.input + sum_by text_length self.now.words + text_length self.now.query + text_length self.now.template) (2 ^ 64 - 1) }
    {
        let words = words_size(self.words.as_slice()).saturating_add(13);
        let input = text_size(self.input.as_str().len());
        let query = text_size(self.query.as_str().len());
        let template = text_size(self.template.len());
        let texts = input.saturating_add(query).saturating_add(template);
        words.saturating_add(texts)
    }

    /// The spans, the lists, the outputs and all numbers.
    fn items_size(&self) -> u64
        ensures { result ≡ min (44 + sum_by span_length self.now.spans + sum_by list_length self.now.lists + sum_by output_length self.now.outputs) (2 ^ 64 - 1) }
    {
        let spans = spans_size(self.spans.as_slice());
        let lists = lists_size(self.lists.as_slice());
        let outputs = outputs_size(self.outputs.as_slice());
        let items = spans.saturating_add(lists).saturating_add(outputs);
        items.saturating_add(44)
    }

    /// The length of the payload in bytes, or the greatest number where it is greater.
    pub fn size(&self) -> u64
        ensures { result ≡ min (length (payload_of (entry_of self.now))) (2 ^ 64 - 1) }
    {
        self.texts_size().saturating_add(self.items_size())
    }
}
