// The entry of a run, where its parts fit the form of one.
ghost use Rattle.std.specs.Prelude.{◌≡◌, ◌<◌, ◌↔◌, ◌+◌, ◌^◌, length, All, FitsSigned, IfOk, IsTrue, OnOk};
ghost use Rattle.std.specs.Int.{w64};
ghost use Rattle.command_words.specs.Table.{IsInRange};
ghost use Rattle.run_entry.specs.Executed.{IsMoment};
ghost use Rattle.ledger.specs.Written.{entry_of, part_code};
ghost use Rattle.ledger_model.specs.Grammar.{IsEntry, IsStamp};
ghost use Rattle.log_reading.specs.declared.span.Took.{Took as TookValue};
ghost use Rattle.query_tree.specs.Views.{query_of};
ghost use Rattle.run_entry.specs.Entries.{entry_for};
ghost use Rattle.run_entry.specs.Forms.{AreCounts, AreKeptLists, HasForm, IsFileName, IsKeptList, IsKeptValue, IsOutput};
ghost use Rattle.checkpointed_run.specs.Staged.{AreParts, IsWord, request_of};

use command_words::Spec;
use ledger::Entry;
use log_reading::Took;
use lp_outside::{Mark, Name};
use lp_values::{Bytes, RowList, Stamp, Text, Value, ValueList};
use query_run::Counts;
use query_tree::Query;
use run_entry::{Ran, entries_have_their_form, entry_of_run};
use std::alloc::{AllocError, Global};
use text_output::Output;

/// Each text of an entry has fewer bytes, and there are fewer words, and lists.
const WORDS: u64 = 1 << 32;

/// A template has at most so many bytes.
const TEMPLATE: u64 = 1_048_576;

/// An output ends in front of this place of its file.
const END: u64 = 1 << 63;

fn is_word(word: &Text) -> bool
    ensures { IsTrue result ↔ IsWord word.now }
{
    (word.as_str().len() as u64) < WORDS
}

fn are_words(words: &[Text]) -> bool
    ensures { IsTrue result ↔ ((length words.now < 2 ^ 32) × All IsWord words.now) }
{
    for word in words {
        if !is_word(word) {
            return false;
        }
    }
    (words.len() as u64) < WORDS
}

// A number has 64 bits.
fn know_number(number: i64)
    ensures { FitsSigned w64 number }
{
    let _number = number;
}

// A stamp is one that an entry may keep.
fn know_stamp(stamp: &Stamp)
    ensures { IsStamp (part_code stamp.now.part) stamp.now.seconds }
{
    let _seconds = stamp.seconds;
}

// Whether an entry may keep a value.
fn is_value(value: &Value) -> bool
    ensures { IsTrue result ↔ IsKeptValue value.now }
{
    match value {
        Value::Null => true,
        Value::Int(number) => {
            know_number(*number);
            true
        }
        Value::Real(real) => {
            know_number(real.millionths);
            true
        }
        Value::Text(text) => is_word(text),
        Value::Stamp(stamp) => {
            know_stamp(stamp);
            true
        }
    }
}

// How many there are has 64 bits.
fn know_size(values: &[Value])
    ensures { length values.now < 2 ^ 64 }
{
    let _size = values.len();
}

fn are_values(values: &[Value]) -> bool
    ensures { IsTrue result ↔ All IsKeptValue values.now }
{
    for value in values {
        if !is_value(value) {
            return false;
        }
    }
    true
}

fn is_list(list: &ValueList) -> bool
    ensures { IsTrue result ↔ IsKeptList list.now }
{
    know_size(list.as_slice());
    are_values(list.as_slice())
}

fn are_lists(lists: &[ValueList]) -> bool
    ensures { IsTrue result ↔ AreKeptLists lists.now }
{
    for list in lists {
        if !is_list(list) {
            return false;
        }
    }
    (lists.len() as u64) < WORDS
}

// A name is a file's.
fn know_file(name: &Name)
    ensures { IsFileName name.now }
{
    let _text = name.as_str();
}

// The logs that were read have names of files.
fn know_files(took: &[Took])
    ensures { All (λ (log : TookValue). IsFileName log.identity) took.now }
{
    for log in took {
        know_file(&log.identity);
    }
}

fn ends_within(base: u64, mark: Mark) -> bool
    ensures last { mark.last < 2 ^ 64 }
    ensures within { IsTrue result ↔ (base + mark.length < 2 ^ 63) }
{
    match base.checked_add(mark.length) {
        Some(end) => end < END,
        None => false,
    }
}

fn is_output(output: &Output) -> bool
    ensures { IsTrue result ↔ IsOutput output.now }
{
    know_file(&output.name);
    ends_within(output.base, output.mark)
}

fn are_outputs(outputs: &[Output]) -> bool
    ensures { IsTrue result ↔ All IsOutput outputs.now }
{
    for output in outputs {
        if !is_output(output) {
            return false;
        }
    }
    true
}

// Counts have 64 bits each.
fn know_counts(counts: &Counts)
    ensures { AreCounts counts.now }
{
    let _processed = counts.processed;
    let _output = counts.output;
    let _bad = counts.bad;
}

// Whether an entry may keep these words, this template, these lists, and what a run took and wrote.
fn are_parts(spec: &Spec, template: &Bytes, lists: &RowList, ran: &Ran) -> bool
    ensures { IsTrue result ↔ AreParts spec.now.words template.now lists.now ran.now.took ran.now.outputs ran.now.counts }
{
    know_counts(&ran.counts);
    know_files(ran.took.as_slice());
    if !are_words(spec.words.as_slice()) {
        return false;
    }
    if template.len() as u64 > TEMPLATE {
        return false;
    }
    if !are_lists(lists.as_slice()) {
        return false;
    }
    are_outputs(ran.outputs.as_slice())
}

/// The entry of a run whose subqueries gave these lists. One that doesn't fit an entry's form, with a text of 4 GiB or an output of
/// 2^63 bytes, wants more memory than there is.
pub(crate) fn make_entry(
    alloc: Global,
    spec: &Spec,
    query: &Query,
    lists: RowList,
    text: Text,
    template: Bytes,
    moment: i64,
    ran: &Ran,
    staged: u64,
) -> Result<Entry, AllocError>
    requires range { IsInRange spec.now }
    requires moment { IsMoment moment }
    ensures entry { IfOk result (λ entry. entry_of entry ≡ entry_for (request_of spec.now (query_of query.now) text template moment) lists ran.now.took ran.now.outputs staged ran.now.counts) }
    ensures parts { OnOk result (AreParts spec.now.words template lists ran.now.took ran.now.outputs ran.now.counts) }
    ensures formed { IfOk result (λ entry. HasForm (request_of spec.now (query_of query.now) text template moment) lists ran.now.took ran.now.outputs staged ran.now.counts → IsEntry (entry_of entry)) }
{
    if !are_parts(spec, &template, &lists, ran) {
        return Err(AllocError);
    }
    entries_have_their_form();
    entry_of_run(
        alloc,
        spec,
        query,
        text,
        template,
        moment,
        lists,
        ran.took.as_slice(),
        ran.outputs.as_slice(),
        staged,
        &ran.counts,
    )
}
