// What words ask for: of each option the value of the word that gives it, or else its default.
ghost use Rattle.std.specs.Prelude.{◌≡◌, ◌≤◌, Some, Ok, codes, IfSome};
ghost use Rattle.lp_time.specs.Patterns.{pattern_in};
ghost use Rattle.command_words.specs.Table.{input_of, output_of, errors_of, stats_of, checkpoint_of, rotation_of, header_row_of, sample_lines_of, time_format_of, separator_of, rows_to_page_of, headers_of, out_separator_of, file_mode_of, template_of};
ghost use Rattle.command_words.specs.Separators.{IsSeparator};

use crate::values::{
    errors_in, headers_in, ledger_in, lines_in, mode_in, name_in, pattern_of, rotation_in, rows_in,
    separator_in, switch_in,
};
use crate::word::given;
use crate::{FileMode, InputFormat, OutputFormat, Rotation, Setting};
use lp_outside::Name;
use lp_time::Pattern;
use lp_values::Text;
use output_formats::Headers;

pub fn input_of(words: &[Text]) -> Option<InputFormat>
    ensures { result ≡ input_of words.now }
{
    match given(words, Setting::Input) {
        Some(text) => InputFormat::read(text),
        None => None,
    }
}

pub fn output_of(words: &[Text]) -> Option<OutputFormat>
    ensures { result ≡ output_of words.now }
{
    match given(words, Setting::Output) {
        Some(text) => OutputFormat::read(text),
        None => None,
    }
}

pub fn errors_of(words: &[Text]) -> Option<u32>
    ensures value { result ≡ errors_of words.now }
    ensures in_range { IfSome result (λ count. count ≤ 2147483647) }
{
    match given(words, Setting::Errors) {
        Some(text) => errors_in(text).unwrap_or(None),
        None => None,
    }
}

pub fn stats_of(words: &[Text]) -> bool
    ensures { result ≡ stats_of words.now }
{
    match given(words, Setting::Stats) {
        Some(text) => switch_in(text).unwrap_or(true),
        None => true,
    }
}

pub fn checkpoint_of(words: &[Text]) -> Option<Name>
    ensures { result ≡ checkpoint_of words.now }
{
    match given(words, Setting::Checkpoint) {
        Some(text) => ledger_in(text),
        None => None,
    }
}

pub fn rotation_of(words: &[Text]) -> Rotation
    ensures { result ≡ rotation_of words.now }
{
    match given(words, Setting::Rotation) {
        Some(text) => rotation_in(text).unwrap_or(Rotation::Names),
        None => Rotation::Names,
    }
}

pub fn header_row_of(words: &[Text]) -> bool
    ensures { result ≡ header_row_of words.now }
{
    match given(words, Setting::HeaderRow) {
        Some(text) => switch_in(text).unwrap_or(true),
        None => true,
    }
}

pub fn sample_lines_of(words: &[Text]) -> Option<u32>
    ensures value { result ≡ sample_lines_of words.now }
    ensures in_range { IfSome result (λ count. count ≤ 1000) }
{
    match given(words, Setting::SampleLines) {
        Some(text) => lines_in(text),
        None => None,
    }
}

const USUAL_TIMES: &str = "yyyy-MM-dd hh:mm:ss";

// The pattern of times where none is given.
fn usual_times() -> Pattern
    ensures { pattern_in (codes "yyyy-MM-dd hh:mm:ss") ≡ Ok result }
{
    match Pattern::read(USUAL_TIMES) {
        Ok(pattern) => pattern,
        Err(_) => unreachable!(),
    }
}

pub fn time_format_of(words: &[Text]) -> Pattern
    ensures { Some result ≡ time_format_of words.now }
{
    match given(words, Setting::TimeFormat) {
        Some(text) => match pattern_of(text) {
            Some(pattern) => pattern,
            None => usual_times(),
        },
        None => usual_times(),
    }
}

pub fn separator_of(words: &[Text]) -> u8
    ensures value { result ≡ separator_of words.now }
    ensures in_range { IsSeparator result }
{
    match given(words, Setting::Separator) {
        Some(text) => separator_in(text).unwrap_or(b'\t'),
        None => b'\t',
    }
}

pub fn rows_to_page_of(words: &[Text]) -> Option<u32>
    ensures value { result ≡ rows_to_page_of words.now }
    ensures in_range { IfSome result (λ count. (1 ≤ count) × (count ≤ 10000)) }
{
    match given(words, Setting::RowsToPage) {
        Some(text) => rows_in(text).unwrap_or(Some(10)),
        None => Some(10),
    }
}

pub fn headers_of(words: &[Text]) -> Headers
    ensures { result ≡ headers_of words.now }
{
    match given(words, Setting::Headers) {
        Some(text) => headers_in(text).unwrap_or(Headers::Auto),
        None => Headers::Auto,
    }
}

pub fn out_separator_of(words: &[Text]) -> u8
    ensures value { result ≡ out_separator_of words.now }
    ensures in_range { IsSeparator result }
{
    match given(words, Setting::OutSeparator) {
        Some(text) => separator_in(text).unwrap_or(b'\t'),
        None => b'\t',
    }
}

pub fn file_mode_of(words: &[Text]) -> FileMode
    ensures { result ≡ file_mode_of words.now }
{
    match given(words, Setting::FileMode) {
        Some(text) => mode_in(text).unwrap_or(FileMode::Overwrite),
        None => FileMode::Overwrite,
    }
}

pub fn template_of(words: &[Text]) -> Option<Name>
    ensures { result ≡ template_of words.now }
{
    match given(words, Setting::Template) {
        Some(text) => name_in(text),
        None => None,
    }
}
