// How the logs of a run are read.
ghost use Rattle.std.specs.Prelude.{◌≡◌, unwrap_or};
ghost use Rattle.query_tree.specs.Views.{placed_all, query_of};
ghost use Rattle.execution.specs.Formats.{csv_options, format_of, input_by_names, input_of, log_format, tsv_options};

use command_words::{InputFormat, Spec};
use delimited_input::DelimitedOptions;
use input_tables::TableFormat;
use query_text::is_stdin;
use query_tree::{PlacedList, Query};

/// How the logs of a run are read.
#[derive(Clone, Copy, Debug, PartialEq, Eq)]
pub enum LogFormat {
    /// In a format that has a table.
    Tabled(TableFormat),
    /// As fields that a byte parts. The logs tell the columns, whose kinds are judged from so many records.
    Sampled(DelimitedOptions, u32),
}

// From how many records the kinds of columns are judged, where the words don't say.
const CSV_SAMPLE: u32 = 10;

const TSV_SAMPLE: u32 = 100;

// The format by the first FROM name.
fn input_by_names(names: &PlacedList) -> InputFormat
    ensures { result ≡ input_by_names (placed_all names.now) }
{
    match names.items.as_slice() {
        [] => InputFormat::TextLine,
        [name, ..] => {
            if is_stdin(name.text.as_str()) {
                InputFormat::TextLine
            } else {
                InputFormat::by_name(name.text.as_str())
            }
        }
    }
}

/// The input format: that of the words, or else by the first FROM name.
pub fn input_of(spec: &Spec, query: &Query) -> InputFormat
    ensures { result ≡ input_of spec.now (query_of query.now) }
{
    match spec.input {
        Some(format) => format,
        None => input_by_names(&query.names),
    }
}

// Commas part the fields of CSV, which may stand in quotes.
fn csv_options(spec: &Spec) -> DelimitedOptions
    ensures { result ≡ csv_options spec.now }
{
    DelimitedOptions {
        separator: b',',
        quotes: true,
        header_row: spec.header_row,
    }
}

// TSV has the separator of the words, and no quotes.
fn tsv_options(spec: &Spec) -> DelimitedOptions
    ensures { result ≡ tsv_options spec.now }
{
    DelimitedOptions {
        separator: spec.separator,
        quotes: false,
        header_row: spec.header_row,
    }
}

// From how many records the kinds of columns are judged.
fn sample_lines(spec: &Spec, default: u32) -> u32
    ensures { result ≡ unwrap_or spec.now.dt_lines default }
{
    spec.dt_lines.unwrap_or(default)
}

// How the logs of an input format are read.
fn format_of(spec: &Spec, input: InputFormat) -> LogFormat
    ensures { result ≡ format_of spec.now input }
{
    match input {
        InputFormat::IisW3c => LogFormat::Tabled(TableFormat::IisW3c),
        InputFormat::Ncsa => LogFormat::Tabled(TableFormat::Ncsa),
        InputFormat::Csv => LogFormat::Sampled(csv_options(spec), sample_lines(spec, CSV_SAMPLE)),
        InputFormat::Tsv => LogFormat::Sampled(tsv_options(spec), sample_lines(spec, TSV_SAMPLE)),
        InputFormat::TextLine => LogFormat::Tabled(TableFormat::TextLine),
        InputFormat::TextWord => LogFormat::Tabled(TableFormat::TextWord),
    }
}

/// How the logs of a query are read.
pub fn log_format(spec: &Spec, query: &Query) -> LogFormat
    ensures { result ≡ log_format spec.now (query_of query.now) }
{
    format_of(spec, input_of(spec, query))
}
