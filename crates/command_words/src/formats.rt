// The formats of inputs and of outputs.
ghost use Rattle.std.specs.Prelude.{◌≡◌};
ghost use Rattle.command_words.specs.Formats.{input_name, output_name, input_in, output_in, last_part, input_of_part, input_by_name, output_by_name};

use crate::text::{begins_as, ends_as, same_text};

/// A format of logs.
#[derive(Clone, Copy, Debug, PartialEq, Eq)]
pub enum InputFormat {
    IisW3c,
    Ncsa,
    Csv,
    Tsv,
    TextLine,
    TextWord,
}

/// A format of outputs.
#[derive(Clone, Copy, Debug, PartialEq, Eq)]
pub enum OutputFormat {
    Nat,
    Csv,
    Tsv,
    W3c,
    Tpl,
}

const INPUTS: [InputFormat; 6] = [
    InputFormat::IisW3c,
    InputFormat::Ncsa,
    InputFormat::Csv,
    InputFormat::Tsv,
    InputFormat::TextLine,
    InputFormat::TextWord,
];

const OUTPUTS: [OutputFormat; 5] = [
    OutputFormat::Nat,
    OutputFormat::Csv,
    OutputFormat::Tsv,
    OutputFormat::W3c,
    OutputFormat::Tpl,
];

impl InputFormat {
    /// The format's name, in capitals.
    pub fn as_str(self) -> &'static str
        ensures { result.now ≡ input_name self }
    {
        match self {
            InputFormat::IisW3c => "IISW3C",
            InputFormat::Ncsa => "NCSA",
            InputFormat::Csv => "CSV",
            InputFormat::Tsv => "TSV",
            InputFormat::TextLine => "TEXTLINE",
            InputFormat::TextWord => "TEXTWORD",
        }
    }

    /// The format of this name, whatever its case.
    pub fn read(name: &str) -> Option<InputFormat>
        ensures { result ≡ input_in name.now }
    {
        INPUTS.iter().copied().find(|format| same_text(name.as_bytes(), format.as_str().as_bytes()))
    }

    /// The format of a log by its name, where no word of the command line says it.
    pub fn by_name(name: &str) -> InputFormat
        ensures { result ≡ input_by_name name.now }
    {
        input_of_part(last_part(name.as_bytes()))
    }
}

fn last_part(name: &[u8]) -> &[u8]
    ensures { result.now ≡ last_part name.now }
{
    let mut start = 0;
    for place in 0..name.len() {
        if name[place] == b'/' {
            start = place + 1;
        }
    }
    &name[start..]
}

fn input_of_part(part: &[u8]) -> InputFormat
    ensures { result ≡ input_of_part part.now }
{
    if ends_as(part, b".csv") {
        InputFormat::Csv
    } else if ends_as(part, b".tsv") {
        InputFormat::Tsv
    } else if (begins_as(part, b"ex") || begins_as(part, b"u_ex")) && ends_as(part, b".log") {
        InputFormat::IisW3c
    } else if begins_as(part, b"nc") && ends_as(part, b".log") {
        InputFormat::Ncsa
    } else {
        InputFormat::TextLine
    }
}

impl OutputFormat {
    /// The format's name, in capitals.
    pub fn as_str(self) -> &'static str
        ensures { result.now ≡ output_name self }
    {
        match self {
            OutputFormat::Nat => "NAT",
            OutputFormat::Csv => "CSV",
            OutputFormat::Tsv => "TSV",
            OutputFormat::W3c => "W3C",
            OutputFormat::Tpl => "TPL",
        }
    }

    /// The format of this name, whatever its case.
    pub fn read(name: &str) -> Option<OutputFormat>
        ensures { result ≡ output_in name.now }
    {
        OUTPUTS.iter().copied().find(|format| same_text(
            name.as_bytes(),
            format.as_str().as_bytes(),
        ))
    }

    /// The format of an output by its name, where neither `-o` nor `-tpl` says it.
    pub fn by_name(name: &str) -> OutputFormat
        ensures { result ≡ output_by_name name.now }
    {
        let name = name.as_bytes();
        if name.ends_with(b".csv") {
            OutputFormat::Csv
        } else if name.ends_with(b".tsv") {
            OutputFormat::Tsv
        } else if name.ends_with(b".log") {
            OutputFormat::W3c
        } else {
            OutputFormat::Nat
        }
    }
}
