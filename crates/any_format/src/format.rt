// One of the output formats.
ghost use Rattle.any_format.specs.Formats.{text_of, is_at_once, HasText, format_begins, format_whole};

use lp_values::{Bytes, TextList, ValueList};
use output_formats::{CsvOut, Shape};
use std::alloc::AllocError;
use text_formats::{Nat, TsvOut, W3cOut};
use tpl_output::Tpl;

/// An output format.
#[derive(Drop)]
pub enum Format {
    Csv(CsvOut),
    Tsv(TsvOut),
    W3c(W3cOut),
    Nat(Nat),
    Tpl(Tpl),
}

impl Shape for Format {
    ghost text = { λ s. text_of s };

    ghost has_text = { λ s fresh names rows so_far. HasText s fresh names rows so_far };

    ghost shown = { λ s rows. rows };

    ghost at_once = { λ s. is_at_once s };

    fn begin(&mut self, names: &TextList, fresh: bool, to: &mut Bytes) -> Result<(), AllocError> {
        match self {
            Format::Csv(shape) => shape.begin(names, fresh, to),
            Format::Tsv(shape) => shape.begin(names, fresh, to),
            Format::W3c(shape) => shape.begin(names, fresh, to),
            Format::Nat(shape) => shape.begin(names, fresh, to),
            Format::Tpl(shape) => shape.begin(names, fresh, to),
        }
    }

    fn row(&mut self, values: &ValueList, to: &mut Bytes) -> Result<(), AllocError> {
        match self {
            Format::Csv(shape) => shape.row(values, to),
            Format::Tsv(shape) => shape.row(values, to),
            Format::W3c(shape) => shape.row(values, to),
            Format::Nat(shape) => shape.row(values, to),
            Format::Tpl(shape) => shape.row(values, to),
        }
    }

    fn count(&self, put: u64) -> u64 {
        put
    }

    fn end(&mut self, to: &mut Bytes) -> Result<(), AllocError> {
        match self {
            Format::Csv(shape) => shape.end(to),
            Format::Tsv(shape) => shape.end(to),
            Format::W3c(shape) => shape.end(to),
            Format::Nat(shape) => shape.end(to),
            Format::Tpl(shape) => shape.end(to),
        }
    }

    ghost begins = { λ s fresh names rows more so_far is. format_begins s fresh names rows more so_far is };

    ghost whole = { λ s fresh names rows so_far once is. format_whole s fresh names rows so_far once is };
}
