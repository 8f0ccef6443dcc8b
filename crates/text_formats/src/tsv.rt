// Separated values.
ghost use Rattle.std.specs.Prelude.{◌≡◌, true};
ghost use Rattle.output_formats.specs.Headers.{is_headed};
ghost use Rattle.text_formats.specs.Lined.{lined_begins};
ghost use Rattle.text_formats.specs.Tsv.{tsv_of, tsv_head, tsv_line, tsv_style};

use crate::Style;
use crate::fields::{add_names, add_values};
use lp_values::{Bytes, TextList, ValueList};
use output_formats::{Headers, Shape};
use std::alloc::{AllocError, Global};
use std::marker::Model;

/// Fields between separators, never quoted: a separator, CR or LF in a field becomes a space, or `_` where the separator is
/// the space.
#[derive(Drop)]
pub struct TsvOut {
    headers: Headers,
    separator: u8,
    // What a value prints as.
    printed: Bytes,
}

impl Model for TsvOut {
    ghost use Rattle.text_formats.specs.Tsv.{TsvWanted};

    ghost Value = { TsvWanted };

    ghost view = { λ s. record { headers = s.headers; separator = s.separator } };
}

fn tsv_style(separator: u8) -> Style
    ensures { result ≡ tsv_style separator }
{
    Style {
        separator,
        blank: separator,
        instead: if separator == b' ' { b'_' } else { b' ' },
        dashed: false,
    }
}

fn is_headed(headers: Headers, fresh: bool) -> bool
    ensures { result ≡ is_headed headers fresh }
{
    match headers {
        Headers::Auto => fresh,
        Headers::On => true,
        Headers::Off => false,
    }
}

impl TsvOut {
    pub fn new(alloc: Global, headers: Headers, separator: u8) -> Self
        ensures headers { result.headers ≡ headers }
        ensures separator { result.separator ≡ separator }
    {
        TsvOut {
            headers,
            separator,
            printed: Bytes::new(alloc),
        }
    }
}

impl Shape for TsvOut {
    ghost text = { λ s. tsv_of s };

    ghost has_text = { λ s fresh names rows so_far. so_far ≡ tsv_of s fresh names rows };

    ghost shown = { λ s rows. rows };

    ghost at_once = { λ s. true };

    fn begin(&mut self, names: &TextList, fresh: bool, to: &mut Bytes) -> Result<(), AllocError> {
        if is_headed(self.headers, fresh) {
            add_names(tsv_style(self.separator), names, to)?;
            Ok(())
        } else {
            Ok(())
        }
    }

    fn row(&mut self, values: &ValueList, to: &mut Bytes) -> Result<(), AllocError> {
        add_values(tsv_style(self.separator), &mut self.printed, values, to)
    }

    fn count(&self, put: u64) -> u64 {
        put
    }

    fn end(&mut self, to: &mut Bytes) -> Result<(), AllocError> {
        Ok(())
    }

    ghost begins = { λ s fresh names rows more so_far is. lined_begins (tsv_head s.headers s.separator fresh names) (tsv_line s.separator) rows more so_far is };

    ghost whole = { λ s fresh names rows so_far once is. is };
}
