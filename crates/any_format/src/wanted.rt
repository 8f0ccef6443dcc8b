// A format that any number of texts are wanted in.
ghost use Rattle.std.specs.Prelude.{◌≡◌, IfOk};
ghost use Rattle.any_format.specs.Formats.{format_text};
ghost use Rattle.any_format.specs.Wanted.{wanted_text, IsMoment};

use crate::Format;
use output_formats::{CsvOut, Headers};
use std::alloc::{AllocError, Global};
use std::rc::Rc;
use text_formats::{Nat, TsvOut, W3cOut};
use tpl_output::{Template, Tpl};

/// An output format with what the words say of it.
#[derive(Drop)]
pub enum Wanted {
    /// Rows in a block, all in one where there is none, and whether there are headers.
    Nat(Option<u32>, Headers),
    Csv(Headers),
    /// Whether there are headers, and the separator.
    Tsv(Headers, u8),
    W3c,
    Tpl(Rc<Template>),
}

impl Wanted {
    /// A text in the format, before its first byte, in a run of this moment.
    pub fn format(&self, alloc: Global, moment: i64) -> Result<Format, AllocError>
        requires { IsMoment moment }
        ensures { IfOk result (λ format. format_text format ≡ wanted_text self.now moment) }
    {
        Ok(match self {
            Wanted::Nat(rows, headers) => Format::Nat(Nat::new(alloc, *rows, *headers)),
            Wanted::Csv(headers) => Format::Csv(CsvOut::new(alloc, *headers)),
            Wanted::Tsv(headers, separator) => Format::Tsv(TsvOut::new(
                alloc, *headers, *separator,
            )),
            Wanted::W3c => Format::W3c(W3cOut::new(alloc, moment)),
            Wanted::Tpl(template) => Format::Tpl(Tpl::new(alloc, template.clone()?, moment)),
        })
    }
}
