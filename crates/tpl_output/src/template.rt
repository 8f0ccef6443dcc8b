// A template.
ghost use Rattle.std.specs.Prelude.{◌≡◌, ◌≤◌, None, IfOk, IfErr, IfSome};
ghost use Rattle.std.specs.Option.{option_or};
ghost use Rattle.tpl_output.specs.Sections.{IsFaultOf, told, fault_of, early_fault, sections_in, sections_of, marked_fault, size_fault};

use crate::reading::{content_in, marked_fault};
use crate::tagging::tags_of;
use crate::{Found, Kind, Placed, Section, TemplateFault};
use lp_values::Bytes;
use std::alloc::{AllocError, Global};
use std::marker::Model;

// A longer template is too large.
const MOST: usize = 1_048_576;

/// A header, a body and a footer.
#[derive(Drop)]
pub struct Template {
    header: Bytes,
    body: Bytes,
    footer: Bytes,
}

impl Model for Template {
    ghost use Rattle.tpl_output.specs.Sections.{Sections};

    ghost Value = { Sections };

    ghost view = { λ t. record { header = t.header; body = t.body; footer = t.footer } };
}

fn copy_bytes(alloc: Global, bytes: &[u8]) -> Result<Bytes, AllocError>
    ensures { IfOk result (λ copy. copy ≡ bytes.now) }
{
    let mut copy = Bytes::new(alloc);
    copy.add(bytes)?;
    Ok(copy)
}

fn early_fault(found: Option<Found>) -> Option<Found>
    ensures { result ≡ early_fault found }
{
    match found {
        Some(fault) => { if fault.at <= MOST { Some(fault) } else { None } }
        None => None,
    }
}

// The first fault.
fn fault_of(text: &[u8], tags: &[Placed]) -> Option<Found>
    ensures value { result ≡ option_or (early_fault (marked_fault text.now tags.now)) (size_fault text.now) }
    ensures small { IfSome result (λ fault. fault.at ≤ 1_048_576) }
{
    match early_fault(marked_fault(text, tags)) {
        Some(fault) => Some(fault),
        None => {
            if text.len() > MOST {
                Some(Found {
                    kind: Kind::TooLarge,
                    at: MOST,
                })
            } else {
                None
            }
        }
    }
}

fn told(fault: Found) -> TemplateFault
    requires { fault.at ≤ 1_048_576 }
    ensures { result ≡ told fault }
{
    let at = fault.at as u32;
    match fault.kind {
        Kind::Unclosed => TemplateFault::Unclosed { at },
        Kind::Misplaced => TemplateFault::Misplaced { at },
        Kind::OutsideText => TemplateFault::OutsideText { at },
        Kind::TooLarge => TemplateFault::TooLarge { at },
    }
}

impl Template {
    fn with_sections(alloc: Global, text: &[u8], tags: &[Placed]) -> Result<Template, AllocError>
        ensures { IfOk result (λ template. template ≡ sections_in text.now tags.now) }
    {
        if tags.is_empty() {
            return Ok(Template {
                header: Bytes::new(alloc),
                body: copy_bytes(alloc, text)?,
                footer: Bytes::new(alloc),
            });
        }
        Ok(Template {
            header: copy_bytes(alloc, content_in(text, Section::Header, tags))?,
            body: copy_bytes(alloc, content_in(text, Section::Body, tags))?,
            footer: copy_bytes(alloc, content_in(text, Section::Footer, tags))?,
        })
    }

    /// Reads a template. The fault is the first one: an opening mark without its end, another mark out of place, a byte
    /// outside sections that is no blank, or the byte that is one too many.
    pub fn read(alloc: Global, bytes: &[u8]) -> Result<Template, TemplateFault>
        ensures ok { IfOk result (λ template. template ≡ sections_of bytes.now) }
        ensures good { IfOk result (λ template. fault_of bytes.now ≡ None) }
        ensures fault { IfErr result (IsFaultOf bytes.now) }
    {
        let tags = tags_of(alloc, bytes)?;
        if let Some(fault) = fault_of(bytes, tags.as_slice()) {
            return Err(told(fault));
        }
        Ok(Template::with_sections(alloc, bytes, tags.as_slice())?)
    }

    pub(crate) fn header(&self) -> &[u8]
        ensures { result.now ≡ self.now.header }
    {
        self.header.as_slice()
    }

    pub(crate) fn body(&self) -> &[u8]
        ensures { result.now ≡ self.now.body }
    {
        self.body.as_slice()
    }

    pub(crate) fn footer(&self) -> &[u8]
        ensures { result.now ≡ self.now.footer }
    {
        self.footer.as_slice()
    }
}
