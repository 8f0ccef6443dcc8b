// The marks of sections.
ghost use Rattle.std.specs.Prelude.{◌≡◌, ◌<◌, ◌≤◌, ◌^◌, ◌++◌, option_map, IfOk, OnOk};
ghost use Rattle.tpl_output.specs.Sections.{section_at, tag_of, tag_at, name_size, tag_size, placed_at, tags_from};

use crate::words::{back, begins_as};
use crate::{Placed, Section, Tag};
use lp_values::{ListOf, bytes_from};
use std::alloc::{AllocError, Global};

fn section_at(text: &[u8]) -> Option<Section>
    ensures { result ≡ section_at text.now }
{
    if begins_as(b"LPHEADER>", text) {
        Some(Section::Header)
    } else if begins_as(b"LPBODY>", text) {
        Some(Section::Body)
    } else if begins_as(b"LPFOOTER>", text) {
        Some(Section::Footer)
    } else {
        None
    }
}

fn tag_in(closing: bool, text: &[u8]) -> Option<Tag>
    ensures { result ≡ option_map (tag_of closing) (section_at text.now) }
{
    match section_at(text) {
        Some(section) => Some(Tag { section, closing }),
        None => None,
    }
}

fn tag_at(text: &[u8]) -> Option<Tag>
    ensures { result ≡ tag_at text.now }
{
    if begins_as(b"</", text) {
        tag_in(true, back(text, 2))
    } else if begins_as(b"<", text) {
        tag_in(false, back(text, 1))
    } else {
        None
    }
}

fn name_size(section: Section) -> usize
    ensures value { result ≡ name_size section }
    ensures small { result ≤ 9 }
{
    match section {
        Section::Header => 9,
        Section::Body => 7,
        Section::Footer => 9,
    }
}

fn tag_size(tag: Tag) -> usize
    ensures value { result ≡ tag_size tag }
    ensures small { result ≤ 11 }
{
    let front = if tag.closing { 2 } else { 1 };
    front + name_size(tag.section)
}

// Notes the mark at a place, where one stands there.
fn note_tag(tags: &mut ListOf<Placed>, at: usize, text: &[u8]) -> Result<(), AllocError>
    requires { at < 2 ^ 63 }
    ensures { OnOk result (tags.new ≡ tags.old ++ placed_at at text.now) }
{
    if let Some(tag) = tag_at(text) {
        tags.push(Placed {
            at,
            behind: at + tag_size(tag),
            tag,
        })?;
    }
    Ok(())
}

/// All marks of a text.
pub(crate) fn tags_of(alloc: Global, text: &[u8]) -> Result<ListOf<Placed>, AllocError>
    ensures { IfOk result (λ tags. tags ≡ tags_from 0 text.now) }
{
    let mut tags = ListOf::new(alloc);
    for at in 0..text.len() {
        note_tag(&mut tags, at, bytes_from(text, at))?;
    }
    Ok(tags)
}
