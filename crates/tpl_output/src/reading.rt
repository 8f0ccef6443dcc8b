// The sections of a template, and its faults.
ghost use Rattle.std.specs.Prelude.{◌≡◌};
ghost use Rattle.std.specs.List.{list_any};
ghost use Rattle.std.specs.Option.{option_or};
ghost use Rattle.tpl_output.specs.Sections.{is_blank, part_of, outside_from, outside_fault, order_of, closes, opening_fault, fault_from, marked_fault, without_break, opens, content_in};

use crate::words::{back, front};
use crate::{Found, Kind, Placed, Section};

fn is_blank(byte: u8) -> bool
    ensures { result ≡ is_blank byte }
{
    byte == b' ' || byte == b'\t' || byte == b'\n' || byte == b'\r'
}

fn part_of(text: &[u8], from: usize, to: usize) -> &[u8]
    ensures { result.now ≡ part_of text.now from to }
{
    front(back(text, from), to.saturating_sub(from))
}

fn outside_in(text: &[u8], from: usize, to: usize) -> Option<usize>
    ensures { result ≡ outside_from from (part_of text.now from to) }
{
    let part = part_of(text, from, to);
    for (index, byte) in part.iter().enumerate() {
        if !is_blank(*byte) {
            return Some(from + index);
        }
    }
    None
}

fn outside_fault(text: &[u8], from: usize, to: usize) -> Option<Found>
    ensures { result ≡ outside_fault text.now from to }
{
    match outside_in(text, from, to) {
        Some(at) => Some(Found {
            kind: Kind::OutsideText,
            at,
        }),
        None => None,
    }
}

fn order_of(section: Section) -> usize
    ensures { result ≡ order_of section }
{
    match section {
        Section::Header => 0,
        Section::Body => 1,
        Section::Footer => 2,
    }
}

fn closes(section: Section, end: &Placed) -> bool
    ensures { result ≡ closes section end.now }
{
    end.tag.closing && order_of(end.tag.section) == order_of(section)
}

fn has_end(section: Section, tags: &[Placed]) -> bool
    ensures { result ≡ list_any (closes section) tags.now }
{
    tags.iter().any(|end| closes(section, end))
}

fn opening_fault(least: usize, opening: &Placed, tags: &[Placed]) -> Option<Found>
    ensures { result ≡ opening_fault least opening.now tags.now }
{
    let section = opening.tag.section;
    if opening.tag.closing || order_of(section) < least {
        return Some(Found {
            kind: Kind::Misplaced,
            at: opening.at,
        });
    }
    if has_end(section, tags) {
        None
    } else {
        Some(Found {
            kind: Kind::Unclosed,
            at: opening.at,
        })
    }
}

// The first fault before a section's text.
fn fault_before(
    text: &[u8],
    from: usize,
    least: usize,
    opening: &Placed,
    tags: &[Placed],
) -> Option<Found>
    ensures { result ≡ option_or (outside_fault text.now from opening.now.at) (opening_fault least opening.now tags.now) }
{
    match outside_fault(text, from, opening.at) {
        Some(fault) => Some(fault),
        None => opening_fault(least, opening, tags),
    }
}

#[tactic(auto, unfolding(crate::specs::Sections::fault_from))]
fn fault_from(text: &[u8], from: usize, least: usize, tags: &[Placed]) -> Option<Found>
    ensures { result ≡ fault_from text.now from least tags.now }
{
    let [opening, tags @ ..] = tags else {
        return outside_fault(text, from, text.len());
    };
    if let Some(fault) = fault_before(text, from, least, opening, tags) {
        return Some(fault);
    }
    let [end, tags @ ..] = tags else {
        return None;
    };
    let section = opening.tag.section;
    if closes(section, end) {
        fault_from(text, end.behind, order_of(section) + 1, tags)
    } else {
        Some(Found {
            kind: Kind::Misplaced,
            at: end.at,
        })
    }
}

/// The first fault of marks and of the text outside sections.
pub(crate) fn marked_fault(text: &[u8], tags: &[Placed]) -> Option<Found>
    ensures { result ≡ marked_fault text.now tags.now }
{
    if tags.is_empty() {
        None
    } else {
        fault_from(text, 0, 0, tags)
    }
}

fn without_break(text: &[u8]) -> &[u8]
    ensures { result.now ≡ without_break text.now }
{
    match text {
        [b'\n', rest @ ..] => rest,
        [b'\r', b'\n', rest @ ..] => rest,
        _ => text,
    }
}

fn opens(section: Section, opening: &Placed) -> bool
    ensures { result ≡ opens section opening.now }
{
    !opening.tag.closing && order_of(opening.tag.section) == order_of(section)
}

/// What stands between a section's opening mark and the next mark.
#[tactic(auto, unfolding(crate::specs::Sections::content_in))]
pub(crate) fn content_in<'a>(text: &'a [u8], section: Section, tags: &[Placed]) -> &'a [u8]
    ensures { result.now ≡ content_in text.now section tags.now }
{
    let [opening, tags @ ..] = tags else {
        return &[];
    };
    if !opens(section, opening) {
        return content_in(text, section, tags);
    }
    match tags {
        [] => without_break(back(text, opening.behind)),
        [next, ..] => without_break(part_of(text, opening.behind, next.at)),
    }
}
