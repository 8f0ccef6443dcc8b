// Where the next part of a line stands.
ghost use Rattle.std.specs.Prelude.{◌≡◌, ◌<◌, ◌≤◌, ◌==◌, ◌+◌, ◌-◌, ◌^◌, None, Some, IfSome, MatchOption, length, drop, option_map, position};
ghost use Rattle.std.specs.List.{position_or_len};
ghost use Rattle.byte_masks.specs.Places.{is_in, IsNextPlace};
ghost use Rattle.ncsa_input.specs.Shapes.{closing, behind, taken};
ghost use Rattle.ncsa_input.specs.Pieces.{IsPiece, enclosed};
ghost use Rattle.ncsa_input.specs.Lines.{behind_spaces};

use crate::shape::Shape;
use byte_masks::{ByteSet, Places};
use line_input::{Extent, Gap};
use lp_values::bytes_from;

/// Where a part's bytes stand, and where it ends.
#[derive(Clone, Copy)]
pub(crate) struct Piece {
    pub(crate) bytes: Extent,
    pub(crate) end: usize,
}

// What ends a part in brackets.
const BRACKET: ByteSet = ByteSet {
    first: b']',
    second: b']',
};

// What a quoted part may end at, or goes on behind.
const MARKS: ByteSet = ByteSet {
    first: b'"',
    second: b'\\',
};

// The first place from one on at which a byte of a set stands.
#[inline(always)]
fn next_of(set: ByteSet, text: &[u8], at: usize) -> Option<usize>
    requires { at ≤ length text.now }
    ensures { MatchOption result (length (drop at text.now) ≤ position_or_len (is_in set) (drop at text.now)) (IsNextPlace (is_in set) text.now at) }
{
    let mut places = Places::new(set, text, at);
    places.next_place()
}

// Where the first `]` stands.
fn bracket(text: &[u8]) -> Option<usize>
    ensures place { result ≡ position (λ b. b == 93) text.now }
    ensures within { IfSome result (λ at. at < length text.now) }
{
    next_of(BRACKET, text, 0)
}

// Where the quote stands that ends a quoted part.
fn closing(text: &[u8]) -> Option<usize>
    ensures place { result ≡ closing text.now }
    ensures within { IfSome result (λ at. at < length text.now) }
{
    let mut at = 0;
    while at < text.len() {
        let Some(mark) = next_of(MARKS, text, at) else {
            return None;
        };
        if text[mark] == b'"' {
            return Some(mark);
        }
        at = mark + 2;
    }
    None
}

// What is left behind the byte that opens a part.
fn behind(opening: u8, text: &[u8]) -> Option<&[u8]>
    ensures { option_map (λ s. s.now) result ≡ behind opening text.now }
{
    let (first, inner) = text.split_first()?;
    if *first == opening { Some(inner) } else { None }
}

// The part inside a byte that opens it and one that closes it.
fn inside(at: usize, size: usize) -> Piece
    requires { at + size < 2 ^ 64 - 2 }
    ensures { result ≡ enclosed at size }
{
    let from = at + 1;
    let to = from + size;
    Piece {
        bytes: Extent { from, to },
        end: to + 1,
    }
}

fn word(line: &[u8], at: usize) -> Option<Piece>
    requires { at ≤ length line.now }
    ensures { MatchOption result (taken Shape.Word (drop at line.now) ≡ None) (IsPiece Shape.Word line.now at) }
{
    let size = Gap::Spaces.part_length(bytes_from(line, at));
    if size == 0 {
        return None;
    }
    let to = at + size;
    Some(Piece {
        bytes: Extent { from: at, to },
        end: to,
    })
}

fn bracketed(line: &[u8], at: usize) -> Option<Piece>
    requires { at ≤ length line.now }
    ensures { MatchOption result (taken Shape.Bracketed (drop at line.now) ≡ None) (IsPiece Shape.Bracketed line.now at) }
{
    let inner = behind(b'[', bytes_from(line, at))?;
    let size = bracket(inner)?;
    Some(inside(at, size))
}

fn quoted(line: &[u8], at: usize) -> Option<Piece>
    requires { at ≤ length line.now }
    ensures { MatchOption result (taken Shape.Quoted (drop at line.now) ≡ None) (IsPiece Shape.Quoted line.now at) }
{
    let inner = behind(b'"', bytes_from(line, at))?;
    let size = closing(inner)?;
    Some(inside(at, size))
}

/// The part of this shape at a place of a line.
pub(crate) fn piece_at(shape: Shape, line: &[u8], at: usize) -> Option<Piece>
    requires { at ≤ length line.now }
    ensures { MatchOption result (taken shape (drop at line.now) ≡ None) (IsPiece shape line.now at) }
{
    match shape {
        Shape::Word => word(line, at),
        Shape::Bracketed => bracketed(line, at),
        Shape::Quoted => quoted(line, at),
    }
}

/// The place behind one or more spaces.
pub(crate) fn behind_spaces(line: &[u8], at: usize) -> Option<usize>
    requires { at ≤ length line.now }
    ensures { MatchOption result (behind_spaces (drop at line.now) ≡ None) (λ next. (behind_spaces (drop at line.now) ≡ Some (drop next line.now)) × (next ≤ length line.now)) }
{
    let size = Gap::Spaces.gap_length(bytes_from(line, at));
    if size == 0 { None } else { Some(at + size) }
}
