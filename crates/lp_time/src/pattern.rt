// Patterns of dates and times.
ghost use Rattle.std.specs.Prelude.{◌≡◌, ◌<◌, ◌≤◌, ◌++◌, ◌+◌, Ok, Err, true, false, length, drop, IfOk, IfErr, IfSome, IfNone};
ghost use Rattle.std.specs.Option.{option_to_list};

use crate::front::{front_piece, front_size};
use crate::{Field, Piece};
use arrayvec::ArrayVec;
use lp_values::{Part, bytes_from};
use std::marker::Model;

/// The first place at which a text is no pattern.
#[derive(Clone, Copy, Debug, PartialEq, Eq)]
pub struct PatternFault {
    pub at: u64,
}

/// Items and other characters, at most 64.
#[derive(Drop)]
pub struct Pattern {
    pieces: ArrayVec<Piece, 64>,
}

impl Model for Pattern {
    ghost use Rattle.std.specs.Prelude.{List};
    ghost use Rattle.lp_time.specs.declared.piece.Piece.{Piece};

    ghost Value = { List Piece };

    ghost view = { λ p. p.pieces.items };
}

impl Pattern {
    ghost use Rattle.lp_time.specs.Readings.{has_date, has_time, pattern_part};
    ghost use Rattle.lp_time.specs.Patterns.{pattern_in, front_piece, front_size, has_field, has_items, is_new, takes};

    /// Reads a pattern. The fault is the first place of a run of letters that is no item, of a second item for one part,
    /// or of a 65th piece; without items it is the text's length.
    pub fn read(text: &str) -> Result<Pattern, PatternFault>
        ensures ok { IfOk result (λ pattern. pattern_in text.now ≡ Ok pattern) }
        ensures fault { IfErr result (λ fault. pattern_in text.now ≡ Err fault.at) }
    {
        let bytes = text.as_bytes();
        let mut pattern = Pattern {
            pieces: ArrayVec::new(),
        };
        let mut at = 0;
        while at < bytes.len() {
            match pattern.add_front(bytes_from(bytes, at)) {
                Some(size) => at += size,
                None => return Err(PatternFault { at: at as u64 }),
            }
        }
        if pattern.has_items() {
            Ok(pattern)
        } else {
            Err(PatternFault { at: at as u64 })
        }
    }

    // Adds the first piece of a text, and gives its size; nothing where it is none, or there is no room.
    fn add_front(&mut self, text: &[u8]) -> Option<usize>
        requires { 0 < length text.now }
        ensures some { IfSome result (λ size. (takes self.old text.now ≡ true) × (size ≡ front_size text.now) × (self.new ≡ self.old ++ option_to_list (front_piece text.now))) }
        ensures within { IfSome result (λ size. (0 < size) × (size ≤ length text.now)) }
        ensures none { IfNone result (takes self.old text.now ≡ false) }
    {
        let piece = front_piece(text)?;
        if !self.is_new(&piece) {
            return None;
        }
        match self.pieces.try_push(piece) {
            Ok(()) => Some(front_size(text)),
            Err(_) => None,
        }
    }

    fn is_new(&self, piece: &Piece) -> bool
        ensures { result ≡ is_new self.now piece.now }
    {
        match piece.field() {
            Some(field) => !self.has_field(field),
            None => true,
        }
    }

    fn has_field(&self, field: Field) -> bool
        ensures { result ≡ has_field self.now field }
    {
        self.pieces
            .as_slice()
            .iter()
            .any(|piece| piece.stands_for(field))
    }

    fn has_date(&self) -> bool
        ensures { result ≡ has_date self.now }
    {
        self.has_field(Field::Year) || self.has_field(Field::Month) || self.has_field(Field::Day)
    }

    fn has_time(&self) -> bool
        ensures { result ≡ has_time self.now }
    {
        self.has_field(Field::Hour)
            || self.has_field(Field::Minute)
            || self.has_field(Field::Second)
    }

    /// The part of the stamps that the pattern reads.
    pub fn part(&self) -> Part
        ensures { result ≡ pattern_part self.now }
    {
        if !self.has_date() {
            Part::Time
        } else if self.has_time() {
            Part::Both
        } else {
            Part::Date
        }
    }

    pub(crate) fn as_slice(&self) -> &[Piece]
        ensures { result.now ≡ self.now }
    {
        self.pieces.as_slice()
    }

    fn has_items(&self) -> bool
        ensures { result ≡ has_items self.now }
    {
        self.pieces
            .as_slice()
            .iter()
            .any(|piece| piece.field().is_some())
    }
}
