// Pieces of a pattern.
ghost use Rattle.std.specs.Prelude.{◌≡◌, ◌≤◌, ◌==◌, min, false, length};
ghost use Rattle.std.specs.List.{prefix_len};
ghost use Rattle.std.specs.Option.{option_map_or};

use crate::{Character, Field};

/// An item of a pattern, or another character.
#[derive(Drop, Default)]
pub enum Piece {
    /// Digits in all their places: four for a year, two for the others.
    Padded(Field),
    /// One digit or two.
    Short(Field),
    /// A month's English name in three letters.
    #[default]
    MonthName,
    /// A character that stands for itself.
    Other(Character),
}

impl Piece {
    ghost use Rattle.lp_time.specs.Patterns.{field_of, is_same_field};

    /// The part that the piece stands for.
    pub fn field(&self) -> Option<Field>
        ensures { result ≡ field_of self.now }
    {
        match self {
            Piece::Padded(field) | Piece::Short(field) => Some(*field),
            Piece::MonthName => Some(Field::Month),
            Piece::Other(_) => None,
        }
    }

    pub(crate) fn stands_for(&self, field: Field) -> bool
        ensures { result ≡ option_map_or (is_same_field field) (field_of self.now) false }
    {
        match self.field() {
            Some(own) => own == field,
            None => false,
        }
    }
}
