// How the fields of a column are read.
ghost use Rattle.std.specs.Prelude.{◌≡◌};

use lp_time::Pattern;
use lp_values::Kind;

/// How the fields of a column are read.
#[derive(Drop)]
pub enum SlotReading {
    /// As whole numbers.
    Integer,
    /// As numbers with decimals.
    Real,
    /// As they are; what is no UTF-8 is repaired.
    Text,
    /// As dates and times, by a pattern.
    By(Pattern),
    /// As times of the common log format.
    Clf,
}

impl SlotReading {
    ghost use Rattle.slot_reading.specs.Slots.{kind_of};

    /// The kind of the column.
    pub fn kind(&self) -> Kind
        ensures { result ≡ kind_of self.now }
    {
        match self {
            SlotReading::Integer => Kind::Integer,
            SlotReading::Real => Kind::Real,
            SlotReading::Text => Kind::Text,
            SlotReading::By(_) | SlotReading::Clf => Kind::Stamp,
        }
    }
}
