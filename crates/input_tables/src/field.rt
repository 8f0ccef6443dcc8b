// A field that the records of a format have.
ghost use Rattle.std.specs.Prelude.{◌≡◌, IsOk};
ghost use Rattle.lp_time.specs.Patterns.{pattern_in};
ghost use Rattle.slot_reading.specs.Slots.{kind_of};
ghost use Rattle.slot_reading.specs.declared.reading.SlotReading.TheVariants as R;
ghost use Rattle.iis_fields.specs.Table.{pattern_of};
ghost use Rattle.input_tables.specs.Known.{read_how};

use lp_time::Pattern;
use lp_values::Kind;
use slot_reading::SlotReading;

/// How a field is read.
#[derive(Clone, Copy)]
pub(crate) enum How {
    Integer,
    Text,
    Day,
    Clock,
    Clf,
}

/// A field: its name, and how it is read.
#[derive(Clone, Copy)]
pub(crate) struct Known {
    pub(crate) name: &'static str,
    pub(crate) how: How,
}

fn by(pattern: &str) -> SlotReading
    requires { IsOk (pattern_in pattern.now) }
    ensures { result ≡ R.By (pattern_of pattern.now) }
{
    match Pattern::read(pattern) {
        Ok(pattern) => SlotReading::By(pattern),
        Err(_) => unreachable!(),
    }
}

impl How {
    /// The kind of the field's column.
    pub(crate) fn kind(self) -> Kind
        ensures { result ≡ kind_of (read_how self) }
    {
        match self {
            How::Integer => Kind::Integer,
            How::Text => Kind::Text,
            How::Day | How::Clock | How::Clf => Kind::Stamp,
        }
    }

    /// How the field is read.
    pub(crate) fn reading(self) -> SlotReading
        ensures { result ≡ read_how self }
    {
        match self {
            How::Integer => SlotReading::Integer,
            How::Text => SlotReading::Text,
            How::Day => by("yyyy-MM-dd"),
            How::Clock => by("hh:mm:ss"),
            How::Clf => SlotReading::Clf,
        }
    }
}
