// The fields of IIS logs.
ghost use Rattle.std.specs.Prelude.{◌≡◌, map};
ghost use Rattle.std.specs.List.{position};
ghost use Rattle.slot_reading.specs.Names.{is_same_name};
ghost use Rattle.iis_fields.specs.Table.{IisField, iis_fields, column_reading};
ghost use Rattle.iis_fields.specs.Places.{place_of, reading_at, reading_by};

use lp_time::Pattern;
use slot_reading::{SlotReading, is_same_name};

/// The number of fields that a log may have.
pub const LOGGED: usize = 22;

/// The names of all fields of a row, in order.
pub fn iis_names() -> [&'static str; 24]
    ensures { map (λ s. s.now) result ≡ map (λ (field : IisField). field.name) iis_fields }
{
    [
        "LogFilename",
        "LogRow",
        "date",
        "time",
        "c-ip",
        "cs-username",
        "s-sitename",
        "s-computername",
        "s-ip",
        "s-port",
        "cs-method",
        "cs-uri-stem",
        "cs-uri-query",
        "sc-status",
        "sc-substatus",
        "sc-win32-status",
        "sc-bytes",
        "cs-bytes",
        "time-taken",
        "cs-version",
        "cs-host",
        "cs(User-Agent)",
        "cs(Cookie)",
        "cs(Referer)",
    ]
}

// The place of the first of some names that is this one.
fn place_among(name: &str, names: &[&str]) -> Option<usize>
    ensures { result ≡ position (is_same_name name.now) (map (λ s. s.now) names.now) }
{
    let mut place = 0;
    for known in names {
        if is_same_name(name, known) {
            return Some(place);
        }
        place += 1;
    }
    None
}

/// The place of a field among those that a log may have, by its name, whatever the name's case.
pub(crate) fn place_of(name: &str) -> Option<usize>
    ensures { result ≡ place_of name.now }
{
    place_among(name, &iis_names()[2..])
}

// How the field at a place of the whole row is read.
#[tactic(auto, unfolding(crate::specs::Places::reading_at))]
fn reading_at(place: usize) -> Option<SlotReading>
    ensures { result ≡ reading_at place }
{
    match place {
        2 => by("yyyy-MM-dd"),
        3 => by("hh:mm:ss"),
        1 | 9 | 13 | 14 | 15 | 16 | 17 | 18 => Some(SlotReading::Integer),
        0 | 4 | 5 | 6 | 7 | 8 | 10 | 11 | 12 | 19 | 20 | 21 | 22 | 23 => Some(SlotReading::Text),
        _ => None,
    }
}

fn by(pattern: &str) -> Option<SlotReading>
    ensures { result ≡ reading_by pattern.now }
{
    Some(SlotReading::By(Pattern::read(pattern).ok()?))
}

/// How a field is read, by its name, whatever the name's case; `None` for a name that isn't in the table.
pub fn iis_reading(name: &str) -> Option<SlotReading>
    ensures { result ≡ column_reading name.now }
{
    let place = place_among(name, &iis_names())?;
    reading_at(place)
}
