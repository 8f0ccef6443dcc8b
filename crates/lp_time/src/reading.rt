// Reading texts as stamps.
ghost use Rattle.std.specs.Prelude.{◌≡◌, ◌<◌, ◌≤ℤ◌, pos, neg_ℤ, true, Some, option_map, IfSome};
ghost use Rattle.jiff_core.specs.Calendar.{days_from_civil, IsBetween};
ghost use Rattle.lp_values.specs.Civil.{day_seconds, time_seconds};
ghost use Rattle.lp_values.specs.Moments.{second_of_day};
ghost use Rattle.lp_values.specs.Stamps.{IsInYears};
ghost use Rattle.lp_time.specs.Patterns.{field_of};
ghost use Rattle.lp_time.specs.Readings.{room_of, with_field, with_piece, read_onto, missing_parts, pattern_part, is_existing, existing_seconds, seconds_in};

use crate::days::moment;
use crate::taking::taken;
use crate::{Field, Pattern, Piece};
use jiff_core::civil::{Date, days_in_month};
use lp_values::{Civil, Part, Stamp};

const DAY: i64 = 86_400;

pub(crate) const MISSING_PARTS: Civil = Civil {
    year: 2000,
    month: 1,
    day: 1,
    hour: 0,
    minute: 0,
    second: 0,
};

/// Reads a whole text by a pattern. `None` where it has another form, or there is no such date or time. Missing parts
/// are 1 January 2000 and midnight.
pub fn read_stamp(pattern: &Pattern, text: &str) -> Option<Stamp>
    ensures seconds { option_map (λ s. s.seconds) result ≡ seconds_in pattern.now text.now }
    ensures part { IfSome result (λ s. s.part ≡ pattern_part pattern.now) }
{
    let civil = read_onto(MISSING_PARTS, pattern.as_slice(), text.as_bytes())?;
    stamp_of(civil, pattern.part())
}

/// The parts that pieces read from a whole text, onto others.
pub(crate) fn read_onto(mut civil: Civil, pieces: &[Piece], text: &[u8]) -> Option<Civil>
    ensures { result ≡ read_onto civil pieces.now text.now }
{
    let mut rest = text;
    for piece in pieces {
        let (number, left) = taken(piece, rest)?;
        civil = with_piece(piece, number, civil);
        rest = left;
    }
    if rest.is_empty() { Some(civil) } else { None }
}

fn with_piece(piece: &Piece, number: u16, civil: Civil) -> Civil
    requires { number < room_of (field_of piece.now) }
    ensures { result ≡ with_piece piece.now number civil }
{
    match piece.field() {
        Some(field) => with_field(field, number, civil),
        None => civil,
    }
}

fn with_field(field: Field, number: u16, mut civil: Civil) -> Civil
    requires { number < room_of (Some field) }
    ensures { result ≡ with_field field number civil }
{
    match field {
        Field::Year => civil.year = number,
        Field::Month => civil.month = number as u8,
        Field::Day => civil.day = number as u8,
        Field::Hour => civil.hour = number as u8,
        Field::Minute => civil.minute = number as u8,
        Field::Second => civil.second = number as u8,
    }
    civil
}

/// The stamp of a civil date and time, where the calendar has it.
pub(crate) fn stamp_of(civil: Civil, part: Part) -> Option<Stamp>
    ensures seconds { option_map (λ s. s.seconds) result ≡ existing_seconds part civil }
    ensures part { IfSome result (λ s. s.part ≡ part) }
{
    if !is_existing(civil) {
        return None;
    }
    let time = time_seconds(civil);
    match part {
        Part::Date => Some(Stamp {
            seconds: day_seconds(civil),
            part,
        }),
        Part::Time => Some(Stamp {
            seconds: time,
            part,
        }),
        Part::Both => Some(Stamp {
            seconds: moment(day_seconds(civil), time),
            part,
        }),
    }
}

fn is_existing(civil: Civil) -> bool
    ensures { result ≡ is_existing civil }
{
    1 <= civil.year
        && civil.year <= 9999
        && 1 <= civil.month
        && civil.month <= 12
        && 1 <= civil.day
        && civil.day <= days_in_month(civil.year as i16, civil.month)
        && civil.hour < 24
        && civil.minute < 60
        && civil.second < 60
}

fn date_of(civil: Civil) -> Date
    requires { is_existing civil ≡ true }
    ensures year { result.year ≡ pos civil.year }
    ensures month { result.month ≡ civil.month }
    ensures day { result.day ≡ civil.day }
{
    Date {
        year: civil.year as i16,
        month: civil.month,
        day: civil.day,
    }
}

fn day_seconds(civil: Civil) -> i64
    requires { is_existing civil ≡ true }
    ensures value { result ≡ day_seconds civil }
    ensures whole { second_of_day result ≡ 0 }
    ensures within { IsInYears result }
    ensures room { result ≤ℤ pos 253_402_214_400 }
{
    i64::from(day_number(civil)) * DAY
}

// Days from 1970-01-01 on.
fn day_number(civil: Civil) -> i32
    requires { is_existing civil ≡ true }
    ensures value { result ≡ days_from_civil (pos civil.year) civil.month civil.day }
    ensures within { IsBetween (neg_ℤ (pos 719_162)) (pos 2_932_896) result }
{
    date_of(civil).to_unix_epoch_day()
}

fn time_seconds(civil: Civil) -> i64
    requires { is_existing civil ≡ true }
    ensures value { result ≡ pos (time_seconds civil) }
    ensures below { time_seconds civil < 86_400 }
{
    i64::from(civil.hour) * 3600 + i64::from(civil.minute) * 60 + i64::from(civil.second)
}
