// The time of the NCSA common log format.
ghost use Rattle.std.specs.Prelude.{◌≡◌, true, SomeIff, pos, neg_ℤ, option_map, IfSome};
ghost use Rattle.jiff_core.specs.Calendar.{IsBetween};
ghost use Rattle.lp_values.specs.Stamps.{IsInYears};
ghost use Rattle.lp_time.specs.CommonLog.{local_pieces, local_seconds, is_clock, offset_size, offset_in, utc_seconds, clf_seconds};

use crate::reading::{MISSING_PARTS, read_onto, stamp_of};
use crate::taking::{is_all_digits, number_of};
use crate::{Character, Field, Piece};
use lp_values::{Part, Stamp};

// 0001-01-01 00:00:00 and 9999-12-31 23:59:59.
const FIRST: i64 = -62_135_596_800;

const LAST: i64 = 253_402_300_799;

/// Reads `dd/MMM/yyyy:hh:mm:ss`, a space, a sign and four digits of offset from UTC, such as
/// `10/Oct/2000:13:55:36 -0700`, as a stamp in UTC.
pub fn clf_stamp(bytes: &[u8]) -> Option<Stamp>
    ensures seconds { option_map (λ s. s.seconds) result ≡ clf_seconds bytes.now }
    ensures part { IfSome result (λ s. s.part ≡ Part.Both) }
{
    if bytes.len() < 20 {
        return None;
    }
    let (local, offset) = bytes.split_at(20);
    let offset = offset_in(offset)?;
    let local = local_stamp(local)?;
    utc_stamp(offset, local.seconds)
}

fn utc_stamp(offset: i64, local: i64) -> Option<Stamp>
    requires offset { IsBetween (neg_ℤ (pos 86_400)) (pos 86_400) offset }
    requires local { IsInYears local }
    ensures seconds { option_map (λ s. s.seconds) result ≡ utc_seconds offset local }
    ensures part { IfSome result (λ s. s.part ≡ Part.Both) }
{
    let seconds = local - offset;
    if FIRST <= seconds && seconds <= LAST {
        Some(Stamp {
            seconds,
            part: Part::Both,
        })
    } else {
        None
    }
}

fn local_stamp(text: &[u8]) -> Option<Stamp>
    ensures { option_map (λ s. s.seconds) result ≡ local_seconds text.now }
{
    let civil = read_onto(MISSING_PARTS, &local_pieces(), text)?;
    stamp_of(civil, Part::Both)
}

fn local_pieces() -> [Piece; 11]
    ensures { result ≡ local_pieces }
{
    [
        Piece::Padded(Field::Day),
        Piece::Other(Character::new(b"/")),
        Piece::MonthName,
        Piece::Other(Character::new(b"/")),
        Piece::Padded(Field::Year),
        Piece::Other(Character::new(b":")),
        Piece::Padded(Field::Hour),
        Piece::Other(Character::new(b":")),
        Piece::Padded(Field::Minute),
        Piece::Other(Character::new(b":")),
        Piece::Padded(Field::Second),
    ]
}

// Seconds east of UTC.
fn offset_in(text: &[u8]) -> Option<i64>
    ensures value { result ≡ offset_in text.now }
    ensures small { IfSome result (IsBetween (neg_ℤ (pos 86_400)) (pos 86_400)) }
{
    match text {
        [b' ', b'+', digits @ ..] => offset_size(digits),
        [b' ', b'-', digits @ ..] => Some(negated(offset_size(digits)?)),
        _ => None,
    }
}

fn offset_size(digits: &[u8]) -> Option<i64>
    ensures value { SomeIff result (is_clock digits.now ≡ true) (pos (offset_size digits.now)) }
    ensures small { IfSome result (IsBetween (pos 0) (pos 86_400)) }
{
    if digits.len() != 4 {
        return None;
    }
    let (hours, minutes) = digits.split_at(2);
    if !is_all_digits(hours) || !is_all_digits(minutes) {
        return None;
    }
    let (hours, minutes) = (number_of(hours), number_of(minutes));
    if hours < 24 && minutes < 60 {
        Some(i64::from(hours) * 3600 + i64::from(minutes) * 60)
    } else {
        None
    }
}

fn negated(size: i64) -> i64
    requires { IsBetween (pos 0) (pos 86_400) size }
    ensures value { result ≡ neg_ℤ size }
    ensures small { IsBetween (neg_ℤ (pos 86_400)) (pos 86_400) result }
{
    -size
}
