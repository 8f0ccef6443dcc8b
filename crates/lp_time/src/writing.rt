// Writing stamps by a pattern.
ghost use Rattle.std.specs.Prelude.{◌≡◌, ◌≤◌, ◌<◌, ◌-◌, ◌++◌, [], length, take, slice_index_or, OnOk, OnErr};
ghost use Rattle.lp_values.specs.Civil.{civil_of};
ghost use Rattle.lp_time.specs.Readings.{month_names};
ghost use Rattle.lp_time.specs.ReadsBack.{ReadsBack};
ghost use Rattle.lp_time.specs.Writings.{number_of, padded_text, written_piece, written};

use crate::taking::MONTH_NAMES;
use crate::{Field, Pattern, Piece};
use itoa::Buffer;
use lp_values::{Bytes, Civil, Stamp, four_digits, two_digits};
use std::alloc::AllocError;

/// Appends a stamp's civil date and time as a pattern has them. An `Err` changes nothing.
pub fn write_stamp(pattern: &Pattern, stamp: Stamp, to: &mut Bytes) -> Result<(), AllocError>
    ensures ok { OnOk result (to.new ≡ to.old ++ written pattern.now (civil_of stamp.seconds)) }
    ensures err { OnErr result (to.new ≡ to.old) }
    ensures reads_back { ReadsBack pattern.now stamp }
{
    let before = to.len();
    match add_pieces(pattern.as_slice(), Civil::of(stamp.seconds), to) {
        Ok(()) => Ok(()),
        Err(error) => {
            to.truncate(before);
            Err(error)
        }
    }
}

fn add_pieces(pieces: &[Piece], civil: Civil, to: &mut Bytes) -> Result<(), AllocError>
    requires year { civil.year < 10_000 }
    requires first_month { 1 ≤ civil.month }
    requires last_month { civil.month ≤ 12 }
    ensures ok { OnOk result (to.new ≡ to.old ++ written pieces.now civil) }
    ensures err { OnErr result (take (length to.old) to.new ≡ to.old) }
{
    for piece in pieces {
        add_piece(piece, civil, to)?;
    }
    Ok(())
}

fn add_piece(piece: &Piece, civil: Civil, to: &mut Bytes) -> Result<(), AllocError>
    requires year { civil.year < 10_000 }
    requires first_month { 1 ≤ civil.month }
    requires last_month { civil.month ≤ 12 }
    ensures ok { OnOk result (to.new ≡ to.old ++ written_piece civil piece.now) }
    ensures err { OnErr result (to.new ≡ to.old) }
{
    match piece {
        Piece::Padded(field) => add_padded(*field, civil, to),
        Piece::Short(field) => {
            let mut buffer = Buffer::new();
            to.add(buffer.format(number_of(civil, *field)).as_bytes())
        }
        Piece::MonthName => to.add(&month_name(civil.month)),
        Piece::Other(character) => to.add(character.as_slice()),
    }
}

fn number_of(civil: Civil, field: Field) -> u16
    ensures { result ≡ number_of civil field }
{
    match field {
        Field::Year => civil.year,
        Field::Month => u16::from(civil.month),
        Field::Day => u16::from(civil.day),
        Field::Hour => u16::from(civil.hour),
        Field::Minute => u16::from(civil.minute),
        Field::Second => u16::from(civil.second),
    }
}

fn add_padded(field: Field, civil: Civil, to: &mut Bytes) -> Result<(), AllocError>
    requires { civil.year < 10_000 }
    ensures ok { OnOk result (to.new ≡ to.old ++ padded_text civil field) }
    ensures err { OnErr result (to.new ≡ to.old) }
{
    match field {
        Field::Year => to.add(&four_digits(civil.year)),
        Field::Month => to.add(&two_digits(civil.month)),
        Field::Day => to.add(&two_digits(civil.day)),
        Field::Hour => to.add(&two_digits(civil.hour)),
        Field::Minute => to.add(&two_digits(civil.minute)),
        Field::Second => to.add(&two_digits(civil.second)),
    }
}

fn month_name(month: u8) -> [u8; 3]
    requires first { 1 ≤ month }
    requires last { month ≤ 12 }
    ensures { result ≡ slice_index_or month_names (month - 1) [] }
{
    MONTH_NAMES[usize::from(month) - 1]
}
