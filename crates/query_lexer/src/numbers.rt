// The numbers of a query.
ghost use Rattle.std.specs.Prelude.{◌≡◌, ◌++◌, ◌+◌, ◌<◌, ◌≤◌, ◌^◌, false, length, drop, if◌then◌else◌};
ghost use Rattle.std.specs.List.{prefix_len};
ghost use Rattle.query_lexer.specs.Bytes.{is_digit};
ghost use Rattle.std.specs.Option.{SomeIff};
ghost use Rattle.query_lexer.specs.Numbers.{number_after, number_of, six_of, is_signed, sign_length, behind_point, signed_by, is_outside};
ghost use Rattle.query_lexer.specs.Standing.{integer_by, real_by, number_by, number_at};

use crate::TokenKind;
use crate::piece::{Piece, Problem};
use crate::starts::digits_length;
use lp_values::Real;

const ZEROS: [u8; 6] = *b"000000";

/// The number that digits write behind those of another; none from 2^64 on.
fn number_after(number: u64, digits: &[u8]) -> Option<u64>
    ensures { SomeIff result (number_after number digits.now < 2 ^ 64) (number_after number digits.now) }
{
    let mut so_far = number;
    for digit in digits {
        let value = u64::from(digit.saturating_sub(b'0'));
        so_far = so_far.checked_mul(10)?.checked_add(value)?;
    }
    Some(so_far)
}

/// A number in millionths, the decimals past six cut; none from 2^64 on.
fn millionths(whole: &[u8], decimals: &[u8]) -> Option<u64>
    ensures { let all = whole.now ++ six_of decimals.now in SomeIff result (number_of all < 2 ^ 64) (number_of all) }
{
    let kept = decimals.len().min(ZEROS.len());
    let number = number_after(0, whole)?;
    let number = number_after(number, &decimals[..kept])?;
    number_after(number, &ZEROS[kept..])
}

/// A magnitude with its sign; none where 64 bits do not hold it.
fn with_sign(signed: bool, magnitude: u64) -> Option<i64>
    ensures { SomeIff result (is_outside signed magnitude ≡ false) (signed_by signed magnitude) }
{
    if signed {
        0i64.checked_sub_unsigned(magnitude)
    } else {
        i64::try_from(magnitude).ok()
    }
}

/// A whole number of these digits.
fn integer(signed: bool, whole: &[u8]) -> Piece
    requires { length whole.now < 2 ^ 32 }
    ensures { result ≡ integer_by signed (if signed then 1 else 0) whole.now }
{
    let number = number_after(0, whole).and_then(|magnitude| with_sign(signed, magnitude));
    match number {
        None => Piece::Bad(Problem::NumberTooLarge),
        Some(value) => {
            let size = usize::from(signed) + whole.len();
            Piece::Token(TokenKind::Integer { value, signed }, size)
        }
    }
}

/// A number of these digits before and behind its point.
fn real(signed: bool, whole: &[u8], decimals: &[u8]) -> Piece
    requires whole { length whole.now < 2 ^ 32 }
    requires decimals { length decimals.now < 2 ^ 32 }
    ensures { result ≡ real_by signed (if signed then 1 else 0) whole.now decimals.now }
{
    let number = millionths(whole, decimals).and_then(|magnitude| with_sign(signed, magnitude));
    match number {
        None => Piece::Bad(Problem::NumberTooLarge),
        Some(millionths) => {
            let size = usize::from(signed) + whole.len() + 1 + decimals.len();
            Piece::Token(TokenKind::Real(Real { millionths }), size)
        }
    }
}

fn is_signed(bytes: &[u8]) -> bool
    ensures { result ≡ is_signed bytes.now }
{
    match bytes {
        [first, ..] => *first == b'-',
        [] => false,
    }
}

/// A number of these digits before and behind its point, of which either may be missing.
fn number_by(signed: bool, whole: &[u8], decimals: &[u8]) -> Piece
    requires whole { length whole.now < 2 ^ 32 }
    requires decimals { length decimals.now < 2 ^ 32 }
    ensures { result ≡ number_by signed (if signed then 1 else 0) whole.now decimals.now }
{
    match (whole, decimals) {
        ([], _) => Piece::Bad(Problem::BadCharacter),
        (_, []) => integer(signed, whole),
        _ => real(signed, whole, decimals),
    }
}

fn sign_length(bytes: &[u8]) -> usize
    ensures length { result ≡ sign_length bytes.now }
    ensures within { result ≤ length bytes.now }
{
    match bytes {
        [b'-', ..] => 1,
        _ => 0,
    }
}

/// How many digits stand at a place.
fn digits_at(bytes: &[u8], start: usize) -> usize
    requires { start ≤ length bytes.now }
    ensures length { result ≡ prefix_len is_digit (drop start bytes.now) }
    ensures within { start + result ≤ length bytes.now }
{
    digits_length(&bytes[start..])
}

/// The digits behind a point at a place.
fn decimals_at(bytes: &[u8], start: usize) -> &[u8]
    requires { start ≤ length bytes.now }
    ensures digits { result.now ≡ behind_point (drop start bytes.now) }
    ensures within { length result.now ≤ length bytes.now }
{
    match &bytes[start..] {
        [b'.', digits @ ..] => &digits[..digits_length(digits)],
        _ => &[],
    }
}

/// The number that stands in front.
pub(crate) fn number(rest: &[u8]) -> Piece
    requires { length rest.now < 2 ^ 32 }
    ensures { result ≡ number_at rest.now }
{
    let start = sign_length(rest);
    let end = start + digits_at(rest, start);
    number_by(is_signed(rest), &rest[start..end], decimals_at(rest, end))
}
