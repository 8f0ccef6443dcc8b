// The number of a generation, in a file's name.
ghost use Rattle.std.specs.Prelude.{◌≡◌, ◌↔◌, IsTrue, MatchOption};
ghost use Rattle.std.specs.Fmt.{decimal};
ghost use Rattle.generations.specs.Numbers.{IsPlain, IsNotPlain, IsNumber, IsNoNumber, IsGenerationOf, IsNoGeneration, IsIdentityOf, IsNoIdentity};

use itoa::Buffer;
use lp_outside::Name;
use std::str;

/// The greatest number of a rotated file.
const MOST: u64 = 9_223_372_036_854_775_807;

// Whether a text is what a number is written as.
fn writes(number: u64, text: &[u8]) -> bool
    ensures { IsTrue result ↔ (decimal number ≡ text.now) }
{
    let mut buffer = Buffer::new();
    buffer.format(number).as_bytes() == text
}

// The number that a text is, if it is one of 64 bits from 1 on.
fn number_of(text: &[u8]) -> Option<u64>
    ensures { MatchOption result (IsNotPlain text.now) (IsPlain text.now) }
{
    match str::from_utf8(text) {
        Ok(digits) => match digits.parse::<u64>() {
            Ok(number) => {
                if number == 0 {
                    return None;
                }
                if writes(number, text) {
                    Some(number)
                } else {
                    None
                }
            }
            Err(_) => None,
        },
        Err(_) => None,
    }
}

// The number that a text is, if it is that of a rotated file.
fn rotated_number_of(text: &[u8]) -> Option<u64>
    ensures { MatchOption result (IsNoNumber text.now) (IsNumber text.now) }
{
    match number_of(text) {
        Some(number) => {
            if number > MOST {
                return None;
            }
            Some(number)
        }
        None => None,
    }
}

/// The number of a file among the rotated files of a stem, which is given with the dot behind it.
pub fn generation_of(front: &[u8], name: &Name) -> Option<u64>
    ensures { MatchOption result (IsNoGeneration front.now name.now) (IsGenerationOf front.now name.now) }
{
    match name.as_str().as_bytes().strip_prefix(front) {
        Some(text) => rotated_number_of(text),
        None => None,
    }
}

/// The number of an identity among the generations of a stem, which is given with the dot behind it. The stem's own file
/// may be one behind the last number of a rotated file.
pub fn known_generation_of(front: &[u8], identity: &Name) -> Option<u64>
    ensures { MatchOption result (IsNoIdentity front.now identity.now) (IsIdentityOf front.now identity.now) }
{
    match identity.as_str().as_bytes().strip_prefix(front) {
        Some(text) => number_of(text),
        None => None,
    }
}
