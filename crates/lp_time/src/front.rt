// The first piece of a text.
ghost use Rattle.std.specs.Prelude.{◌≡◌, ◌≤◌, ◌<◌, ◌==◌, min, length};
ghost use Rattle.std.specs.List.{prefix_len};
ghost use Rattle.lp_time.specs.Patterns.{front_size, front_piece, field_item, item_of, is_continuation};

use crate::{Character, Field, Piece};

/// Its size: a run of one letter, or one other character.
pub(crate) fn front_size(text: &[u8]) -> usize
    ensures value { result ≡ front_size text.now }
    ensures within { result ≤ length text.now }
{
    let [first, rest @ ..] = text else {
        return 0;
    };
    if first.is_ascii_alphabetic() {
        1 + run_size(rest, *first)
    } else {
        1 + continuation_size(rest).min(3)
    }
}

fn run_size(text: &[u8], letter: u8) -> usize
    ensures value { result ≡ prefix_len (λ b. b == letter) text.now }
    ensures within { result ≤ length text.now }
{
    text.iter().take_while(|byte| **byte == letter).count()
}

fn continuation_size(text: &[u8]) -> usize
    ensures value { result ≡ prefix_len is_continuation text.now }
    ensures within { result ≤ length text.now }
{
    text.iter()
        .take_while(|byte| 128 <= **byte && **byte < 192)
        .count()
}

/// The piece, where the text begins with one.
pub(crate) fn front_piece(text: &[u8]) -> Option<Piece>
    ensures { result ≡ front_piece text.now }
{
    let [first, ..] = text else {
        return None;
    };
    let size = front_size(text);
    if first.is_ascii_alphabetic() {
        item_of(*first, size)
    } else {
        Some(Piece::Other(Character::new(&text[..size])))
    }
}

fn item_of(letter: u8, count: usize) -> Option<Piece>
    ensures { result ≡ item_of letter count }
{
    match (letter, count) {
        (b'y', 4) => Some(Piece::Padded(Field::Year)),
        (b'M', 3) => Some(Piece::MonthName),
        (b'M', _) => field_item(Field::Month, count),
        (b'd', _) => field_item(Field::Day, count),
        (b'h', _) => field_item(Field::Hour, count),
        (b'm', _) => field_item(Field::Minute, count),
        (b's', _) => field_item(Field::Second, count),
        _ => None,
    }
}

fn field_item(field: Field, count: usize) -> Option<Piece>
    ensures { result ≡ field_item field count }
{
    match count {
        1 => Some(Piece::Short(field)),
        2 => Some(Piece::Padded(field)),
        _ => None,
    }
}
