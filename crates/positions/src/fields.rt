// The fields of an entry, read or passed over.
ghost use Rattle.std.specs.Prelude.{◌≡◌, ℕ, ◌+◌, ◌-◌, ◌<◌, ◌^◌, List, [], ◌++◌, length, flat_map, min, MatchResult};
ghost use Rattle.ledger_model.specs.Numbers.{number, u32_bytes, text_bytes};
ghost use Rattle.ledger.specs.Reader.{Rests, Gives, HasReason, any_word};
ghost use Rattle.ledger.specs.Placing.{IsOfDisk};
ghost use Rattle.positions.specs.Stands.{Stands, AreShort};

use ledger::{EntryReader, LedgerRefused};
use lp_outside::{Disk, Name};

pub(crate) fn take_number<D: Disk>(
    disk: &mut D,
    ledger: &Name,
    reader: &mut EntryReader,
) -> Result<u64, LedgerRefused>
    ensures gives { Gives number (D.state disk.old) (D.state disk.new) ledger.now reader.old reader.new result }
    ensures rests { Rests (D.state disk.old) (D.state disk.new) }
    ensures reason { HasReason (D.faults disk.old) (D.faults disk.new) result }
{
    let mut bytes = [0; 8];
    reader.take(disk, ledger, &mut bytes)?;
    Ok(u64::from_le_bytes(bytes))
}

pub(crate) fn take_count<D: Disk>(
    disk: &mut D,
    ledger: &Name,
    reader: &mut EntryReader,
) -> Result<u32, LedgerRefused>
    ensures gives { Gives any_word (D.state disk.old) (D.state disk.new) ledger.now reader.old reader.new result }
    ensures rests { Rests (D.state disk.old) (D.state disk.new) }
    ensures reason { HasReason (D.faults disk.old) (D.faults disk.new) result }
{
    let mut bytes = [0; 4];
    reader.take(disk, ledger, &mut bytes)?;
    Ok(u32::from_le_bytes(bytes))
}

/// Passes over so many bytes without reading them.
pub(crate) fn skip(reader: &mut EntryReader, count: u64, to: u64)
    ensures at { reader.new.at ≡ min (reader.old.at + count) (2 ^ 64 - 1) }
    ensures to { reader.new.to ≡ to }
    ensures ahead { reader.new.ahead ≡ [] }
{
    let place = reader.place().saturating_add(count);
    *reader = EntryReader::new(place, to);
}

/// Passes over a text.
pub(crate) fn skip_text<D: Disk>(
    disk: &mut D,
    ledger: &Name,
    reader: &mut EntryReader,
    to: u64,
) -> Result<(), LedgerRefused>
    ensures passes { (text more : List ℕ) → length text < 2 ^ 32 → Stands (D.state disk.old) ledger.now to reader.old (text_bytes text ++ more)
        → MatchResult result (λ _. Stands (D.state disk.new) ledger.now to reader.new more) IsOfDisk }
    ensures rests { Rests (D.state disk.old) (D.state disk.new) }
    ensures reason { HasReason (D.faults disk.old) (D.faults disk.new) result }
{
    let size = take_count(disk, ledger, reader)?;
    skip(reader, u64::from(size), to);
    Ok(())
}

/// Passes over so many texts.
fn skip_texts<D: Disk>(
    disk: &mut D,
    ledger: &Name,
    reader: &mut EntryReader,
    to: u64,
    count: u32,
) -> Result<(), LedgerRefused>
    ensures passes { (texts : List (List ℕ)) (more : List ℕ) → length texts ≡ count → AreShort texts → Stands (D.state disk.old) ledger.now to reader.old (flat_map text_bytes texts ++ more)
        → MatchResult result (λ _. Stands (D.state disk.new) ledger.now to reader.new more) IsOfDisk }
    ensures rests { Rests (D.state disk.old) (D.state disk.new) }
    ensures reason { HasReason (D.faults disk.old) (D.faults disk.new) result }
{
    for _index in 0..count {
        skip_text(disk, ledger, reader, to)?;
    }
    Ok(())
}

/// Passes over texts behind their number.
pub(crate) fn skip_words<D: Disk>(
    disk: &mut D,
    ledger: &Name,
    reader: &mut EntryReader,
    to: u64,
) -> Result<(), LedgerRefused>
    ensures passes { (words : List (List ℕ)) (more : List ℕ) → length words < 2 ^ 32 → AreShort words → Stands (D.state disk.old) ledger.now to reader.old (u32_bytes (length words) ++ (flat_map text_bytes words ++ more))
        → MatchResult result (λ _. Stands (D.state disk.new) ledger.now to reader.new more) IsOfDisk }
    ensures rests { Rests (D.state disk.old) (D.state disk.new) }
    ensures reason { HasReason (D.faults disk.old) (D.faults disk.new) result }
{
    let count = take_count(disk, ledger, reader)?;
    skip_texts(disk, ledger, reader, to, count)
}
