// Looks at the head of a payload: form, moment and input.
#![tactic(auto, using(crate::proofs::Resting::rests_then))]

ghost use Rattle.std.specs.Prelude.{◌≡◌, ℕ, ◌<◌, ◌≤◌, ◌^◌, ◌↔◌, IsTrue, List, MatchBool};
ghost use Rattle.ledger.specs.Reader.{Rests, Looks, HasReason};
ghost use Rattle.ledger_model.specs.Numbers.{text_of};
ghost use Rattle.ledger_model.specs.Inputs.{IsInput};
ghost use Rattle.ledger_model.specs.Grammar.{IsMoment, head_layout};

use crate::input_text::is_input;
use crate::refused::damaged;
use crate::{EntryReader, LedgerRefused};
use lp_outside::{Disk, Name};

/// The last second of the year 9999.
const LAST: i64 = 253_402_300_799;

/// Whether seconds lie outside the years 1970 to 9999.
fn is_outside(moment: i64) -> bool
    ensures { MatchBool result (IsMoment moment → ⊥) (IsMoment moment) }
{
    moment < 0 || LAST < moment
}

fn input<D: Disk>(
    disk: &mut D,
    ledger: &Name,
    reader: &mut EntryReader,
) -> Result<(), LedgerRefused>
    ensures looks { Looks (text_of IsInput) (D.state disk.old) (D.state disk.new) ledger.now reader.old reader.new result }
    ensures rests { Rests (D.state disk.old) (D.state disk.new) }
    ensures reason { HasReason (D.faults disk.old) (D.faults disk.new) result }
{
    let place = reader.place();
    let mut room = [0; 64];
    let size = reader.short_text(disk, ledger, &mut room)?;
    if is_input(&room[..size]) {
        return Ok(());
    }
    Err(damaged(place))
}

/// The form, the moment and the input.
pub fn check_head<D: Disk>(
    disk: &mut D,
    ledger: &Name,
    reader: &mut EntryReader,
) -> Result<(), LedgerRefused>
    ensures looks { Looks head_layout (D.state disk.old) (D.state disk.new) ledger.now reader.old reader.new result }
    ensures rests { Rests (D.state disk.old) (D.state disk.new) }
    ensures reason { HasReason (D.faults disk.old) (D.faults disk.new) result }
{
    let place = reader.place();
    let form = reader.byte(disk, ledger)?;
    if form != 1 {
        return Err(damaged(place));
    }
    let start = reader.place();
    let moment = reader.signed(disk, ledger)?;
    if is_outside(moment) {
        return Err(damaged(start));
    }
    input(disk, ledger, reader)
}
