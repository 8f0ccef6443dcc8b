// The outputs of an entry, read one after another.
#![tactic(auto, using(crate::proofs::Resting::rests_then))]

ghost use Rattle.std.specs.Prelude.{◌≡◌, ◌<◌, ◌+◌, ◌^◌, ℕ, List, length, Some, slice_get, IfOk, IsErrOf, MatchResult};
ghost use Rattle.ledger_model.specs.Entries.{Entry};
ghost use Rattle.ledger.specs.Reader.{Rests, Looks, HasReason, Holds, CanRead, IsRead, RefusedAt};
ghost use Rattle.ledger.specs.Written.{output_of};
ghost use Rattle.ledger.specs.Outputs.{loose_head, loose_front, outputs_front, loose_output, HoldsEntry, FindsOutputs, StandsBefore, parts_of};

use crate::checking::{check_kept, check_texts, text};
use crate::passing::TextKind;
use crate::placing::take_place;
use crate::{EntryReader, LedgerRefused, Output};
use lp_outside::{Disk, Name};
use std::marker::Model;

fn skip_head<D: Disk>(
    disk: &mut D,
    ledger: &Name,
    reader: &mut EntryReader,
) -> Result<(), LedgerRefused>
    ensures looks { Looks loose_head (D.state disk.old) (D.state disk.new) ledger.now reader.old reader.new result }
    ensures rests { Rests (D.state disk.old) (D.state disk.new) }
    ensures reason { HasReason (D.faults disk.old) (D.faults disk.new) result }
{
    reader.byte(disk, ledger)?;
    reader.signed(disk, ledger)?;
    text(disk, ledger, reader, TextKind::Any)
}

/// All that stands before the stage's length.
fn skip_front<D: Disk>(
    disk: &mut D,
    ledger: &Name,
    reader: &mut EntryReader,
) -> Result<(), LedgerRefused>
    ensures looks { Looks loose_front (D.state disk.old) (D.state disk.new) ledger.now reader.old reader.new result }
    ensures rests { Rests (D.state disk.old) (D.state disk.new) }
    ensures reason { HasReason (D.faults disk.old) (D.faults disk.new) result }
{
    skip_head(disk, ledger, reader)?;
    check_texts(disk, ledger, reader)?;
    check_kept(disk, ledger, reader)
}

/// Reads the outputs of an entry, one after another.
#[derive(Drop)]
pub struct OutputReader {
    reader: EntryReader,
    staged: u64,
    count: u32,
}

impl Model for OutputReader {
    ghost use Rattle.ledger.specs.Outputs.{Cursor};

    ghost Value = { Cursor };

    ghost view = { λ o. record { position = o.reader; staged = o.staged; count = o.count } };
}

impl OutputReader {
    ghost use Rattle.ledger.specs.declared.refused.LedgerRefused.TheVariants.{LedgerFault};
    ghost use Rattle.ledger.specs.declared.refused.Part2.TheVariants.{Ledger};
    ghost use Rattle.ledger.specs.declared.refused.Part2.{Part2};

    /// A reader of the outputs of the entry whose payload stands from one place up to another.
    pub fn find<D: Disk>(
        disk: &mut D,
        ledger: &Name,
        from: u64,
        to: u64,
    ) -> Result<OutputReader, LedgerRefused>
        ensures found { IfOk result (λ o. (entry : Entry) → HoldsEntry (D.state disk.old) ledger.now from to entry
            → (o.staged ≡ entry.staged) × (o.count ≡ length entry.outputs) × StandsBefore (D.state disk.new) ledger.now entry 0 o) }
        // Of bytes that are no entry the first field that doesn't fit is told.
        ensures reads { (file : List ℕ) → Holds (D.state disk.old) ledger.now file → MatchResult result (FindsOutputs file to from) (RefusedAt outputs_front file to from) }
        ensures fault { (part : Part2) (p : ℕ) → IsErrOf result (LedgerFault part p) → (entry : Entry) → HoldsEntry (D.state disk.old) ledger.now from to entry → ⊥ }
        ensures rests { Rests (D.state disk.old) (D.state disk.new) }
        ensures reason { HasReason (D.faults disk.old) (D.faults disk.new) result }
    {
        let mut reader = EntryReader::new(from, to);
        match skip_front(disk, ledger, &mut reader) {
            Ok(()) => {}
            Err(refused) => return Err(refused),
        }
        let staged = match reader.number(disk, ledger) {
            Ok(staged) => staged,
            Err(refused) => return Err(refused),
        };
        match reader.word(disk, ledger) {
            Ok(count) => Ok(OutputReader {
                reader,
                staged,
                count,
            }),
            Err(refused) => Err(refused),
        }
    }

    /// The stage's length, as the entry tells it.
    pub fn staged(&self) -> u64
        ensures { result ≡ self.now.staged }
    {
        self.staged
    }

    /// The number of outputs.
    pub fn count(&self) -> u32
        ensures { result ≡ self.now.count }
    {
        self.count
    }

    /// The next output.
    pub fn take<D: Disk>(&mut self, disk: &mut D, ledger: &Name) -> Result<Output, LedgerRefused>
        ensures staged { self.new.staged ≡ self.old.staged }
        ensures count { self.new.count ≡ self.old.count }
        ensures taken { IfOk result (λ output. (entry : Entry) (k : ℕ) → StandsBefore (D.state disk.old) ledger.now entry k self.old → k < length entry.outputs
            → (slice_get entry.outputs k ≡ Some (output_of output)) × StandsBefore (D.state disk.new) ledger.now entry (k + 1) self.new) }
        // Of bytes that are no output the first field that doesn't fit is told.
        ensures reads { (file : List ℕ) (to : ℕ) → CanRead (D.state disk.old) ledger.now file to self.old.position → CanRead (D.state disk.new) ledger.now file to self.new.position
            × MatchResult result (λ output. IsRead loose_output file to self.old.position.at self.new.position.at (parts_of (output_of output))) (RefusedAt loose_output file to self.old.position.at) }
        ensures end { IfOk result (λ output. output.base + output.mark.length < 2 ^ 63) }
        ensures fault { (part : Part2) (p : ℕ) → IsErrOf result (LedgerFault part p) → (entry : Entry) (k : ℕ) → StandsBefore (D.state disk.old) ledger.now entry k self.old → k < length entry.outputs → ⊥ }
        ensures rests { Rests (D.state disk.old) (D.state disk.new) }
        ensures reason { HasReason (D.faults disk.old) (D.faults disk.new) result }
    {
        let name = match self.reader.take_name(disk, ledger) {
            Ok(name) => name,
            Err(refused) => return Err(refused),
        };
        let place = match take_place(disk, ledger, &mut self.reader) {
            Ok(place) => place,
            Err(refused) => return Err(refused),
        };
        Ok(Output {
            name,
            base: place.0,
            mark: place.1,
        })
    }
}
