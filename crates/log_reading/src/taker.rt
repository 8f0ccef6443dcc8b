// What takes the rows of logs.
ghost use Rattle.std.specs.Prelude.{◌≡◌, ◌≤◌, ◌<◌, ◌+◌, ◌^◌, ◌++◌, ◌∷◌, [], ℕ, List, OnOk, OnErr, IsErrOf};
ghost use Rattle.lp_model.specs.Outside.{Rose};
ghost use Rattle.lp_model.specs.Reading.{records_read, rows};
ghost use Rattle.line_input.specs.Taken.{slots_of};
ghost use Rattle.log_reading.specs.Found.{Met, met_of, log_ended};

use line_input::{Columns, Fields};
use lp_outside::Name;
use std::alloc::Global;

#[derive(Debug, Drop)]
pub enum TakeFault {
    Memory,
    /// The output failed.
    Failed,
    /// The taker wants no more rows.
    Stopped,
}

/// Why the lines of a log weren't all taken.
#[derive(Debug, Drop)]
pub enum LineFault {
    Memory,
    /// The output failed.
    Failed,
    /// The taker wants no more rows.
    Stopped,
    /// The bad line of this number is one too many.
    Bad { row: u64 },
}

/// Takes what a run meets in its logs, rows and the ends of logs, one after the other, with an output `O` at hand: a writer, a
/// table of groups, a list of values.
///
/// The loop over logs knows a taker by its relations and their laws alone.
pub trait Taker<O> {
    /// From the first state and output it has taken this to the second state and output.
    ghost takes: { Self → O → List Met → Self → O → Type 0 };

    /// It stopped within this, and has left this state and output.
    ghost stops: { Self → O → List Met → Self → O → Type 0 };

    /// It wants no more rows.
    ghost stopped: { Self → Type 0 };

    /// How many rows it has taken.
    ghost count: { Self → ℕ };

    /// How often the output has failed.
    ghost faults: { O → ℕ };

    /// What the output lets stand from one moment to a later one, whether or not a row was taken.
    ghost goes: { O → O → Type 0 };

    /// Nothing is kept back that may go on to the output.
    ghost handed_on: { Self → O → Type 0 };

    /// Takes a row, whose fields may be parts of this line.
    fn take(
        &mut self,
        alloc: Global,
        identity: &Name,
        number: u64,
        columns: &Option<Columns>,
        line: &[u8],
        fields: &Fields,
        out: &mut O,
    ) -> Result<(), TakeFault>
        requires number { number < 2 ^ 63 }
        requires room { count self.old < 2 ^ 63 }
        ensures takes { OnOk result (takes self.old out.old (met_of identity.now (records_read number columns.now (rows (slots_of line.now fields.now ∷ [])))) self.new out.new) }
        ensures stops { OnErr result (stops self.old out.old (met_of identity.now (records_read number columns.now (rows (slots_of line.now fields.now ∷ [])))) self.new out.new) }
        ensures count { OnOk result (count self.new ≡ count self.old + 1) }
        ensures goes { goes out.old out.new }
        ensures later { faults out.old ≤ faults out.new }
        ensures failed { IsErrOf result TakeFault.Failed → Rose (faults out.old) (faults out.new) }
        ensures stopped { IsErrOf result TakeFault.Stopped → stopped self.new };

    /// Takes the end of a log, behind its last row, with the columns that are in force there.
    fn end_log(
        &mut self,
        alloc: Global,
        identity: &Name,
        columns: &Option<Columns>,
        out: &mut O,
    ) -> Result<(), TakeFault>
        ensures takes { OnOk result (takes self.old out.old (log_ended identity.now columns.now ∷ []) self.new out.new) }
        ensures stops { OnErr result (stops self.old out.old (log_ended identity.now columns.now ∷ []) self.new out.new) }
        ensures count { OnOk result (count self.new ≡ count self.old) }
        ensures goes { goes out.old out.new }
        ensures later { faults out.old ≤ faults out.new }
        ensures failed { IsErrOf result TakeFault.Failed → Rose (faults out.old) (faults out.new) }
        ensures stopped { IsErrOf result TakeFault.Stopped → stopped self.new };

    /// Hands on what may go on to the output: behind the lines of each piece of a log, before more is read, and behind its end.
    fn hand_on(&mut self, out: &mut O) -> Result<(), TakeFault>
        ensures takes { OnOk result (takes self.old out.old [] self.new out.new) }
        ensures stops { OnErr result (stops self.old out.old [] self.new out.new) }
        ensures handed { OnOk result (handed_on self.new out.new) }
        ensures count { OnOk result (count self.new ≡ count self.old) }
        ensures goes { goes out.old out.new }
        ensures later { faults out.old ≤ faults out.new }
        ensures failed { IsErrOf result TakeFault.Failed → Rose (faults out.old) (faults out.new) }
        ensures stopped { IsErrOf result TakeFault.Stopped → stopped self.new };

    ghost goes_nowhere: { (w : O) → goes w w };

    ghost goes_on: { (u v w : O) → goes u v → goes v w → goes u w };

    ghost takes_none: { (s : Self) (w : O) → takes s w [] s w };

    ghost takes_more: { (a b c : Self) (u v w : O) (xs ys : List Met) → takes a u xs b v → takes b v ys c w → takes a u (xs ++ ys) c w };

    ghost stops_here: { (a b : Self) (u v : O) (xs ys : List Met) → takes a u xs b v → stops a u (xs ++ ys) b v };

    ghost stops_later: { (a b c : Self) (u v w : O) (xs ys : List Met) → takes a u xs b v → stops b v ys c w → stops a u (xs ++ ys) c w };

    ghost stops_more: { (a c : Self) (u w : O) (xs ys : List Met) → stops a u xs c w → stops a u (xs ++ ys) c w };
}
