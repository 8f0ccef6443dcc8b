// The rows of a query to its outputs.
ghost use Rattle.std.specs.Prelude.{◌≡◌, ◌↔◌, ◌≤◌, ◌<◌, ◌+◌, ◌^◌, ◌++◌, ◌∷◌, [], ℕ, List, length, true, OnOk, OnErr, IfOk, IfErr, IsErrOf, IsOk, IsTrue};
ghost use Rattle.std.specs.List.{list_any};
ghost use Rattle.lp_model.specs.Outside.{Rose};
ghost use Rattle.any_format.specs.Wanted.{IsMoment, wanted_text};
ghost use Rattle.order_top.specs.Finish.{Row, Finish, finished, keys_at, same_row};
ghost use Rattle.text_output.specs.Output.{kind_of};
ghost use Rattle.row_output.specs.Asked.{columns_for, left_of};
ghost use Rattle.row_output.specs.FileRows.{OnRefused};
ghost use Rattle.order_top.specs.Ordering.{StandsFor, is_past};
ghost use Rattle.row_output.specs.Rows.{Holds, IsRefused, IsRefusedAt, IsRefusedEarly, Stops, StopsAt};
ghost use Rattle.row_output.specs.Sinks.{HasSinkRows, HoldsLittle, HoldsNoPiece, IsOpened, IsUnplaced, files_for, files_in, purpose_of, sink_text};
ghost use Rattle.row_output.specs.declared.fault.Refused.{Refused as Why};
ghost use Rattle.row_output.specs.Few.{GoOn, places_in};
ghost use Rattle.row_output.specs.Orders.{IsPlain};
ghost use Rattle.row_output.specs.Kept.{DropsAll, GoesPast, HasKept, HasRows, IsKnown, IsNew, IsNewKept, KeepsNone, asked_of};

use crate::kept::{Kept, RowOutput};
use crate::sink::Sink;
use crate::{Into, Order, OutputFault};
use any_format::Wanted;
use lp_outside::Stage;
use lp_values::{Bytes, RowList, TextList, ValueList};
use order_top::Orderer;
use std::alloc::{AllocError, Global};
use std::mem::replace;
use text_output::OutputList;

/// What became of rows.
#[derive(Drop)]
pub struct Finished {
    /// The outputs, in order, without those that were left alone.
    pub outputs: OutputList,
    /// How many rows were left of those that were put.
    pub rows: u64,
}

// What becomes of rows under an order, before the first.
fn kept_under(alloc: Global, order: &Order) -> Result<Kept, AllocError>
    ensures new { IfOk result (λ kept. IsNewKept kept order.now) }
    ensures few { IfOk result (λ kept. places_in kept ≡ 0) }
    ensures streams { IfOk result (λ kept. IsPlain order.now → GoOn kept) }
{
    if order.keeps_all() {
        Ok(Kept::All)
    } else {
        Ok(Kept::Ordered(order.orderer(alloc)?))
    }
}

// Whether an order lets each later row go, whatever it holds: without columns a row goes behind the n rows of TOP n.
fn lets_all_go(order: &Order, orderer: &Orderer) -> bool
    ensures { IsTrue result ↔ ((order.now.columns ≡ []) × IsTrue (is_past orderer.now.finish [] orderer.now.kept)) }
{
    order.is_plain() && orderer.would_drop(&[])
}

// Gives a row to an order, which may let it go at once.
fn keep(
    alloc: Global,
    order: &Order,
    orderer: &mut Orderer,
    row: &mut ValueList,
) -> Result<(), AllocError>
    requires { orderer.old.places < 2 ^ 63 }
    ensures finish { orderer.new.finish ≡ orderer.old.finish }
    ensures places { orderer.new.places ≤ orderer.old.places + 1 }
    ensures stands { OnOk result (orderer.old.finish ≡ order.now → (rows : List Row) → StandsFor orderer.old rows → StandsFor orderer.new (rows ++ row.old ∷ [])) }
    ensures err { OnErr result (orderer.new ≡ orderer.old) }
    // A row that goes behind the n rows of TOP n fails for no want of memory, nor does one that is there already.
    ensures past { is_past orderer.old.finish (keys_at orderer.old.finish.columns row.old) orderer.old.kept ≡ true → IsOk result × (orderer.new ≡ orderer.old) }
    ensures known { orderer.old.finish.distinct ≡ true → list_any (same_row row.old) orderer.old.kept ≡ true → IsOk result × (orderer.new ≡ orderer.old) }
{
    if lets_all_go(order, orderer) {
        return Ok(());
    }
    orderer.put(replace(row, ValueList::new(alloc)))
}

// Puts rows, one after another.
fn put_all<G: Stage>(
    alloc: Global,
    sink: &mut Sink,
    rows: &mut RowList,
    spare: &mut Bytes,
    stage: &mut G,
) -> Result<(), OutputFault>
    ensures purpose { purpose_of sink.new ≡ purpose_of sink.old }
    ensures has { OnOk result ((start : G) → HasSinkRows (kind_of G.state G.ended) sink.old start [] stage.old → HasSinkRows (kind_of G.state G.ended) sink.new start rows.old stage.new) }
    ensures little { OnOk result (0 < length rows.old → (start : G) → HasSinkRows (kind_of G.state G.ended) sink.old start [] stage.old → HoldsLittle sink.new) }
    ensures stop { OnErr result ((start : G) → HasSinkRows (kind_of G.state G.ended) sink.old start [] stage.old → StopsAt (files_in sink.old) (kind_of G.state G.ended) (sink_text sink.old) start rows.old stage.new) }
    ensures refused { IfErr result (OnRefused (λ fault. (start : G) → HasSinkRows (kind_of G.state G.ended) sink.old start [] stage.old → IsRefusedAt (files_in sink.old) rows.old fault)) }
    ensures goes { G.goes stage.old stage.new }
    ensures later { G.faults stage.old ≤ G.faults stage.new }
    ensures failed { IsErrOf result OutputFault.Failed → Rose (G.faults stage.old) (G.faults stage.new) }
{
    for index in 0..rows.len() {
        let mut row = rows.replace(index, ValueList::new(alloc));
        sink.put(&mut row, spare, stage)?;
    }
    Ok(())
}

// Takes a row, to the sink or to an order.
fn take<G: Stage>(
    alloc: Global,
    order: &Order,
    kept: &mut Kept,
    sink: &mut Sink,
    row: &mut ValueList,
    spare: &mut Bytes,
    stage: &mut G,
) -> Result<(), OutputFault>
    requires { places_in kept.old < 2 ^ 63 }
    ensures places { places_in kept.new ≤ places_in kept.old + 1 }
    ensures err { OnErr result (kept.new ≡ kept.old) }
    ensures past { GoesPast kept.old row.old → IsOk result × (kept.new ≡ kept.old) }
    ensures known { IsKnown kept.old row.old → IsOk result × (kept.new ≡ kept.old) }
    ensures streams { GoOn kept.old → GoOn kept.new }
    ensures little { OnOk result (GoOn kept.old → (start : G) (rows : List Row) → HasKept (kind_of G.state G.ended) kept.old order.now sink.old start rows stage.old → HoldsLittle sink.new) }
    ensures purpose { purpose_of sink.new ≡ purpose_of sink.old }
    ensures has { OnOk result ((start : G) (rows : List Row) → HasKept (kind_of G.state G.ended) kept.old order.now sink.old start rows stage.old → HasKept (kind_of G.state G.ended) kept.new order.now sink.new start (rows ++ row.old ∷ []) stage.new) }
    ensures stop { OnErr result ((start : G) (rows more : List Row) → HasKept (kind_of G.state G.ended) kept.old order.now sink.old start rows stage.old → StopsAt (files_in sink.old) (kind_of G.state G.ended) (sink_text sink.old) start (finished order.now (rows ++ (row.old ∷ more))) stage.new) }
    ensures refused { IfErr result (OnRefused (λ fault. (start : G) (rows more : List Row) → HasKept (kind_of G.state G.ended) kept.old order.now sink.old start rows stage.old → IsRefusedAt (files_in sink.old) (finished order.now (rows ++ (row.old ∷ more))) fault)) }
    ensures early { IfErr result (OnRefused (λ fault. (start : G) (rows : List Row) → HasKept (kind_of G.state G.ended) kept.old order.now sink.old start rows stage.old → IsPlain order.now)) }
    ensures goes { G.goes stage.old stage.new }
    ensures later { G.faults stage.old ≤ G.faults stage.new }
    ensures failed { IsErrOf result OutputFault.Failed → Rose (G.faults stage.old) (G.faults stage.new) }
{
    match kept {
        Kept::All => sink.put(row, spare, stage),
        Kept::Ordered(orderer) => match keep(alloc, order, orderer, row) {
            Ok(()) => Ok(()),
            Err(_) => Err(OutputFault::Memory),
        },
    }
}

// Passes on what an order has kept, and answers how many rows are left of all that were put.
fn pass<G: Stage>(
    alloc: Global,
    kept: Kept,
    put: u64,
    sink: &mut Sink,
    spare: &mut Bytes,
    stage: &mut G,
) -> Result<u64, OutputFault>
    ensures purpose { purpose_of sink.new ≡ purpose_of sink.old }
    ensures has { OnOk result ((order : Finish) (start : G) (rows : List Row) → HasKept (kind_of G.state G.ended) kept order sink.old start rows stage.old → HasSinkRows (kind_of G.state G.ended) sink.new start (finished order rows) stage.new) }
    ensures count { IfOk result (λ count. (order : Finish) (start : G) (rows : List Row) → HasKept (kind_of G.state G.ended) kept order sink.old start rows stage.old → put ≡ length rows → count ≡ length (finished order rows)) }
    ensures stop { OnErr result ((order : Finish) (start : G) (rows : List Row) → HasKept (kind_of G.state G.ended) kept order sink.old start rows stage.old → StopsAt (files_in sink.old) (kind_of G.state G.ended) (sink_text sink.old) start (finished order rows) stage.new) }
    ensures refused { IfErr result (OnRefused (λ fault. (order : Finish) (start : G) (rows : List Row) → HasKept (kind_of G.state G.ended) kept order sink.old start rows stage.old → IsRefusedAt (files_in sink.old) (finished order rows) fault)) }
    ensures goes { G.goes stage.old stage.new }
    ensures later { G.faults stage.old ≤ G.faults stage.new }
    ensures failed { IsErrOf result OutputFault.Failed → Rose (G.faults stage.old) (G.faults stage.new) }
{
    match kept {
        Kept::All => Ok(put),
        Kept::Ordered(orderer) => {
            let Ok(mut rows) = orderer.into_rows() else {
                return Err(OutputFault::Memory);
            };
            let left = rows.len() as u64;
            put_all(alloc, sink, &mut rows, spare, stage)?;
            Ok(left)
        }
    }
}

impl RowOutput {
    /// The way to outputs, before the first row.
    pub fn new(
        alloc: Global,
        wanted: Wanted,
        moment: i64,
        into: Into,
        order: Order,
        names: TextList,
    ) -> Result<RowOutput, AllocError>
        requires moment { IsMoment moment }
        requires none { IsUnplaced into }
        ensures asked { IfOk result (λ o. asked_of o ≡ record { files = files_for into; text = wanted_text wanted moment; columns = columns_for (files_for into) names; order = order }) }
        ensures new { IfOk result IsNew }
        // Where nothing is asked of rows none is kept back.
        ensures streams { IfOk result (λ o. IsPlain order → KeepsNone o) }
    {
        let kept = kept_under(alloc, &order)?;
        let sink = Sink::new(alloc, wanted, moment, into, names)?;
        Ok(RowOutput {
            alloc,
            order,
            kept,
            sink,
            put: 0,
            spare: Bytes::new(alloc),
        })
    }

    /// Opens the output of a name without stars, before any row.
    pub fn open<G: Stage>(&mut self, stage: &mut G) -> Result<(), OutputFault>
        ensures asked { asked_of self.new ≡ asked_of self.old }
        ensures has { OnOk result ((start : G) (rows : List Row) → HasRows (kind_of G.state G.ended) self.old start rows stage.old → HasRows (kind_of G.state G.ended) self.new start rows stage.new) }
        ensures stop { OnErr result ((start : G) (rows more : List Row) → HasRows (kind_of G.state G.ended) self.old start rows stage.old → Stops (kind_of G.state G.ended) (asked_of self.old) start (rows ++ more) stage.new) }
        ensures refused { IfErr result (OnRefused (λ fault. (start : G) (rows more : List Row) → HasRows (kind_of G.state G.ended) self.old start rows stage.old → IsRefused (asked_of self.old) (rows ++ more) fault)) }
        ensures early { IfErr result (OnRefused (λ fault. (start : G) (rows : List Row) → HasRows (kind_of G.state G.ended) self.old start rows stage.old → IsRefusedEarly (asked_of self.old) fault)) }
        ensures opened { OnOk result ((start : G) (rows : List Row) → HasRows (kind_of G.state G.ended) self.old start rows stage.old → IsOpened self.new.sink) }
        // An output of a name without stars is refused here, if at all.
        ensures named { OnOk result ((start : G) (rows : List Row) → HasRows (kind_of G.state G.ended) self.old start rows stage.old → (why : Why) → IsRefused (asked_of self.old) [] why → ⊥) }
        ensures count { self.new.put ≡ self.old.put }
        ensures streams { KeepsNone self.old → KeepsNone self.new }
        ensures goes { G.goes stage.old stage.new }
        ensures later { G.faults stage.old ≤ G.faults stage.new }
        ensures failed { IsErrOf result OutputFault.Failed → Rose (G.faults stage.old) (G.faults stage.new) }
    {
        self.sink.open(stage)
    }

    /// Takes a row. What it held may be moved.
    pub fn put<G: Stage>(&mut self, row: &mut ValueList, stage: &mut G) -> Result<(), OutputFault>
        requires room { self.old.put < 2 ^ 63 }
        ensures asked { asked_of self.new ≡ asked_of self.old }
        ensures has { OnOk result ((start : G) (rows : List Row) → HasRows (kind_of G.state G.ended) self.old start rows stage.old → HasRows (kind_of G.state G.ended) self.new start (rows ++ row.old ∷ []) stage.new) }
        ensures stop { OnErr result ((start : G) (rows more : List Row) → HasRows (kind_of G.state G.ended) self.old start rows stage.old → Stops (kind_of G.state G.ended) (asked_of self.old) start (rows ++ (row.old ∷ more)) stage.new) }
        ensures refused { IfErr result (OnRefused (λ fault. (start : G) (rows more : List Row) → HasRows (kind_of G.state G.ended) self.old start rows stage.old → IsRefused (asked_of self.old) (rows ++ (row.old ∷ more)) fault)) }
        ensures early { IfErr result (OnRefused (λ fault. (start : G) (rows : List Row) → HasRows (kind_of G.state G.ended) self.old start rows stage.old → IsRefusedEarly (asked_of self.old) fault)) }
        ensures count { OnOk result (self.new.put ≡ self.old.put + 1) }
        ensures uncounted { OnErr result (self.new.put ≡ self.old.put) }
        // A row that an order lets go fails for no want of memory: it is looked at before it is copied.
        ensures past { GoesPast self.old.kept row.old → IsOk result × (self.new.kept ≡ self.old.kept) }
        ensures known { IsKnown self.old.kept row.old → IsOk result × (self.new.kept ≡ self.old.kept) }
        ensures streams { KeepsNone self.old → KeepsNone self.new }
        ensures little { OnOk result (KeepsNone self.old → (start : G) (rows : List Row) → HasRows (kind_of G.state G.ended) self.old start rows stage.old → HoldsLittle self.new.sink) }
        ensures goes { G.goes stage.old stage.new }
        ensures later { G.faults stage.old ≤ G.faults stage.new }
        ensures failed { IsErrOf result OutputFault.Failed → Rose (G.faults stage.old) (G.faults stage.new) }
    {
        take(
            self.alloc,
            &self.order,
            &mut self.kept,
            &mut self.sink,
            row,
            &mut self.spare,
            stage,
        )?;
        self.put += 1;
        Ok(())
    }

    /// Hands on the whole pieces of the text on its way to standard output.
    pub fn hand_on<G: Stage>(&mut self, stage: &mut G) -> Result<(), OutputFault>
        ensures asked { asked_of self.new ≡ asked_of self.old }
        ensures has { OnOk result ((start : G) (rows : List Row) → HasRows (kind_of G.state G.ended) self.old start rows stage.old → HasRows (kind_of G.state G.ended) self.new start rows stage.new) }
        ensures stop { OnErr result ((start : G) (rows more : List Row) → HasRows (kind_of G.state G.ended) self.old start rows stage.old → Stops (kind_of G.state G.ended) (asked_of self.old) start (rows ++ more) stage.new) }
        ensures refused { IfErr result (OnRefused (λ fault. (start : G) (rows more : List Row) → HasRows (kind_of G.state G.ended) self.old start rows stage.old → IsRefused (asked_of self.old) (rows ++ more) fault)) }
        ensures early { IfErr result (OnRefused (λ fault. (start : G) (rows : List Row) → HasRows (kind_of G.state G.ended) self.old start rows stage.old → IsRefusedEarly (asked_of self.old) fault)) }
        ensures handed { OnOk result (HoldsNoPiece self.new.sink) }
        ensures count { self.new.put ≡ self.old.put }
        ensures streams { KeepsNone self.old → KeepsNone self.new }
        ensures goes { G.goes stage.old stage.new }
        ensures later { G.faults stage.old ≤ G.faults stage.new }
        ensures failed { IsErrOf result OutputFault.Failed → Rose (G.faults stage.old) (G.faults stage.new) }
    {
        self.sink.hand_on(&mut self.spare, stage)
    }

    /// Whether each later row is dropped, whatever it holds.
    pub fn drops_all(&self) -> bool
        ensures { IsTrue result ↔ DropsAll self.now }
    {
        match &self.kept {
            Kept::All => false,
            Kept::Ordered(orderer) => lets_all_go(&self.order, orderer),
        }
    }

    /// Counts a row as put, which nobody made, where each is dropped. The stage stays as it is.
    pub fn skip<G: Stage>(&mut self, stage: &G)
        requires room { self.old.put < 2 ^ 63 }
        requires drops { DropsAll self.old }
        ensures asked { asked_of self.new ≡ asked_of self.old }
        ensures has { (start : G) (rows : List Row) (row : Row) → HasRows (kind_of G.state G.ended) self.old start rows stage.now → HasRows (kind_of G.state G.ended) self.new start (rows ++ row ∷ []) stage.now }
        ensures count { self.new.put ≡ self.old.put + 1 }
        ensures streams { KeepsNone self.old → KeepsNone self.new }
    {
        self.put += 1;
    }

    /// Writes what an order has kept, and ends all outputs.
    pub fn finish<G: Stage>(&mut self, stage: &mut G) -> Result<Finished, OutputFault>
        ensures hold { IfOk result (λ finished. (start : G) (rows : List Row) → HasRows (kind_of G.state G.ended) self.old start rows stage.old → Holds (kind_of G.state G.ended) (asked_of self.old) start rows finished.outputs stage.new) }
        ensures rows { IfOk result (λ finished. (start : G) (rows : List Row) → HasRows (kind_of G.state G.ended) self.old start rows stage.old → finished.rows ≡ length (left_of (asked_of self.old) rows)) }
        ensures stop { OnErr result ((start : G) (rows : List Row) → HasRows (kind_of G.state G.ended) self.old start rows stage.old → Stops (kind_of G.state G.ended) (asked_of self.old) start rows stage.new) }
        ensures refused { IfErr result (OnRefused (λ fault. (start : G) (rows : List Row) → HasRows (kind_of G.state G.ended) self.old start rows stage.old → IsRefused (asked_of self.old) rows fault)) }
        ensures count { self.new.put ≡ self.old.put }
        ensures goes { G.goes stage.old stage.new }
        ensures later { G.faults stage.old ≤ G.faults stage.new }
        ensures failed { IsErrOf result OutputFault.Failed → Rose (G.faults stage.old) (G.faults stage.new) }
    {
        let kept = replace(&mut self.kept, Kept::All);
        let rows = pass(
            self.alloc,
            kept,
            self.put,
            &mut self.sink,
            &mut self.spare,
            stage,
        )?;
        let outputs = self.sink.end(self.alloc, stage)?;
        Ok(Finished { outputs, rows })
    }
}
