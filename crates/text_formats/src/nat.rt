// Tables to be read by people.
ghost use Rattle.std.specs.Prelude.{◌≡◌, ◌||◌, ◌∷◌, ◌++◌, [], false, map, nat_lt, length, IfOk, OnOk, OnErr};
ghost use Rattle.std.proofs.lemmas.Bool.{false≢true};
ghost use Rattle.lp_model.specs.Outside.{GrowsIn};
ghost use Rattle.lp_values.specs.declared.value.Value.TheVariants.{Text};
ghost use Rattle.text_formats.specs.Nat.{is_full, title, gap_before, nat_of, IsNatText};
ghost use Rattle.text_formats.specs.NatBeginning.{nat_begins};
ghost use Rattle.text_formats.specs.Tables.{block_text};

use crate::line::Line;
use crate::table::add_block;
use lp_values::{Bytes, ListOf, TextList, Value, ValueList};
use output_formats::{Headers, Shape};
use std::alloc::{AllocError, Global};
use std::marker::Model;
use std::mem;

/// Tables: a block of rows is laid out when it is full, and the last one at the end. Columns are as wide as their widest
/// cell in the block, and an empty line stands between blocks.
#[derive(Drop)]
pub struct Nat {
    alloc: Global,
    rtp: Option<u32>,
    headers: Headers,
    title: Line,
    // Whether no block is out.
    first: bool,
    held: Vec<Line>,
    // Lines of blocks that are out, whose memory the next rows take.
    spare: Vec<Line>,
    widths: ListOf<usize>,
    scratch: Bytes,
}

impl Model for Nat {
    ghost use Rattle.text_formats.specs.Nat.{NatState};

    ghost Value = { NatState };

    ghost view = { λ s. record { limit = s.rtp; headers = s.headers; title = s.title; first = s.first; held = s.held.items } };
}

impl Nat {
    /// Blocks of `rtp` rows, or one of all.
    pub fn new(alloc: Global, rtp: Option<u32>, headers: Headers) -> Self
        ensures limit { result.limit ≡ rtp }
        ensures headers { result.headers ≡ headers }
    {
        Nat {
            alloc,
            rtp,
            headers,
            title: Line::new(alloc),
            first: true,
            held: Vec::new(alloc),
            spare: Vec::new(alloc),
            widths: ListOf::new(alloc),
            scratch: Bytes::new(alloc),
        }
    }
}

fn is_full(limit: Option<u32>, count: usize) -> bool
    ensures { result ≡ is_full limit count }
{
    match limit {
        None => false,
        Some(limit) => count == limit as usize,
    }
}

// The names as values.
fn values_of(alloc: Global, names: &TextList) -> Result<ValueList, AllocError>
    ensures { IfOk result (λ row. row ≡ map Text names.now) }
{
    let mut row = ValueList::new(alloc);
    for name in names.as_slice() {
        row.push(Value::Text(name.copy(alloc)?))?;
    }
    Ok(row)
}

// The names as a row.
fn title_of(alloc: Global, names: &TextList, scratch: &mut Bytes) -> Result<Line, AllocError>
    ensures { IfOk result (λ line. line ≡ title names.now) }
{
    let values = values_of(alloc, names)?;
    Line::new(alloc).refilled(&values, scratch)
}

// A line that is there, or a new one.
fn line_from(alloc: Global, spare: &mut Vec<Line>) -> Line {
    match spare.pop() {
        None => Line::new(alloc),
        Some(line) => line,
    }
}

fn add_gap(first: bool, to: &mut Bytes) -> Result<(), AllocError>
    ensures ok { OnOk result (to.new ≡ to.old ++ gap_before first) }
    ensures err { OnErr result (to.new ≡ to.old) }
{
    if first { Ok(()) } else { to.push(b'\n') }
}

// Appends a block, with an empty line before it where others are out.
fn add_next(
    first: bool,
    headers: Headers,
    title: &Line,
    rows: &[Line],
    widths: &mut ListOf<usize>,
    to: &mut Bytes,
) -> Result<(), AllocError>
    ensures ok { OnOk result (to.new ≡ to.old ++ (gap_before first ++ block_text headers title.now rows.now)) }
    ensures err { OnErr result (GrowsIn to.old to.new (gap_before first ++ block_text headers title.now rows.now)) }
{
    add_gap(first, to)?;
    add_block(headers, title, rows, widths, to)
}

impl Nat {
    ghost use Rattle.text_formats.specs.Nat.{Rows};
    ghost use Rattle.text_formats.specs.Tables.{Cells, cells_of};

    // Appends the block that is held.
    fn add_held(&mut self, to: &mut Bytes) -> Result<(), AllocError>
        ensures ok { OnOk result (to.new ≡ to.old ++ (gap_before self.old.first ++ block_text self.old.headers self.old.title self.old.held)) }
        ensures err { OnErr result (GrowsIn to.old to.new (gap_before self.old.first ++ block_text self.old.headers self.old.title self.old.held)) }
        ensures same { self.new ≡ self.old }
    {
        add_next(
            self.first,
            self.headers,
            &self.title,
            self.held.as_slice(),
            &mut self.widths,
            to,
        )
    }

    // Holds a row.
    fn hold(&mut self, values: &ValueList) -> Result<(), AllocError>
        ensures ok { OnOk result (self.new ≡ record self.old { held = self.old.held ++ cells_of values.now ∷ [] }) }
        ensures err { OnErr result (self.new ≡ self.old) }
    {
        let line = line_from(self.alloc, &mut self.spare).refilled(values, &mut self.scratch)?;
        self.held.push(line)?;
        Ok(())
    }

    fn is_full(&self) -> bool
        ensures { result ≡ is_full self.now.limit (length self.now.held) }
    {
        is_full(self.rtp, self.held.len())
    }

    // Whether a block is left to be written at the end.
    fn has_left(&self) -> bool
        ensures { result ≡ (self.now.first || nat_lt 0 (length self.now.held)) }
    {
        self.first || !self.held.is_empty()
    }

    // Lets go the last row that is held.
    fn forget_last(&mut self)
        ensures { (row : Cells) (rows : Rows) → self.old.held ≡ rows ++ row ∷ [] → self.new ≡ record self.old { held = rows } }
    {
        self.held.pop();
    }

    // Begins the next block, in the memory of this one.
    fn begin_next(&mut self)
        ensures { self.new ≡ record self.old { first = false; held = [] } }
    {
        mem::swap(&mut self.held, &mut self.spare);
        self.held.clear();
        self.first = false;
    }

    // Appends the block that is held, and begins the next one; after an `Err` the last row isn't held.
    fn put_held(&mut self, to: &mut Bytes) -> Result<(), AllocError>
        ensures ok { OnOk result (to.new ≡ to.old ++ (gap_before self.old.first ++ block_text self.old.headers self.old.title self.old.held)) }
        ensures next { OnOk result (self.new ≡ record self.old { first = false; held = [] }) }
        ensures err { OnErr result (GrowsIn to.old to.new (gap_before self.old.first ++ block_text self.old.headers self.old.title self.old.held)) }
        ensures forgotten { OnErr result ((row : Cells) (rows : Rows) → self.old.held ≡ rows ++ row ∷ [] → self.new ≡ record self.old { held = rows }) }
    {
        match self.add_held(to) {
            Ok(()) => {
                self.begin_next();
                Ok(())
            }
            Err(error) => {
                self.forget_last();
                Err(error)
            }
        }
    }
}

impl Shape for Nat {
    ghost text = { λ s. nat_of s.limit s.headers };

    ghost has_text = { λ s fresh names rows so_far. IsNatText s names rows so_far };

    ghost shown = { λ s rows. rows };

    ghost at_once = { λ s. false };

    fn begin(&mut self, names: &TextList, fresh: bool, to: &mut Bytes) -> Result<(), AllocError> {
        self.title = title_of(self.alloc, names, &mut self.scratch)?;
        self.held.clear();
        self.first = true;
        Ok(())
    }

    fn row(&mut self, values: &ValueList, to: &mut Bytes) -> Result<(), AllocError> {
        self.hold(values)?;
        if self.is_full() {
            self.put_held(to)
        } else {
            Ok(())
        }
    }

    fn count(&self, put: u64) -> u64 {
        put
    }

    fn end(&mut self, to: &mut Bytes) -> Result<(), AllocError> {
        if self.has_left() {
            self.add_held(to)
        } else {
            Ok(())
        }
    }

    ghost begins = { λ s fresh names rows more so_far is. nat_begins s fresh names rows more so_far is };

    ghost whole = { λ s fresh names rows so_far once is. absurd (false≢true once) };
}
