// Rows on their way to outputs.
ghost use Rattle.std.specs.Prelude.{◌≤◌};
ghost use Rattle.row_output.specs.Few.{places_in};

use crate::Order;
use crate::sink::Sink;
use lp_values::Bytes;
use order_top::Orderer;
use std::alloc::Global;

/// What becomes of rows before they are written.
#[derive(Drop)]
pub(crate) enum Kept {
    /// They go on as they come.
    All,
    /// An order takes them, until the last was put.
    Ordered(Orderer),
}

/// The rows of a query on their way to its outputs.
#[derive(Drop)]
pub struct RowOutput {
    pub(crate) alloc: Global,
    pub(crate) order: Order,
    pub(crate) kept: Kept,
    pub(crate) sink: Sink,
    /// How many rows were put.
    pub put: u64,
    // Room for the end of a text.
    pub(crate) spare: Bytes,
    /// An order has no more rows than were put.
    ghost few: { places_in kept ≤ put },
}
