// A taker that gathers values.
ghost use Rattle.std.specs.Prelude.{◌≡◌};

use lp_values::ValueList;
use std::alloc::Global;

/// Gathers the values of the rows that a picker makes.
#[derive(Drop)]
pub struct Collector<P> {
    pub picker: P,
    /// Room for the values of the record at hand.
    pub values: ValueList,
    /// The row at hand.
    pub row: ValueList,
    pub taken: u64,
}

impl<P: Drop> Collector<P> {
    /// A collector before its first record.
    pub fn new(alloc: Global, picker: P) -> Collector<P>
        ensures picker { result.picker ≡ picker }
        ensures none { result.taken ≡ 0 }
    {
        Collector {
            picker,
            values: ValueList::new(alloc),
            row: ValueList::new(alloc),
            taken: 0,
        }
    }
}
