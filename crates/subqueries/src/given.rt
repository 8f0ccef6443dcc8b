// What subqueries gave.
ghost use Rattle.std.specs.Prelude.{◌≡◌, []};

use lp_values::RowList;
use query_tree::GivenList;
use std::alloc::Global;

/// What the subqueries of a query gave, in their order.
#[derive(Drop)]
pub struct SubqueryValues {
    /// What the IN of each is told.
    pub givens: GivenList,
    /// The list of values that is kept of each; without a checkpoint an empty one.
    pub lists: RowList,
}

impl SubqueryValues {
    /// Nothing yet.
    pub fn new(alloc: Global) -> SubqueryValues
        ensures givens { result.givens ≡ [] }
        ensures lists { result.lists ≡ [] }
    {
        SubqueryValues {
            givens: GivenList::new(alloc),
            lists: RowList::new(alloc),
        }
    }
}
