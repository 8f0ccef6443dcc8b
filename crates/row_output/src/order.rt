// What a query asks of its rows.
ghost use Rattle.std.specs.Prelude.{◌≡◌, ◌↔◌, [], IfOk, IsTrue};
ghost use Rattle.order_top.specs.Ordering.{StandsFor};
ghost use Rattle.row_output.specs.Orders.{IsPlain};

use order_top::Orderer;
use std::alloc::{AllocError, Global};
use std::marker::Model;

/// What a query asks of its rows: their order, by places in a row, whether each stands once, and how many at most.
#[derive(Drop)]
pub struct Order {
    pub columns: Vec<usize>,
    pub descending: bool,
    pub distinct: bool,
    pub top: Option<u64>,
}

impl Model for Order {
    ghost use Rattle.order_top.specs.Finish.{Finish};

    ghost Value = { Finish };

    ghost view = { λ o. record { columns = o.columns.items; descending = o.descending; distinct = o.distinct; top = o.top } };
}

impl Order {
    // Whether rows stay in the order in which they come.
    pub(crate) fn is_plain(&self) -> bool
        ensures { IsTrue result ↔ (self.now.columns ≡ []) }
    {
        self.columns.is_empty()
    }

    // Whether it leaves all rows as they come.
    pub(crate) fn keeps_all(&self) -> bool
        ensures { IsTrue result ↔ IsPlain self.now }
    {
        self.is_plain() && !self.distinct && self.top.is_none()
    }

    // An orderer that no row was given.
    pub(crate) fn orderer(&self, alloc: Global) -> Result<Orderer, AllocError>
        ensures finish { IfOk result (λ orderer. orderer.finish ≡ self.now) }
        ensures places { IfOk result (λ orderer. orderer.places ≡ 0) }
        ensures stands { IfOk result (λ orderer. StandsFor orderer []) }
    {
        let mut columns = Vec::with_capacity(alloc, self.columns.len())?;
        columns.extend_from_slice(self.columns.as_slice())?;
        Ok(Orderer::new(alloc, columns, self.descending, self.distinct, self.top))
    }
}
