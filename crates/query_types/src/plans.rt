// The plan of a query.
ghost use Rattle.std.specs.Prelude.{◌≡◌, false, get_or};

use crate::{Condition, MeaningList};
use lp_values::{AggList, Kind, ListOf, TextList};

pub type KindList = ListOf<Kind>;

/// For each column of a table whether it is used.
pub type UsedList = ListOf<bool>;

/// Places of output columns.
pub type PlaceList = ListOf<usize>;

/// Which groups a query asks for: how many keys it has, its aggregates, and whether shorter lists of keys have groups too.
#[derive(Drop)]
pub struct GroupShape {
    pub keys: u32,
    pub aggregates: AggList,
    pub rollup: bool,
}

/// What a query asks of each row of a table, by places.
#[derive(Drop)]
pub struct Plan {
    /// What each output column is.
    pub items: MeaningList,
    /// The names of the output columns.
    pub names: TextList,
    /// The kinds of the output columns.
    pub kinds: KindList,
    /// WHERE; `None` keeps each row.
    pub condition: Option<Condition>,
    /// Which columns of the table words of the query mean.
    pub used: UsedList,
    /// The output columns that rows are ordered by, the first before the others; none where they stay as they come.
    pub order: PlaceList,
}

impl Plan {
    /// The names of the output columns.
    pub fn names(&self) -> &TextList
        ensures { result.now ≡ self.now.names }
    {
        &self.names
    }

    /// The kinds of the output columns.
    pub fn kinds(&self) -> &KindList
        ensures { result.now ≡ self.now.kinds }
    {
        &self.kinds
    }

    /// The places of the output columns that rows are ordered by.
    pub fn order(&self) -> &PlaceList
        ensures { result.now ≡ self.now.order }
    {
        &self.order
    }

    /// Whether a word of the query means this column of the table; under `*` each is meant.
    pub fn uses(&self, column: usize) -> bool
        ensures { result ≡ get_or self.now.used column false }
    {
        self.used.get(column).copied().unwrap_or(false)
    }
}
