// The plan of a grouped query.

use query_types::{GroupShape, Plan};

/// What a grouped query asks, by places.
#[derive(Drop)]
pub struct GroupPlan {
    /// What it asks of each row of the table: WHERE, and as items the keys and behind them the arguments of the aggregates.
    pub rows: Plan,
    /// Which groups.
    pub shape: GroupShape,
    /// What it asks of the row of each group, which has the keys, the aggregates, and for each key 1 where it is rolled up and 0 where
    /// it stands: HAVING, as items SELECT, and the order.
    pub groups: Plan,
}
