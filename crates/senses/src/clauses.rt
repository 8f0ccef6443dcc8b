// What the clauses of a query mean, as it lies in memory.

use crate::check::SenseCheck;
use crate::sense::SenseList;

/// What the clauses of a query mean.
#[derive(Drop)]
pub struct SenseClauses {
    pub using: SenseList,
    pub items: SenseList,
    pub condition: Option<SenseCheck>,
    pub keys: SenseList,
    pub having: Option<SenseCheck>,
    pub order: SenseList,
}
