// What a subquery gave.
use in_set::InSet;
use lp_values::{Kind, ValueList};

/// What a subquery gave whose plan was known before.
#[derive(Drop)]
pub struct GivenValues {
    pub values: InSet,
    /// The values that are kept beside the set of them.
    pub kept: ValueList,
    /// Bad lines among its logs.
    pub bad: u64,
}

/// What a subquery gave whose plan the logs told.
#[derive(Drop)]
pub struct SampledValues {
    /// The kind of its expression.
    pub kind: Kind,
    pub values: InSet,
    /// The values that are kept beside the set of them.
    pub kept: ValueList,
    /// Bad lines among its logs.
    pub bad: u64,
}
