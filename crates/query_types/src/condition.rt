// A condition once its names are replaced.

use crate::{Meaning, MeaningList};
use in_set::InSet;
use lp_values::{Compare, Text};
use std::rc::Rc;

/// A condition over the rows of a table.
#[derive(Drop)]
pub enum Condition {
    Or(Box<Condition>, Box<Condition>),
    And(Box<Condition>, Box<Condition>),
    Not(Box<Condition>),
    Compare {
        how: Compare,
        left: Meaning,
        right: Meaning,
    },
    IsNull {
        value: Meaning,
        negated: bool,
    },
    Like {
        value: Meaning,
        pattern: Text,
        negated: bool,
    },
    Between {
        value: Meaning,
        low: Meaning,
        high: Meaning,
        negated: bool,
    },
    /// The value is one of these.
    Within {
        value: Meaning,
        items: MeaningList,
        negated: bool,
    },
    /// The value is one of those that a subquery gave.
    Contained {
        value: Meaning,
        values: Rc<InSet>,
        negated: bool,
    },
}
