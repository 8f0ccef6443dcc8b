// A condition of a query with groups once its names are replaced.

use crate::sense::{SenseForm, SenseList};
use in_set::InSet;
use lp_values::{Compare, Text};
use std::rc::Rc;

/// A condition, with the places of its fields, aggregates and GROUPINGs.
#[derive(Drop)]
pub enum SenseCheck {
    Or(Box<SenseCheck>, Box<SenseCheck>),
    And(Box<SenseCheck>, Box<SenseCheck>),
    Not(Box<SenseCheck>),
    Compare {
        how: Compare,
        left: SenseForm,
        right: SenseForm,
    },
    IsNull {
        value: SenseForm,
        negated: bool,
    },
    Like {
        value: SenseForm,
        pattern: Text,
        negated: bool,
    },
    Between {
        value: SenseForm,
        low: SenseForm,
        high: SenseForm,
        negated: bool,
    },
    /// The value is one of these.
    Within {
        value: SenseForm,
        items: SenseList,
        negated: bool,
    },
    /// The value is one of those that a subquery gave.
    Contained {
        value: SenseForm,
        values: Rc<InSet>,
        negated: bool,
    },
}
