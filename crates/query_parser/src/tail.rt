// What stands behind the first expression of a test.
ghost use Rattle.std.specs.Prelude.{◌≡◌};
ghost use Rattle.query_tree.specs.Views.{tree_of, test_of, numbers_in};
ghost use Rattle.query_parser.specs.Conditions.{tested, numbers_in_tail};

use lp_values::Compare;
use query_tree::{Cond, Expr, ExprList, Placed};

/// The values that stand in the parentheses of IN.
#[derive(Drop)]
pub enum Values {
    Listed(ExprList),
    /// Those of the subquery of this number.
    Asked(usize),
}

/// LIKE, BETWEEN or IN.
#[derive(Drop)]
pub enum Range {
    Like(Placed),
    Between(Expr, Expr),
    Within(Values),
}

/// What stands behind the first expression of a test; a `bool` tells of a NOT.
#[derive(Drop)]
pub enum Tail {
    Compared(Compare, Expr),
    Null(bool),
    Ranged(bool, Range),
}

impl Tail {
    /// The test of a value.
    pub fn test(self, value: Expr) -> Cond
        ensures test { test_of result ≡ tested (tree_of value) self }
        ensures numbers { numbers_in result ≡ numbers_in_tail self }
    {
        let at = value.place();
        match self {
            Tail::Compared(how, right) => Cond::Compare {
                at,
                how,
                left: value,
                right,
            },
            Tail::Null(negated) => Cond::IsNull { at, value, negated },
            Tail::Ranged(negated, range) => match range {
                Range::Like(pattern) => Cond::Like {
                    at,
                    value,
                    pattern,
                    negated,
                },
                Range::Between(low, high) => Cond::Between {
                    at,
                    value,
                    low,
                    high,
                    negated,
                },
                Range::Within(values) => match values {
                    Values::Listed(items) => Cond::InList {
                        at,
                        value,
                        items,
                        negated,
                    },
                    Values::Asked(subquery) => Cond::InQuery {
                        at,
                        value,
                        subquery,
                        negated,
                        given: None,
                    },
                },
            },
        }
    }
}
