// Conditions.
ghost use Rattle.std.specs.Prelude.{◌≡◌, ◌++◌, IfOk, OnOk, map};
ghost use Rattle.grammar.specs.Trees.{Test as test};
ghost use Rattle.grammar.specs.Trees.{test_place, test_at};
ghost use Rattle.grammar.specs.Filled.{asked_in, filled_test, test_bad, test_logs};
ghost use Rattle.query_tree.specs.Views.{placed_given, test_of, numbers_in};

use crate::given::{add_logs_in, bad_in, given_at, sum};
use crate::{Expr, ExprList, Given, PlaceList, Placed, PlacedGiven};
use lp_values::{Compare, TextList};
use std::alloc::{AllocError, Global};

/// A condition; `at` is the place of its first token, its own outer parentheses included.
pub enum Cond {
    Or {
        at: u32,
        left: Box<Cond>,
        right: Box<Cond>,
    },
    And {
        at: u32,
        left: Box<Cond>,
        right: Box<Cond>,
    },
    Not {
        at: u32,
        inner: Box<Cond>,
    },
    Compare {
        at: u32,
        how: Compare,
        left: Expr,
        right: Expr,
    },
    IsNull {
        at: u32,
        value: Expr,
        negated: bool,
    },
    Like {
        at: u32,
        value: Expr,
        pattern: Placed,
        negated: bool,
    },
    Between {
        at: u32,
        value: Expr,
        low: Expr,
        high: Expr,
        negated: bool,
    },
    InList {
        at: u32,
        value: Expr,
        items: ExprList,
        negated: bool,
    },
    /// `subquery` is the number of the subquery, from 0 in the order of the text; `given` is what it gave, once it was run.
    InQuery {
        at: u32,
        value: Expr,
        subquery: usize,
        negated: bool,
        given: Option<Given>,
    },
}

// A chain of OR or AND may be long, and goes by a loop down its left side.
impl Drop for Cond {
    fn drop(mut self) {
        loop {
            match self {
                Cond::Or { at: _, left, right } => {
                    drop(right);
                    self = Box::into_inner(left);
                }
                Cond::And { at: _, left, right } => {
                    drop(right);
                    self = Box::into_inner(left);
                }
                Cond::Not { at: _, inner } => self = Box::into_inner(inner),
                Cond::Compare {
                    at: _,
                    how: _,
                    left: _,
                    right: _,
                } => return,
                Cond::IsNull {
                    at: _,
                    value: _,
                    negated: _,
                } => return,
                Cond::Like {
                    at: _,
                    value: _,
                    pattern: _,
                    negated: _,
                } => return,
                Cond::Between {
                    at: _,
                    value: _,
                    low: _,
                    high: _,
                    negated: _,
                } => return,
                Cond::InList {
                    at: _,
                    value: _,
                    items: _,
                    negated: _,
                } => return,
                Cond::InQuery {
                    at: _,
                    value: _,
                    subquery: _,
                    negated: _,
                    given: _,
                } => return,
            }
        }
    }
}

impl Cond {
    /// The place of its first token, in bytes.
    pub fn place(&self) -> u32
        ensures { result ≡ test_place (test_of self.now) }
    {
        match self {
            Cond::Or { at, .. } => *at,
            Cond::And { at, .. } => *at,
            Cond::Not { at, .. } => *at,
            Cond::Compare { at, .. } => *at,
            Cond::IsNull { at, .. } => *at,
            Cond::Like { at, .. } => *at,
            Cond::Between { at, .. } => *at,
            Cond::InList { at, .. } => *at,
            Cond::InQuery { at, .. } => *at,
        }
    }

    /// The same condition at another place: that of the parentheses round it.
    pub fn moved(self, at: u32) -> Cond
        ensures test { test_of result ≡ test_at at (test_of self) }
        ensures numbers { numbers_in result ≡ numbers_in self }
    {
        match self {
            Cond::Or { at: _, left, right } => Cond::Or { at, left, right },
            Cond::And { at: _, left, right } => Cond::And { at, left, right },
            Cond::Not { at: _, inner } => Cond::Not { at, inner },
            Cond::Compare {
                at: _,
                how,
                left,
                right,
            } => Cond::Compare {
                at,
                how,
                left,
                right,
            },
            Cond::IsNull {
                at: _,
                value,
                negated,
            } => Cond::IsNull { at, value, negated },
            Cond::Like {
                at: _,
                value,
                pattern,
                negated,
            } => Cond::Like {
                at,
                value,
                pattern,
                negated,
            },
            Cond::Between {
                at: _,
                value,
                low,
                high,
                negated,
            } => Cond::Between {
                at,
                value,
                low,
                high,
                negated,
            },
            Cond::InList {
                at: _,
                value,
                items,
                negated,
            } => Cond::InList {
                at,
                value,
                items,
                negated,
            },
            Cond::InQuery {
                at: _,
                value,
                subquery,
                negated,
                given,
            } => Cond::InQuery {
                at,
                value,
                subquery,
                negated,
                given,
            },
        }
    }

    /// Tells each IN over a subquery what was given for its place.
    pub fn fill(&mut self, givens: &[PlacedGiven]) -> Result<(), AllocError>
        ensures { OnOk result (test_of self.new ≡ filled_test (map placed_given givens.now) (test_of self.old)) }
    {
        match self {
            Cond::Or { at: _, left, right } => {
                left.fill(givens)?;
                right.fill(givens)
            }
            Cond::And { at: _, left, right } => {
                left.fill(givens)?;
                right.fill(givens)
            }
            Cond::Not { at: _, inner } => inner.fill(givens),
            Cond::InQuery {
                at,
                value: _,
                subquery: _,
                negated: _,
                given,
            } => {
                *given = given_at(givens, *at)?;
                Ok(())
            }
            Cond::Compare { .. } => Ok(()),
            Cond::IsNull { .. } => Ok(()),
            Cond::Like { .. } => Ok(()),
            Cond::Between { .. } => Ok(()),
            Cond::InList { .. } => Ok(()),
        }
    }

    /// Adds the places of its INs over subqueries, from left to right.
    pub fn add_asked(&self, places: &mut PlaceList) -> Result<(), AllocError>
        ensures { OnOk result (places.new ≡ places.old ++ asked_in (test_of self.now)) }
    {
        match self {
            Cond::Or { left, right, .. } => {
                left.add_asked(places)?;
                right.add_asked(places)
            }
            Cond::And { left, right, .. } => {
                left.add_asked(places)?;
                right.add_asked(places)
            }
            Cond::Not { inner, .. } => inner.add_asked(places),
            Cond::InQuery { at, .. } => places.push(*at),
            Cond::Compare { .. } => Ok(()),
            Cond::IsNull { .. } => Ok(()),
            Cond::Like { .. } => Ok(()),
            Cond::Between { .. } => Ok(()),
            Cond::InList { .. } => Ok(()),
        }
    }

    /// Adds the names of the logs that its subqueries read.
    pub fn add_logs(&self, alloc: Global, names: &mut TextList) -> Result<(), AllocError>
        ensures { OnOk result (names.new ≡ names.old ++ test_logs (test_of self.now)) }
    {
        match self {
            Cond::Or { left, right, .. } => {
                left.add_logs(alloc, names)?;
                right.add_logs(alloc, names)
            }
            Cond::And { left, right, .. } => {
                left.add_logs(alloc, names)?;
                right.add_logs(alloc, names)
            }
            Cond::Not { inner, .. } => inner.add_logs(alloc, names),
            Cond::InQuery { given, .. } => add_logs_in(alloc, given, names),
            Cond::Compare { .. } => Ok(()),
            Cond::IsNull { .. } => Ok(()),
            Cond::Like { .. } => Ok(()),
            Cond::Between { .. } => Ok(()),
            Cond::InList { .. } => Ok(()),
        }
    }

    /// How many bad lines the logs of its subqueries have; want of memory where that is no number of 64 bits.
    pub fn given_bad(&self) -> Result<u64, AllocError>
        ensures { IfOk result (λ bad. bad ≡ test_bad (test_of self.now)) }
    {
        match self {
            Cond::Or { left, right, .. } => sum(left.given_bad()?, right.given_bad()?),
            Cond::And { left, right, .. } => sum(left.given_bad()?, right.given_bad()?),
            Cond::Not { inner, .. } => inner.given_bad(),
            Cond::InQuery { given, .. } => Ok(bad_in(given)),
            Cond::Compare { .. } => Ok(0),
            Cond::IsNull { .. } => Ok(0),
            Cond::Like { .. } => Ok(0),
            Cond::Between { .. } => Ok(0),
            Cond::InList { .. } => Ok(0),
        }
    }

    /// The first or the second.
    pub fn or(alloc: Global, left: Cond, right: Cond) -> Result<Cond, AllocError>
        ensures test { IfOk result (λ c. test_of c ≡ test.Or (test_place (test_of left)) (test_of left) (test_of right)) }
        ensures numbers { IfOk result (λ c. numbers_in c ≡ numbers_in left ++ numbers_in right) }
    {
        let at = left.place();
        let left = Box::new(alloc, left)?;
        let right = Box::new(alloc, right)?;
        Ok(Cond::Or { at, left, right })
    }

    /// The first and the second.
    pub fn and(alloc: Global, left: Cond, right: Cond) -> Result<Cond, AllocError>
        ensures test { IfOk result (λ c. test_of c ≡ test.And (test_place (test_of left)) (test_of left) (test_of right)) }
        ensures numbers { IfOk result (λ c. numbers_in c ≡ numbers_in left ++ numbers_in right) }
    {
        let at = left.place();
        let left = Box::new(alloc, left)?;
        let right = Box::new(alloc, right)?;
        Ok(Cond::And { at, left, right })
    }

    /// Not the condition.
    pub fn negate(alloc: Global, at: u32, inner: Cond) -> Result<Cond, AllocError>
        ensures test { IfOk result (λ c. test_of c ≡ test.Not at (test_of inner)) }
        ensures numbers { IfOk result (λ c. numbers_in c ≡ numbers_in inner) }
    {
        let inner = Box::new(alloc, inner)?;
        Ok(Cond::Not { at, inner })
    }
}
