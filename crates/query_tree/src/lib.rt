//! What a query is: its expressions, conditions and clauses, each with its place in the text.
//!
//! A crate above reads these trees. `specs::Views` says which tree of the grammar each is: the parser promises that
//! tree, and the place of each node is that of its first token. A condition over a subquery keeps the subquery's
//! number, from 0 in the order of the text; `Query::subquery` has it. Once subqueries were run, `Query::fill` tells each IN what
//! its own one gave.
#![tactic(auto)]

mod condition;
mod expression;
mod given;
mod placed;
mod query;

pub use condition::Cond;
pub use expression::{Expr, ExprList, When, WhenList};
pub use given::{Given, GivenList, PlaceList, PlacedGiven};
pub use placed::{Placed, PlacedList};
pub use query::{Item, ItemList, Query, QueryList};
