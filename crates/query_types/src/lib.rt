//! What the expressions of a query mean over a table: their names replaced by columns, their kinds judged, their faults found in
//! their order. The definitions of whole plans stand here too (`specs::Planned`); row_planning makes them.
//!
//! To the crates above: [`meant`] answers exactly what `specs::Meanings` gives an expression, or its first fault, with its place;
//! [`Plan`], [`Condition`] and [`Form`] are what a plan holds: places in the row, constants, and the condition over them. A plan
//! names no column, so nothing is looked up while rows go by, and a pattern is read once.
#![tactic(auto)]

mod alias;
mod callee;
mod calls;
mod condition;
mod expressions;
mod fault;
mod fitting;
mod form;
mod kinds;
mod meaning;
mod ordering;
mod plans;
mod stamps;
mod table;
mod using_columns;

pub use alias::{Alias, AliasList, find_alias};
pub use callee::{Callee, is_aggregate, is_counting};
pub use calls::{known, operation_of, pattern_among};
pub use condition::Condition;
pub use expressions::meant;
pub use fault::TypeFault;
pub use fitting::{agree, fits, if_fits, sharper};
pub use form::{Form, Operation, made};
pub use meaning::{Meaning, MeaningList};
pub use ordering::{is_same_operation, places_asked};
pub use plans::{GroupShape, KindList, PlaceList, Plan, UsedList};
pub use stamps::{moment_as, moment_said, moment_value, stamp_means};
pub use table::{NamedKind, NamedKinds, TableColumns};
pub use using_columns::{mentions, used_columns};
