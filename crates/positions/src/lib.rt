//! Where runs left their logs.
//!
//! To the crates above: [`Positions::load`], the kept places of a ledger, with its input text; [`Positions::advance`],
//! those with an entry more; and [`Positions::span`], what a run reads of the logs behind FROM, from their kept places on,
//! or why it can't. `specs` says what places entries keep (`Places`), and which logs and which faults there are
//! (`Spanning`).
#![tactic(auto, using(ledger::proofs::Resting::rests_then))]

mod advancing;
mod by_name;
mod by_number;
mod entries;
mod fault;
mod fields;
mod known;
mod laws;
mod loading;
mod place;
mod places;
mod span;
mod spans;

pub use fault::LoadFault;
pub use laws::{places_are_kept_places, spans_are_listed};
pub use loading::Positions;
pub use place::Place;
pub use spans::{SpanFault, Spans};
