//! The reading of logs: spans to pieces, pieces to lines, lines to rows, and rows to a taker.
//!
//! One loop for every input format, every taker and every output. To the crate above: [`take_spans`] gives the taker exactly the records of the spans, in order, and says after a refusal that the taker stopped within them; it reads no byte twice and none past a span's cut, and keeps one piece and one unfinished line.
#![tactic(auto)]

mod lines;
mod logs;
mod page;
mod pieces;
mod source;
mod span;
mod spans;
mod taker;

pub use lines::{take_next, take_rest};
pub use page::Page;
pub use pieces::{read_some, take_lines, take_piece};
pub use source::LogSource;
pub use span::{RunFault, Span, Took, TookList};
pub use spans::take_spans;
pub use taker::{LineFault, TakeFault, Taker};
