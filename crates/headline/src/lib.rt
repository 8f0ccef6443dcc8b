//! What the program promises of its calls.
//!
//! To the program, and to whoever reads the promise: [`each_line_once_by_calls`], the headline. After any list of calls, of appends,
//! new logs, rotations, removals, changes of other files and stops, each complete line of each log is taken by one call or is unread,
//! and each output holds, call after call, the texts of those that wrote it. `specs/Calls` says what a call is as an event of a world:
//! its words, its moment and its answer, over a disk and logs before and behind it. It rests on the law of `worlds`, in the
//! program's own meaning: a call is a run of what its words ask ([`a_call_is_a_run`]), so what calls lead to runs lead to
//! ([`calls_reach_worlds`]). The laws do no work. [`run_in_world`] does: it runs the program, and its contract says that a real
//! call is one of those events, which [`calls_go_on`] puts behind the events before it, and that what `run` promises holds of it.
//! [`sets_find_lists`] is the law on IN over a subquery that its contract leaves to say.
#![tactic(auto)]

mod calling;
mod laws;
mod lists;

pub use calling::run_in_world;
pub use laws::{a_call_is_a_run, calls_go_on, calls_reach_worlds, each_line_once_by_calls};
pub use lists::sets_find_lists;
pub use logparser_cli::run;
