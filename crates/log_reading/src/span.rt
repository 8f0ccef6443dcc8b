// A part of a log that is to be read.
use line_input::Standing;
use lp_outside::Name;
use lp_values::ListOf;

#[derive(Drop)]
pub struct Span {
    pub name: Name,
    pub identity: Name,
    /// The place to read from.
    pub from: u64,
    /// The cut.
    pub listed: u64,
    /// How the log stands where the span begins.
    pub standing: Standing,
}

#[derive(Drop)]
pub enum RunFault {
    Memory,
    Logs,
    Output,
    /// The taker wants no more rows.
    Stopped,
    /// A bad line is one too many: the log's identity, and the line's number.
    Bad { log: Name, row: u64 },
}

/// What a run took of a log.
#[derive(Drop)]
pub struct Took {
    pub identity: Name,
    pub from: u64,
    pub to: u64,
    pub standing: Standing,
}

pub type TookList = ListOf<Took>;
