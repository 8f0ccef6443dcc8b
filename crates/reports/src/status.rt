// How a run ends.
ghost use Rattle.std.specs.Prelude.{◌≡◌};

use command_words::UsageFault;
use ledger::Part2;
use lp_outside::{Name, NameFault};
use lp_values::{Bytes, Text};
use query_text::QueryFault;
use tpl_output::TemplateFault;

/// The answer of a run. Each variant but `Done` is a refusal, with what it names.
#[derive(Drop)]
pub enum Status {
    /// The run is whole.
    Done,
    /// Memory was refused.
    Memory,
    /// The clock's whole seconds since 1970, which lie outside years 1970 to 9999.
    Clock(i64),
    /// The words are refused.
    Usage(UsageFault),
    /// The query is refused.
    Query(QueryFault),
    /// No file has this name.
    NoSuchLog(Name),
    /// A name is no name of a file.
    BadName(NameFault),
    /// An output has the name of a log that is read.
    NameClash(Text),
    /// The rows name more than 10,000 outputs.
    TooManyOutputs,
    /// More than 100,000 logs are named.
    TooManyLogs,
    /// The bytes of the template's file are no template.
    Template(TemplateFault),
    /// Standard input gave 2^40 bytes.
    InputTooLong,
    /// A log couldn't be read.
    LogsFault,
    /// Standard input couldn't be read.
    SourceFault,
    /// The file of an output couldn't be written.
    DiskFault,
    /// Standard output couldn't be written.
    SinkFault,
    /// A bad line is one too many: the log's identity, and the line's number.
    ParseErrors { log: Name, row: u64 },
    /// A rotated log isn't there: its stem and its number.
    LostLog { stem: Name, number: u64 },
    /// A log is shorter than what was read of it: its bytes that were read, and those that are there.
    Shrunk { name: Name, kept: u64, found: u64 },
    /// The ledger was begun with another input: the ledger's, and the one that is given.
    InputChanged { kept: Bytes, given: Bytes },
    /// A query over a ledger names no output.
    IntoNeeded,
    /// The ledger or its stage is damaged: which of them, and at which byte.
    LedgerFault { part: Part2, at: u64 },
}

impl Status {
    ghost use Rattle.reports.specs.Status.{code};

    /// The exit status of the program.
    pub fn code(&self) -> u8
        ensures { result ≡ code self.now }
    {
        match self {
            Status::Done => 0,
            Status::Memory => 1,
            Status::Clock(_) | Status::Usage(_) => 2,
            Status::Query(_) | Status::IntoNeeded => 3,
            Status::NoSuchLog(_)
            | Status::BadName(_)
            | Status::NameClash(_)
            | Status::TooManyOutputs
            | Status::TooManyLogs
            | Status::Template(_)
            | Status::InputTooLong
            | Status::LostLog { .. }
            | Status::Shrunk { .. }
            | Status::InputChanged { .. } => 4,
            Status::LogsFault | Status::SourceFault => 5,
            Status::DiskFault => 6,
            Status::SinkFault => 7,
            Status::ParseErrors { .. } => 8,
            Status::LedgerFault { .. } => 9,
        }
    }
}
