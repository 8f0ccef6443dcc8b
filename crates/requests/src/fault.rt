// Why words ask for nothing that can be done.
use command_words::UsageFault;
use lp_outside::{Name, NameFault};
use query_text::QueryFault;
use tpl_output::TemplateFault;

/// Why words ask for nothing that can be done.
#[derive(Drop)]
pub enum RequestFault {
    /// The words are refused.
    Usage(UsageFault),
    /// The query file's name is no name.
    BadName(NameFault),
    /// There is no such query file.
    NoSuchLog(Name),
    /// The query is refused.
    Query(QueryFault),
    /// A call of the logs failed.
    Logs,
    /// Memory was refused.
    Memory,
}

/// Why a file is no template.
#[derive(Drop)]
pub enum NoTemplate {
    /// There is no such file.
    NoSuchLog(Name),
    /// Its bytes are none. The fault is never want of memory.
    Fault(TemplateFault),
    /// A call of the logs failed.
    Logs,
    /// Memory was refused.
    Memory,
}
