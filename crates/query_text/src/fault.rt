// Why bytes are no query.
use query_lexer::LexFault;
use query_parser::ParseFault;
use query_types::TypeFault;

/// Why a query is refused. None of the inner faults is want of memory.
#[derive(Clone, Copy, Debug, PartialEq, Eq)]
pub enum QueryFault {
    /// More than 65,536 bytes.
    TooLong,
    NotUtf8,
    Lex(LexFault),
    Parse(ParseFault),
    /// STDIN stands beside another name, or in a subquery; its place in bytes.
    StdinMisplaced(u32),
    Plan(TypeFault),
}

/// Why there is no query.
#[derive(Clone, Copy, Debug, PartialEq, Eq)]
pub enum ReadFault {
    Query(QueryFault),
    /// There was no memory.
    Memory,
}
