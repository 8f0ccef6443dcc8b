// What a refusal is called: a text, a number where there is one, and a text behind it.
ghost use Rattle.std.specs.Prelude.{◌≡◌, ◌++◌};
ghost use Rattle.reports.specs.Messages.{counted, lex_reason, parse_reason, type_reason, query_reason, template_reason, part_text, named};

use crate::Status;
use ledger::Part2;
use query_lexer::LexFault;
use query_parser::ParseFault;
use query_text::QueryFault;
use query_types::TypeFault;
use tpl_output::TemplateFault;

fn lex_reason(fault: LexFault) -> (&'static str, Option<u32>, &'static str)
    ensures { result.0.now ++ counted result.1 ++ result.2.now ≡ lex_reason fault }
{
    match fault {
        LexFault::BadCharacter { at } => ("query: at ", Some(at), "bad character"),
        LexFault::OpenString { at } => ("query: at ", Some(at), "open string"),
        LexFault::OpenBracket { at } => ("query: at ", Some(at), "open bracket"),
        LexFault::NumberTooLarge { at } => ("query: at ", Some(at), "number too large"),
        LexFault::Memory => ("out of memory", None, ""),
    }
}

fn parse_reason(fault: ParseFault) -> (&'static str, Option<u32>, &'static str)
    ensures { result.0.now ++ counted result.1 ++ result.2.now ≡ parse_reason fault }
{
    match fault {
        ParseFault::Syntax { at } => ("query: at ", Some(at), "syntax"),
        ParseFault::TooDeep { at } => ("query: at ", Some(at), "too deep"),
        ParseFault::Memory => ("out of memory", None, ""),
    }
}

fn type_reason(fault: TypeFault) -> (&'static str, Option<u32>, &'static str)
    ensures { result.0.now ++ counted result.1 ++ result.2.now ≡ type_reason fault }
{
    match fault {
        TypeFault::UnknownField { at } => ("query: at ", Some(at), "unknown field"),
        TypeFault::UnknownFunction { at } => ("query: at ", Some(at), "unknown function"),
        TypeFault::KindMismatch { at } => ("query: at ", Some(at), "kind mismatch"),
        TypeFault::WrongArity { at } => ("query: at ", Some(at), "wrong arity"),
        TypeFault::TooFewColumns { at } => ("query: at ", Some(at), "too few columns"),
        TypeFault::NotInSelect { at } => ("query: at ", Some(at), "not in select"),
        TypeFault::NotGrouped { at } => ("query: at ", Some(at), "not grouped"),
        TypeFault::NestedAggregate { at } => ("query: at ", Some(at), "nested aggregate"),
        TypeFault::StarWithGroups { at } => ("query: at ", Some(at), "star with groups"),
        TypeFault::BadPattern { at } => ("query: at ", Some(at), "bad pattern"),
        TypeFault::Memory => ("out of memory", None, ""),
    }
}

fn query_reason(fault: QueryFault) -> (&'static str, Option<u32>, &'static str)
    ensures { result.0.now ++ counted result.1 ++ result.2.now ≡ query_reason fault }
{
    match fault {
        QueryFault::TooLong => ("query: too long", None, ""),
        QueryFault::NotUtf8 => ("query: not UTF-8", None, ""),
        QueryFault::Lex(fault) => lex_reason(fault),
        QueryFault::Parse(fault) => parse_reason(fault),
        QueryFault::StdinMisplaced(at) => ("query: at ", Some(at), "STDIN misplaced"),
        QueryFault::Plan(fault) => type_reason(fault),
    }
}

fn template_reason(fault: TemplateFault) -> (&'static str, Option<u32>, &'static str)
    ensures { result.0.now ++ counted result.1 ++ result.2.now ≡ template_reason fault }
{
    match fault {
        TemplateFault::Unclosed { at } => ("input: template at ", Some(at), "unclosed"),
        TemplateFault::Misplaced { at } => ("input: template at ", Some(at), "misplaced"),
        TemplateFault::OutsideText { at } => ("input: template at ", Some(at), "outside text"),
        TemplateFault::TooLarge { at } => ("input: template at ", Some(at), "too large"),
        TemplateFault::Memory => ("out of memory", None, ""),
    }
}

fn part_text(part: Part2) -> &'static str
    ensures { result.now ≡ part_text part }
{
    match part {
        Part2::Ledger => "ledger at ",
        Part2::Stage => "stage at ",
    }
}

pub(crate) fn named(status: &Status) -> (&str, Option<u32>, &str)
    ensures { result.0.now ++ counted result.1 ++ result.2.now ≡ named status.now }
{
    match status {
        Status::Done => ("", None, ""),
        Status::Memory => ("out of memory", None, ""),
        Status::Clock(_) => ("clock", None, ""),
        Status::Usage(fault) => ("usage: word ", Some(fault.word), fault.kind.as_str()),
        Status::Query(fault) => query_reason(*fault),
        Status::NoSuchLog(name) => ("input: no such log ", None, name.as_str()),
        Status::BadName(_) => ("input: bad name", None, ""),
        Status::NameClash(name) => ("input: name clash ", None, name.as_str()),
        Status::TooManyOutputs => ("input: more than 10000 outputs", None, ""),
        Status::TooManyLogs => ("input: more than 100000 logs", None, ""),
        Status::Template(fault) => template_reason(*fault),
        Status::InputTooLong => ("input: standard input too long", None, ""),
        Status::LogsFault => ("read fault: logs", None, ""),
        Status::SourceFault => ("read fault: standard input", None, ""),
        Status::DiskFault => ("disk fault", None, ""),
        Status::SinkFault => ("write fault", None, ""),
        Status::ParseErrors { log, .. } => ("parse errors: ", None, log.as_str()),
        Status::LostLog { stem, .. } => ("input: lost log ", None, stem.as_str()),
        Status::Shrunk { name, .. } => ("input: ", None, name.as_str()),
        Status::InputChanged { .. } => ("input: the ledger has ", None, ""),
        Status::IntoNeeded => ("query: INTO needed", None, ""),
        Status::LedgerFault { part, .. } => ("ledger: ", None, part_text(*part)),
    }
}
