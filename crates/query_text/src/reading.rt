// Bytes as a query.
ghost use Rattle.std.specs.Prelude.{◌≡◌, ◌≤◌, length, IfOk, IfErr, None};
ghost use Rattle.query_tree.specs.Views.{query_of};
ghost use Rattle.query_text.specs.Stdin.{misplaced};
ghost use Rattle.query_text.specs.Texts.{IsReadable, Parses, IsQuery, IsOnlyQuery, IsReadFault, HasNone};
ghost use Rattle.query_text.specs.Refusals.{AreOnlyTokens, IsParsed, IsLexRefusal, IsParseRefusal, IsPlaceRefusal, of_lex, of_parse};

use crate::stdin::misplaced;
use crate::{QueryFault, ReadFault};
use query_lexer::{LexFault, Tokens, check_length, lex};
use query_parser::{ParseFault, parse};
use query_tree::Query;
use std::alloc::Global;

// The text that the bytes are.
fn read_text(text: &[u8]) -> Result<&str, ReadFault>
    ensures text { IfOk result (λ read. read.now ≡ text.now) }
    ensures readable { IfOk result (λ read. IsReadable read.now) }
    ensures fault { IfErr result (IsReadFault text.now) }
    ensures none { IfErr result (HasNone text.now) }
{
    match check_length(text) {
        Ok(()) => {}
        Err(_) => return Err(ReadFault::Query(QueryFault::TooLong)),
    }
    match str::from_utf8(text) {
        Ok(text) => Ok(text),
        Err(_) => Err(ReadFault::Query(QueryFault::NotUtf8)),
    }
}

// A fault of the lexer.
fn of_lex(fault: LexFault) -> ReadFault
    ensures { result ≡ of_lex fault }
{
    match fault {
        LexFault::Memory => ReadFault::Memory,
        _ => ReadFault::Query(QueryFault::Lex(fault)),
    }
}

// A fault of the parser.
fn of_parse(fault: ParseFault) -> ReadFault
    ensures { result ≡ of_parse fault }
{
    match fault {
        ParseFault::Memory => ReadFault::Memory,
        _ => ReadFault::Query(QueryFault::Parse(fault)),
    }
}

// The tokens of a text.
fn read_tokens(alloc: Global, text: &str) -> Result<Tokens, ReadFault>
    requires { IsReadable text.now }
    ensures tokens { IfOk result (λ tokens. AreOnlyTokens text.now tokens.items) }
    ensures size { IfOk result (λ tokens. tokens.text_length ≡ length text.now) }
    ensures fault { IfErr result (IsLexRefusal text.now) }
{
    match lex(alloc, text) {
        Ok(tokens) => Ok(tokens),
        Err(fault) => Err(of_lex(fault)),
    }
}

// The query that tokens are.
fn read_tree(alloc: Global, tokens: &Tokens) -> Result<Query, ReadFault>
    ensures query { IfOk result (λ q. IsParsed tokens.now.items (query_of q)) }
    ensures fault { IfErr result (IsParseRefusal tokens.now.items tokens.now.text_length) }
{
    match parse(alloc, tokens) {
        Ok(query) => Ok(query),
        Err(fault) => Err(of_parse(fault)),
    }
}

// The query that a text is, wherever STDIN stands.
fn read_parsed(alloc: Global, text: &str) -> Result<Query, ReadFault>
    requires { IsReadable text.now }
    ensures query { IfOk result (λ q. Parses text.now (query_of q)) }
    ensures only { IfOk result (λ q. IsOnlyQuery text.now (query_of q)) }
    ensures fault { IfErr result (IsReadFault text.now) }
    ensures none { IfErr result (HasNone text.now) }
{
    let tokens = read_tokens(alloc, text)?;
    read_tree(alloc, &tokens)
}

// The query, where STDIN stands as it can.
fn check_stdin(query: Query) -> Result<Query, ReadFault>
    ensures same { IfOk result (λ q. q ≡ query) }
    ensures placed { IfOk result (λ q. misplaced (query_of q) ≡ None) }
    ensures fault { IfErr result (IsPlaceRefusal (query_of query)) }
{
    match misplaced(&query) {
        None => Ok(query),
        Some(at) => {
            drop(query);
            Err(ReadFault::Query(QueryFault::StdinMisplaced(at)))
        }
    }
}

/// The query that the bytes are, or their first fault. `Plan` never comes.
pub fn read_query(alloc: Global, text: &[u8]) -> Result<Query, ReadFault>
    ensures query { IfOk result (λ q. IsQuery text.now (query_of q)) }
    ensures only { IfOk result (λ q. IsOnlyQuery text.now (query_of q)) }
    ensures fault { IfErr result (IsReadFault text.now) }
    ensures none { IfErr result (HasNone text.now) }
{
    let text = read_text(text)?;
    let query = read_parsed(alloc, text)?;
    check_stdin(query)
}
