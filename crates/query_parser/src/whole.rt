// From tokens to a query.
ghost use Rattle.std.specs.Prelude.{◌≡◌, ℕ, List, length, map, IfOk};
ghost use Rattle.grammar.specs.Rules.{query};
ghost use Rattle.grammar.specs.Whole.{Derives};
ghost use Rattle.grammar.specs.Trees as model;
ghost use Rattle.query_tree.specs.Tokens.{seen};
ghost use Rattle.query_tree.specs.Views.{query_of};
ghost use Rattle.query_parser.specs.Answers.{Gives};
ghost use Rattle.query_parser.specs.Conditions.{count_from};
ghost use Rattle.query_parser.specs.Queries.{asked_in, numbers_in_query};
ghost use Rattle.query_parser.specs.Parsed.{IsThis, IsFault, levels, place_before, fault_of};

use crate::conditions::Parser;
use crate::cursor::Cursor;
use crate::fault::{ParseFault, Stop};
use query_lexer::{Token, Tokens};
use query_tree::Query;
use std::alloc::Global;

/// How many parentheses, CASEs and NOTs may be open at once.
const DEPTH: u32 = 64;

/// The law that tokens are one query at most: two trees that derive from the same tokens are one, however deep.
pub fn one_tree()
    ensures { (n : ℕ) (all : List model.Token) (v w : model.Query) → Derives n query all v → Derives n query all w → v ≡ w }
{}

/// The place of the token from which on so many stand, or the text's length.
fn place(tokens: &Tokens, count: usize) -> u32
    ensures { result ≡ place_before tokens.now.items tokens.now.text_length count }
{
    match tokens.get(tokens.len().saturating_sub(count)) {
        Some(token) => token.at,
        None => tokens.text_length(),
    }
}

/// The fault at the token that stops the reader.
fn fault_of(tokens: &Tokens, stop: Stop) -> ParseFault
    ensures { result ≡ fault_of tokens.now.items tokens.now.text_length stop }
{
    match stop {
        Stop::Syntax(count) => ParseFault::Syntax {
            at: place(tokens, count),
        },
        Stop::TooDeep(count) => ParseFault::TooDeep {
            at: place(tokens, count),
        },
        Stop::Memory => ParseFault::Memory,
    }
}

/// What the tokens begin with, as a query, and the tokens behind it.
fn read<'a>(alloc: Global, tokens: &'a Tokens) -> (Result<Query, Stop>, &'a [Token])
    ensures exact { Gives levels query tokens.now.items result.1.now query_of result.0 }
    ensures numbered { IfOk result.0 (λ q. numbers_in_query q ≡ count_from 0 (length (asked_in q))) }
{
    let cursor = Cursor {
        alloc,
        rest: tokens.as_slice(),
    };
    let mut parser = Parser {
        cursor,
        subqueries: Vec::new(alloc),
    };
    let answer = parser.query(DEPTH);
    let Parser { cursor, subqueries } = parser;
    drop(subqueries);
    (answer, cursor.rest)
}

/// The query that the tokens are, all of them.
///
/// `Syntax` tells the first token with which no query goes on, or the text's length where the tokens only begin one;
/// `TooDeep` the token that opens level 65.
pub fn parse(alloc: Global, tokens: &Tokens) -> Result<Query, ParseFault>
    ensures derives { IfOk result (λ q. Derives levels query (map seen tokens.now.items) (query_of q)) }
    ensures numbered { IfOk result (λ q. numbers_in_query q ≡ count_from 0 (length (asked_in q))) }
    ensures only { (v : model.Query) → Derives levels query (map seen tokens.now.items) v → IsThis result v }
    ensures fault { IsFault (map seen tokens.now.items) tokens.now.text_length result }
{
    let (answer, rest) = read(alloc, tokens);
    match answer {
        Ok(query) => {
            let count = rest.len();
            if count == 0 {
                return Ok(query);
            }
            drop(query);
            Err(ParseFault::Syntax {
                at: place(tokens, count),
            })
        }
        Err(stop) => Err(fault_of(tokens, stop)),
    }
}
