// From a text to its tokens.
ghost use Rattle.std.specs.Prelude.{◌≡◌, ◌<◌, ◌≤◌, length, IfOk, IfErr};
ghost use Rattle.query_lexer.specs.Standing.{Stands};
ghost use Rattle.query_lexer.specs.Reading.{IsLexed, IsOnly, IsFault, HasNone};

use crate::numbers::number;
use crate::piece::{Mode, Piece, Start};
use crate::starts::start_of;
use crate::words::{bracket, name, sign, string, word};
use crate::{LexFault, Token, Tokens};
use std::alloc::{AllocError, Global};

/// What stands in front, where names may come or not.
fn piece_at(alloc: Global, names: bool, rest: &str) -> Result<Piece, AllocError>
    requires some { 0 < length rest.now }
    requires short { length rest.now < 65_537 }
    ensures { IfOk result (Stands names rest.now) }
{
    match start_of(names, rest.as_bytes()[0]) {
        Start::Blank => Ok(Piece::Blank),
        Start::Quote => string(alloc, names, rest),
        Start::Name => name(alloc, rest),
        Start::Letter => word(alloc, rest),
        Start::Number => Ok(number(rest.as_bytes())),
        Start::Bracket => bracket(alloc, rest),
        Start::Sign => Ok(sign(rest.as_bytes())),
    }
}

/// The tokens of a text of at most 65,536 bytes, or its first fault.
pub fn lex(alloc: Global, text: &str) -> Result<Tokens, LexFault>
    requires { length text.now ≤ 65_536 }

    // The text is these tokens, and no others.
    ensures tokens { IfOk result (λ tokens. IsLexed text.now tokens.items) }
    ensures only { IfOk result (λ tokens. IsOnly text.now tokens.items) }
    ensures length { IfOk result (λ tokens. tokens.text_length ≡ length text.now) }

    // The fault stands at its place, behind tokens, and the text is no tokens.
    ensures fault { IfErr result (IsFault text.now) }
    ensures none { IfErr result (HasNone text.now) }
{
    let mut tokens = Tokens::new(alloc, text.len() as u32);
    let mut mode = Mode::Ordinary;
    let mut at = 0;
    while at < text.len() {
        match piece_at(alloc, mode.names_come(), &text[at..])? {
            Piece::Blank => at += 1,
            Piece::Token(kind, size) => {
                mode = mode.after(&kind);
                tokens.push(Token {
                    at: at as u32,
                    kind,
                })?;
                at += size;
            }
            Piece::Bad(problem) => return Err(problem.at(at as u32)),
        }
    }
    Ok(tokens)
}
