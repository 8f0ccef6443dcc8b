// Texts and their tokens, worked out by hand.
use crate::rows::{asked, check};
use query_lexer::{Keyword, LexFault, Token, TokenKind, Tokens, check_length, lex};
use std::alloc::{AllocError, Global};
use std::fmt::Write;

fn show_text(to: &mut String, form: &str, text: &str) -> Result<(), AllocError> {
    to.push_str(form)?;
    to.push_str(text)
}

fn show_integer(to: &mut String, value: i64, signed: bool) -> Result<(), AllocError> {
    write!(to, "{value} {signed}")
}

fn show_real(to: &mut String, millionths: i64) -> Result<(), AllocError> {
    write!(to, "{millionths}")
}

fn show(to: &mut String, kind: &TokenKind) -> Result<(), AllocError> {
    match kind {
        TokenKind::Word(text) => show_text(to, "word ", text.as_str()),
        TokenKind::Keyword(keyword) => to.push_str(keyword.name()),
        TokenKind::Str(text) => show_text(to, "string ", text.as_str()),
        TokenKind::Integer { value, signed } => show_integer(to, *value, *signed),
        TokenKind::Real(real) => show_real(to, real.millionths),
        TokenKind::Name(text) => show_text(to, "name ", text.as_str()),
        TokenKind::Symbol(sign) => to.push_str(sign.text()),
    }
}

// A token with its place.
fn show_token(to: &mut String, token: &Token) -> Result<(), AllocError> {
    write!(to, "{}:", token.at)?;
    show(to, &token.kind)?;
    to.push_str("|")
}

fn show_tokens(to: &mut String, tokens: &Tokens) -> Result<(), AllocError> {
    for token in tokens.as_slice() {
        show_token(to, token)?;
    }
    Ok(())
}

fn show_lexed(to: &mut String, lexed: &Result<Tokens, LexFault>) -> Result<(), AllocError> {
    match lexed {
        Ok(tokens) => show_tokens(to, tokens),
        Err(fault) => write!(to, "{fault}"),
    }
}

fn told(alloc: Global, text: &str) -> Result<String, AllocError> {
    let mut to = String::new(alloc);
    if check_length(text.as_bytes()).is_err() {
        to.push_str("too long")?;
    } else {
        show_lexed(&mut to, &lex(alloc, text))?;
    }
    Ok(to)
}

const TEXTS: &str = "\
Selects TOP _a-1 => 0:word Selects|8:TOP|12:word _a-1|
cs(User-Agent)CS(cookie)x => 0:word cs(User-Agent)|14:word CS(cookie)|24:word x|
cs(host) acs => 0:word cs|2:(|3:word host|7:)|9:word acs|
cs (Cookie) => 0:word cs|3:(|4:word Cookie|10:)|
[select]'é]['x => 0:word select|8:string é][|14:word x|
007 -0 2.0000009 => 0:7 false|4:0 true|7:2000000|
a-1 a -1-1 => 0:word a-1|4:word a|6:-1 true|8:-1 true|
<=><>=>< => 0:<=|2:>|3:<>|5:=|6:>|7:<|
FROM c:\\x*.log,'y z' ,[w] => 0:FROM|5:name c:\\x*.log|14:,|15:name y z|21:,|22:name [w]|
into select from from => 0:INTO|5:name select|12:FROM|17:name from|
FROM, a b => 0:FROM|4:,|6:word a|8:word b|
a -9223372036854775809 => number too large at 2";

#[test]
fn texts_have_their_tokens(rt: HostRuntime) -> Result<(), AllocError> {
    for row in TEXTS.lines() {
        check(&rt, row, told(rt.alloc(), asked(row))?.as_str());
    }
    assert!(rt; Keyword::by_name("bY") == Some(Keyword::By) && Keyword::by_name("b").is_none());
    Ok(())
}
