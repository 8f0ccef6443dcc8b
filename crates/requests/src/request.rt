// What the words ask for.
ghost use Rattle.std.specs.Prelude.{◌≡◌, ◌≤◌, OnOk, IfOk, IfErr, IsErrOf};
ghost use Rattle.std.specs.Str.{IsUtf8};
ghost use Rattle.lp_model.specs.Outside.{OnlyGrow, Rose};
ghost use Rattle.command_words.specs.Table.{IsAsked, IsInRange};
ghost use Rattle.command_words.specs.Usage.{AreFine};
ghost use Rattle.command_words.specs.Words.{query_in};
ghost use Rattle.query_tree.specs.Views.{query_of};
ghost use Rattle.requests.specs.Given.{ReadsOnce, query_files};
ghost use Rattle.requests.specs.Texts.{HoldsQuery};
ghost use Rattle.requests.specs.Files.{IsTextFault};
ghost use Rattle.requests.specs.Requests.{IsWordsFault, Asks, IsRequestFault};
ghost use Rattle.requests.specs.declared.fault.RequestFault.TheVariants as F;

use crate::RequestFault;
use crate::text::query_text;
use command_words::{Spec, SpecFault};
use lp_outside::Logs;
use lp_values::{Text, TextList};
use query_text::{ReadFault, read_query};
use query_tree::Query;
use std::alloc::{AllocError, Global};

/// What the words ask for.
#[derive(Drop)]
pub struct Request {
    pub spec: Spec,
    pub query: Query,
    /// The query as it was written.
    pub text: Text,
}

/// A query, and the text that it was written as.
#[derive(Drop)]
pub struct WrittenQuery {
    pub query: Query,
    pub text: Text,
}

/// The options that the words ask for, each in its range, where the words are fine; or why they are refused, or want of memory.
pub fn read_spec(alloc: Global, words: &TextList) -> Result<Spec, RequestFault>
    ensures asked { IfOk result (IsAsked words.now) }
    ensures in_range { IfOk result IsInRange }
    ensures fine { OnOk result (AreFine words.now) }
    ensures refused { IfErr result (IsWordsFault words.now) }
{
    match Spec::read(alloc, words) {
        Ok(spec) => Ok(spec),
        Err(SpecFault::Usage(fault)) => Err(RequestFault::Usage(fault)),
        Err(SpecFault::Memory) => Err(RequestFault::Memory),
    }
}

// The text of bytes that are UTF-8, which is a copy of them.
fn text_of(alloc: Global, bytes: &[u8]) -> Result<Text, AllocError>
    requires { IsUtf8 bytes.now }
    ensures { IfOk result (λ text. text ≡ bytes.now) }
{
    Text::read(alloc, bytes)
}

/// The query of a query word with its text, which is the word itself, or the bytes up to its length at some moment of the call
/// of the file that it names: this text is this query, and no other. Or why there is none: no such file, or the text's fault;
/// a call of the logs failed, or memory was refused. Only the file is read, and once.
pub fn read_query_word<L: Logs>(
    alloc: Global,
    logs: &mut L,
    word: &str,
) -> Result<WrittenQuery, RequestFault>
    ensures grows { OnlyGrow (L.folder logs.old) (L.folder logs.new) }
    ensures query { IfOk result (λ written. HoldsQuery (L.folder logs.old) (L.folder logs.new) word.now written.text (query_of written.query)) }
    ensures refused { IfErr result (IsTextFault (L.folder logs.old) (L.folder logs.new) word.now) }
    ensures given { ReadsOnce (L.folder logs.new) (query_files word.now) (L.given logs.old) (L.given logs.new) }
    ensures later { L.faults logs.old ≤ L.faults logs.new }
    ensures failed { IsErrOf result F.Logs → Rose (L.faults logs.old) (L.faults logs.new) }
{
    let bytes = query_text(alloc, logs, word)?;
    let read = bytes.as_slice();
    match read_query(alloc, read) {
        Ok(query) => match text_of(alloc, read) {
            Ok(text) => Ok(WrittenQuery { query, text }),
            Err(_) => {
                drop(query);
                Err(RequestFault::Memory)
            }
        },
        Err(ReadFault::Query(fault)) => Err(RequestFault::Query(fault)),
        Err(ReadFault::Memory) => Err(RequestFault::Memory),
    }
}

/// The options and the query of the words, with the query's text; or the first refusal: of the words, of the query file, of the
/// query.
pub fn read_request<L: Logs>(
    alloc: Global,
    words: &TextList,
    logs: &mut L,
) -> Result<Request, RequestFault>
    ensures grows { OnlyGrow (L.folder logs.old) (L.folder logs.new) }
    ensures in_range { IfOk result (λ request. IsInRange request.spec) }
    ensures asks { IfOk result (λ request. Asks (L.folder logs.old) (L.folder logs.new) words.now request.spec (query_of request.query)) }
    ensures text { IfOk result (λ request. HoldsQuery (L.folder logs.old) (L.folder logs.new) (query_in words.now) request.text (query_of request.query)) }
    ensures refused { IfErr result (IsRequestFault (L.folder logs.old) (L.folder logs.new) words.now) }
    ensures given { ReadsOnce (L.folder logs.new) (query_files (query_in words.now)) (L.given logs.old) (L.given logs.new) }
    ensures later { L.faults logs.old ≤ L.faults logs.new }
    ensures failed { IsErrOf result F.Logs → Rose (L.faults logs.old) (L.faults logs.new) }
{
    let spec = read_spec(alloc, words)?;
    match read_query_word(alloc, logs, spec.query.as_str()) {
        Ok(WrittenQuery { query, text }) => Ok(Request { spec, query, text }),
        Err(fault) => {
            drop(spec);
            Err(fault)
        }
    }
}
