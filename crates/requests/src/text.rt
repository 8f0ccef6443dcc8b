// The text of the query.
ghost use Rattle.std.specs.Prelude.{◌≡◌, ◌≤◌, IfOk, IfErr, IsErrOf};
ghost use Rattle.std.specs.Option.{option_copied};
ghost use Rattle.lp_model.specs.Outside.{OnlyGrow, Rose};
ghost use Rattle.requests.specs.Given.{ReadsOnce, query_files};
ghost use Rattle.requests.specs.Texts.{file_in, HoldsText};
ghost use Rattle.requests.specs.Files.{IsMemory, IsTextFault};
ghost use Rattle.requests.specs.declared.fault.RequestFault.TheVariants as F;

use crate::RequestFault;
use crate::file::read_file;
use lp_outside::{Logs, Name};
use lp_values::Bytes;
use std::alloc::Global;

const FILE: &str = "file:";

// What stands behind `file:`, whatever the case of these letters.
fn file_in(word: &str) -> Option<&str>
    ensures { option_copied result ≡ file_in word.now }
{
    let (head, name) = word.split_at_checked(FILE.len())?;
    head.eq_ignore_ascii_case(FILE).then_some(name)
}

// A word's bytes.
fn word_bytes(alloc: Global, word: &str) -> Result<Bytes, RequestFault>
    ensures text { IfOk result (λ bytes. bytes ≡ word.now) }
    ensures faults { IfErr result IsMemory }
{
    let mut bytes = Bytes::new(alloc);
    match bytes.add(word.as_bytes()) {
        Ok(()) => Ok(bytes),
        Err(_) => Err(RequestFault::Memory),
    }
}

/// The text of the query: the word itself, or the bytes of the file that it names.
pub fn query_text<L: Logs>(alloc: Global, logs: &mut L, word: &str) -> Result<Bytes, RequestFault>
    ensures grows { OnlyGrow (L.folder logs.old) (L.folder logs.new) }
    ensures text { IfOk result (HoldsText (L.folder logs.old) (L.folder logs.new) word.now) }
    ensures faults { IfErr result (IsTextFault (L.folder logs.old) (L.folder logs.new) word.now) }
    ensures given { ReadsOnce (L.folder logs.new) (query_files word.now) (L.given logs.old) (L.given logs.new) }
    ensures later { L.faults logs.old ≤ L.faults logs.new }
    ensures failed { IsErrOf result F.Logs → Rose (L.faults logs.old) (L.faults logs.new) }
{
    let Some(name) = file_in(word) else {
        return word_bytes(alloc, word);
    };
    match Name::read(name) {
        Ok(name) => read_file(alloc, logs, &name),
        Err(fault) => Err(RequestFault::BadName(fault)),
    }
}
