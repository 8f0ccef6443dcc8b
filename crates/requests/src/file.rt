// A query file, and the bytes of any file.
ghost use Rattle.std.specs.Prelude.{◌≡◌, ◌≤◌, ◌<◌, ◌+◌, ◌∷◌, [], take, length, IfOk, IfErr, IsErrOf, MatchResult};
ghost use Rattle.lp_model.specs.Outside.{HasCause, OnlyGrow, Rose, Told, bytes_in};
ghost use Rattle.lp_model.specs.Pieces.{IsPiece};
ghost use Rattle.requests.specs.Given.{ReadsOnce};
ghost use Rattle.requests.specs.Texts.{IsCut};
ghost use Rattle.requests.specs.Files.{IsFailure, IsFileFault};
ghost use Rattle.requests.specs.declared.fault.RequestFault.TheVariants as F;

use crate::RequestFault;
use lp_outside::{Logs, LogsFailed, Name};
use lp_values::Bytes;
use query_lexer::LONGEST_QUERY;
use query_text::QueryFault;
use std::alloc::Global;

// Reads some more of a file below a cut, at least one byte.
fn read_some<L: Logs>(
    logs: &mut L,
    name: &Name,
    at: u64,
    cut: u64,
    chunk: &mut [u8],
) -> Result<usize, LogsFailed>
    requires there { Told (L.folder logs.old) (λ folder. cut ≤ length (bytes_in folder name.now)) }
    requires below { at < cut }
    requires chunk { 0 < length chunk.old }
    ensures grows { OnlyGrow (L.folder logs.old) (L.folder logs.new) }
    ensures piece { IfOk result (λ count. IsPiece (L.folder logs.new) name.now at cut (take count chunk.new)) }
    ensures some { IfOk result (λ count. 0 < count) }
    ensures fits { IfOk result (λ count. count ≤ length chunk.new) }
    ensures below { IfOk result (λ count. at + count ≤ cut) }
    ensures given { MatchResult result (λ count. L.given logs.new ≡ L.given logs.old + count) (λ _. L.given logs.new ≡ L.given logs.old) }
    ensures cause { HasCause (L.faults logs.old) (L.faults logs.new) result }
{
    let want = (cut - at).min(chunk.len() as u64) as usize;
    let count = logs.read_at(name, at, &mut chunk[..want])?;
    Ok(count)
}

/// A file's bytes up to a cut.
pub(crate) fn read_bytes<L: Logs>(
    alloc: Global,
    logs: &mut L,
    name: &Name,
    cut: u64,
) -> Result<Bytes, RequestFault>
    requires { Told (L.folder logs.old) (λ folder. cut ≤ length (bytes_in folder name.now)) }
    ensures grows { OnlyGrow (L.folder logs.old) (L.folder logs.new) }
    ensures bytes { IfOk result (λ bytes. Told (L.folder logs.new) (λ folder. bytes ≡ take cut (bytes_in folder name.now))) }
    ensures faults { IfErr result IsFailure }
    ensures given { L.given logs.new ≤ L.given logs.old + cut }
    ensures later { L.faults logs.old ≤ L.faults logs.new }
    ensures failed { IsErrOf result F.Logs → Rose (L.faults logs.old) (L.faults logs.new) }
{
    let mut chunk = [0u8; 4096];
    let mut bytes = Bytes::new(alloc);
    while (bytes.len() as u64) < cut {
        let at = bytes.len() as u64;
        let count = match read_some(logs, name, at, cut, &mut chunk) {
            Ok(count) => count,
            Err(_) => return Err(RequestFault::Logs),
        };
        match bytes.add(&chunk[..count]) {
            Ok(()) => {}
            Err(_) => return Err(RequestFault::Memory),
        }
    }
    Ok(bytes)
}

/// The bytes of a query file, which isn't longer than a query may be.
pub fn read_file<L: Logs>(alloc: Global, logs: &mut L, name: &Name) -> Result<Bytes, RequestFault>
    ensures grows { OnlyGrow (L.folder logs.old) (L.folder logs.new) }
    ensures bytes { IfOk result (λ bytes. Told (L.folder logs.new) (λ folder. IsCut (L.folder logs.old) folder name.now bytes)) }
    ensures faults { IfErr result (IsFileFault (L.folder logs.old) (L.folder logs.new) name.now) }
    ensures given { ReadsOnce (L.folder logs.new) (name.now ∷ []) (L.given logs.old) (L.given logs.new) }
    ensures later { L.faults logs.old ≤ L.faults logs.new }
    ensures failed { IsErrOf result F.Logs → Rose (L.faults logs.old) (L.faults logs.new) }
{
    let cut = match logs.length(name) {
        Ok(Some(cut)) => cut,
        Ok(None) => return Err(RequestFault::NoSuchLog(name.copy())),
        Err(_) => return Err(RequestFault::Logs),
    };
    if cut > LONGEST_QUERY as u64 {
        return Err(RequestFault::Query(QueryFault::TooLong));
    }
    read_bytes(alloc, logs, name, cut)
}
