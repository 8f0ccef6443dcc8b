// A template's file.
ghost use Rattle.std.specs.Prelude.{◌≡◌, ◌≤◌, ◌∷◌, [], length, None, IfOk, IfErr, IsErrOf};
ghost use Rattle.lp_model.specs.Outside.{OnlyGrow, Rose, Told};
ghost use Rattle.tpl_output.specs.Sections.{fault_of, sections_of};
ghost use Rattle.requests.specs.Given.{ReadsOnce};
ghost use Rattle.requests.specs.Texts.{IsCut};
ghost use Rattle.requests.specs.Templates.{HoldsTemplate, IsNoTemplate, IsUnread};
ghost use Rattle.requests.specs.declared.fault.NoTemplate.TheVariants as N;

use crate::file::read_bytes;
use crate::{NoTemplate, RequestFault};
use lp_outside::{Logs, Name};
use lp_values::Bytes;
use std::alloc::Global;
use tpl_output::{Template, TemplateFault};

/// A template, and the bytes that it was written as.
#[derive(Drop)]
pub struct WrittenTemplate {
    pub template: Template,
    pub bytes: Bytes,
}

// A file's bytes. All are wanted, also of a file that is too large: an earlier fault is told before that, and whether a
// section's end follows is seen only behind it.
fn file_bytes<L: Logs>(alloc: Global, logs: &mut L, name: &Name) -> Result<Bytes, NoTemplate>
    ensures grows { OnlyGrow (L.folder logs.old) (L.folder logs.new) }
    ensures bytes { IfOk result (λ bytes. Told (L.folder logs.new) (λ folder. IsCut (L.folder logs.old) folder name.now bytes)) }
    ensures unread { IfErr result (IsUnread (L.folder logs.new) name.now) }
    ensures given { ReadsOnce (L.folder logs.new) (name.now ∷ []) (L.given logs.old) (L.given logs.new) }
    ensures later { L.faults logs.old ≤ L.faults logs.new }
    ensures failed { IsErrOf result N.Logs → Rose (L.faults logs.old) (L.faults logs.new) }
{
    let cut = match logs.length(name) {
        Ok(Some(cut)) => cut,
        Ok(None) => return Err(NoTemplate::NoSuchLog(name.copy())),
        Err(_) => return Err(NoTemplate::Logs),
    };
    match read_bytes(alloc, logs, name, cut) {
        Ok(bytes) => Ok(bytes),
        Err(RequestFault::Logs) => Err(NoTemplate::Logs),
        Err(_) => Err(NoTemplate::Memory),
    }
}

/// The template that a file holds, with the bytes that it is, which are the file's up to its length at some moment of the call;
/// or why it holds none: it isn't there, or its bytes have a fault, of which the first is told; a call of the logs failed, or
/// memory was refused. The file is read once.
pub fn read_template<L: Logs>(
    alloc: Global,
    logs: &mut L,
    name: &Name,
) -> Result<WrittenTemplate, NoTemplate>
    ensures grows { OnlyGrow (L.folder logs.old) (L.folder logs.new) }
    ensures template { IfOk result (λ written. HoldsTemplate (L.folder logs.old) (L.folder logs.new) name.now written.template) }
    ensures bytes { IfOk result (λ written. Told (L.folder logs.new) (λ folder. IsCut (L.folder logs.old) folder name.now written.bytes)) }
    ensures good { IfOk result (λ written. fault_of written.bytes ≡ None) }
    ensures sections { IfOk result (λ written. written.template ≡ sections_of written.bytes) }
    ensures small { IfOk result (λ written. length written.bytes ≤ 1_048_576) }
    ensures refused { IfErr result (IsNoTemplate (L.folder logs.old) (L.folder logs.new) name.now) }
    ensures given { ReadsOnce (L.folder logs.new) (name.now ∷ []) (L.given logs.old) (L.given logs.new) }
    ensures later { L.faults logs.old ≤ L.faults logs.new }
    ensures failed { IsErrOf result N.Logs → Rose (L.faults logs.old) (L.faults logs.new) }
{
    let bytes = file_bytes(alloc, logs, name)?;
    match Template::read(alloc, bytes.as_slice()) {
        Ok(template) => Ok(WrittenTemplate { template, bytes }),
        Err(TemplateFault::Memory) => Err(NoTemplate::Memory),
        Err(fault) => Err(NoTemplate::Fault(fault)),
    }
}
