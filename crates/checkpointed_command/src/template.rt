// The template of a run.
ghost use Rattle.std.specs.Prelude.{◌≡◌, ◌≤◌, ◌∷◌, [], true, length, IfOk, IfErr, IsErrOf, IsSome, None};
ghost use Rattle.lp_model.specs.Outside.{OnlyGrow, Rose, Told};
ghost use Rattle.command_words.specs.declared.formats.OutputFormat.TheVariants as O;
ghost use Rattle.checkpointed_run.specs.Texts.{has_text, output_of, sections_in};
ghost use Rattle.query_tree.specs.Views.{query_of};
ghost use Rattle.requests.specs.Given.{ReadsOnce};
ghost use Rattle.requests.specs.Templates.{IsNoTemplate};
ghost use Rattle.requests.specs.Texts.{IsCut};
ghost use Rattle.tpl_output.specs.Sections.{fault_of, sections_of};
ghost use Rattle.checkpointed_command.specs.Given.{template_files};
ghost use Rattle.checkpointed_command.specs.Templates.{FindsTemplate, HoldsNone};
ghost use Rattle.requests.specs.declared.fault.NoTemplate.TheVariants as N;

use checkpointed_run::output_of;
use command_words::{OutputFormat, Spec};
use lp_outside::{Logs, Name};
use lp_values::Bytes;
use query_tree::Query;
use requests::{NoTemplate, WrittenTemplate, read_template};
use std::alloc::Global;
use std::rc::Rc;
use tpl_output::Template;

/// The template of a run, to be shared by its outputs, and the bytes that it was written as; none and no bytes, where the output
/// is by none.
#[derive(Drop)]
pub struct RunTemplate {
    pub shared: Option<Rc<Template>>,
    pub bytes: Bytes,
}

// The template that a file holds.
fn named_template<L: Logs>(
    alloc: Global,
    logs: &mut L,
    name: &Name,
) -> Result<RunTemplate, NoTemplate>
    ensures grows { OnlyGrow (L.folder logs.old) (L.folder logs.new) }
    ensures later { L.faults logs.old ≤ L.faults logs.new }
    ensures shared { IfOk result (λ found. IsSome found.shared) }
    ensures good { IfOk result (λ found. fault_of found.bytes ≡ None) }
    ensures sections { IfOk result (λ found. sections_in (λ t. t.value) found.shared ≡ sections_of found.bytes) }
    ensures cut { IfOk result (λ found. Told (L.folder logs.new) (λ folder. IsCut (L.folder logs.old) folder name.now found.bytes)) }
    ensures refused { IfErr result (IsNoTemplate (L.folder logs.old) (L.folder logs.new) name.now) }
    ensures given { ReadsOnce (L.folder logs.new) (name.now ∷ []) (L.given logs.old) (L.given logs.new) }
    ensures failed { IsErrOf result N.Logs → Rose (L.faults logs.old) (L.faults logs.new) }
{
    let WrittenTemplate { template, bytes } = read_template(alloc, logs, name)?;
    match Rc::new(alloc, template) {
        Ok(shared) => Ok(RunTemplate {
            shared: Some(shared),
            bytes,
        }),
        Err(_) => {
            drop(bytes);
            Err(NoTemplate::Memory)
        }
    }
}

/// The template, where the output is by one. No other output reads the file that `-tpl` names.
pub fn find_template<L: Logs>(
    alloc: Global,
    logs: &mut L,
    spec: &Spec,
    query: &Query,
) -> Result<RunTemplate, NoTemplate>
    requires text { has_text spec.now (output_of spec.now (query_of query.now)) ≡ true }
    ensures grows { OnlyGrow (L.folder logs.old) (L.folder logs.new) }
    ensures later { L.faults logs.old ≤ L.faults logs.new }
    ensures found { IfOk result (λ found. FindsTemplate (L.folder logs.old) (L.folder logs.new) spec.now (query_of query.now) found.bytes (sections_in (λ t. t.value) found.shared)) }
    ensures given { IfOk result (λ found. output_of spec.now (query_of query.now) ≡ O.Tpl → IsSome found.shared) }
    ensures refused { IfErr result (HoldsNone (L.folder logs.old) (L.folder logs.new) spec.now (query_of query.now)) }
    ensures reads { ReadsOnce (L.folder logs.new) (template_files spec.now (query_of query.now)) (L.given logs.old) (L.given logs.new) }
    ensures failed { IsErrOf result N.Logs → Rose (L.faults logs.old) (L.faults logs.new) }
{
    match output_of(spec, query) {
        OutputFormat::Tpl => match &spec.tpl {
            Some(name) => named_template(alloc, logs, name),
            None => unreachable!(),
        },
        OutputFormat::Nat | OutputFormat::Csv | OutputFormat::Tsv | OutputFormat::W3c => {
            Ok(RunTemplate {
                shared: None,
                bytes: Bytes::new(alloc),
            })
        }
    }
}
