// The template of a run without a checkpoint.
ghost use Rattle.std.specs.Prelude.{◌≡◌, ◌≤◌, true, IfOk, IfErr, IsErrOf, IsSome};
ghost use Rattle.lp_model.specs.Outside.{OnlyGrow, Rose};
ghost use Rattle.command_words.specs.declared.formats.OutputFormat.TheVariants as O;
ghost use Rattle.checkpointed_command.specs.Built.{all_built};
ghost use Rattle.checkpointed_command.specs.Texts.{output_of, sections_in};
ghost use Rattle.query_tree.specs.Views.{query_of};
ghost use Rattle.requests.specs.Given.{ReadsOnce};
ghost use Rattle.reports.specs.declared.status.Status.TheVariants as S;
ghost use Rattle.checkpointed_command.specs.Given.{template_files};
ghost use Rattle.logparser_cli.specs.Templates.{IsTemplate, IsWithoutTemplate};

use checkpointed_command::{RunTemplate, untemplated};
use command_words::Spec;
use lp_outside::Logs;
use query_tree::Query;
use reports::Status;
use std::alloc::Global;
use std::rc::Rc;
use tpl_output::Template;

/// The template, where the output is by one. No other output reads the file that `-tpl` names.
pub(crate) fn find_template<L: Logs>(
    alloc: Global,
    logs: &mut L,
    spec: &Spec,
    query: &Query,
) -> Result<Option<Rc<Template>>, Status>
    requires built { all_built spec.now (query_of query.now) ≡ true }
    ensures grows { OnlyGrow (L.folder logs.old) (L.folder logs.new) }
    ensures later { L.faults logs.old ≤ L.faults logs.new }
    ensures found { IfOk result (λ template. IsTemplate (L.folder logs.old) (L.folder logs.new) spec.now (query_of query.now) (sections_in (λ t. t.value) template)) }
    ensures given { IfOk result (λ template. output_of spec.now (query_of query.now) ≡ O.Tpl → IsSome template) }
    ensures refused { IfErr result (IsWithoutTemplate (L.folder logs.old) (L.folder logs.new) spec.now (query_of query.now)) }
    ensures reads { ReadsOnce (L.folder logs.new) (template_files spec.now (query_of query.now)) (L.given logs.old) (L.given logs.new) }
    ensures failed { IsErrOf result S.LogsFault → Rose (L.faults logs.old) (L.faults logs.new) }
{
    match checkpointed_command::find_template(alloc, logs, spec, query) {
        Ok(RunTemplate { shared, bytes: _ }) => Ok(shared),
        Err(fault) => Err(untemplated(fault)),
    }
}
