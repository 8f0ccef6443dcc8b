// The text of a run, in the format that is asked for.
ghost use Rattle.std.specs.Prelude.{◌≡◌, ℤ, true, option_map, IsSome};
ghost use Rattle.any_format.specs.Wanted.{wanted_text};
ghost use Rattle.command_words.specs.declared.formats.OutputFormat.TheVariants as O;
ghost use Rattle.query_tree.specs.Views.{placed_of, query_of};
ghost use Rattle.execution.specs.Texts.{output_by_into, output_of, sections_in, text_as};

use any_format::Wanted;
use command_words::{OutputFormat, Spec};
use query_tree::{Placed, Query};
use std::rc::Rc;
use tpl_output::Template;

// The format by the INTO name.
fn output_by_into(into: &Option<Placed>) -> OutputFormat
    ensures { result ≡ output_by_into (option_map placed_of into.now) }
{
    match into {
        None => OutputFormat::Nat,
        Some(name) => OutputFormat::by_name(name.text.as_str()),
    }
}

/// The output format: that of the words, or else TPL where they name a template, or else by the INTO name.
pub fn output_of(spec: &Spec, query: &Query) -> OutputFormat
    ensures { result ≡ output_of spec.now (query_of query.now) }
{
    match spec.output {
        Some(format) => format,
        None => {
            if spec.tpl.is_some() {
                OutputFormat::Tpl
            } else {
                output_by_into(&query.into)
            }
        }
    }
}

/// A format, with what the words say of it.
pub(crate) fn wanted_as(spec: &Spec, format: OutputFormat, template: Option<Rc<Template>>) -> Wanted
    requires template { format ≡ O.Tpl → IsSome template }
    ensures { (moment : ℤ) → wanted_text result moment ≡ text_as spec.now format (sections_in (λ t. t.value) template) moment }
{
    match format {
        OutputFormat::Nat => Wanted::Nat(spec.rtp, spec.headers),
        OutputFormat::Csv => Wanted::Csv(spec.headers),
        OutputFormat::Tsv => Wanted::Tsv(spec.headers, spec.out_separator),
        OutputFormat::W3c => Wanted::W3c,
        OutputFormat::Tpl => match template {
            Some(template) => Wanted::Tpl(template),
            None => unreachable!(),
        },
    }
}
