// Where the rows of a query go.
ghost use Rattle.std.specs.Prelude.{◌≡◌, ◌++◌, [], map, codes, None, IfOk, IfSome, OnOk};
ghost use Rattle.query_tree.specs.Views.{query_of};
ghost use Rattle.log_listing.specs.Firsts.{with_name, with_names};
ghost use Rattle.lp_outside.specs.NameFault.{name_fault};
ghost use Rattle.log_reading.specs.declared.span.Span.{Span};
ghost use Rattle.row_output.specs.Sinks.{IsUnplaced, files_for};
ghost use Rattle.query_text.specs.Stdin.{names_in};
ghost use Rattle.execution.specs.Outputs.{files_of, is_standard, is_stdout, log_names, own_names};
ghost use Rattle.execution.specs.Texts.{into_in};

use crate::reads_stdin;
use checkpoint::Spans;
use command_words::Spec;
use lp_outside::Name;
use lp_values::{Text, TextList};
use multiplex::Outputs;
use query_tree::Query;
use row_output::Into;
use std::alloc::{AllocError, Global};

// Whether a name is that of standard output, in any case of its letters.
fn is_stdout(name: &str) -> bool
    ensures { result ≡ is_stdout name.now }
{
    name.eq_ignore_ascii_case("STDOUT")
}

/// Whether the rows of a query go to standard output.
pub fn is_standard(query: &Query) -> bool
    ensures { result ≡ is_standard (into_in (query_of query.now)) }
{
    match &query.into {
        None => true,
        Some(name) => is_stdout(name.text.as_str()),
    }
}

// No output may be one of the files that a run with a checkpoint keeps for itself.
fn forbid_own(outputs: &mut Outputs, checkpoint: &Option<Name>) -> Result<(), AllocError>
    requires stage { IfSome checkpoint.now (λ ledger. name_fault (ledger ++ codes ".stage") ≡ None) }
    ensures { OnOk result (outputs.new ≡ record { pattern = outputs.old.pattern; forbidden = with_names outputs.old.forbidden (own_names checkpoint.now); names = outputs.old.names }) }
{
    match checkpoint {
        None => Ok(()),
        Some(ledger) => {
            outputs.forbid(ledger)?;
            match ledger.with_suffix(".stage") {
                Ok(stage) => outputs.forbid(&stage),
                Err(_) => unreachable!(),
            }
        }
    }
}

// No output may be a log of this name.
fn forbid_log(outputs: &mut Outputs, name: &Text) -> Result<(), AllocError>
    ensures { OnOk result (outputs.new ≡ record { pattern = outputs.old.pattern; forbidden = with_name outputs.old.forbidden name.now; names = outputs.old.names }) }
{
    match Name::read(name.as_str()) {
        Ok(name) => outputs.forbid(&name),
        Err(_) => Err(AllocError),
    }
}

// Outputs of a pattern, none of which may be a log, or the ledger or its stage.
fn outputs_beside(
    alloc: Global,
    checkpoint: &Option<Name>,
    pattern: &str,
    logs: &TextList,
) -> Result<Outputs, AllocError>
    requires stage { IfSome checkpoint.now (λ ledger. name_fault (ledger ++ codes ".stage") ≡ None) }
    ensures exact { IfOk result (λ outputs. outputs ≡ record { pattern = pattern.now; forbidden = with_names [] (own_names checkpoint.now ++ logs.now); names = [] }) }
{
    let mut outputs = Outputs::new(alloc, pattern)?;
    forbid_own(&mut outputs, checkpoint)?;
    for log in logs.as_slice() {
        forbid_log(&mut outputs, log)?;
    }
    Ok(outputs)
}

// Adds the names of spans.
fn add_names(alloc: Global, spans: &Spans, names: &mut TextList) -> Result<(), AllocError>
    ensures { OnOk result (names.new ≡ names.old ++ map (λ (span : Span). span.name) spans.now) }
{
    for span in spans.as_slice() {
        names.push(Text::from_str(alloc, span.name.as_str())?)?;
    }
    Ok(())
}

// The names of the logs that are files, of which standard input is none, and of those of subqueries.
fn log_names(alloc: Global, query: &Query, spans: &Spans) -> Result<TextList, AllocError>
    ensures { IfOk result (λ names. names ≡ log_names (query_of query.now) spans.now) }
{
    let mut names = TextList::new(alloc);
    if !reads_stdin(&query.names) {
        add_names(alloc, spans, &mut names)?;
    }
    query.add_given_logs(alloc, &mut names)?;
    Ok(names)
}

/// Where the rows of a query go, none placed yet.
pub(crate) fn into_of(
    alloc: Global,
    spec: &Spec,
    query: &Query,
    spans: &Spans,
) -> Result<Into, AllocError>
    requires stage { IfSome spec.now.checkpoint (λ ledger. name_fault (ledger ++ codes ".stage") ≡ None) }
    ensures files { IfOk result (λ into. files_for into ≡ files_of spec.now (query_of query.now) spans.now) }
    ensures none { IfOk result IsUnplaced }
{
    match &query.into {
        None => Ok(Into::Standard),
        Some(name) => {
            if is_stdout(name.text.as_str()) {
                return Ok(Into::Standard);
            }
            let logs = log_names(alloc, query, spans)?;
            let outputs = outputs_beside(alloc, &spec.checkpoint, name.text.as_str(), &logs)?;
            Ok(Into::Files(outputs, spec.file_mode))
        }
    }
}
