// The entry of a run.
ghost use Rattle.std.specs.Prelude.{◌≡◌, IfOk, map};
ghost use Rattle.command_words.specs.Table.{IsInRange};
ghost use Rattle.ledger.specs.Written.{entry_of, output_of, span_of};
ghost use Rattle.query_tree.specs.Views.{query_of};
ghost use Rattle.run_entry.specs.Entries.{entry_for, kept_output, kept_span};

use crate::input_text;
use command_words::Spec;
use ledger::{Entry, EntrySpan, EntrySpanList, OutputList};
use log_reading::Took;
use lp_values::{Bytes, RowList, Text, copy_texts};
use query_run::Counts;
use query_tree::Query;
use std::alloc::{AllocError, Global};
use text_output::Output;

/// The form of the entries that are written.
const FORM: u8 = 1;

// What is kept of a log.
fn kept_span(alloc: Global, took: &Took) -> Result<EntrySpan, AllocError>
    ensures { IfOk result (λ span. span_of span ≡ kept_span took.now) }
{
    let mut standing = Bytes::new(alloc);
    took.standing.to_bytes(&mut standing)?;
    Ok(EntrySpan {
        identity: took.identity.copy(),
        from: took.from,
        to: took.to,
        standing,
    })
}

// What is kept of all logs.
fn kept_spans(alloc: Global, took: &[Took]) -> Result<EntrySpanList, AllocError>
    ensures { IfOk result (λ spans. map span_of spans ≡ map kept_span took.now) }
{
    let mut spans = EntrySpanList::with_capacity(alloc, took.len())?;
    for log in took {
        spans.push(kept_span(alloc, log)?)?;
    }
    Ok(spans)
}

// What is kept of an output.
fn kept_output(output: &Output) -> ledger::Output
    ensures { output_of result ≡ kept_output output.now }
{
    ledger::Output {
        name: output.name.copy(),
        base: output.base,
        mark: output.mark,
    }
}

// What is kept of all outputs.
fn kept_outputs(alloc: Global, outputs: &[Output]) -> Result<OutputList, AllocError>
    ensures { IfOk result (λ kept. map output_of kept ≡ map kept_output outputs.now) }
{
    let mut kept = OutputList::with_capacity(alloc, outputs.len())?;
    for output in outputs {
        kept.push(kept_output(output))?;
    }
    Ok(kept)
}

/// The entry of a run: what it was asked, the lists that its subqueries gave, what it took of its logs, and what it wrote.
pub fn entry_of_run(
    alloc: Global,
    spec: &Spec,
    query: &Query,
    text: Text,
    template: Bytes,
    moment: i64,
    lists: RowList,
    took: &[Took],
    outputs: &[Output],
    staged: u64,
    counts: &Counts,
) -> Result<Entry, AllocError>
    requires range { IsInRange spec.now }
    ensures { IfOk result (λ entry. entry_of entry ≡ entry_for (record { spec = spec.now; q = query_of query.now; text = text; template = template; moment = moment }) lists took.now outputs.now staged counts.now) }
{
    Ok(Entry {
        form: FORM,
        moment,
        input: input_text(alloc, spec, query)?,
        words: copy_texts(alloc, &spec.words)?,
        query: text,
        template,
        spans: kept_spans(alloc, took)?,
        lists,
        staged,
        outputs: kept_outputs(alloc, outputs)?,
        processed: counts.processed,
        output: counts.output,
        bad: counts.bad,
    })
}
