// The logs of FROM names, as spans.
ghost use Rattle.std.specs.Prelude.{◌≡◌, ◌≤◌, length, map, IfOk, IfErr, IsErrOf};
ghost use Rattle.lp_model.specs.Outside.{OnlyGrow, Rose, Told, bytes_in};
ghost use Rattle.query_tree.specs.Views.{placed_all, query_of};
ghost use Rattle.log_listing.specs.Listed.{IsListFault};
ghost use Rattle.log_reading.specs.Spans.{AllSpans, IsSpan};
ghost use Rattle.subqueries.specs.Listing.{AreWhole, from_names};

use checkpoint::{Spans, whole_spans};
use log_listing::{ListFault, list_logs};
use lp_outside::Logs;
use lp_values::TextList;
use query_tree::{PlacedList, Query};
use std::alloc::{AllocError, Global};

// The texts of names.
fn texts_of(alloc: Global, names: &PlacedList) -> Result<TextList, AllocError>
    ensures { IfOk result (λ texts. texts ≡ map (λ name. name.text) (placed_all names.now)) }
{
    let mut texts = TextList::with_capacity(alloc, names.items.len())?;
    for name in &names.items {
        texts.push(name.text.copy(alloc)?)?;
    }
    Ok(texts)
}

/// The spans of the logs that the FROM names of a query list, each whole; or why they list none.
pub fn list_spans<L: Logs>(alloc: Global, logs: &mut L, query: &Query) -> Result<Spans, ListFault>
    ensures grows { OnlyGrow (L.folder logs.old) (L.folder logs.new) }
    ensures later { L.faults logs.old ≤ L.faults logs.new }
    ensures found { IfOk result (AreWhole (L.folder logs.old) (L.folder logs.new) (query_of query.now)) }
    ensures few { IfOk result (λ spans. length spans ≤ 100000) }
    ensures spans { IfOk result (λ spans. AllSpans spans IsSpan) }
    ensures there { IfOk result (λ spans. Told (L.folder logs.new) (λ folder. AllSpans spans (λ span. span.listed ≤ length (bytes_in folder span.name)))) }
    ensures refused { IfErr result (λ fault. IsListFault (L.folder logs.new) (from_names (query_of query.now)) fault) }
    ensures failed { IsErrOf result ListFault.Logs → Rose (L.faults logs.old) (L.faults logs.new) }
    ensures given { L.given logs.new ≡ L.given logs.old }
{
    let Ok(texts) = texts_of(alloc, &query.names) else {
        return Err(ListFault::Memory);
    };
    let list = match list_logs(alloc, logs, &texts) {
        Ok(list) => list,
        Err(fault) => return Err(fault),
    };
    match whole_spans(alloc, &list) {
        Ok(spans) => Ok(spans),
        Err(_) => Err(ListFault::Memory),
    }
}
