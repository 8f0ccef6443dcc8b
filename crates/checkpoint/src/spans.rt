// Logs as spans.
ghost use Rattle.std.specs.Prelude.{◌≡◌, IfOk};
ghost use Rattle.checkpoint.specs.Wholes.{whole_span, whole_spans};

use line_input::Standing;
use log_listing::{NameLength, NameLengths};
use log_reading::Span;
use lp_values::ListOf;
use std::alloc::{AllocError, Global};

/// What a run reads, log by log.
pub type Spans = ListOf<Span>;

// A log from its start up to its length.
fn whole_span(log: &NameLength) -> Span
    ensures { result ≡ whole_span log.now }
{
    Span {
        name: log.name.copy(),
        identity: log.name.copy(),
        from: 0,
        listed: log.length,
        standing: Standing::new(),
    }
}

/// Logs from their starts up to their lengths.
pub fn whole_spans(alloc: Global, logs: &NameLengths) -> Result<Spans, AllocError>
    ensures { IfOk result (λ spans. spans ≡ whole_spans logs.now) }
{
    let mut spans = Spans::with_capacity(alloc, logs.len())?;
    for log in logs.as_slice() {
        spans.push(whole_span(log))?;
    }
    Ok(spans)
}
