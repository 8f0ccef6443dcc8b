// What a run reads of standard input.
ghost use Rattle.std.specs.Prelude.{◌≡◌, IfOk};
ghost use Rattle.checkpoint.specs.Wholes.{whole_spans};
ghost use Rattle.standard_input.specs.Streams.{input_logs};

use checkpoint::{Spans, whole_spans};
use log_listing::{NameLength, NameLengths};
use lp_outside::Name;
use std::alloc::{AllocError, Global};

/// The span of standard input: all that it gives, under the name STDIN.
pub fn input_spans(alloc: Global) -> Result<Spans, AllocError>
    ensures { IfOk result (λ spans. spans ≡ whole_spans input_logs) }
{
    let Ok(name) = Name::read("STDIN") else {
        unreachable!();
    };
    let mut logs = NameLengths::new(alloc);
    logs.push(NameLength {
        name,
        length: (1 << 40) + 1,
    })?;
    whole_spans(alloc, &logs)
}
