// A log that is one of the files which a run with a checkpoint keeps for itself.
ghost use Rattle.std.specs.Prelude.{◌≡◌, ◌++◌, ◌||◌, bytes_eq, codes, find, map, None, option_map, IfSome};
ghost use Rattle.lp_outside.specs.NameFault.{name_fault};
ghost use Rattle.log_reading.specs.declared.span.Span.{Span};
ghost use Rattle.subqueries.specs.Listing.{first_own};

use checkpoint::Spans;
use lp_outside::Name;

// The name of the first span whose file is the ledger or the stage. It takes no memory.
fn clash_with(ledger: &Name, stage: &Name, spans: &Spans) -> Option<Name>
    ensures { result ≡ option_map (λ (span : Span). span.name) (find (λ (span : Span). bytes_eq span.name ledger.now || bytes_eq span.name stage.now) spans.now) }
{
    let found = spans
        .as_slice()
        .iter()
        .find(|span| span.name.is(ledger) || span.name.is(stage));
    match found {
        Some(span) => Some(span.name.copy()),
        None => None,
    }
}

/// The name of the first span whose file the run keeps for itself.
pub(crate) fn clash_in(checkpoint: &Option<Name>, spans: &Spans) -> Option<Name>
    requires stage { IfSome checkpoint.now (λ ledger. name_fault (ledger ++ codes ".stage") ≡ None) }
    ensures { result ≡ first_own checkpoint.now (map (λ (span : Span). span.name) spans.now) }
{
    match checkpoint {
        None => None,
        Some(ledger) => match ledger.with_suffix(".stage") {
            Ok(stage) => clash_with(ledger, &stage, spans),
            Err(_) => unreachable!(),
        },
    }
}
