// What a run reads of the logs behind FROM.
ghost use Rattle.std.specs.Prelude.{◌≡◌, ◌≤◌, List, length, OnOk, IfOk, IfErr, IsErrOf};
ghost use Rattle.lp_model.specs.Outside.{OnlyGrow, Rose, Told, bytes_in};
ghost use Rattle.log_reading.specs.Spans.{AllSpans, IsSpan};
ghost use Rattle.ledger_model.specs.Entries.{Entry};
ghost use Rattle.positions.specs.Spans.{Agrees};
ghost use Rattle.positions.specs.Spanning.{rule_of, AreOf, AreSpansOf, IsStopped, IsJudged};
ghost use Rattle.positions.specs.declared.spans.SpanFault.TheVariants as F;

use crate::by_name::spans_of_names;
use crate::by_number::spans_of_stems;
use crate::{Positions, SpanFault, Spans};
use checkpoint::{Rotation, Sources};
use ledger::InputText;
use lp_outside::Logs;
use std::alloc::Global;

impl Positions {
    /// What a run reads of the logs behind FROM: each log from where the runs before it left it, with the standing there,
    /// up to its length at some moment of the call.
    pub fn span<L: Logs>(
        &self,
        alloc: Global,
        logs: &mut L,
        sources: &Sources,
        input: &InputText,
    ) -> Result<Spans, SpanFault>
        ensures grows { OnlyGrow (L.folder logs.old) (L.folder logs.new) }
        ensures given { L.given logs.new ≡ L.given logs.old }
        ensures later { L.faults logs.old ≤ L.faults logs.new }
        ensures steady { OnOk result (L.faults logs.new ≡ L.faults logs.old) }
        ensures agrees { OnOk result (Agrees self.now.input input.now) }
        ensures judged { IfErr result (IsJudged self.now.input input.now) }
        ensures spans { IfOk result (λ spans. (entries : List Entry) → AreOf (rule_of sources.now.rotation) entries self.now
            → AreSpansOf (rule_of sources.now.rotation) self.now.places entries sources.now.names (L.folder logs.old) (L.folder logs.new) spans) }
        ensures stopped { IfErr result (λ fault. (entries : List Entry) → AreOf (rule_of sources.now.rotation) entries self.now
            → IsStopped (rule_of sources.now.rotation) self.now.places entries sources.now.names (L.folder logs.old) (L.folder logs.new) fault) }
        // Whatever the ledger's entries are, these are spans that may be read, up to where the logs reach.
        ensures low { IfOk result (λ spans. AllSpans spans IsSpan) }
        ensures few { IfOk result (λ spans. length spans ≤ 100_000) }
        ensures there { IfOk result (λ spans. Told (L.folder logs.new) (λ folder. AllSpans spans (λ span. span.listed ≤ length (bytes_in folder span.name)))) }
        ensures failed { IsErrOf result F.LogsFault → Rose (L.faults logs.old) (L.faults logs.new) }
        ensures wants { IsErrOf result F.Memory → L.faults logs.new ≡ L.faults logs.old }
    {
        self.check_input(alloc, input)?;
        match sources.rotation {
            Rotation::Names => spans_of_names(alloc, logs, &self.places, &sources.names),
            Rotation::Numbers => spans_of_stems(alloc, logs, &self.places, &sources.names),
        }
    }
}
