// A real call, as one of the headline.
ghost use Rattle.lp_model.specs.Outside.{Rose};
ghost use Rattle.file_stage.specs.FileTexts.{AlwaysTells};
ghost use Rattle.reports.specs.Messages.{message};
ghost use Rattle.reports.specs.Status.{OnRefused};
ghost use Rattle.logparser_cli.specs.Kept.{Answers};
ghost use Rattle.logparser_cli.specs.Outputs.{held, input_at, world};
ghost use Rattle.logparser_cli.specs.Whole.{Tells};
ghost use Rattle.headline.specs.Calls.{IsCall};

use logparser_cli::{Status, run};
use lp_outside::{Disk, Logs, Sink, Source};
use lp_values::TextList;
use std::alloc::Global;

/// Runs the program: a call of each world in which its words name the ledger, and whose logs are these before and behind it.
pub fn run_in_world<L: Logs, D: Disk, I: Source, S: Sink, E: Sink>(
    alloc: Global,
    words: &TextList,
    moment: i64,
    logs: &mut L,
    disk: &mut D,
    input: &mut I,
    out: &mut S,
    err: &mut E,
) -> Status
    // What the program promises of its run holds of it.
    ensures answers { Answers D.state disk.old disk.new moment words.now
        (world (L.folder logs.old) (L.faults logs.old) (held (AlwaysTells D.state) (D.state disk.old).seen (S.written out.old)) (D.faults disk.old) (S.faults out.old) (E.written err.old) (E.faults err.old) (input_at I.left I.given I.faults input.old))
        (world (L.folder logs.new) (L.faults logs.new) (held (AlwaysTells D.state) (D.state disk.new).seen (S.written out.new)) (D.faults disk.new) (S.faults out.new) (E.written err.new) (E.faults err.new) (input_at I.left I.given I.faults input.new))
        result }
    ensures told { OnRefused result (Tells (E.written err.old) (E.written err.new) (message result) (Rose (E.faults err.old) (E.faults err.new))) }
    ensures called { IsCall D.state words.now moment result (L.folder logs.old) (L.folder logs.new) disk.old disk.new }
{
    run(alloc, words, moment, logs, disk, input, out, err)
}
