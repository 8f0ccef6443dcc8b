// The run.
ghost use Rattle.std.specs.Prelude.{◌≡◌, ◌≤◌, ◌+◌, ◌^◌, ◌++◌, ℕ, List, codes, true, false, Option, None, Some, IsSome};
ghost use Rattle.grammar.specs.Trees as model;
ghost use Rattle.lp_model.specs.Outside.{Folder, Rose, OnlyGrow};
ghost use Rattle.command_words.specs.Table.{IsAsked, IsInRange, checkpoint_of};
ghost use Rattle.command_words.specs.Usage.{AreFine};
ghost use Rattle.command_words.specs.declared.formats.OutputFormat.TheVariants as O;
ghost use Rattle.command_words.specs.declared.spec.Spec.{Spec as Options};
ghost use Rattle.input_tables.specs.declared.format.TableFormat.{TableFormat};
ghost use Rattle.query_tree.specs.Views.{query_of};
ghost use Rattle.query_text.specs.Stdin.{names_in};
ghost use Rattle.checkpointed_command.specs.Built.{all_built, reads_stdin};
ghost use Rattle.checkpointed_command.specs.Executed.{IsMoment};
ghost use Rattle.checkpointed_command.specs.Texts.{has_text, output_of, sections_in};
ghost use Rattle.lp_outside.specs.NameFault.{name_fault};
ghost use Rattle.file_stage.specs.FileTexts.{AlwaysTells};
ghost use Rattle.checkpointed_command.specs.Given.{ReadsKept};
ghost use Rattle.reports.specs.Messages.{message};
ghost use Rattle.reports.specs.Status.{OnRefused};
ghost use Rattle.logparser_cli.specs.Answers.{AnswersInput, AnswersOf, AnswersPlainly, AnswersQuery, AnswersRun};
ghost use Rattle.logparser_cli.specs.Kept.{Answers, AnswersLedger, ReadsLedger};
ghost use Rattle.logparser_cli.specs.Given.{ReadsLogs, ReadsQuery, ReadsWords};
ghost use Rattle.logparser_cli.specs.Input.{AsksNoInput, IsReadOn, stopped_input};
ghost use Rattle.logparser_cli.specs.OnePass.{AsksInPass, IsOnePass, PassesRows, progress};
ghost use Rattle.logparser_cli.specs.Outputs.{held, input_at, world};
ghost use Rattle.logparser_cli.specs.Whole.{Tells, told_statistics};

use crate::Status;
use crate::listing::find_spans;
use crate::preparing::prepare;
use crate::template::find_template;
use crate::writing::write_rows;
use checkpointed_command::{
    RunFault, is_standard, reads_stdin, run_with_checkpoint, stopped, unasked,
};
use command_words::Spec;
use lp_outside::{Disk, Logs, Name, Sink, Source};
use lp_values::TextList;
use query_run::Counts;
use query_tree::Query;
use reports::{write_message, write_statistics};
use requests::{WrittenQuery, read_query_word, read_spec};
use standard_input::{InputLog, input_spans};
use std::alloc::Global;
use std::rc::Rc;
use tpl_output::Template;

const MOMENTS: i64 = 253402300800;

// Tells the statistics, unless they are switched off, as far as the output takes them.
fn tell_statistics<E: Sink>(err: &mut E, stats: bool, counts: &Counts)
    ensures told { Tells (E.written err.old) (E.written err.new) (told_statistics stats counts.now) (Rose (E.faults err.old) (E.faults err.new)) }
    ensures later { E.faults err.old ≤ E.faults err.new }
{
    if stats {
        match write_statistics(err, counts.processed, counts.output, counts.bad) {
            Ok(()) => {}
            Err(_) => {}
        }
    }
}

// Tells of a refusal, as far as the output takes it.
fn tell_refusal<E: Sink>(err: &mut E, status: &Status)
    ensures told { Tells (E.written err.old) (E.written err.new) (message status.now) (Rose (E.faults err.old) (E.faults err.new)) }
    ensures later { E.faults err.old ≤ E.faults err.new }
{
    match write_message(err, status) {
        Ok(()) => {}
        Err(_) => {}
    }
}

// What a fault is as an answer, where standard input stands in the place of the logs.
fn stopped_input(is_standard: bool, fault: RunFault) -> Status
    ensures { result ≡ stopped_input is_standard fault }
{
    match fault {
        RunFault::LogsFault => Status::SourceFault,
        fault => stopped(is_standard, fault),
    }
}

// Runs a query over the logs of its FROM names, before a refusal is told.
fn run_logs<L: Logs, D: Disk, I: Source, S: Sink, E: Sink>(
    alloc: Global,
    spec: &Spec,
    query: &Query,
    template: Option<Rc<Template>>,
    moment: i64,
    logs: &mut L,
    disk: &mut D,
    input: &mut I,
    out: &mut S,
    err: &mut E,
) -> Status
    requires moment { IsMoment moment }
    requires range { IsInRange spec.now }
    requires template { output_of spec.now (query_of query.now) ≡ O.Tpl → IsSome template }
    requires built { all_built spec.now (query_of query.now) ≡ true }
    requires files { reads_stdin (names_in (query_of query.now)) ≡ false }
    ensures grows { OnlyGrow (L.folder logs.old) (L.folder logs.new) }
    ensures later { L.faults logs.old ≤ L.faults logs.new }
    ensures honest { (D.state disk.old).honest → (D.state disk.new).honest }
    ensures later_disk { D.faults disk.old ≤ D.faults disk.new }
    ensures later_out { S.faults out.old ≤ S.faults out.new }
    ensures later_err { E.faults err.old ≤ E.faults err.new }
    ensures answers { AnswersRun
        (world (L.folder logs.old) (L.faults logs.old) (held (AlwaysTells D.state) (D.state disk.old).seen (S.written out.old)) (D.faults disk.old) (S.faults out.old) (E.written err.old) (E.faults err.old) (input_at I.left I.given I.faults input.old))
        (world (L.folder logs.new) (L.faults logs.new) (held (AlwaysTells D.state) (D.state disk.new).seen (S.written out.new)) (D.faults disk.new) (S.faults out.new) (E.written err.new) (E.faults err.new) (input_at I.left I.given I.faults input.new))
        (sections_in (λ t. t.value) template) spec.now moment (query_of query.now) result }
    ensures given { ReadsLogs (L.folder logs.new) (query_of query.now) (L.given logs.old) (L.given logs.new) }
    ensures one_pass { (format : TableFormat) → PassesRows spec.now (query_of query.now) format → IsOnePass spec.now moment (query_of query.now) format
        (progress (L.folder logs.old) (L.given logs.old) (input_at I.left I.given I.faults input.old) (S.written out.old))
        (progress (L.folder logs.new) (L.given logs.new) (input_at I.left I.given I.faults input.new) (S.written out.new)) }
    ensures input { input.new ≡ input.old }
    ensures silent { OnRefused result (err.new ≡ err.old) }
{
    let spans = match find_spans(alloc, logs, query) {
        Ok(spans) => spans,
        Err(status) => return status,
    };
    match write_rows(
        alloc, spec, query, template, moment, logs, disk, &spans, out,
    ) {
        Ok(ran) => {
            tell_statistics(err, spec.stats, &ran.counts);
            Status::Done
        }
        Err(fault) => stopped(is_standard(query), fault),
    }
}

// Runs a query over standard input, before a refusal is told.
fn run_input<D: Disk, I: Source, S: Sink, E: Sink>(
    alloc: Global,
    spec: &Spec,
    query: &Query,
    template: Option<Rc<Template>>,
    moment: i64,
    disk: &mut D,
    input: &mut I,
    out: &mut S,
    err: &mut E,
) -> Status
    requires moment { IsMoment moment }
    requires range { IsInRange spec.now }
    requires template { output_of spec.now (query_of query.now) ≡ O.Tpl → IsSome template }
    requires built { all_built spec.now (query_of query.now) ≡ true }
    requires stdin { reads_stdin (names_in (query_of query.now)) ≡ true }
    ensures honest { (D.state disk.old).honest → (D.state disk.new).honest }
    ensures later_disk { D.faults disk.old ≤ D.faults disk.new }
    ensures later_out { S.faults out.old ≤ S.faults out.new }
    ensures later_err { E.faults err.old ≤ E.faults err.new }
    ensures answers { (folder : Option Folder) (faults : ℕ) → AnswersInput
        (world folder faults (held (AlwaysTells D.state) (D.state disk.old).seen (S.written out.old)) (D.faults disk.old) (S.faults out.old) (E.written err.old) (E.faults err.old) (input_at I.left I.given I.faults input.old))
        (world folder faults (held (AlwaysTells D.state) (D.state disk.new).seen (S.written out.new)) (D.faults disk.new) (S.faults out.new) (E.written err.new) (E.faults err.new) (input_at I.left I.given I.faults input.new))
        (sections_in (λ t. t.value) template) spec.now moment (query_of query.now) result }
    ensures read { IsReadOn (input_at I.left I.given I.faults input.old) (input_at I.left I.given I.faults input.new) }
    ensures one_pass { (folder : Option Folder) (given : ℕ) (format : TableFormat) → PassesRows spec.now (query_of query.now) format → IsOnePass spec.now moment (query_of query.now) format
        (progress folder given (input_at I.left I.given I.faults input.old) (S.written out.old))
        (progress folder given (input_at I.left I.given I.faults input.new) (S.written out.new)) }
    ensures too_long { I.given input.new ≡ I.given input.old + 2 ^ 40 → result ≡ Status.InputTooLong }
    ensures silent { OnRefused result (err.new ≡ err.old) }
{
    let Ok(spans) = input_spans(alloc) else {
        return Status::Memory;
    };
    let mut log = InputLog::new(input);
    let written = write_rows(
        alloc, spec, query, template, moment, &mut log, disk, &spans, out,
    );
    let is_too_long = log.is_too_long();
    drop(log);
    if is_too_long {
        return Status::InputTooLong;
    }
    match written {
        Ok(ran) => {
            tell_statistics(err, spec.stats, &ran.counts);
            Status::Done
        }
        Err(fault) => stopped_input(is_standard(query), fault),
    }
}

// Runs a query over what it reads, before a refusal is told.
fn run_over<L: Logs, D: Disk, I: Source, S: Sink, E: Sink>(
    alloc: Global,
    spec: &Spec,
    query: &Query,
    template: Option<Rc<Template>>,
    moment: i64,
    logs: &mut L,
    disk: &mut D,
    input: &mut I,
    out: &mut S,
    err: &mut E,
) -> Status
    requires moment { IsMoment moment }
    requires range { IsInRange spec.now }
    requires template { output_of spec.now (query_of query.now) ≡ O.Tpl → IsSome template }
    requires built { all_built spec.now (query_of query.now) ≡ true }
    ensures grows { OnlyGrow (L.folder logs.old) (L.folder logs.new) }
    ensures later { L.faults logs.old ≤ L.faults logs.new }
    ensures honest { (D.state disk.old).honest → (D.state disk.new).honest }
    ensures later_disk { D.faults disk.old ≤ D.faults disk.new }
    ensures later_out { S.faults out.old ≤ S.faults out.new }
    ensures later_err { E.faults err.old ≤ E.faults err.new }
    ensures answers { AnswersOf (reads_stdin (names_in (query_of query.now)))
        (world (L.folder logs.old) (L.faults logs.old) (held (AlwaysTells D.state) (D.state disk.old).seen (S.written out.old)) (D.faults disk.old) (S.faults out.old) (E.written err.old) (E.faults err.old) (input_at I.left I.given I.faults input.old))
        (world (L.folder logs.new) (L.faults logs.new) (held (AlwaysTells D.state) (D.state disk.new).seen (S.written out.new)) (D.faults disk.new) (S.faults out.new) (E.written err.new) (E.faults err.new) (input_at I.left I.given I.faults input.new))
        (sections_in (λ t. t.value) template) spec.now moment (query_of query.now) result }
    ensures given { ReadsLogs (L.folder logs.new) (query_of query.now) (L.given logs.old) (L.given logs.new) }
    ensures one_pass { (format : TableFormat) → PassesRows spec.now (query_of query.now) format → IsOnePass spec.now moment (query_of query.now) format
        (progress (L.folder logs.old) (L.given logs.old) (input_at I.left I.given I.faults input.old) (S.written out.old))
        (progress (L.folder logs.new) (L.given logs.new) (input_at I.left I.given I.faults input.new) (S.written out.new)) }
    ensures input { reads_stdin (names_in (query_of query.now)) ≡ false → input.new ≡ input.old }
    ensures read { IsReadOn (input_at I.left I.given I.faults input.old) (input_at I.left I.given I.faults input.new) }
    ensures too_long { I.given input.new ≡ I.given input.old + 2 ^ 40 → result ≡ Status.InputTooLong }
    ensures silent { OnRefused result (err.new ≡ err.old) }
{
    if reads_stdin(&query.names) {
        run_input(alloc, spec, query, template, moment, disk, input, out, err)
    } else {
        run_logs(
            alloc, spec, query, template, moment, logs, disk, input, out, err,
        )
    }
}

// Runs a query, before a refusal is told.
fn run_query<L: Logs, D: Disk, I: Source, S: Sink, E: Sink>(
    alloc: Global,
    spec: &Spec,
    query: &mut Query,
    moment: i64,
    logs: &mut L,
    disk: &mut D,
    input: &mut I,
    out: &mut S,
    err: &mut E,
) -> Status
    requires moment { IsMoment moment }
    requires range { IsInRange spec.now }
    requires built { all_built spec.now (query_of query.old) ≡ true }
    ensures grows { OnlyGrow (L.folder logs.old) (L.folder logs.new) }
    ensures later { L.faults logs.old ≤ L.faults logs.new }
    ensures honest { (D.state disk.old).honest → (D.state disk.new).honest }
    ensures later_disk { D.faults disk.old ≤ D.faults disk.new }
    ensures later_out { S.faults out.old ≤ S.faults out.new }
    ensures later_err { E.faults err.old ≤ E.faults err.new }
    ensures answers { AnswersQuery
        (world (L.folder logs.old) (L.faults logs.old) (held (AlwaysTells D.state) (D.state disk.old).seen (S.written out.old)) (D.faults disk.old) (S.faults out.old) (E.written err.old) (E.faults err.old) (input_at I.left I.given I.faults input.old))
        (world (L.folder logs.new) (L.faults logs.new) (held (AlwaysTells D.state) (D.state disk.new).seen (S.written out.new)) (D.faults disk.new) (S.faults out.new) (E.written err.new) (E.faults err.new) (input_at I.left I.given I.faults input.new))
        spec.now moment (query_of query.old) result }
    ensures given { ReadsQuery (L.folder logs.new) spec.now (query_of query.old) (L.given logs.old) (L.given logs.new) }
    ensures one_pass { (format : TableFormat) → PassesRows spec.now (query_of query.old) format → IsOnePass spec.now moment (query_of query.old) format
        (progress (L.folder logs.old) (L.given logs.old) (input_at I.left I.given I.faults input.old) (S.written out.old))
        (progress (L.folder logs.new) (L.given logs.new) (input_at I.left I.given I.faults input.new) (S.written out.new)) }
    ensures input { reads_stdin (names_in (query_of query.old)) ≡ false → input.new ≡ input.old }
    ensures read { IsReadOn (input_at I.left I.given I.faults input.old) (input_at I.left I.given I.faults input.new) }
    ensures too_long { I.given input.new ≡ I.given input.old + 2 ^ 40 → result ≡ Status.InputTooLong }
    ensures silent { OnRefused result (err.new ≡ err.old) }
{
    let template = match find_template(alloc, logs, spec, query) {
        Ok(template) => template,
        Err(status) => return status,
    };
    match prepare(alloc, spec, query, moment, logs) {
        Ok(()) => run_over(
            alloc, spec, query, template, moment, logs, disk, input, out, err,
        ),
        Err(status) => {
            drop(template);
            status
        }
    }
}

// Does what the words ask for without a checkpoint, before a refusal is told. It speaks of all words that ask for these options.
fn run_plainly<L: Logs, D: Disk, I: Source, S: Sink, E: Sink>(
    alloc: Global,
    spec: &Spec,
    moment: i64,
    logs: &mut L,
    disk: &mut D,
    input: &mut I,
    out: &mut S,
    err: &mut E,
) -> Status
    requires moment { IsMoment moment }
    requires range { IsInRange spec.now }
    requires plain { spec.now.checkpoint ≡ None }
    requires texts { (q : model.Query) → has_text spec.now (output_of spec.now q) ≡ true }
    ensures answers { (words : List (List ℕ)) → AreFine words → IsAsked words spec.now → AnswersPlainly moment words
        (world (L.folder logs.old) (L.faults logs.old) (held (AlwaysTells D.state) (D.state disk.old).seen (S.written out.old)) (D.faults disk.old) (S.faults out.old) (E.written err.old) (E.faults err.old) (input_at I.left I.given I.faults input.old))
        (world (L.folder logs.new) (L.faults logs.new) (held (AlwaysTells D.state) (D.state disk.new).seen (S.written out.new)) (D.faults disk.new) (S.faults out.new) (E.written err.new) (E.faults err.new) (input_at I.left I.given I.faults input.new))
        result }
    ensures grows { OnlyGrow (L.folder logs.old) (L.folder logs.new) }
    ensures later { L.faults logs.old ≤ L.faults logs.new }
    ensures honest { (D.state disk.old).honest → (D.state disk.new).honest }
    ensures later_disk { D.faults disk.old ≤ D.faults disk.new }
    ensures later_out { S.faults out.old ≤ S.faults out.new }
    ensures later_err { E.faults err.old ≤ E.faults err.new }
    ensures given { (words : List (List ℕ)) → AreFine words → IsAsked words spec.now → ReadsWords (L.folder logs.old) (L.folder logs.new) words (L.given logs.old) (L.given logs.new) }
    ensures one_pass { (words : List (List ℕ)) → AreFine words → IsAsked words spec.now → (q : model.Query) (format : TableFormat) → AsksInPass (L.folder logs.old) (L.folder logs.new) words spec.now q format → IsOnePass spec.now moment q format
        (progress (L.folder logs.old) (L.given logs.old) (input_at I.left I.given I.faults input.old) (S.written out.old))
        (progress (L.folder logs.new) (L.given logs.new) (input_at I.left I.given I.faults input.new) (S.written out.new)) }
    ensures input { (words : List (List ℕ)) → AreFine words → IsAsked words spec.now → AsksNoInput (L.folder logs.old) (L.folder logs.new) words → input.new ≡ input.old }
    ensures read { IsReadOn (input_at I.left I.given I.faults input.old) (input_at I.left I.given I.faults input.new) }
    ensures too_long { I.given input.new ≡ I.given input.old + 2 ^ 40 → result ≡ Status.InputTooLong }
    ensures silent { OnRefused result (err.new ≡ err.old) }
{
    match read_query_word(alloc, logs, spec.query.as_str()) {
        Ok(WrittenQuery { mut query, text: _ }) => {
            let status = run_query(alloc, spec, &mut query, moment, logs, disk, input, out, err);
            drop(query);
            status
        }
        Err(fault) => unasked(fault),
    }
}

// Does what the words ask for with a checkpoint, before a refusal is told.
fn run_kept<L: Logs, D: Disk, E: Sink>(
    alloc: Global,
    spec: &Spec,
    ledger: &Name,
    moment: i64,
    logs: &mut L,
    disk: &mut D,
    err: &mut E,
) -> Status
    requires moment { IsMoment moment }
    requires range { IsInRange spec.now }
    requires ledger { spec.now.checkpoint ≡ Some ledger.now }
    requires stage { name_fault (ledger.now ++ codes ".stage") ≡ None }
    requires texts { (q : model.Query) → has_text spec.now (output_of spec.now q) ≡ true }
    ensures now { IsMoment moment }
    ensures grows { OnlyGrow (L.folder logs.old) (L.folder logs.new) }
    ensures later { L.faults logs.old ≤ L.faults logs.new }
    ensures later_disk { D.faults disk.old ≤ D.faults disk.new }
    ensures later_err { E.faults err.old ≤ E.faults err.new }
    ensures answers { AnswersLedger D.state disk.old disk.new spec.now ledger.now moment (L.folder logs.old) (L.folder logs.new) (E.written err.old) (E.written err.new) (Rose (L.faults logs.old) (L.faults logs.new)) (Rose (D.faults disk.old) (D.faults disk.new)) (Rose (E.faults err.old) (E.faults err.new)) result }
    ensures given { ReadsKept D.state disk.old ledger.now (ledger.now ++ codes ".stage") (L.folder logs.old) (L.folder logs.new) spec.now (L.given logs.old) (L.given logs.new) }
    ensures silent { OnRefused result (err.new ≡ err.old) }
{
    match run_with_checkpoint(alloc, spec, ledger, moment, logs, disk) {
        Ok(counts) => {
            tell_statistics(err, spec.stats, &counts);
            Status::Done
        }
        Err(status) => status,
    }
}

// Does what the words ask for, before a refusal is told.
fn run_words<L: Logs, D: Disk, I: Source, S: Sink, E: Sink>(
    alloc: Global,
    words: &TextList,
    moment: i64,
    logs: &mut L,
    disk: &mut D,
    input: &mut I,
    out: &mut S,
    err: &mut E,
) -> Status
    ensures answers { Answers D.state disk.old disk.new moment words.now
        (world (L.folder logs.old) (L.faults logs.old) (held (AlwaysTells D.state) (D.state disk.old).seen (S.written out.old)) (D.faults disk.old) (S.faults out.old) (E.written err.old) (E.faults err.old) (input_at I.left I.given I.faults input.old))
        (world (L.folder logs.new) (L.faults logs.new) (held (AlwaysTells D.state) (D.state disk.new).seen (S.written out.new)) (D.faults disk.new) (S.faults out.new) (E.written err.new) (E.faults err.new) (input_at I.left I.given I.faults input.new))
        result }
    ensures grows { OnlyGrow (L.folder logs.old) (L.folder logs.new) }
    ensures later { L.faults logs.old ≤ L.faults logs.new }
    ensures honest { checkpoint_of words.now ≡ None → (D.state disk.old).honest → (D.state disk.new).honest }
    ensures later_disk { D.faults disk.old ≤ D.faults disk.new }
    ensures later_out { S.faults out.old ≤ S.faults out.new }
    ensures later_err { E.faults err.old ≤ E.faults err.new }
    ensures given { checkpoint_of words.now ≡ None → ReadsWords (L.folder logs.old) (L.folder logs.new) words.now (L.given logs.old) (L.given logs.new) }
    ensures kept { IsSome (checkpoint_of words.now) → ReadsLedger D.state disk.old (L.folder logs.old) (L.folder logs.new) words.now (L.given logs.old) (L.given logs.new) }
    ensures one_pass { (spec : Options) (q : model.Query) (format : TableFormat) → AsksInPass (L.folder logs.old) (L.folder logs.new) words.now spec q format → IsOnePass spec moment q format
        (progress (L.folder logs.old) (L.given logs.old) (input_at I.left I.given I.faults input.old) (S.written out.old))
        (progress (L.folder logs.new) (L.given logs.new) (input_at I.left I.given I.faults input.new) (S.written out.new)) }
    ensures input { AsksNoInput (L.folder logs.old) (L.folder logs.new) words.now → input.new ≡ input.old }
    ensures unread { IsSome (checkpoint_of words.now) → input.new ≡ input.old }
    ensures read { IsReadOn (input_at I.left I.given I.faults input.old) (input_at I.left I.given I.faults input.new) }
    ensures too_long { I.given input.new ≡ I.given input.old + 2 ^ 40 → result ≡ Status.InputTooLong }
    ensures silent { OnRefused result (err.new ≡ err.old) }
{
    if moment < 0 || moment >= MOMENTS {
        return Status::Clock(moment);
    }
    let spec = match read_spec(alloc, words) {
        Ok(spec) => spec,
        Err(fault) => return unasked(fault),
    };
    if let Some(ledger) = &spec.checkpoint {
        let status = run_kept(alloc, &spec, ledger, moment, logs, disk, err);
        drop(spec);
        return status;
    }
    let status = run_plainly(alloc, &spec, moment, logs, disk, input, out, err);
    drop(spec);
    status
}

/// Does all that the words ask for, as the clock's whole seconds since 1970 are `moment`.
///
/// Without a checkpoint, at `Done` the rows of the query over the records of the logs that FROM names, each up to its length at some
/// moment of the call, are written: as text in the output's format on `out`, or, where INTO names files, in these, each as the file
/// mode wants it, and no other file changed. The subqueries of the query were run before, each over its own logs. A refusal behind
/// the first row leaves the front of the text on `out`, or any part of theirs in the files of INTO. Where STDIN is the one name
/// behind FROM, `input` stands in the place of the logs, and is read from its front on; else it is left as it is. Of the query's
/// file, the template and each log, for each query that reads it, no more bytes are read than it has at the end.
///
/// With a checkpoint it takes of the logs behind FROM the complete lines that no earlier run took. `disk` holds the ledger, the stage
/// beside it and the files of INTO, in which the rows of this run and the note of it are there together or not at all, wherever the
/// disk stops. `out` and `input` stay as they are.
///
/// An output by a template is by the sections of the file that `-tpl` names, which is read before the logs are listed. `err` has
/// gained the statistics, and at every refusal its message; it holds the front of either where it failed.
pub fn run<L: Logs, D: Disk, I: Source, S: Sink, E: Sink>(
    alloc: Global,
    words: &TextList,
    moment: i64,
    logs: &mut L,
    disk: &mut D,
    input: &mut I,
    out: &mut S,
    err: &mut E,
) -> Status
    ensures answers { Answers D.state disk.old disk.new moment words.now
        (world (L.folder logs.old) (L.faults logs.old) (held (AlwaysTells D.state) (D.state disk.old).seen (S.written out.old)) (D.faults disk.old) (S.faults out.old) (E.written err.old) (E.faults err.old) (input_at I.left I.given I.faults input.old))
        (world (L.folder logs.new) (L.faults logs.new) (held (AlwaysTells D.state) (D.state disk.new).seen (S.written out.new)) (D.faults disk.new) (S.faults out.new) (E.written err.new) (E.faults err.new) (input_at I.left I.given I.faults input.new))
        result }
    ensures told { OnRefused result (Tells (E.written err.old) (E.written err.new) (message result) (Rose (E.faults err.old) (E.faults err.new))) }
    ensures grows { OnlyGrow (L.folder logs.old) (L.folder logs.new) }
    ensures later { L.faults logs.old ≤ L.faults logs.new }
    ensures honest { checkpoint_of words.now ≡ None → (D.state disk.old).honest → (D.state disk.new).honest }
    ensures later_disk { D.faults disk.old ≤ D.faults disk.new }
    ensures later_out { S.faults out.old ≤ S.faults out.new }
    ensures later_err { E.faults err.old ≤ E.faults err.new }
    ensures given { checkpoint_of words.now ≡ None → ReadsWords (L.folder logs.old) (L.folder logs.new) words.now (L.given logs.old) (L.given logs.new) }
    ensures kept { IsSome (checkpoint_of words.now) → ReadsLedger D.state disk.old (L.folder logs.old) (L.folder logs.new) words.now (L.given logs.old) (L.given logs.new) }
    // A query over rows, of a log format with a table, whose rows go to standard output as they come, reads its logs no further than a
    // little ahead of what standard output has of them.
    ensures one_pass { (spec : Options) (q : model.Query) (format : TableFormat) → AsksInPass (L.folder logs.old) (L.folder logs.new) words.now spec q format → IsOnePass spec moment q format
        (progress (L.folder logs.old) (L.given logs.old) (input_at I.left I.given I.faults input.old) (S.written out.old))
        (progress (L.folder logs.new) (L.given logs.new) (input_at I.left I.given I.faults input.new) (S.written out.new)) }
    ensures input { AsksNoInput (L.folder logs.old) (L.folder logs.new) words.now → input.new ≡ input.old }
    ensures unread { IsSome (checkpoint_of words.now) → input.new ≡ input.old }
    ensures read { IsReadOn (input_at I.left I.given I.faults input.old) (input_at I.left I.given I.faults input.new) }
    ensures too_long { I.given input.new ≡ I.given input.old + 2 ^ 40 → result ≡ Status.InputTooLong }
{
    match run_words(alloc, words, moment, logs, disk, input, out, err) {
        Status::Done => Status::Done,
        refusal => {
            tell_refusal(err, &refusal);
            refusal
        }
    }
}
