// When the entry of a run has its form, and what its input text tells.
ghost use Rattle.std.specs.Prelude.{◌≡◌, ℕ, List};
ghost use Rattle.command_words.specs.Table.{IsInRange};
ghost use Rattle.command_words.specs.declared.spec.Spec.{Spec};
ghost use Rattle.program_meaning.specs.Executed.{IsMoment};
ghost use Rattle.program_meaning.specs.Formats.{lines_in, log_format};
ghost use Rattle.grammar.specs.Trees.{Query};
ghost use Rattle.ledger_model.specs.Grammar.{IsEntry};
ghost use Rattle.ledger_model.specs.Inputs.{input_text};
ghost use Rattle.log_reading.specs.declared.span.Took.{Took};
ghost use Rattle.lp_values.specs.declared.value.Value.{Value};
ghost use Rattle.program_meaning.specs.Inputs.{format_in, input_for};
ghost use Rattle.query_run.specs.declared.executing.Counts.{Counts};
ghost use Rattle.text_output.specs.declared.target.Output.{Output};
ghost use Rattle.run_entry.specs.Entries.{Request, entry_for};
ghost use Rattle.run_entry.specs.Forms.{HasForm};

/// What a run keeps of itself has the form of an entry, where what it was asked, was given by subqueries, took and wrote has its form.
pub fn entries_have_their_form()
    ensures { (request : Request) (lists : List (List Value)) (took : List Took) (outputs : List Output) (staged : ℕ) (counts : Counts) → IsInRange request.spec → IsMoment request.moment → HasForm request lists took outputs staged counts
        → IsEntry (entry_for request lists took outputs staged counts) }
{}

/// The text by which a run's logs are read tells their format.
pub fn input_texts_tell_their_format()
    ensures { (spec : Spec) (q : Query) → format_in (input_text (input_for spec q)) ≡ lines_in (log_format spec q) }
{}
