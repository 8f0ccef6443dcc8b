// Laws of functions. These functions do no work: their contracts are the laws.
ghost use Rattle.std.specs.Prelude.{◌≡◌, ◌<◌, ℕ, List, Some, Ok, true};
ghost use Rattle.std.specs.Str.{IsUtf8};
ghost use Rattle.lp_time.specs.declared.field.Field.{Field};
ghost use Rattle.lp_time.specs.declared.piece.Piece.{Piece};
ghost use Rattle.lp_time.specs.Patterns.{pattern_in};
ghost use Rattle.lp_time.specs.Writings.{number_of, written};
ghost use Rattle.lp_values.specs.declared.civil.Civil.{Civil};
ghost use Rattle.lp_values.specs.declared.kind.Kind.{Kind};
ghost use Rattle.lp_values.specs.declared.value.Value.{Value};
ghost use Rattle.lp_functions.specs.declared.function.Function.{Function};
ghost use Rattle.lp_functions.specs.Applied.{applied};
ghost use Rattle.lp_functions.specs.Table.{kind_of_call};
ghost use Rattle.lp_functions.specs.Told.{agrees, are_of};

/// The law that a call over values of these kinds gives NULL or a value of the kind that the table tells for them.
pub fn kind_is_told()
    ensures { (function : Function) (values : List Value) (kinds : List Kind) (kind : Kind) → are_of kinds values ≡ true → kind_of_call function kinds ≡ Some kind → agrees kind (applied function values) ≡ true }
{}

/// The law that a pattern which was read from a text writes texts, of which nothing has to be repaired.
pub fn written_is_text()
    ensures { (text : List ℕ) (pieces : List Piece) (civil : Civil) → IsUtf8 text → pattern_in text ≡ Ok pieces → ((field : Field) → number_of civil field < 10_000) → IsUtf8 (written pieces civil) }
{}
