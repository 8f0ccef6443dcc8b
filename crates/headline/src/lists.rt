// What IN over a subquery is. The function does no work: its contract is the law.
ghost use Rattle.std.specs.Prelude.{◌≡◌, List};
ghost use Rattle.in_set.specs.Facts.{facts_of, found, in_list};
ghost use Rattle.lp_values.specs.declared.value.Value.{Value};

/// The law that a set with the facts of a list, by which the contract of `run` says what IN over a subquery is, finds exactly the OR
/// of the equalities with the list's values.
pub fn sets_find_lists()
    ensures { (values : List Value) (value : Value) → found (facts_of values) value ≡ in_list value values }
{}
