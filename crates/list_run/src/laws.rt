// A law on what is kept. The function does no work: its contract is the law.
ghost use Rattle.std.specs.Prelude.{◌≡◌, ◌≢◌, List};
ghost use Rattle.in_set.specs.Facts.{facts_of};
ghost use Rattle.lp_values.specs.declared.value.Value.{Value};
ghost use Rattle.list_run.specs.Keeping.{kept_values};
ghost use Rattle.list_run.specs.declared.keep.Keep.{Keep};
ghost use Rattle.list_run.specs.declared.keep.Keep.TheVariants as K;

/// The law that a list which is kept has the facts of all values, so that the set of these stands for it too.
pub fn listed_alike()
    ensures { (keep : Keep) (values : List Value) → keep ≢ K.Nothing → facts_of (kept_values keep values) ≡ facts_of values }
{}
