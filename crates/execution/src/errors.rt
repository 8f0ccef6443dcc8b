// How many bad lines a run may have.
ghost use Rattle.std.specs.Prelude.{◌≡◌, ◌+◌, ◌≤◌, ◌^◌, IfOk};
ghost use Rattle.grammar.specs.Filled.{given_bad};
ghost use Rattle.query_tree.specs.Views.{query_of};
ghost use Rattle.execution.specs.Budgets.{IsBudget};

use query_run::Counts;
use query_tree::Query;
use std::alloc::AllocError;

// As many bad lines no run has.
const MOST: u64 = 1 << 62;

/// How many bad lines the logs of a query's subqueries had, and how many its own ones may have.
#[derive(Clone, Copy, Debug)]
pub struct BadBudget {
    pub before: u64,
    pub most: u64,
}

// What is left of so many, after so many.
fn left(most: u64, before: u64) -> Result<BadBudget, AllocError>
    requires { most ≤ 2 ^ 62 }
    ensures sum { IfOk result (λ budget. budget.before + budget.most ≡ most) }
    ensures before { IfOk result (λ budget. budget.before ≡ before) }
{
    match most.checked_sub(before) {
        Some(most) => Ok(BadBudget { before, most }),
        None => Err(AllocError),
    }
}

/// What the bad lines of its subqueries leave of those that a run may have; want of memory where they leave none, as before a
/// refusal they do not.
pub(crate) fn bad_budget(errors: Option<u32>, query: &Query) -> Result<BadBudget, AllocError>
    ensures { IfOk result (IsBudget errors (given_bad (query_of query.now))) }
{
    let before = query.given_bad()?;
    match errors {
        Some(most) => left(u64::from(most), before),
        None => left(MOST, before),
    }
}

/// The counts of a run, with the bad lines of its subqueries.
pub(crate) fn with_before(counts: Counts, before: u64) -> Counts
    requires { before + counts.bad ≤ 2 ^ 62 }
    ensures processed { result.processed ≡ counts.processed }
    ensures output { result.output ≡ counts.output }
    ensures bad { result.bad ≡ before + counts.bad }
{
    Counts {
        processed: counts.processed,
        output: counts.output,
        bad: before + counts.bad,
    }
}
