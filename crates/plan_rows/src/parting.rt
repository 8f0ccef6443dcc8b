// A plan's columns in two parts: those that WHERE asks, and those that can wait until it keeps a record.
ghost use Rattle.std.specs.Prelude.{◌≡◌, length, option_map, IfOk};
ghost use Rattle.query_types.specs.Conditions.{filter_of};
ghost use Rattle.query_types.specs.Planned.{Covers, is_mentioned};
ghost use Rattle.plan_rows.specs.Picks.{Parted};

use lp_values::ListOf;
use query_types::{Condition, Plan, mentions};
use std::alloc::{AllocError, Global};

/// Places in a table's row.
pub type PlaceList = ListOf<usize>;

/// The columns that a plan uses.
#[derive(Drop)]
pub struct Parts {
    /// Those that WHERE asks.
    pub asked: PlaceList,
    /// The others.
    pub rest: PlaceList,
}

// Whether WHERE asks a column.
fn is_asked(column: usize, condition: &Option<Condition>) -> bool
    ensures { result ≡ is_mentioned column (option_map filter_of condition.now) }
{
    match condition {
        None => false,
        Some(condition) => mentions(column, condition),
    }
}

/// Parts the columns that a plan uses.
pub(crate) fn part_columns(alloc: Global, plan: &Plan) -> Result<Parts, AllocError>
    requires { Covers plan.now.used plan.now.items (option_map filter_of plan.now.condition) }
    ensures { IfOk result (λ parts. Parted (length plan.now.used) parts.asked parts.rest plan.now.items (option_map filter_of plan.now.condition)) }
{
    let mut asked = PlaceList::new(alloc);
    let mut rest = PlaceList::new(alloc);
    let mut column = 0;
    for used in plan.used.as_slice() {
        if *used {
            if is_asked(column, &plan.condition) {
                asked.push(column)?;
            } else {
                rest.push(column)?;
            }
        }
        column += 1;
    }
    Ok(Parts { asked, rest })
}
