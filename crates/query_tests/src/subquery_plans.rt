// Subqueries over a table of the columns a, b and c, and their plan or their fault, worked out by hand.
use crate::grouping::{show_items, table};
use crate::rows::{asked, check};
use group_planning::plan_subquery;
use query_text::{ReadFault, read_query};
use query_tree::Query;
use query_types::{Plan, TypeFault};
use std::alloc::{AllocError, Global};
use std::fmt::Write;

fn show_planned(
    to: &mut String,
    alloc: Global,
    planned: &Result<Plan, TypeFault>,
) -> Result<(), AllocError> {
    match planned {
        Err(fault) => write!(to, "{fault:?}"),
        Ok(plan) => show_items(to, alloc, plan),
    }
}

fn show_query(to: &mut String, alloc: Global, query: &Query) -> Result<(), AllocError> {
    let table = table(alloc)?;
    show_planned(to, alloc, &plan_subquery(alloc, query, &table, 0))
}

fn show_read(
    to: &mut String,
    alloc: Global,
    read: &Result<Query, ReadFault>,
) -> Result<(), AllocError> {
    match read {
        Err(_) => to.push_str("no query"),
        Ok(query) => show_query(to, alloc, query),
    }
}

// The plan of a query that stands for a subquery, or its fault.
fn told(alloc: Global, text: &str) -> Result<String, AllocError> {
    let mut to = String::new(alloc);
    show_read(&mut to, alloc, &read_query(alloc, text.as_bytes()))?;
    Ok(to)
}

const ROWS: &str = "\
SELECT ADD(a, 1) FROM x =>  ADD( #0 '1')
SELECT DISTINCT b FROM x WHERE c > 1 =>  #1 if
SELECT COUNT(*) FROM x => NestedAggregate { at: 7 }
SELECT ADD(a, MAX(nosuch)) FROM x => NestedAggregate { at: 14 }
SELECT a FROM x WHERE SUM(a) > 1 => NestedAggregate { at: 22 }
SELECT GROUPING(a) FROM x WHERE c > 1 => NotGrouped { at: 7 }
SELECT a FROM x WHERE c > 1 AND GROUPING(b) = 1 => NotGrouped { at: 32 }
SELECT ADD(a, GROUPING(b)) FROM x WHERE GROUPING(a) = 1 => NotGrouped { at: 14 }
SELECT GROUPING(a) FROM x WHERE COUNT(a) = 1 => NestedAggregate { at: 32 }
SELECT ADD(a, nosuch) FROM x WHERE COUNT(*) > 1 => UnknownField { at: 14 }
SELECT GROUPING(a) FROM x WHERE b > 1 => KindMismatch { at: 36 }
SELECT GROUPING(a, b) FROM x => WrongArity { at: 7 }";

#[test]
fn a_subquery_has_its_plan_or_its_fault(rt: HostRuntime) -> Result<(), AllocError> {
    for row in ROWS.lines() {
        check(&rt, row, told(rt.alloc(), asked(row))?.as_str());
    }
    Ok(())
}
