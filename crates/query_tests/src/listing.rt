// IN over what a subquery gave, of rows and of groups, worked out by hand.
use crate::grouping::{show_form, table};
use group_planning::{GroupPlan, plan_groups};
use in_set::InSet;
use lp_values::{Kind, TextList, Value};
use query_text::{ReadFault, read_query};
use query_tree::{Given, PlacedGiven, Query};
use query_types::{Condition, Plan, TableColumns, TypeFault};
use row_planning::{is_built, plan};
use std::alloc::{AllocError, Global};
use std::fmt::Write;
use std::process::Abort;
use std::rc::Rc;

fn seven(alloc: Global) -> Result<Rc<InSet>, AllocError> {
    let mut set = InSet::new(alloc);
    set.add(Value::Int(7))?;
    Ok(Rc::new(alloc, set)?)
}

// What was given for the IN at a place: the number 7, of this kind, from no log.
fn given(alloc: Global, at: u32, kind: Kind) -> Result<PlacedGiven, AllocError> {
    let values = seven(alloc)?;
    let given = Given {
        place: 99,
        kind,
        values,
        logs: Rc::new(alloc, TextList::new(alloc))?,
        bad: 0,
    };
    Ok(PlacedGiven { at, given })
}

fn show_side(to: &mut String, is_out: bool) -> Result<(), AllocError> {
    to.push_str(if is_out { " is out" } else { " is in" })
}

// A condition that is an IN over what a subquery gave, by its left side.
fn show_condition(to: &mut String, alloc: Global, condition: &Condition) -> Result<(), AllocError> {
    match condition {
        Condition::Contained {
            value,
            values: _,
            negated,
        } => {
            show_form(to, alloc, value.form())?;
            show_side(to, *negated)
        }
        _ => to.push_str(" other"),
    }
}

fn show_part(to: &mut String, alloc: Global, part: &str, plan: &Plan) -> Result<(), AllocError> {
    match &plan.condition {
        Some(condition) => {
            to.push_str(part)?;
            show_condition(to, alloc, condition)
        }
        None => Ok(()),
    }
}

fn show_rows(
    to: &mut String,
    alloc: Global,
    planned: &Result<Plan, TypeFault>,
) -> Result<(), AllocError> {
    match planned {
        Err(fault) => write!(to, "{fault:?}"),
        Ok(plan) => show_part(to, alloc, "rows", plan),
    }
}

fn show_parts(to: &mut String, alloc: Global, plan: &GroupPlan) -> Result<(), AllocError> {
    show_part(to, alloc, "rows", &plan.rows)?;
    show_part(to, alloc, "groups", &plan.groups)
}

fn show_groups(
    to: &mut String,
    alloc: Global,
    planned: &Result<GroupPlan, TypeFault>,
) -> Result<(), AllocError> {
    match planned {
        Err(fault) => write!(to, "{fault:?}"),
        Ok(plan) => show_parts(to, alloc, plan),
    }
}

fn show_over_groups(
    to: &mut String,
    alloc: Global,
    query: &Query,
    table: &TableColumns,
) -> Result<(), AllocError> {
    show_groups(to, alloc, &plan_groups(alloc, query, table, 0))
}

// What a plan asks of rows or of groups, or its fault.
fn show_planned(
    to: &mut String,
    alloc: Global,
    query: &Query,
    table: &TableColumns,
) -> Result<(), AllocError> {
    if is_built(query) {
        show_rows(to, alloc, &plan(alloc, query, table, 0))
    } else {
        show_over_groups(to, alloc, query, table)
    }
}

fn show_query(to: &mut String, alloc: Global, query: &Query) -> Result<(), AllocError> {
    let table = table(alloc)?;
    show_planned(to, alloc, query, &table)
}

fn show_filled(
    to: &mut String,
    alloc: Global,
    query: &mut Query,
    given: PlacedGiven,
) -> Result<(), AllocError> {
    query.fill(&[given])?;
    show_query(to, alloc, query)
}

fn show_read(
    to: &mut String,
    alloc: Global,
    read: &mut Result<Query, ReadFault>,
    given: PlacedGiven,
) -> Result<(), AllocError> {
    match read {
        Err(_) => to.push_str("no query"),
        Ok(query) => show_filled(to, alloc, query, given),
    }
}

// A query's plan or its fault, where this was given for one of its places.
fn told(alloc: Global, given: PlacedGiven, text: &str) -> Result<String, AllocError> {
    let mut to = String::new(alloc);
    let mut read = read_query(alloc, text.as_bytes());
    show_read(&mut to, alloc, &mut read, given)?;
    Ok(to)
}

fn check(
    rt: &impl Abort,
    alloc: Global,
    given: PlacedGiven,
    text: &str,
    wanted: &str,
) -> Result<(), AllocError> {
    let told = told(alloc, given, text)?;
    assert!(rt; told.as_str() == wanted, "{text}\n{told}");
    Ok(())
}

const ROWS: [(u32, Kind, &str, &str); 10] = [
    (
        22,
        Kind::Real,
        "SELECT a FROM x WHERE a IN (SELECT e FROM y)",
        "rows #0 is in",
    ),
    (
        22,
        Kind::Any,
        "SELECT a FROM x WHERE b NOT IN (SELECT e FROM y)",
        "rows #1 is out",
    ),
    (
        22,
        Kind::Text,
        "SELECT a FROM x WHERE a IN (SELECT e FROM y)",
        "KindMismatch { at: 99 }",
    ),
    (
        21,
        Kind::Real,
        "SELECT a FROM x WHERE a IN (SELECT e FROM y)",
        "UnknownFunction { at: 22 }",
    ),
    (
        22,
        Kind::Text,
        "SELECT a FROM x WHERE nosuch IN (SELECT e FROM y)",
        "UnknownField { at: 22 }",
    ),
    (
        32,
        Kind::Integer,
        "SELECT a, COUNT(*) FROM x WHERE a IN (SELECT e FROM y) GROUP BY a",
        "rows #0 is in",
    ),
    (
        32,
        Kind::Text,
        "SELECT a, COUNT(*) FROM x WHERE a IN (SELECT e FROM y) GROUP BY a",
        "KindMismatch { at: 99 }",
    ),
    (
        34,
        Kind::Integer,
        "SELECT b FROM x GROUP BY b HAVING COUNT(*) IN (SELECT e FROM y)",
        "groups #1 is in",
    ),
    (
        34,
        Kind::Text,
        "SELECT b FROM x GROUP BY b HAVING COUNT(*) IN (SELECT e FROM y)",
        "KindMismatch { at: 99 }",
    ),
    (
        0,
        Kind::Text,
        "SELECT b FROM x GROUP BY b HAVING a IN (SELECT e FROM y)",
        "UnknownFunction { at: 34 }",
    ),
];

#[test]
fn an_in_over_a_list_has_its_plan_or_its_fault(rt: HostRuntime) -> Result<(), AllocError> {
    for (at, kind, text, wanted) in ROWS {
        let given = given(rt.alloc(), at, kind)?;
        check(&rt, rt.alloc(), given, text, wanted)?;
    }
    Ok(())
}
