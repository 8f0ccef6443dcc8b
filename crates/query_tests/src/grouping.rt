// Grouped queries over a table of the columns a, b and c, and their plan or their fault, worked out by hand.
use crate::rows::{asked, check};
use group_planning::{GroupPlan, is_grouped, plan_groups};
use lp_values::{Bytes, Kind, Text, TextList, Value, print};
use query_text::{ReadFault, read_query};
use query_tree::Query;
use query_types::{
    Form, GroupShape, KindList, MeaningList, NamedKind, NamedKinds, Operation, PlaceList, Plan,
    TableColumns, TypeFault,
};
use std::alloc::{AllocError, Global};
use std::fmt::Write;
use std::str;

fn add_column(
    columns: &mut NamedKinds,
    alloc: Global,
    name: &str,
    kind: Kind,
) -> Result<(), AllocError> {
    let name = Text::from_str(alloc, name)?;
    columns.push(NamedKind { name, kind })
}

fn add_columns(columns: &mut NamedKinds, alloc: Global) -> Result<(), AllocError> {
    for (name, kind) in [("a", Kind::Integer), ("b", Kind::Text), ("c", Kind::Real)] {
        add_column(columns, alloc, name, kind)?;
    }
    Ok(())
}

pub(crate) fn table(alloc: Global) -> Result<TableColumns, AllocError> {
    let mut columns = NamedKinds::new(alloc);
    add_columns(&mut columns, alloc)?;
    Ok(TableColumns {
        columns,
        others: false,
    })
}

fn name_of(by: &Operation) -> &'static str {
    match by {
        Operation::Call(function) => function.name(),
        Operation::Case => "CASE",
        _ => "other",
    }
}

fn show_operation(to: &mut String, by: &Operation) -> Result<(), AllocError> {
    write!(to, " {}(", name_of(by))
}

fn show_column(to: &mut String, index: usize) -> Result<(), AllocError> {
    write!(to, " #{index}")
}

fn show_constant(to: &mut String, alloc: Global, value: &Value) -> Result<(), AllocError> {
    let mut bytes = Bytes::new(alloc);
    print(value, &mut bytes)?;
    write!(
        to,
        " '{}'",
        str::from_utf8(bytes.as_slice()).unwrap_or("no text")
    )
}

/// A form: a column by its place, behind `#`.
pub(crate) fn show_form(to: &mut String, alloc: Global, form: &Form) -> Result<(), AllocError> {
    match form {
        Form::Column(index) => show_column(to, *index),
        Form::Constant(value) => show_constant(to, alloc, value),
        Form::Made { kind: _, by, of } => {
            show_operation(to, by)?;
            for part in of {
                show_form(to, alloc, part)?;
            }
            to.push_str(")")
        }
    }
}

fn show_forms(to: &mut String, alloc: Global, items: &MeaningList) -> Result<(), AllocError> {
    for item in items.as_slice() {
        show_form(to, alloc, item.form())?;
    }
    Ok(())
}

fn show_flag(to: &mut String, sign: &str, is_there: bool) -> Result<(), AllocError> {
    if is_there { to.push_str(sign) } else { Ok(()) }
}

/// What a plan asks of each row, and whether it has a condition.
pub(crate) fn show_items(to: &mut String, alloc: Global, plan: &Plan) -> Result<(), AllocError> {
    show_forms(to, alloc, &plan.items)?;
    show_flag(to, " if", plan.condition.is_some())
}

fn show_shape(to: &mut String, shape: &GroupShape) -> Result<(), AllocError> {
    write!(to, "{} keys", shape.keys)?;
    show_flag(to, " rolled", shape.rollup)?;
    for kind in shape.aggregates.as_slice() {
        write!(to, " {kind:?}")?;
    }
    Ok(())
}

fn show_order(to: &mut String, order: &PlaceList) -> Result<(), AllocError> {
    for place in order.as_slice() {
        write!(to, " by {place}")?;
    }
    Ok(())
}

fn show_names(to: &mut String, names: &TextList) -> Result<(), AllocError> {
    for name in names.as_slice() {
        write!(to, "{}|", name.as_str())?;
    }
    Ok(())
}

fn show_kinds(to: &mut String, kinds: &KindList) -> Result<(), AllocError> {
    for kind in kinds.as_slice() {
        write!(to, " {kind:?}")?;
    }
    Ok(())
}

fn show_rows(to: &mut String, alloc: Global, rows: &Plan) -> Result<(), AllocError> {
    to.push_str("; rows")?;
    show_items(to, alloc, rows)
}

fn show_groups(to: &mut String, alloc: Global, groups: &Plan) -> Result<(), AllocError> {
    to.push_str("; groups")?;
    show_items(to, alloc, groups)?;
    show_order(to, &groups.order)
}

fn show_columns(to: &mut String, groups: &Plan) -> Result<(), AllocError> {
    to.push_str("; ")?;
    show_names(to, &groups.names)?;
    show_kinds(to, &groups.kinds)
}

fn show_plan(to: &mut String, alloc: Global, plan: &GroupPlan) -> Result<(), AllocError> {
    show_shape(to, &plan.shape)?;
    show_rows(to, alloc, &plan.rows)?;
    show_groups(to, alloc, &plan.groups)?;
    show_columns(to, &plan.groups)
}

fn show_planned(
    to: &mut String,
    alloc: Global,
    planned: &Result<GroupPlan, TypeFault>,
) -> Result<(), AllocError> {
    match planned {
        Err(fault) => write!(to, "{fault:?}"),
        Ok(plan) => show_plan(to, alloc, plan),
    }
}

fn show_query(to: &mut String, alloc: Global, query: &Query) -> Result<(), AllocError> {
    show_flag(to, "not grouped: ", !is_grouped(query))?;
    let table = table(alloc)?;
    show_planned(to, alloc, &plan_groups(alloc, query, &table, 0))
}

fn show_read(
    to: &mut String,
    alloc: Global,
    read: &Result<Query, ReadFault>,
) -> Result<(), AllocError> {
    match read {
        Err(_) => to.push_str("no query"),
        Ok(query) => show_query(to, alloc, query),
    }
}

// A query's plan or its fault, and whether it is grouped.
fn told(alloc: Global, text: &str) -> Result<String, AllocError> {
    let mut to = String::new(alloc);
    show_read(&mut to, alloc, &read_query(alloc, text.as_bytes()))?;
    Ok(to)
}

const ROWS: &str = "\
SELECT b, COUNT(*) FROM x GROUP BY b => 1 keys CountAll; rows #1 ''; groups #0 #1; b|COUNT(ALL *)| Text Integer
SELECT COUNT(*), SUM(a), COUNT(*) FROM x HAVING SUM(A) > 1 ORDER BY count(*) => 0 keys CountAll Sum(Integer); rows '' #0; groups #0 #1 #0 if by 0; COUNT(ALL *)|SUM(ALL a)|COUNT(ALL *)| Integer Integer Integer
SELECT a, GROUPING(a), b FROM x WHERE c > 1 GROUP BY A, b WITH ROLLUP => 2 keys rolled; rows #0 #1 if; groups #0 #2 #1; a|GROUPING(a)|b| Integer Integer Text
SELECT STRLEN(b) AS n, MAX(c), GROUPING(strlen(b)) FROM x GROUP BY n => 1 keys Max; rows STRLEN( #1) #2; groups #0 #1 #2; n|MAX(ALL c)|GROUPING(STRLEN(b))| Integer Real Integer
SELECT ADD(a, 1), 1, PROPCOUNT(*) FROM x GROUP BY a, 1, A => 3 keys PropCount; rows #0 '1' #0 ''; groups ADD( #0 #1) #1 #3; ADD(a, 1)|1|PROPCOUNT(*)| Integer Integer Real
SELECT MIN(b), AVG(ADD(a, c)) FROM x HAVING COUNT(a) > 1 AND MIN(b) LIKE 'x' => 0 keys Min Avg(Real) Count; rows #1 ADD( #0 #2) #0; groups #0 #1 if; MIN(ALL b)|AVG(ALL ADD(a, c))| Text Real
SELECT n USING COUNT(*) AS n FROM x => NestedAggregate { at: 15 }
SELECT SUM(COUNT(*)) FROM x => NestedAggregate { at: 11 }
SELECT a FROM x WHERE COUNT(*) > 1 => NestedAggregate { at: 22 }
SELECT COUNT(*) AS n FROM x GROUP BY n => NestedAggregate { at: 7 }
SELECT SUM(n), ADD(COUNT(*), nosuch) AS n FROM x => NestedAggregate { at: 19 }
SELECT n, ADD(COUNT(*), nosuch) AS n FROM x => UnknownField { at: 24 }
SELECT * FROM x GROUP BY b => StarWithGroups { at: 7 }
SELECT * FROM x WHERE COUNT(*) > 1 => StarWithGroups { at: 7 }
SELECT nosuch, SUM(COUNT(*)) FROM x => UnknownField { at: 7 }
SELECT a, COUNT(*) FROM x HAVING nosuch = 1 => UnknownField { at: 33 }
SELECT a, COUNT(*) FROM x HAVING b = 'x' => NotGrouped { at: 7 }
SELECT COUNT(*), ADD(a, c) FROM x GROUP BY c => NotGrouped { at: 21 }
SELECT n FROM x GROUP BY b => UnknownField { at: 7 }
SELECT m, a AS n, ADD(n, 1) AS m FROM x GROUP BY b => NotGrouped { at: 10 }
SELECT b FROM x GROUP BY b HAVING a > 1 => NotGrouped { at: 34 }
SELECT COUNT(GROUPING(a)) FROM x GROUP BY a => NotGrouped { at: 13 }
SELECT GROUPING(b), COUNT(*) FROM x GROUP BY a => NotGrouped { at: 7 }
SELECT COUNT(*) FROM x WHERE GROUPING(a) = 1 GROUP BY a => NotGrouped { at: 29 }
SELECT COUNT(*) FROM x GROUP BY a ORDER BY a => NotInSelect { at: 43 }
SELECT COUNT(*) FROM x GROUP BY a ORDER BY b => NotGrouped { at: 43 }
SELECT COUNT(*) FROM x GROUP BY a ORDER BY a, b => NotInSelect { at: 43 }
SELECT SUM(b) FROM x => KindMismatch { at: 11 }
SELECT COUNT(*) INTO '*' FROM x => TooFewColumns { at: 21 }
SELECT a FROM x HAVING (a > 1) => not grouped: NotGrouped { at: 23 }
SELECT a FROM x HAVING GROUPING(a) = 1 => not grouped: NotGrouped { at: 23 }
SELECT GROUPING(a) FROM x => not grouped: NotGrouped { at: 7 }
SELECT a FROM x ORDER BY b, GROUPING(a) => not grouped: NotInSelect { at: 25 }
SELECT COUNT() FROM x => not grouped: WrongArity { at: 7 }
SELECT PROPCOUNT(a) FROM x => not grouped: UnknownFunction { at: 7 }
SELECT a FROM x ORDER BY COUNT(*) => NotGrouped { at: 7 }";

#[test]
fn a_grouped_query_has_its_plan_or_its_fault(rt: HostRuntime) -> Result<(), AllocError> {
    for row in ROWS.lines() {
        check(&rt, row, told(rt.alloc(), asked(row))?.as_str());
    }
    Ok(())
}
