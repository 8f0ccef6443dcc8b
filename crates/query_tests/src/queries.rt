// Queries, and their clauses or their fault, worked out by hand.
use crate::rows::{asked, check};
use query_text::{ReadFault, read_query};
use query_tree::{Expr, ExprList, ItemList, Query};
use std::alloc::{AllocError, Global};
use std::fmt::Write;

fn form(value: &Expr) -> &'static str {
    match value {
        Expr::Word { .. } => "word ",
        Expr::Call { .. } => "call ",
        Expr::Timestamp { .. } => "timestamp ",
        Expr::CountAll { .. } => "countall ",
        Expr::PropCountAll { .. } => "propcountall ",
        _ => "other ",
    }
}

fn show_values(to: &mut String, list: &ExprList) -> Result<(), AllocError> {
    for value in &list.items {
        to.push_str(form(value))?;
    }
    Ok(())
}

fn show_items(to: &mut String, list: &ItemList) -> Result<(), AllocError> {
    for item in &list.items {
        to.push_str(form(&item.value))?;
    }
    Ok(())
}

fn show_top(to: &mut String, top: Option<u64>) -> Result<(), AllocError> {
    match top {
        Some(top) => write!(to, "top {top} "),
        None => Ok(()),
    }
}

fn show_star(to: &mut String, star: Option<u32>) -> Result<(), AllocError> {
    match star {
        Some(star) => write!(to, "star {star} "),
        None => Ok(()),
    }
}

fn show_flag(to: &mut String, clause: &str, is_there: bool) -> Result<(), AllocError> {
    if is_there {
        to.push_str(clause)
    } else {
        Ok(())
    }
}

fn show_aliases(to: &mut String, aliases: &ItemList) -> Result<(), AllocError> {
    show_flag(to, "using ", aliases.len() > 0)?;
    show_items(to, aliases)
}

fn show_list(to: &mut String, clause: &str, list: &ExprList) -> Result<(), AllocError> {
    show_flag(to, clause, list.len() > 0)?;
    show_values(to, list)
}

fn show_front(to: &mut String, query: &Query) -> Result<(), AllocError> {
    show_top(to, query.top)?;
    show_star(to, query.star)?;
    show_flag(to, "distinct ", query.distinct)?;
    show_items(to, &query.items)?;
    show_aliases(to, &query.aliases)
}

fn show_into(to: &mut String, query: &Query) -> Result<(), AllocError> {
    match &query.into {
        Some(name) => write!(to, "into {} ", name.text.as_str()),
        None => Ok(()),
    }
}

fn show_groups(to: &mut String, query: &Query) -> Result<(), AllocError> {
    show_flag(to, "where ", query.condition.is_some())?;
    show_list(to, "group ", &query.keys)?;
    show_flag(to, "rollup ", query.rollup)?;
    show_flag(to, "having ", query.having.is_some())
}

fn show_order(to: &mut String, query: &Query) -> Result<(), AllocError> {
    show_list(to, "order ", &query.order)?;
    show_flag(to, "desc ", query.descending)
}

// The clauses of a query, but the names of its logs, by the forms of their expressions.
fn show(to: &mut String, query: &Query) -> Result<(), AllocError> {
    show_front(to, query)?;
    show_into(to, query)?;
    show_groups(to, query)?;
    show_order(to, query)
}

fn show_subquery(to: &mut String, query: &Query) -> Result<(), AllocError> {
    to.push_str("# ")?;
    show(to, query)
}

// A query's clauses, and behind `#` those of each subquery.
fn show_all(to: &mut String, query: &Query) -> Result<(), AllocError> {
    show(to, query)?;
    for subquery in &query.subqueries.items {
        show_subquery(to, subquery)?;
    }
    Ok(())
}

fn show_read(to: &mut String, read: &Result<Query, ReadFault>) -> Result<(), AllocError> {
    match read {
        Ok(query) => show_all(to, query),
        Err(ReadFault::Query(fault)) => write!(to, "{fault:?}"),
        Err(ReadFault::Memory) => Err(AllocError),
    }
}

fn told(alloc: Global, text: &str) -> Result<String, AllocError> {
    let mut to = String::new(alloc);
    show_read(&mut to, &read_query(alloc, text.as_bytes()))?;
    Ok(to)
}

const QUERIES: &str = "\
SELECT TOP 0 ALL * FROM t => top 0 star 17
SELECT TOP 5 DISTINCT a FROM t => top 5 distinct word
SELECT x USING a AS x, 1 AS y INTO 'o.csv' FROM t => word using word other into o.csv
SELECT COUNT(*), count(a), [COUNT], COUNT FROM t => countall call word word
SELECT PropCount(*) AS count FROM t => propcountall
SELECT TIMESTAMP('v', 'f'), TIMESTAMP('v'), timestamp(a, 'f') FROM t => timestamp call call
SELECT f(a) FROM t GROUP BY a, f(b) WITH ROLLUP => call group word call rollup
SELECT a FROM t HAVING COUNT(*) > 1 => word having
SELECT a FROM t ORDER BY a, b ASC => word order word word
SELECT a FROM t WHERE a=1 GROUP BY a HAVING a=1 ORDER BY a DESC; => word where group word having order word desc
SELECT a FROM t WHERE a NOT IN (SELECT DISTINCT b FROM u, v WHERE b > 0) HAVING a IN (SELECT f() FROM t) => word where having # distinct word where # call
SELECT a FROM t WHERE a IN (SELECT b FROM u WHERE b IN (SELECT c FROM v)) => Parse(Syntax { at: 56 })
SELECT a FROM t GROUP BY => Parse(Syntax { at: 24 })
SELECT f(*) FROM t => Parse(Syntax { at: 9 })
SELECT TOP a FROM t => Parse(Syntax { at: 11 })
SELECT a FROM STDIN WHERE a IN (SELECT c FROM d.log, stdin) => StdinMisplaced(53)";

#[test]
fn queries_have_their_clauses(rt: HostRuntime) -> Result<(), AllocError> {
    for row in QUERIES.lines() {
        check(&rt, row, told(rt.alloc(), asked(row))?.as_str().trim_end());
    }
    Ok(())
}
