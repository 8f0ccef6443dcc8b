// Which queries go over rows.
ghost use Rattle.std.specs.Prelude.{◌≡◌, ◌&&◌, is_none, option_map};
ghost use Rattle.std.specs.List.{list_all};
ghost use Rattle.grammar.specs.Trees.{trees_of as listed};
ghost use Rattle.grammar.specs.Trees.{whens_of as branched};
ghost use Rattle.query_tree.specs.Views.{tree_of, trees_of, whens_of, test_of, items_of, query_of};
ghost use Rattle.query_types.specs.Built.{is_grouping, is_plain, are_plain, are_plain_branches, is_plain_test, is_plain_where, are_plain_items, has_none, is_built};
ghost use Rattle.query_tree.specs.declared.query.Query.{out-Query};

use lp_values::Text;
use query_tree::{Cond, Expr, ExprList, Item, ItemList, Query, WhenList};
use query_types::is_aggregate;

// Whether a call is one of an aggregate or of GROUPING.
fn is_grouping(name: &Text, arguments: &ExprList) -> bool
    ensures { result ≡ is_grouping name.now (listed (trees_of arguments.now)) }
{
    arguments.len() == 1 && is_aggregate(name.as_str())
}

// Whether each expression of a list has neither an aggregate nor GROUPING.
#[cycle(plainness)]
fn are_plain(items: &ExprList) -> bool
    ensures { result ≡ are_plain (listed (trees_of items.now)) }
{
    for item in &items.items {
        if !is_plain(item) {
            return false;
        }
    }
    true
}

// Whether each WHEN and THEN has neither.
#[cycle(plainness)]
fn are_plain_branches(branches: &WhenList) -> bool
    ensures { result ≡ are_plain_branches (branched (whens_of branches.now)) }
{
    for branch in &branches.items {
        if !is_plain(&branch.test) {
            return false;
        }
        if !is_plain(&branch.value) {
            return false;
        }
    }
    true
}

// Whether an expression has neither an aggregate nor GROUPING.
#[cycle(plainness)]
fn is_plain(expr: &Expr) -> bool
    ensures { result ≡ is_plain (tree_of expr.now) }
{
    match expr {
        Expr::Integer { .. } => true,
        Expr::Real { .. } => true,
        Expr::Text { .. } => true,
        Expr::Null { .. } => true,
        Expr::Word { .. } => true,
        Expr::Timestamp { .. } => true,
        Expr::Call {
            at: _,
            name,
            arguments,
        } => {
            if is_grouping(name, arguments) {
                return false;
            }
            are_plain(arguments)
        }
        Expr::CountAll { .. } => false,
        Expr::PropCountAll { .. } => false,
        Expr::Case {
            at: _,
            subject,
            branches,
            otherwise,
        } => {
            if !is_plain(subject) {
                return false;
            }
            if !are_plain_branches(branches) {
                return false;
            }
            match otherwise {
                None => true,
                Some(value) => is_plain(value),
            }
        }
    }
}

// Whether the expressions of a condition have neither an aggregate nor GROUPING.
fn is_plain_test(test: &Cond) -> bool
    ensures { result ≡ is_plain_test (test_of test.now) }
{
    match test {
        Cond::Or { left, right, .. } => is_plain_test(left) && is_plain_test(right),
        Cond::And { left, right, .. } => is_plain_test(left) && is_plain_test(right),
        Cond::Not { inner, .. } => is_plain_test(inner),
        Cond::Compare { left, right, .. } => is_plain(left) && is_plain(right),
        Cond::IsNull { value, .. } => is_plain(value),
        Cond::Like { value, .. } => is_plain(value),
        Cond::Between {
            value,
            low,
            high,
            ..
        } => is_plain(value) && is_plain(low) && is_plain(high),
        Cond::InList { value, items, .. } => is_plain(value) && are_plain(items),
        Cond::InQuery { value, .. } => is_plain(value),
    }
}

fn is_plain_where(condition: &Option<Cond>) -> bool
    ensures { result ≡ is_plain_where (option_map test_of condition.now) }
{
    match condition {
        None => true,
        Some(condition) => is_plain_test(condition),
    }
}

fn all_plain_items(items: &[Item]) -> bool
    ensures { result ≡ list_all (λ i. is_plain (tree_of i.value)) items.now }
{
    items.iter().all(|item| is_plain(&item.value))
}

// Whether each item has neither an aggregate nor GROUPING.
fn are_plain_items(items: &ItemList) -> bool
    ensures { result ≡ are_plain_items (items_of items.now) }
{
    all_plain_items(&items.items)
}

// Whether a query has no keys, no HAVING, and an order that has neither an aggregate nor GROUPING.
fn has_no_groups(query: &Query) -> bool
    ensures { result ≡ (has_none (trees_of (out-Query query.now).keys) && is_none (option_map test_of (out-Query query.now).having) && are_plain (listed (trees_of (out-Query query.now).order))) }
{
    query.keys.len() == 0 && query.having.is_none() && are_plain(&query.order)
}

/// Whether a query goes over rows: it has no aggregate, GROUPING, groups, or HAVING.
pub fn is_built(query: &Query) -> bool
    ensures { result ≡ is_built (query_of query.now) }
{
    if !are_plain_items(&query.items) || !are_plain_items(&query.aliases) {
        return false;
    }
    if !is_plain_where(&query.condition) {
        return false;
    }
    has_no_groups(query)
}
