// Which queries are grouped.
ghost use Rattle.std.specs.Prelude.{◌≡◌, option_map};
ghost use Rattle.std.specs.List.{list_any};
ghost use Rattle.grammar.specs.Trees.{trees_of as listed};
ghost use Rattle.grammar.specs.Trees.{whens_of as branched};
ghost use Rattle.query_tree.specs.Views.{tree_of, trees_of, whens_of, test_of, items_of, query_of};
ghost use Rattle.judging.specs.Asked.{branches_have, has_aggregate, have_aggregate, is_counting_call, is_grouped, items_have, maybe_has, test_has};

use lp_values::Text;
use query_tree::{Cond, Expr, ExprList, Item, ItemList, Query, WhenList};
use query_types::is_counting;

// Whether a call is one of an aggregate.
fn is_counting_call(name: &Text, arguments: &ExprList) -> bool
    ensures { result ≡ is_counting_call name.now (listed (trees_of arguments.now)) }
{
    arguments.len() == 1 && is_counting(name.as_str())
}

// Whether an aggregate stands in one of some expressions.
#[cycle(aggregates)]
fn have_aggregate(items: &ExprList) -> bool
    ensures { result ≡ have_aggregate (listed (trees_of items.now)) }
{
    for item in &items.items {
        if has_aggregate(item) {
            return true;
        }
    }
    false
}

// Whether one stands in a WHEN or a THEN.
#[cycle(aggregates)]
fn branches_have(branches: &WhenList) -> bool
    ensures { result ≡ branches_have (branched (whens_of branches.now)) }
{
    for branch in &branches.items {
        if has_aggregate(&branch.test) {
            return true;
        }
        if has_aggregate(&branch.value) {
            return true;
        }
    }
    false
}

// Whether one stands in an expression.
#[cycle(aggregates)]
fn has_aggregate(expr: &Expr) -> bool
    ensures { result ≡ has_aggregate (tree_of expr.now) }
{
    match expr {
        Expr::Integer { .. } => false,
        Expr::Real { .. } => false,
        Expr::Text { .. } => false,
        Expr::Null { .. } => false,
        Expr::Word { .. } => false,
        Expr::Timestamp { .. } => false,
        Expr::Call {
            at: _,
            name,
            arguments,
        } => {
            if is_counting_call(name, arguments) {
                return true;
            }
            have_aggregate(arguments)
        }
        Expr::CountAll { .. } => true,
        Expr::PropCountAll { .. } => true,
        Expr::Case {
            at: _,
            subject,
            branches,
            otherwise,
        } => {
            if has_aggregate(subject) {
                return true;
            }
            if branches_have(branches) {
                return true;
            }
            match otherwise {
                None => false,
                Some(value) => has_aggregate(value),
            }
        }
    }
}

// Whether one stands in a condition, its subqueries aside.
fn test_has(test: &Cond) -> bool
    ensures { result ≡ test_has (test_of test.now) }
{
    match test {
        Cond::Or { left, right, .. } => test_has(left) || test_has(right),
        Cond::And { left, right, .. } => test_has(left) || test_has(right),
        Cond::Not { inner, .. } => test_has(inner),
        Cond::Compare { left, right, .. } => has_aggregate(left) || has_aggregate(right),
        Cond::IsNull { value, .. } => has_aggregate(value),
        Cond::Like { value, .. } => has_aggregate(value),
        Cond::Between {
            value,
            low,
            high,
            ..
        } => has_aggregate(value) || has_aggregate(low) || has_aggregate(high),
        Cond::InList { value, items, .. } => has_aggregate(value) || have_aggregate(items),
        Cond::InQuery { value, .. } => has_aggregate(value),
    }
}

// Whether one stands in WHERE or HAVING.
fn maybe_has(condition: &Option<Cond>) -> bool
    ensures { result ≡ maybe_has (option_map test_of condition.now) }
{
    match condition {
        None => false,
        Some(condition) => test_has(condition),
    }
}

fn any_item_has(items: &[Item]) -> bool
    ensures { result ≡ list_any (λ i. has_aggregate (tree_of i.value)) items.now }
{
    items.iter().any(|item| has_aggregate(&item.value))
}

// Whether one stands in an item.
fn items_have(items: &ItemList) -> bool
    ensures { result ≡ items_have (items_of items.now) }
{
    any_item_has(&items.items)
}

/// Whether a query is grouped: it has GROUP BY, or an aggregate anywhere, subqueries aside.
pub fn is_grouped(query: &Query) -> bool
    ensures { result ≡ is_grouped (query_of query.now) }
{
    query.keys.len() != 0
        || items_have(&query.aliases)
        || items_have(&query.items)
        || maybe_has(&query.condition)
        || maybe_has(&query.having)
        || have_aggregate(&query.order)
}
