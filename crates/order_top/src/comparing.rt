// Rows compared at some columns.
ghost use Rattle.std.specs.Prelude.{◌≡◌, IfOk, option_copied};
ghost use Rattle.std.specs.Cmp.Lexicographic.{slice_cmp};
ghost use Rattle.std.specs.Ordering.{is_lt};
ghost use Rattle.lp_values.specs.Order.{order_of};
ghost use Rattle.order_top.specs.Finish.{or_null, keys_at, key_order};

use lp_values::{Value, ValueList, order};
use std::alloc::{AllocError, Global};
use std::cmp::Ordering;

// A value that isn't there counts as NULL.
fn compare_values(a: Option<&Value>, b: Option<&Value>) -> Ordering
    ensures { result ≡ order_of (or_null (option_copied a.entry)) (or_null (option_copied b.entry)) }
{
    match (a, b) {
        (Some(a), Some(b)) => order(a, b),
        (Some(a), None) => order(a, &Value::Null),
        (None, Some(b)) => order(&Value::Null, b),
        (None, None) => Ordering::Equal,
    }
}

/// The order of two lists of keys.
pub fn compare_keys(a: &[Value], b: &[Value]) -> Ordering
    ensures { result ≡ slice_cmp order_of a.now b.now }
{
    a.cmp(b)
}

/// The order of two rows at some columns.
pub fn compare_at(columns: &[usize], a: &ValueList, b: &ValueList) -> Ordering
    ensures { result ≡ slice_cmp order_of (keys_at columns.now a.now) (keys_at columns.now b.now) }
{
    for column in columns {
        let ordering = compare_values(a.get(*column), b.get(*column));
        if ordering.is_ne() {
            return ordering;
        }
    }
    Ordering::Equal
}

/// The same, or the other way round.
pub fn compare_rows(columns: &[usize], descending: bool, a: &ValueList, b: &ValueList) -> Ordering
    ensures { result ≡ key_order descending (keys_at columns.now a.now) (keys_at columns.now b.now) }
{
    if descending {
        compare_at(columns, b, a)
    } else {
        compare_at(columns, a, b)
    }
}

// A copy of a value, or NULL.
fn copy_or_null(alloc: Global, value: Option<&Value>) -> Result<Value, AllocError>
    ensures { IfOk result (λ copy. copy ≡ or_null (option_copied value.entry)) }
{
    match value {
        Some(value) => value.copy(alloc),
        None => Ok(Value::Null),
    }
}

/// Copies of a row's values at some columns.
pub fn copy_keys(alloc: Global, columns: &[usize], row: &ValueList) -> Result<ValueList, AllocError>
    ensures { IfOk result (λ keys. keys ≡ keys_at columns.now row.now) }
{
    let mut keys = ValueList::with_capacity(alloc, columns.len())?;
    for column in columns {
        keys.push(copy_or_null(alloc, row.get(*column))?)?;
    }
    Ok(keys)
}
