// Comparing values, and their total order.
ghost use Rattle.std.specs.Prelude.{◌≡◌, ◌≢◌, ◌↔◌, pos, ◌*ℤ◌, IsTrue};
ghost use Rattle.std.specs.Cmp.{IsTotalOrder};
ghost use Rattle.lp_values.specs.Comparing.{standing, holds, compared, AgreesWithOrder};
ghost use Rattle.lp_values.specs.Kinds.{kind_of};
ghost use Rattle.lp_values.specs.Order.{order_of};

use crate::{Compare, Kind, Truth, Value, ValueList};
use std::cmp::Ordering;

/// Compares as SQL does. `Unknown` where one is NULL or the kinds do not fit.
pub fn compare(how: Compare, a: &Value, b: &Value) -> Truth
    ensures value { result ≡ compared how a.now b.now }
    ensures agrees { kind_of a.now ≡ kind_of b.now → kind_of a.now ≢ Kind.Any → AgreesWithOrder a.now b.now }
{
    match standing(a, b) {
        Some(stands) if holds(how, stands) => Truth::Yes,
        Some(_) => Truth::No,
        None => Truth::Unknown,
    }
}

fn holds(how: Compare, stands: Ordering) -> bool
    ensures { result ≡ holds how stands }
{
    match how {
        Compare::Equal => stands.is_eq(),
        Compare::NotEqual => stands.is_ne(),
        Compare::Less => stands.is_lt(),
        Compare::More => stands.is_gt(),
        Compare::LessEqual => stands.is_le(),
        Compare::MoreEqual => stands.is_ge(),
    }
}

fn standing(a: &Value, b: &Value) -> Option<Ordering>
    ensures { result ≡ standing a.now b.now }
{
    match (a, b) {
        (Value::Int(a), Value::Int(b)) => Some(a.cmp(b)),
        (Value::Int(a), Value::Real(b)) => Some(in_millionths(*a).cmp(&i128::from(b.millionths))),
        (Value::Real(a), Value::Int(b)) => Some(i128::from(a.millionths).cmp(&in_millionths(*b))),
        (Value::Real(a), Value::Real(b)) => Some(a.millionths.cmp(&b.millionths)),
        (Value::Text(a), Value::Text(b)) => Some(a.cmp(b)),
        (Value::Stamp(a), Value::Stamp(b)) => Some(a.seconds.cmp(&b.seconds)),
        _ => None,
    }
}

fn in_millionths(number: i64) -> i128
    ensures { result ≡ number *ℤ pos 1_000_000 }
{
    i128::from(number) * 1_000_000
}

/// The total order: NULL, Int, Real, Text, Stamp; numbers by value, texts by bytes, stamps by seconds and then by part.
pub fn order(a: &Value, b: &Value) -> Ordering
    ensures value { result ≡ order_of a.now b.now }
    ensures total { IsTotalOrder order_of }
    ensures same { (order_of a.now b.now ≡ Ordering.Equal) ↔ (a.now ≡ b.now) }
{
    a.cmp(b)
}

/// Whether two values are one and the same, as keys are.
pub fn same(a: &Value, b: &Value) -> bool
    ensures { IsTrue result ↔ (a.now ≡ b.now) }
{
    *a == *b
}

/// Whether two lists of values are one and the same.
pub fn same_values(a: &ValueList, b: &ValueList) -> bool
    ensures { IsTrue result ↔ (a.now ≡ b.now) }
{
    *a == *b
}
