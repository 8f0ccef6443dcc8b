// Values in order, and lists of values as keys.
use lp_values::{Part, Real, Stamp, Value, ValueList, order, same_values};
use std::alloc::{AllocError, Global};
use std::cmp::Ordering;
use std::collections::HashMap;
use std::test::Fail;

fn stamp(part: Part) -> Value {
    Stamp::new(86_400, part).map_or(Value::Null, Value::Stamp)
}

#[test]
fn values_have_an_order(rt: HostRuntime) {
    assert!(rt; order(&stamp(Part::Date), &stamp(Part::Both)) == Ordering::Less);
    assert!(rt; order(&Value::Int(2), &Value::Real(Real { millionths: 1 })) == Ordering::Less);
}

fn list(alloc: Global, value: Value) -> Result<ValueList, AllocError> {
    let mut list = ValueList::with_capacity(alloc, 1)?;
    list.push(value)?;
    Ok(list)
}

#[test]
fn lists_are_keys(rt: HostRuntime) -> Result<(), Fail> {
    let first = list(rt.alloc(), Value::Int(2))?;
    let second = list(rt.alloc(), Value::Real(Real { millionths: 1 }))?;
    assert!(rt; first < second && first == first && !same_values(&first, &second));
    let mut counts = HashMap::new(rt.alloc());
    counts.insert(second, 1)?;
    assert!(rt; counts.get(&first).is_none());
    Ok(())
}
