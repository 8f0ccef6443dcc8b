// Two numbers of one kind.
ghost use Rattle.std.specs.Prelude.{◌≡◌};
ghost use Rattle.lp_values.specs.Arithmetic.{numbers_of, real_of};
ghost use Rattle.lp_values.specs.declared.value.Value.TheVariants.{Int};
ghost use Rattle.lp_values.specs.Numbers.{IsSmall};

use crate::Value;

/// Two whole numbers, two numbers in millionths, or something else.
#[derive(Clone, Copy)]
pub(crate) enum Numbers {
    Whole(i64, i64),
    Decimal(i128, i128),
    Neither,
}

const MILLION: i128 = 1_000_000;

impl Numbers {
    pub(crate) fn of(a: &Value, b: &Value) -> Numbers
        ensures value { result ≡ numbers_of a.now b.now }
        ensures small { IsSmall result }
    {
        match a {
            Value::Int(a) => Numbers::of_whole(*a, b),
            Value::Real(a) => Numbers::of_decimal(a.millionths, b),
            _ => Numbers::Neither,
        }
    }

    // A whole number and a value.
    fn of_whole(a: i64, b: &Value) -> Numbers
        ensures value { result ≡ numbers_of (Int a) b.now }
        ensures small { IsSmall result }
    {
        match b {
            Value::Int(b) => Numbers::Whole(a, *b),
            Value::Real(b) => {
                Numbers::Decimal(i128::from(a) * MILLION, i128::from(b.millionths))
            }
            _ => Numbers::Neither,
        }
    }

    // A number in millionths and a value.
    fn of_decimal(a: i64, b: &Value) -> Numbers
        ensures value { result ≡ numbers_of (real_of a) b.now }
        ensures small { IsSmall result }
    {
        match b {
            Value::Int(b) => Numbers::Decimal(i128::from(a), i128::from(*b) * MILLION),
            Value::Real(b) => Numbers::Decimal(i128::from(a), i128::from(b.millionths)),
            _ => Numbers::Neither,
        }
    }
}
