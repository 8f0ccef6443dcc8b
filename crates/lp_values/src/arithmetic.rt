// Exact arithmetic on values.
ghost use Rattle.std.specs.Prelude.{◌≡◌, ◌≤◌, ◌^◌, ◌*◌, pos, ◌-ℤ◌, ◌*ℤ◌, ◌<ℤ◌, unsigned_abs, Some};
ghost use Rattle.std.specs.Int.{int_rem_euclid};
ghost use Rattle.lp_values.specs.declared.value.Value.TheVariants.{Int};
ghost use Rattle.lp_values.specs.Arithmetic.{sum_of, difference_of, product_of, quotient, quotient_of, remainder, remainder_of, quantized_of, kept, real_of};

use crate::numbers::Numbers;
use crate::{Real, Value};

const MILLION: i128 = 1_000_000;

/// The sum. NULL where an argument is no number or the result is outside 64 bits.
pub fn add(a: &Value, b: &Value) -> Value
    ensures { result ≡ sum_of a.now b.now }
{
    match Numbers::of(a, b) {
        Numbers::Whole(a, b) => whole(i128::from(a) + i128::from(b)),
        Numbers::Decimal(a, b) => decimal(a + b),
        Numbers::Neither => Value::Null,
    }
}

/// The difference. NULL where an argument is no number or the result is outside 64 bits.
pub fn sub(a: &Value, b: &Value) -> Value
    ensures { result ≡ difference_of a.now b.now }
{
    match Numbers::of(a, b) {
        Numbers::Whole(a, b) => whole(i128::from(a) - i128::from(b)),
        Numbers::Decimal(a, b) => decimal(a - b),
        Numbers::Neither => Value::Null,
    }
}

/// The product, of Reals cut toward zero to millionths. NULL where an argument is no number or the result is outside
/// 64 bits.
pub fn mul(a: &Value, b: &Value) -> Value
    ensures { result ≡ product_of a.now b.now }
{
    match Numbers::of(a, b) {
        Numbers::Whole(a, b) => whole(i128::from(a) * i128::from(b)),
        Numbers::Decimal(a, b) => match a.checked_mul(b) {
            Some(product) => decimal(product / MILLION),
            None => Value::Null,
        },
        Numbers::Neither => Value::Null,
    }
}

/// The quotient, cut toward zero to a whole number or to millionths. NULL where an argument is no number, the divisor is
/// zero or the result is outside 64 bits.
pub fn div(a: &Value, b: &Value) -> Value
    ensures { result ≡ quotient_of a.now b.now }
{
    match Numbers::of(a, b) {
        Numbers::Whole(a, b) => whole_or_null(quotient(i128::from(a), i128::from(b))),
        Numbers::Decimal(a, b) => decimal_or_null(decimal_quotient(a, b)),
        Numbers::Neither => Value::Null,
    }
}

/// What a division leaves, with the dividend's sign. NULL where an argument is no number or the divisor is zero.
pub fn modulo(a: &Value, b: &Value) -> Value
    ensures { result ≡ remainder_of a.now b.now }
{
    match Numbers::of(a, b) {
        Numbers::Whole(a, b) => whole_or_null(remainder(i128::from(a), i128::from(b))),
        Numbers::Decimal(a, b) => decimal_or_null(remainder(a, b)),
        Numbers::Neither => Value::Null,
    }
}

/// The first number taken down to a multiple of the second. NULL where an argument is no number, the second is not above
/// zero or the result is outside 64 bits.
pub fn quantize_number(a: &Value, b: &Value) -> Value
    ensures { result ≡ quantized_of a.now b.now }
{
    match Numbers::of(a, b) {
        Numbers::Whole(a, b) if 0 < b => whole(multiple(i128::from(a), i128::from(b))),
        Numbers::Decimal(a, b) if 0 < b => decimal(multiple(a, b)),
        _ => Value::Null,
    }
}

fn quotient(dividend: i128, divisor: i128) -> Option<i128>
    requires { unsigned_abs dividend ≤ 2 ^ 100 }
    ensures { result ≡ quotient dividend divisor }
{
    if divisor == 0 {
        None
    } else {
        Some(dividend / divisor)
    }
}

fn decimal_quotient(dividend: i128, divisor: i128) -> Option<i128>
    requires { unsigned_abs dividend ≤ 2 ^ 63 * 1_000_000 }
    ensures { result ≡ quotient (dividend *ℤ pos 1_000_000) divisor }
{
    if divisor == 0 {
        None
    } else {
        Some(dividend * MILLION / divisor)
    }
}

fn remainder(dividend: i128, divisor: i128) -> Option<i128>
    requires { unsigned_abs dividend ≤ 2 ^ 100 }
    ensures { result ≡ remainder dividend divisor }
{
    if divisor == 0 {
        None
    } else {
        Some(dividend % divisor)
    }
}

fn multiple(number: i128, step: i128) -> i128
    requires above { pos 0 <ℤ step }
    requires number { unsigned_abs number ≤ 2 ^ 100 }
    requires step { unsigned_abs step ≤ 2 ^ 100 }
    ensures { result ≡ number -ℤ int_rem_euclid number step }
{
    number - number.rem_euclid(step)
}

fn whole_or_null(number: Option<i128>) -> Value
    ensures { result ≡ kept Int number }
{
    match number {
        Some(number) => whole(number),
        None => Value::Null,
    }
}

fn decimal_or_null(millionths: Option<i128>) -> Value
    ensures { result ≡ kept real_of millionths }
{
    match millionths {
        Some(millionths) => decimal(millionths),
        None => Value::Null,
    }
}

fn whole(number: i128) -> Value
    ensures { result ≡ kept Int (Some number) }
{
    match i64::try_from(number) {
        Ok(number) => Value::Int(number),
        Err(_) => Value::Null,
    }
}

fn decimal(millionths: i128) -> Value
    ensures { result ≡ kept real_of (Some millionths) }
{
    match i64::try_from(millionths) {
        Ok(millionths) => Value::Real(Real { millionths }),
        Err(_) => Value::Null,
    }
}
