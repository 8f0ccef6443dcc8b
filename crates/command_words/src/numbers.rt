// The numbers that values are.
ghost use Rattle.std.specs.Prelude.{◌≡◌, ◌≤◌, option_and_then, IfSome};
ghost use Rattle.command_words.specs.Numbers.{starts_with_plus, without_minus, number_in, count_of, limit_of};

use lp_values::read_integer;

fn without_minus(text: &[u8]) -> &[u8]
    ensures { result.now ≡ without_minus text.now }
{
    match text {
        [b'-', rest @ ..] => rest,
        _ => text,
    }
}

fn starts_with_plus(text: &[u8]) -> bool
    ensures { result ≡ starts_with_plus text.now }
{
    matches!(text, [b'+', ..])
}

/// One to ten digits, with an optional `-` before them.
pub fn number_in(text: &str) -> Option<i64>
    ensures { result ≡ number_in text.now }
{
    let bytes = text.as_bytes();
    if starts_with_plus(bytes) || without_minus(bytes).len() > 10 {
        None
    } else {
        read_integer(text)
    }
}

fn count_of(low: u32, high: u32, number: i64) -> Option<u32>
    ensures value { result ≡ count_of low high number }
    ensures in_range { IfSome result (λ count. (low ≤ count) × (count ≤ high)) }
{
    if i64::from(low) <= number && number <= i64::from(high) {
        Some(number as u32)
    } else {
        None
    }
}

fn limit_of(low: u32, high: u32, number: i64) -> Option<Option<u32>>
    ensures value { result ≡ limit_of low high number }
    ensures in_range { IfSome result (λ limit. IfSome limit (λ count. (low ≤ count) × (count ≤ high))) }
{
    if number == -1 {
        Some(None)
    } else if i64::from(low) <= number && number <= i64::from(high) {
        Some(Some(number as u32))
    } else {
        None
    }
}

/// A number of a range.
pub fn count_in(low: u32, high: u32, text: &str) -> Option<u32>
    ensures value { result ≡ option_and_then (count_of low high) (number_in text.now) }
    ensures in_range { IfSome result (λ count. (low ≤ count) × (count ≤ high)) }
{
    match number_in(text) {
        Some(number) => count_of(low, high, number),
        None => None,
    }
}

/// A number of a range, or -1 for no limit.
pub fn limit_in(low: u32, high: u32, text: &str) -> Option<Option<u32>>
    ensures value { result ≡ option_and_then (limit_of low high) (number_in text.now) }
    ensures in_range { IfSome result (λ limit. IfSome limit (λ count. (low ≤ count) × (count ≤ high))) }
{
    match number_in(text) {
        Some(number) => limit_of(low, high, number),
        None => None,
    }
}
