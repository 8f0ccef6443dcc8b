// Three-valued truth, as in SQL.
ghost use Rattle.std.specs.Prelude.{◌≡◌};
ghost use Rattle.lp_values.specs.Truths.{both, either, opposite};

/// What a condition gives: `Unknown` where NULL decides.
#[derive(Clone, Copy, Debug, PartialEq, Eq)]
pub enum Truth {
    Yes,
    No,
    Unknown,
}

/// SQL's AND.
pub fn and(a: Truth, b: Truth) -> Truth
    ensures value { result ≡ both a b }
    ensures de_morgan { opposite (both a b) ≡ either (opposite a) (opposite b) }
{
    match (a, b) {
        (Truth::No, _) | (_, Truth::No) => Truth::No,
        (Truth::Yes, Truth::Yes) => Truth::Yes,
        _ => Truth::Unknown,
    }
}

/// SQL's OR.
pub fn or(a: Truth, b: Truth) -> Truth
    ensures value { result ≡ either a b }
    ensures de_morgan { opposite (either a b) ≡ both (opposite a) (opposite b) }
{
    match (a, b) {
        (Truth::Yes, _) | (_, Truth::Yes) => Truth::Yes,
        (Truth::No, Truth::No) => Truth::No,
        _ => Truth::Unknown,
    }
}

/// SQL's NOT.
pub fn not(a: Truth) -> Truth
    ensures value { result ≡ opposite a }
    ensures twice { opposite (opposite a) ≡ a }
{
    match a {
        Truth::Yes => Truth::No,
        Truth::No => Truth::Yes,
        Truth::Unknown => Truth::Unknown,
    }
}
