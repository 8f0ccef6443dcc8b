// What stands before parentheses.
ghost use Rattle.std.specs.Prelude.{◌≡◌};
ghost use Rattle.query_types.specs.Calls.{callee, function_or_unknown, has_arity, is_aggregate, is_counting};
ghost use Rattle.lp_functions.specs.Names.{named};

use lp_functions::Function;
use lp_values::Part;

/// What a name before parentheses stands for.
#[derive(Clone, Copy, Debug, PartialEq, Eq)]
pub enum Callee {
    Function(Function),
    /// The moment of the run, its day or its time of day.
    Now(Part),
    /// An aggregate, or GROUPING.
    Aggregate,
    Unknown,
}

/// Whether a name is that of an aggregate, or of GROUPING.
pub fn is_aggregate(name: &str) -> bool
    ensures { result ≡ is_aggregate name.now }
{
    name.eq_ignore_ascii_case("COUNT")
        || name.eq_ignore_ascii_case("SUM")
        || name.eq_ignore_ascii_case("AVG")
        || name.eq_ignore_ascii_case("MIN")
        || name.eq_ignore_ascii_case("MAX")
        || name.eq_ignore_ascii_case("GROUPING")
}

/// Whether a name is that of an aggregate.
pub fn is_counting(name: &str) -> bool
    ensures { result ≡ is_counting name.now }
{
    is_aggregate(name) && !name.eq_ignore_ascii_case("GROUPING")
}

fn function_or_unknown(name: &str) -> Callee
    ensures { result ≡ function_or_unknown (named name.now) }
{
    match Function::by_name(name) {
        Some(function) => Callee::Function(function),
        None => Callee::Unknown,
    }
}

impl Callee {
    /// What a name stands for, whatever its case.
    pub fn of(name: &str) -> Callee
        ensures { result ≡ callee name.now }
    {
        if name.eq_ignore_ascii_case("SYSTEM_TIMESTAMP") {
            Callee::Now(Part::Both)
        } else if name.eq_ignore_ascii_case("SYSTEM_DATE") {
            Callee::Now(Part::Date)
        } else if name.eq_ignore_ascii_case("SYSTEM_TIME") {
            Callee::Now(Part::Time)
        } else if is_aggregate(name) {
            Callee::Aggregate
        } else {
            function_or_unknown(name)
        }
    }

    /// Whether it takes so many arguments.
    pub fn has_arity(self, many: usize) -> bool
        ensures { result ≡ has_arity self many }
    {
        match self {
            Callee::Function(function) => function.takes(many),
            Callee::Now(_) => many == 0,
            Callee::Aggregate => many == 1,
            Callee::Unknown => false,
        }
    }
}
