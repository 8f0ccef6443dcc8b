// Why a query has no plan.
ghost use Rattle.std.specs.Prelude.{◌≡◌};
ghost use Rattle.query_types.specs.declared.fault.TypeFault.TheVariants.{Memory};

use std::alloc::{AllocError, AllocFailed};

/// Why a query has no plan; `at` is the place of the fault in the query's text, in bytes.
#[derive(Clone, Copy, Debug, PartialEq, Eq)]
pub enum TypeFault {
    /// A word that means no column and no alias.
    UnknownField { at: u32 },
    /// A call of a function that isn't known.
    UnknownFunction { at: u32 },
    /// Two kinds that don't fit, at the right one; or a call whose arguments have no such kinds, at its word.
    KindMismatch { at: u32 },
    /// A call with a number of arguments that the function doesn't take.
    WrongArity { at: u32 },
    /// An INTO name has as many stars as there are columns, or more.
    TooFewColumns { at: u32 },
    /// An argument that has to be a pattern and is none, or the value of a TIMESTAMP that doesn't read by its pattern.
    BadPattern { at: u32 },
    /// An expression of ORDER BY that is none of SELECT's.
    NotInSelect { at: u32 },
    /// A field of a grouped query outside aggregates and keys; GROUPING of what is no key; or HAVING without groups.
    NotGrouped { at: u32 },
    /// An aggregate where none may stand.
    NestedAggregate { at: u32 },
    /// `*` in a grouped query.
    StarWithGroups { at: u32 },
    /// There was no memory.
    Memory,
}

impl From<AllocError> for TypeFault {
    ghost from_gives = { λ _ fault. fault ≡ Memory };

    fn from(_: AllocError) -> Self {
        TypeFault::Memory
    }
}

impl<T: Drop> From<AllocFailed<T>> for TypeFault {
    ghost from_gives = { λ _ fault. fault ≡ Memory };

    fn from(_: AllocFailed<T>) -> Self {
        TypeFault::Memory
    }
}
