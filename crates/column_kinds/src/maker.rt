// What makes a taker over the columns that a sample tells.
ghost use Rattle.std.specs.Prelude.{◌≡◌, IfOk, IfErr};
ghost use Rattle.column_kinds.specs.declared.judging.Judged.{Judged};
ghost use Rattle.column_kinds.specs.Makers.{OnRefused};
ghost use Rattle.query_types.specs.declared.fault.TypeFault.{TypeFault};

use crate::Judged;
use log_reading::Taker;
use query_types::TypeFault;
use std::alloc::Global;

/// Why no taker is made. The fault is never want of memory.
#[derive(Clone, Copy, Debug, PartialEq, Eq)]
pub enum Unmade {
    /// What is asked doesn't fit the columns.
    Refused(TypeFault),
    /// Memory was refused.
    Memory,
}

/// Why a sample or its taker stops. The fault is never want of memory.
#[derive(Drop)]
pub enum Stop<T> {
    /// What is asked doesn't fit the columns.
    Refused(TypeFault),
    /// The taker, which wants no more rows.
    Stopped(T),
    /// The output failed.
    Failed,
    /// Memory was refused.
    Memory,
}

/// Makes a taker, once the columns of the records are known.
pub trait Maker<T: Taker<O>, O> {
    /// This taker is made for these columns.
    ghost makes: { Self → Judged → T → Type 0 };

    /// None is made for these columns, by this fault.
    ghost refuses: { Self → Judged → TypeFault → Type 0 };

    fn make(self, alloc: Global, told: Judged) -> Result<T, Unmade>
        ensures makes { IfOk result (λ taker. makes self told taker) }
        ensures none { IfOk result (λ taker. T.count taker ≡ 0) }
        ensures refuses { IfErr result (λ unmade. OnRefused unmade (refuses self told)) };
}
