// Why bytes didn't go to an output.

/// Why bytes didn't go to an output.
#[derive(Clone, Copy, Debug, PartialEq, Eq)]
pub enum PutFault {
    /// A call of the stage failed.
    Failed,
    /// Memory was refused.
    Memory,
}
