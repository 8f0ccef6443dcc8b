// Why rows aren't written.
ghost use Rattle.std.specs.Prelude.{◌≡◌};
ghost use Rattle.row_output.specs.Faults.{place_fault, put_fault};

use lp_outside::NameFault;
use lp_values::Text;
use multiplex::PlaceFault;
use text_output::PutFault;

/// Why an output is refused.
#[derive(Drop)]
pub enum Refused {
    /// It would be the 10,001st.
    TooManyOutputs,
    /// Its values make no name of a file.
    BadName(NameFault),
    /// Its name is one that no output may have.
    NameClash(Text),
}

/// Why rows aren't written.
#[derive(Drop)]
pub enum OutputFault {
    /// An output of theirs is refused.
    Refused(Refused),
    /// A call of the stage failed.
    Failed,
    /// Memory was refused.
    Memory,
}

/// A fault of a text, as one of rows.
pub(crate) fn put_fault(fault: PutFault) -> OutputFault
    ensures { result ≡ put_fault fault }
{
    match fault {
        PutFault::Failed => OutputFault::Failed,
        PutFault::Memory => OutputFault::Memory,
    }
}

/// Why a row has no output, as a fault of rows.
pub(crate) fn place_fault(fault: PlaceFault) -> OutputFault
    ensures { result ≡ place_fault fault }
{
    match fault {
        PlaceFault::TooManyOutputs => OutputFault::Refused(Refused::TooManyOutputs),
        PlaceFault::BadName(fault) => OutputFault::Refused(Refused::BadName(fault)),
        PlaceFault::NameClash(name) => OutputFault::Refused(Refused::NameClash(name)),
        PlaceFault::Memory => OutputFault::Memory,
    }
}
