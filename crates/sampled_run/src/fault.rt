// Why a run over sampled columns stops.
ghost use Rattle.std.specs.Prelude.{◌≡◌};
ghost use Rattle.sampled_run.specs.Ran.{refused_in};

use lp_outside::Name;
use query_types::TypeFault;
use row_output::Refused;

/// Why a run over sampled columns stops.
#[derive(Drop)]
pub enum SampleFault {
    /// The query doesn't fit the columns of the logs.
    Plan(TypeFault),
    /// An output of a row is refused.
    Refused(Refused),
    /// A bad line is one too many: the log's identity, and the line's number.
    Bad { log: Name, row: u64 },
    /// A call of the logs failed.
    Logs,
    /// A call of the output failed.
    Output,
    /// Memory was refused.
    Memory,
}

/// An output was refused for this, or memory was.
pub(crate) fn refused_in(refused: Option<Refused>) -> SampleFault
    ensures { result ≡ refused_in refused }
{
    match refused {
        Some(why) => SampleFault::Refused(why),
        None => SampleFault::Memory,
    }
}
