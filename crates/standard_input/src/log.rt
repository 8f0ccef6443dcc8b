// A stream as a log.
ghost use Rattle.std.specs.Prelude.{◌≡◌, ◌^◌, [], true, false};
ghost use Rattle.standard_input.specs.Streams.{faults_of, folder_of, given_of, Goes, goes_nowhere, goes_on, reads_of, IsReady};

use crate::gone::Gone;
use log_reading::LogSource;
use lp_outside::{LogsFailed, Name, Source};

// A stream that has given so many bytes gives no more.
const LIMIT: u64 = 1 << 40;

/// A stream, as it is read from its front on. It holds the only reference to it.
pub struct InputLog<'i, I> {
    pub(crate) input: &'i mut I,
    // How many bytes it has given.
    pub(crate) given: u64,
    // Whether more was wanted of it than it may give.
    pub(crate) is_refused: bool,
    pub(crate) gone: Gone,
}

impl<'i, I> Drop for InputLog<'i, I> {
    fn drop(self)
        ensures { self.exit.0.now ≡ self.entry.input.now }
    {
        let InputLog {
            input: _,
            given: _,
            is_refused: _,
            gone: _,
        } = self;
    }
}

impl<'i, I: Source> InputLog<'i, I> {
    /// The log that a stream is from where it stands.
    pub fn new(input: &'i mut I) -> Self
        ensures same_reference { result.input.ghost_name ≡ input.entry.ghost_name }
        ensures same { result.input.now ≡ input.entry.now }
        ensures none { result.gone.bytes ≡ [] }
        ensures zero { result.given ≡ 0 }
        ensures fresh { result.is_refused ≡ false }
    {
        InputLog {
            input,
            given: 0,
            is_refused: false,
            gone: Gone::new(),
        }
    }

    /// Whether it has given 2^40 bytes.
    pub fn is_too_long(&self) -> bool
        ensures full { result ≡ true → self.now.given ≡ 2 ^ 40 }
        ensures told { self.now.given ≡ 2 ^ 40 → result ≡ true }
    {
        self.given == LIMIT
    }
}

impl<'i, I: Source> LogSource for InputLog<'i, I> {
    ghost folder = { folder_of I.left };

    ghost given = { given_of I.given };

    ghost reads = { reads_of I.reads };

    ghost faults = { faults_of I.faults };

    ghost ready = { IsReady };

    ghost goes = { Goes I.left I.given };

    fn give(&mut self, _name: &Name, at: u64, into: &mut [u8]) -> Result<usize, LogsFailed> {
        if at >= LIMIT {
            self.is_refused = true;
            return Err(LogsFailed);
        }
        let want = (LIMIT - at).min(into.len() as u64) as usize;
        let Ok(count) = self.input.read(&mut into[..want]) else {
            return Err(LogsFailed);
        };
        self.given = at + count as u64;
        self.gone = self.gone.with(&into[..count]);
        Ok(count)
    }

    ghost goes_nowhere = { goes_nowhere I.left I.given };

    ghost goes_on = { goes_on I.left I.given };
}
