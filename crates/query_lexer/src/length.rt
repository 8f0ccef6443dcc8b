// How long a query may be.
ghost use Rattle.std.specs.Prelude.{◌≤◌, ◌↔◌, length, IsOk};

use thiserror::Error;

/// The longest query, in bytes.
pub const LONGEST_QUERY: usize = 65_536;

/// A query has more than 65,536 bytes.
#[derive(Clone, Copy, Debug, PartialEq, Eq, Error)]
#[error("query too long")]
pub struct TooLong;

/// Whether a query is short enough for `lex`.
pub fn check_length(text: &[u8]) -> Result<(), TooLong>
    ensures { IsOk result ↔ (length text.now ≤ 65_536) }
{
    if text.len() > LONGEST_QUERY {
        return Err(TooLong);
    }
    Ok(())
}
