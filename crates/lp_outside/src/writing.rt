// Whole pieces to an output.
ghost use Rattle.std.specs.Prelude.{◌≡◌, ◌<◌, ◌≤◌, length, take, OnOk, OnErr};
ghost use Rattle.lp_model.specs.Outside.{Gains, GainsSome, HasCause};

use crate::{Sink, SinkFailed};
use lp_values::bytes_from;

// At most so many bytes go to an output at once.
const MOST: usize = 65536;

// The first bytes, no more than go at once.
fn first_of(bytes: &[u8]) -> &[u8]
    ensures front { result.now ≡ take (length result.now) bytes.now }
    ensures some { 0 < length bytes.now → 0 < length result.now }
    ensures fits { length result.now ≤ length bytes.now }
    ensures few { length result.now ≤ 65536 }
{
    &bytes[..bytes.len().min(MOST)]
}

/// Writes a piece whole, or the front of it before a failure.
pub fn write_all<S: Sink>(out: &mut S, piece: &[u8]) -> Result<(), SinkFailed>
    ensures ok { OnOk result (Gains (S.written out.old) (S.written out.new) piece.now) }
    ensures err { OnErr result (GainsSome (S.written out.old) (S.written out.new) piece.now) }
    ensures cause { HasCause (S.faults out.old) (S.faults out.new) result }
{
    let mut rest = piece;
    while !rest.is_empty() {
        let count = out.write(first_of(rest))?;
        rest = bytes_from(rest, count);
    }
    Ok(())
}
