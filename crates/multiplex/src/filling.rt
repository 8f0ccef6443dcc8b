// The name that a row's values make of a pattern.
ghost use Rattle.std.specs.Prelude.{◌≡◌, ◌++◌, map, OnOk};
ghost use Rattle.lp_model.specs.Names.{is_part};
ghost use Rattle.lp_values.specs.Printed.{printed};
ghost use Rattle.multiplex.specs.Naming.{fitted, part_from, filled};

use lp_values::{Bytes, Value, print};
use std::alloc::AllocError;

// A byte of a value in a name.
fn fitted(byte: u8) -> u8
    ensures { result ≡ fitted byte }
{
    match byte {
        0..=0x1F | 0x7F => b'_',
        b'/' | b'\\' | b':' | b'*' | b'?' | b'"' | b'<' | b'>' | b'|' => b'_',
        _ => byte,
    }
}

fn is_part(part: &[u8]) -> bool
    ensures { result ≡ is_part part.now }
{
    match part {
        [] => false,
        [a] => *a != b'.',
        [a, b] => !(*a == b'.' && *b == b'.'),
        _ => true,
    }
}

fn add_fitted(to: &mut Bytes, text: &[u8]) -> Result<(), AllocError>
    ensures { OnOk result (to.new ≡ to.old ++ map fitted text.now) }
{
    for byte in text {
        to.push(fitted(*byte))?;
    }
    Ok(())
}

// Adds what a value is in a name.
fn add_part(to: &mut Bytes, scratch: &mut Bytes, value: &Value) -> Result<(), AllocError>
    ensures { OnOk result (to.new ≡ to.old ++ part_from (printed value.now)) }
{
    scratch.clear();
    print(value, scratch)?;
    if is_part(scratch.as_slice()) {
        add_fitted(to, scratch.as_slice())
    } else {
        to.push(b'_')
    }
}

/// Puts into a buffer a pattern with the part of a value for each star, in order.
pub fn fill(
    to: &mut Bytes,
    scratch: &mut Bytes,
    pattern: &[u8],
    values: &[Value],
) -> Result<(), AllocError>
    ensures { OnOk result (to.new ≡ filled pattern.now values.now) }
{
    to.clear();
    let mut rest = values;
    for byte in pattern {
        match rest {
            [value, more @ ..] if *byte == b'*' => {
                add_part(to, scratch, value)?;
                rest = more;
            }
            _ => to.push(*byte)?,
        }
    }
    Ok(())
}
