// What a run tells of itself.
ghost use Rattle.std.specs.Prelude.{◌≡◌, ◌++◌, ◌∷◌, [], codes, decimal, OnOk, OnErr};
ghost use Rattle.lp_model.specs.Outside.{Gains, GainsSome, HasCause};
ghost use Rattle.lp_model.specs.Report.{statistics, bad_report};
ghost use Rattle.reports.specs.Messages.{counted, details, message, reason};

use crate::Status;
use crate::reason::named;
use itoa::Buffer;
use lp_outside::{Sink, SinkFailed, write_all};

// Writes three pieces, one behind the other.
fn write_three<E: Sink>(
    err: &mut E,
    first: &[u8],
    second: &[u8],
    third: &[u8],
) -> Result<(), SinkFailed>
    ensures ok { OnOk result (Gains (E.written err.old) (E.written err.new) (first.now ++ second.now ++ third.now)) }
    ensures err { OnErr result (GainsSome (E.written err.old) (E.written err.new) (first.now ++ second.now ++ third.now)) }
    ensures cause { HasCause (E.faults err.old) (E.faults err.new) result }
{
    write_all(err, first)?;
    write_all(err, second)?;
    write_all(err, third)?;
    Ok(())
}

// Writes a number between two texts.
fn write_number<E: Sink>(
    err: &mut E,
    head: &[u8],
    number: u64,
    tail: &[u8],
) -> Result<(), SinkFailed>
    ensures ok { OnOk result (Gains (E.written err.old) (E.written err.new) (head.now ++ decimal number ++ tail.now)) }
    ensures err { OnErr result (GainsSome (E.written err.old) (E.written err.new) (head.now ++ decimal number ++ tail.now)) }
    ensures cause { HasCause (E.faults err.old) (E.faults err.new) result }
{
    let mut buffer = Buffer::new();
    write_three(err, head, buffer.format(number).as_bytes(), tail)
}

// Writes the count of bad lines, where any were met.
fn write_bad<E: Sink>(err: &mut E, bad: u64) -> Result<(), SinkFailed>
    ensures ok { OnOk result (Gains (E.written err.old) (E.written err.new) (bad_report bad)) }
    ensures err { OnErr result (GainsSome (E.written err.old) (E.written err.new) (bad_report bad)) }
    ensures cause { HasCause (E.faults err.old) (E.faults err.new) result }
{
    if bad == 0 {
        Ok(())
    } else {
        write_number(err, b"Lines not read:     ", bad, b"\n")
    }
}

/// Writes the statistics. It takes no memory.
pub fn write_statistics<E: Sink>(
    err: &mut E,
    processed: u64,
    output: u64,
    bad: u64,
) -> Result<(), SinkFailed>
    ensures ok { OnOk result (Gains (E.written err.old) (E.written err.new) (statistics processed output bad)) }
    ensures err { OnErr result (GainsSome (E.written err.old) (E.written err.new) (statistics processed output bad)) }
    ensures cause { HasCause (E.faults err.old) (E.faults err.new) result }
{
    write_number(
        err,
        b"Statistics:\n-----------\nElements processed: ",
        processed,
        b"\n",
    )?;
    write_number(err, b"Elements output:    ", output, b"\n")?;
    write_bad(err, bad)?;
    Ok(())
}

// Writes a number and what parts it from the text behind, where there is a number.
fn write_counted<E: Sink>(err: &mut E, number: Option<u32>) -> Result<(), SinkFailed>
    ensures ok { OnOk result (Gains (E.written err.old) (E.written err.new) (counted number)) }
    ensures err { OnErr result (GainsSome (E.written err.old) (E.written err.new) (counted number)) }
    ensures cause { HasCause (E.faults err.old) (E.faults err.new) result }
{
    match number {
        None => Ok(()),
        Some(number) => write_number(err, b"", u64::from(number), b": "),
    }
}

// Writes a refusal's texts, with the number between them.
fn write_reason<E: Sink>(
    err: &mut E,
    head: &[u8],
    number: Option<u32>,
    tail: &[u8],
) -> Result<(), SinkFailed>
    ensures ok { OnOk result (Gains (E.written err.old) (E.written err.new) (head.now ++ counted number ++ tail.now)) }
    ensures err { OnErr result (GainsSome (E.written err.old) (E.written err.new) (head.now ++ counted number ++ tail.now)) }
    ensures cause { HasCause (E.faults err.old) (E.faults err.new) result }
{
    write_all(err, head)?;
    write_counted(err, number)?;
    write_all(err, tail)?;
    Ok(())
}

// Writes a number behind a text.
fn write_behind<E: Sink>(err: &mut E, head: &[u8], number: u64) -> Result<(), SinkFailed>
    ensures ok { OnOk result (Gains (E.written err.old) (E.written err.new) (head.now ++ decimal number)) }
    ensures err { OnErr result (GainsSome (E.written err.old) (E.written err.new) (head.now ++ decimal number)) }
    ensures cause { HasCause (E.faults err.old) (E.faults err.new) result }
{
    write_number(err, head, number, b"")
}

// Writes how long a log is, and how much of it was read.
fn write_sizes<E: Sink>(err: &mut E, found: u64, kept: u64) -> Result<(), SinkFailed>
    ensures ok { OnOk result (Gains (E.written err.old) (E.written err.new) (codes " is " ++ decimal found ++ codes " bytes, " ++ decimal kept ++ codes " were read")) }
    ensures err { OnErr result (GainsSome (E.written err.old) (E.written err.new) (codes " is " ++ decimal found ++ codes " bytes, " ++ decimal kept ++ codes " were read")) }
    ensures cause { HasCause (E.faults err.old) (E.faults err.new) result }
{
    write_number(err, b" is ", found, b" bytes, ")?;
    write_behind(err, b"", kept)?;
    write_all(err, b" were read")?;
    Ok(())
}

// Writes the numbers and the inputs that a refusal names behind.
fn write_details<E: Sink>(err: &mut E, status: &Status) -> Result<(), SinkFailed>
    ensures ok { OnOk result (Gains (E.written err.old) (E.written err.new) (details status.now)) }
    ensures err { OnErr result (GainsSome (E.written err.old) (E.written err.new) (details status.now)) }
    ensures cause { HasCause (E.faults err.old) (E.faults err.new) result }
{
    match status {
        Status::ParseErrors { row, .. } => write_behind(err, b" row ", *row),
        Status::LostLog { number, .. } => write_behind(err, b".", *number),
        Status::Shrunk { kept, found, .. } => write_sizes(err, *found, *kept),
        Status::InputChanged { kept, given } => {
            write_three(err, kept.as_slice(), b", given ", given.as_slice())
        }
        Status::LedgerFault { at, .. } => write_behind(err, b"", *at),
        _ => Ok(()),
    }
}

// Writes what a refusal is called.
fn write_called<E: Sink>(err: &mut E, status: &Status) -> Result<(), SinkFailed>
    ensures ok { OnOk result (Gains (E.written err.old) (E.written err.new) (reason status.now)) }
    ensures err { OnErr result (GainsSome (E.written err.old) (E.written err.new) (reason status.now)) }
    ensures cause { HasCause (E.faults err.old) (E.faults err.new) result }
{
    let (head, number, tail) = named(status);
    write_reason(err, head.as_bytes(), number, tail.as_bytes())?;
    write_details(err, status)?;
    Ok(())
}

/// Writes the line that tells of a refusal. It takes no memory.
pub fn write_message<E: Sink>(err: &mut E, status: &Status) -> Result<(), SinkFailed>
    ensures ok { OnOk result (Gains (E.written err.old) (E.written err.new) (message status.now)) }
    ensures err { OnErr result (GainsSome (E.written err.old) (E.written err.new) (message status.now)) }
    ensures cause { HasCause (E.faults err.old) (E.faults err.new) result }
{
    write_all(err, b"logparser: ")?;
    write_called(err, status)?;
    write_all(err, b"\n")?;
    Ok(())
}
