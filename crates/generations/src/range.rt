// The range of a stem's rotated files.
ghost use Rattle.std.specs.Prelude.{◌<◌};
ghost use Rattle.lp_outside.specs.NameFault.{IsRead};
ghost use Rattle.run_model.specs.Logs.{generation_name};
ghost use Rattle.generations.specs.Ranges.{IsLast, IsLeast};
ghost use Rattle.generations.specs.Files.{IsFirstOf};

use crate::Numbers;
use arrayvec::ArrayString;
use itoa::Buffer;
use lp_outside::{Name, NameFault};

/// The name of a stem's rotated file.
pub fn generation_name(stem: &Name, number: u64) -> Result<Name, NameFault>
    requires some { 0 < number }
    ensures { IsRead (generation_name stem.now number) result }
{
    let mut buffer = Buffer::new();
    let mut suffix = ArrayString::<64>::new();
    match suffix.try_push_str(".") {
        Ok(()) => {}
        Err(_) => return Err(NameFault::TooLong),
    }
    match suffix.try_push_str(buffer.format(number)) {
        Ok(()) => stem.with_suffix(suffix.as_str()),
        Err(_) => Err(NameFault::TooLong),
    }
}

/// The greatest of some numbers, or 0 where there is none.
pub fn last_of(numbers: &Numbers) -> u64
    ensures { IsLast numbers.now result }
{
    match numbers.last() {
        Some(number) => *number,
        None => 0,
    }
}

/// The least of some numbers, or 1 where there is none.
pub fn least_of(numbers: &Numbers) -> u64
    ensures { IsLeast numbers.now result }
{
    match numbers.first() {
        Some(number) => *number,
        None => 1,
    }
}

/// The first generation to read.
pub fn first_of(numbers: &Numbers, known: Option<u64>) -> u64
    ensures { IsFirstOf numbers.now known result }
{
    match known {
        Some(number) => number,
        None => least_of(numbers),
    }
}
