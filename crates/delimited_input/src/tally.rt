// What the texts of a column tell.
ghost use Rattle.std.specs.Prelude.{◌≡◌, ◌&&◌};
ghost use Rattle.delimited_input.specs.Kinds.{is_integer, is_number, is_time};

use lp_time::{Pattern, read_stamp};
use lp_values::{Kind, read_integer, read_real};

/// What the texts of a column tell.
#[derive(Clone, Copy)]
pub(crate) struct Tally {
    /// One isn't empty.
    pub(crate) filled: bool,
    /// Those that aren't empty are integers.
    pub(crate) integers: bool,
    /// Those that aren't empty are integers or reals.
    pub(crate) numbers: bool,
    /// Those that aren't empty are dates or times of the pattern.
    pub(crate) times: bool,
}

fn is_integer(text: &str) -> bool
    ensures { result ≡ is_integer text.now }
{
    read_integer(text).is_some()
}

fn is_number(text: &str) -> bool
    ensures { result ≡ is_number text.now }
{
    is_integer(text) || read_real(text).is_some()
}

fn is_time(pattern: &Pattern, text: &str) -> bool
    ensures { result ≡ is_time pattern.now text.now }
{
    read_stamp(pattern, text).is_some()
}

fn still_integers(kept: bool, text: &str) -> bool
    ensures { result ≡ (kept && is_integer text.now) }
{
    kept && is_integer(text)
}

fn still_numbers(kept: bool, text: &str) -> bool
    ensures { result ≡ (kept && is_number text.now) }
{
    kept && is_number(text)
}

fn still_times(kept: bool, pattern: &Pattern, text: &str) -> bool
    ensures { result ≡ (kept && is_time pattern.now text.now) }
{
    kept && is_time(pattern, text)
}

impl Tally {
    ghost use Rattle.delimited_input.specs.Sampled.{new_tally, tally_with, kind_told};

    /// What no text tells.
    pub(crate) fn new() -> Tally
        ensures { result ≡ new_tally }
    {
        Tally {
            filled: false,
            integers: true,
            numbers: true,
            times: true,
        }
    }

    /// What is told by one text more.
    pub(crate) fn with(self, pattern: &Pattern, text: &str) -> Tally
        ensures { result ≡ tally_with pattern.now self text.now }
    {
        if text.is_empty() {
            return self;
        }
        Tally {
            filled: true,
            integers: still_integers(self.integers, text),
            numbers: still_numbers(self.numbers, text),
            times: still_times(self.times, pattern, text),
        }
    }

    /// The kind of the column.
    pub(crate) fn kind(self) -> Kind
        ensures { result ≡ kind_told self }
    {
        if !self.filled {
            Kind::Text
        } else if self.integers {
            Kind::Integer
        } else if self.numbers {
            Kind::Real
        } else if self.times {
            Kind::Stamp
        } else {
            Kind::Text
        }
    }
}
