// A moment, a day or a time of day.
ghost use Rattle.std.specs.Prelude.{◌≡◌, ◌↔◌, IsTrue, IsSome, IfSome};
ghost use Rattle.lp_values.specs.Stamps.{IsStamp, IsInYears};
ghost use Rattle.lp_values.specs.Moments.{second_of_day};

use crate::Part;

const DAY: i64 = 86_400;

/// Unix seconds in the years 1 to 9999. A date is a whole day, a time lies in the first day of 1970.
#[derive(Clone, Copy, Debug, PartialEq, Eq, PartialOrd, Ord, Hash)]
pub struct Stamp {
    pub seconds: i64,
    pub part: Part,
    pub ghost exists: { IsStamp seconds part },
}

fn is_in_years(seconds: i64) -> bool
    ensures { IsTrue result ↔ IsInYears seconds }
{
    -62_135_596_800 <= seconds && seconds <= 253_402_300_799
}

fn exists(seconds: i64, part: Part) -> bool
    ensures { IsTrue result ↔ IsStamp seconds part }
{
    match part {
        Part::Date => is_in_years(seconds) && seconds.rem_euclid(DAY) == 0,
        Part::Time => 0 <= seconds && seconds < DAY,
        Part::Both => is_in_years(seconds),
    }
}

impl Stamp {
    /// `None` exactly where there is no such stamp.
    pub fn new(seconds: i64, part: Part) -> Option<Stamp>
        ensures some { IsSome result ↔ IsStamp seconds part }
        ensures value { IfSome result (λ s. (s.seconds ≡ seconds) × (s.part ≡ part)) }
    {
        if exists(seconds, part) {
            Some(Stamp { seconds, part })
        } else {
            None
        }
    }

    /// Unix seconds.
    pub fn seconds(&self) -> i64
        ensures { result ≡ self.now.seconds }
    {
        self.seconds
    }

    pub fn part(&self) -> Part
        ensures { result ≡ self.now.part }
    {
        self.part
    }
}
