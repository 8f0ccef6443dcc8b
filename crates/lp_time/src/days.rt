// Days and times of day.
ghost use Rattle.std.specs.Prelude.{◌≡◌, ◌<◌, ◌≤◌, ◌*◌, pos, ◌+ℤ◌, ◌-ℤ◌, ◌<ℤ◌, ◌≤ℤ◌, neg_ℤ, IfSome, option_map};
ghost use Rattle.lp_values.specs.Moments.{second_of_day};
ghost use Rattle.lp_values.specs.Stamps.{IsInYears};
ghost use Rattle.lp_time.specs.Days.{day_start, joined, multiple_of, down_to_part, quantized};

use lp_values::{Part, Stamp};

const DAY: i64 = 86_400;
// 0001-01-01 00:00:00.
const FIRST: i64 = -62_135_596_800;

// The time of day, in seconds.
fn second_of_day(seconds: i64) -> i64
    requires { IsInYears seconds }
    ensures { result ≡ pos (second_of_day seconds) }
{
    seconds.rem_euclid(DAY)
}

// The second at which the day begins.
fn day_start(seconds: i64) -> i64
    requires { IsInYears seconds }
    ensures value { result ≡ day_start seconds }
    ensures whole { second_of_day result ≡ 0 }
    ensures within { IsInYears result }
    ensures room { result ≤ℤ pos 253_402_214_400 }
{
    seconds - second_of_day(seconds)
}

// A second of a day.
pub(crate) fn moment(day: i64, second: i64) -> i64
    requires day { IsInYears day }
    requires room { day ≤ℤ pos 253_402_214_400 }
    requires low { pos 0 ≤ℤ second }
    requires high { second <ℤ pos 86_400 }
    ensures value { result ≡ day +ℤ second }
    ensures within { IsInYears result }
{
    day + second
}

/// The first one's day with the second one's time of day.
pub fn join_date_time(date: Stamp, time: Stamp) -> Stamp
    ensures seconds { result.seconds ≡ joined date.seconds time.seconds }
    ensures part { result.part ≡ Part.Both }
    ensures parts { joined (day_start date.seconds) (pos (second_of_day date.seconds)) ≡ date.seconds }
{
    Stamp {
        seconds: moment(day_start(date.seconds), second_of_day(time.seconds)),
        part: Part::Both,
    }
}

/// The day.
pub fn to_date(stamp: Stamp) -> Stamp
    ensures seconds { result.seconds ≡ day_start stamp.seconds }
    ensures part { result.part ≡ Part.Date }
{
    Stamp {
        seconds: day_start(stamp.seconds),
        part: Part::Date,
    }
}

/// The time of day.
pub fn to_time(stamp: Stamp) -> Stamp
    ensures seconds { result.seconds ≡ pos (second_of_day stamp.seconds) }
    ensures part { result.part ≡ Part.Time }
{
    Stamp {
        seconds: second_of_day(stamp.seconds),
        part: Part::Time,
    }
}

/// Seconds taken down to a multiple of `step` counted from 1970-01-01; a date is then taken down to a day. `None` where
/// `step` is not above 0 or the result is before the year 1.
pub fn quantize(stamp: Stamp, step: i64) -> Option<Stamp>
    ensures seconds { option_map (λ s. s.seconds) result ≡ quantized stamp.part stamp.seconds step }
    ensures part { IfSome result (λ s. s.part ≡ stamp.part) }
{
    let seconds = multiple(stamp.seconds, step)?;
    let part = stamp.part;
    match part {
        Part::Date => Some(Stamp {
            seconds: day_start(seconds),
            part,
        }),
        Part::Time | Part::Both => Some(Stamp { seconds, part }),
    }
}

// The last multiple that is no later.
fn multiple(seconds: i64, step: i64) -> Option<i64>
    ensures { result ≡ multiple_of seconds step }
{
    if step <= 0 {
        return None;
    }
    let multiple = seconds.checked_sub(seconds.rem_euclid(step))?;
    if FIRST <= multiple {
        Some(multiple)
    } else {
        None
    }
}
