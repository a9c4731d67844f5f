//! The timestamps that begin at milliseconds.
ghost use Rattle.std.specs.Prelude.{◌≡◌, ◌<◌, ◌↔◌, ◌≤ℤ◌, ◌+ℤ◌, ◌*ℤ◌, pos, neg_ℤ, unsigned_abs, IsOk, IfOk};
ghost use Rattle.std.specs.Int.{int_div_euclid, int_rem_euclid};
ghost use Rattle.ion_time.specs.DayTimes.{time_of_day};
ghost use Rattle.ion_time.specs.Millis.{BeginsAt, IsWithinYears, is_within_years, nearest};

use crate::days::{date_of, time_of, year_of};
use ion_values::{IonTime, Precision, TimeParts};

/// A day in milliseconds.
const DAY: i64 = 86_400_000;

/// Where the year 1 begins, in milliseconds since 1970.
const START_OF_1: i64 = -719_162 * 86_400_000;

/// Where the year 10000 begins.
const START_OF_10000: i64 = 2_932_897 * 86_400_000;

/// A moment is outside the years 0001 to 9999.
#[derive(Clone, Copy, Debug, PartialEq, Eq)]
pub struct OutOfYears;

/// The timestamp in UTC, of second precision with three digits, that begins `ms` milliseconds after
/// 1970 in UTC, or before it where they are negative (Ion 1.0, "Timestamps"). `OutOfYears` comes exactly
/// outside the years 0001 to 9999. It takes no memory.
pub fn from_millis(ms: i64) -> Result<IonTime, OutOfYears>
    ensures within { IsOk result ↔ IsWithinYears ms }
    ensures value { IfOk result (λ time. BeginsAt ms time) }
{
    if is_within_years(ms) {
        Ok(time_at(ms))
    } else {
        Err(OutOfYears)
    }
}

/// The timestamp in UTC, of second precision with three digits, that begins at the millisecond of the
/// years 0001 to 9999 that is nearest to this one. It takes no memory.
pub fn clamped(ms: i64) -> IonTime
    ensures { BeginsAt (nearest ms) result }
{
    time_at(nearest(ms))
}

fn is_within_years(ms: i64) -> bool
    ensures { result ≡ is_within_years ms }
{
    START_OF_1 <= ms && ms < START_OF_10000
}

/// The millisecond of the years 0001 to 9999 that is nearest.
fn nearest(ms: i64) -> i64
    ensures value { result ≡ nearest ms }
    ensures within { IsWithinYears result }
{
    if ms < START_OF_1 {
        START_OF_1
    } else if START_OF_10000 <= ms {
        START_OF_10000 - 1
    } else {
        ms
    }
}

/// The timestamp that begins at a millisecond of the years 0001 to 9999.
fn time_at(ms: i64) -> IonTime
    requires { IsWithinYears ms }
    ensures { BeginsAt ms result }
{
    time_on(day_number(ms), millis_of_day(ms))
}

/// The number of the millisecond's day, 0 being 1 January 1970.
fn day_number(ms: i64) -> i64
    requires { IsWithinYears ms }
    ensures value { result ≡ int_div_euclid ms (pos 86_400_000) }
    ensures first { neg_ℤ (pos 719_162) ≤ℤ result }
    ensures last { result ≤ℤ pos 2_932_896 }
{
    ms.div_euclid(DAY)
}

/// How far the millisecond is behind the beginning of its day.
fn millis_of_day(ms: i64) -> u32
    ensures value { result ≡ unsigned_abs (int_rem_euclid ms (pos 86_400_000)) }
    ensures within { result < 86_400_000 }
{
    ms.rem_euclid(DAY) as u32
}

/// The timestamp on the day of this number, `millis` milliseconds after its beginning.
fn time_on(day: i64, millis: u32) -> IonTime
    requires first { neg_ℤ (pos 719_162) ≤ℤ day }
    requires last { day ≤ℤ pos 2_932_896 }
    requires within { millis < 86_400_000 }
    ensures { BeginsAt (day *ℤ pos 86_400_000 +ℤ pos millis) result }
{
    let date = date_of(day);
    let year = year_of(date);
    time_of(time_of_day(year, date.month, date.day, millis))
}

/// The parts of the timestamp on a date in UTC, `millis` milliseconds after its beginning.
fn time_of_day(year: u16, month: u8, day: u8, millis: u32) -> TimeParts
    requires { millis < 86_400_000 }
    ensures { result ≡ time_of_day year month day millis }
{
    TimeParts {
        precision: Precision::Second,
        year,
        month,
        day,
        hour: (millis / 3_600_000) as u8,
        minute: (millis / 60_000 % 60) as u8,
        second: (millis / 1_000 % 60) as u8,
        digits: 3,
        nanos: millis % 1_000 * 1_000_000,
        offset: Some(0),
    }
}
