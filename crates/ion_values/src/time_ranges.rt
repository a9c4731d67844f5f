//! The ranges of a timestamp's parts, and the calendar.
ghost use Rattle.std.specs.Prelude.{◌≡◌, ◌+◌, ◌*◌, pos, neg_ℤ, ◌^◌, IsTrue, IfSome, SomeIff};
ghost use Rattle.std.specs.Option.{unwrap_or};
ghost use Rattle.jiff_core.specs.Calendar.{days_from_civil, IsBetween, IsEpochDay};
ghost use Rattle.ion_values.specs.Time as spec;

use crate::time::{Precision, TimeParts};
use jiff_core::civil::Date;

// The minutes between 1970 and the years 1 and 10000.
const START_OF_1: i64 = -719_162 * 1440;

const START_OF_10000: i64 = 2_932_897 * 1440;

/// Whether each part is in its range.
#[tactic(auto, unfolding(crate::specs::Time::is_time))]
pub fn is_time(t: &TimeParts) -> bool
    ensures { result ≡ spec.is_time t.now }
{
    if day_number(t.year, t.month, t.day).is_none() {
        return false;
    }
    is_clock(t)
        && is_offset(t.offset)
        && is_fraction(t.digits, t.nanos)
        && ends_at(t.precision, t)
        && is_in_years(utc_minutes(t))
}

/// The minutes since 1970 in UTC, the unknown offset counted as UTC.
pub fn utc_minutes(t: &TimeParts) -> i64
    requires { IsTrue (spec.is_date t.now.year t.now.month t.now.day) }
    ensures value { result ≡ spec.utc_minutes t.now }
    ensures bound { IsBetween (neg_ℤ (pos (2 ^ 33))) (pos (2 ^ 33)) result }
{
    epoch_day(t) * 1440 + clock_minutes(t) - minutes_of(t.offset)
}

fn epoch_day(t: &TimeParts) -> i64
    requires { IsTrue (spec.is_date t.now.year t.now.month t.now.day) }
    ensures value { result ≡ days_from_civil (pos t.now.year) t.now.month t.now.day }
    ensures bound { IsEpochDay result }
{
    i64::from(day_number(t.year, t.month, t.day).unwrap())
}

fn clock_minutes(t: &TimeParts) -> i64
    ensures value { result ≡ pos (t.now.hour * 60 + t.now.minute) }
    ensures bound { IsBetween (pos 0) (pos 15555) result }
{
    i64::from(t.hour as u32 * 60 + t.minute as u32)
}

fn minutes_of(offset: Option<i16>) -> i64
    ensures value { result ≡ unwrap_or offset (pos 0) }
    ensures bound { IsBetween (neg_ℤ (pos 32768)) (pos 32767) result }
{
    match offset {
        None => 0,
        Some(minutes) => minutes as i64,
    }
}

fn is_in_years(minutes: i64) -> bool
    ensures { result ≡ spec.is_in_years minutes }
{
    START_OF_1 <= minutes && minutes < START_OF_10000
}

// The days since 1 January 1970, if the calendar has the day.
fn day_number(year: u16, month: u8, day: u8) -> Option<i32>
    ensures value { SomeIff result (IsTrue (spec.is_date year month day)) (days_from_civil (pos year) month day) }
    ensures bound { IfSome result IsEpochDay }
{
    if year < 1 || year > 9999 || month > 12 || day > 31 {
        return None;
    }
    let date = Date::new(year as i16, month as i8, day as i8).ok()?;
    Some(date.to_unix_epoch_day())
}

fn is_clock(t: &TimeParts) -> bool
    ensures { result ≡ spec.is_clock t.now }
{
    t.hour < 24 && t.minute < 60 && t.second < 60
}

fn is_offset(offset: Option<i16>) -> bool
    ensures { result ≡ spec.is_offset offset }
{
    match offset {
        None => true,
        Some(minutes) => -1440 < minutes && minutes < 1440,
    }
}

fn is_fraction(digits: u8, nanos: u32) -> bool
    ensures { result ≡ spec.is_fraction digits nanos }
{
    digits <= 9 && nanos < 1_000_000_000 && nanos % 10u32.pow(9 - digits as u32) == 0
}

// What the precision leaves out is left out.
fn ends_at(precision: Precision, t: &TimeParts) -> bool
    ensures { result ≡ spec.ends_at precision t.now }
{
    match precision {
        Precision::Year => lacks_month(t),
        Precision::Month => lacks_day(t),
        Precision::Day => lacks_clock(t),
        Precision::Minute => lacks_second(t),
        Precision::Second => true,
    }
}

fn lacks_month(t: &TimeParts) -> bool
    ensures { result ≡ spec.lacks_month t.now }
{
    t.month == 1 && lacks_day(t)
}

fn lacks_day(t: &TimeParts) -> bool
    ensures { result ≡ spec.lacks_day t.now }
{
    t.day == 1 && lacks_clock(t)
}

fn lacks_clock(t: &TimeParts) -> bool
    ensures { result ≡ spec.lacks_clock t.now }
{
    t.hour == 0 && t.minute == 0 && t.offset.is_none() && lacks_second(t)
}

fn lacks_second(t: &TimeParts) -> bool
    ensures { result ≡ spec.lacks_second t.now }
{
    t.second == 0 && lacks_fraction(t)
}

fn lacks_fraction(t: &TimeParts) -> bool
    ensures { result ≡ spec.lacks_fraction t.now }
{
    t.digits == 0 && t.nanos == 0
}
