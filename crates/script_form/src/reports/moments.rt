//! Moments, as timestamps in UTC.
ghost use Rattle.std.specs.Prelude.{◌≡◌, ◌++◌, ◌<◌, ◌≤ℤ◌, pos, neg_ℤ, IsTrue, OnOk};
ghost use Rattle.ion_values.specs.Time.{is_in_years};
ghost use Rattle.ledger_model.specs.Moment.{day_number, minutes_of, moment_text, nanos_of_day, time_at, time_on, utc_time};
ghost use Rattle.ion_model.specs.Timestamp.{timestamp_text};

use super::pieces::{put_body, put_int};
use containers::{OutOfMemory, Text};
use ion_time::{date_of, time_of, year_of};
use ion_values::{Body, IonTime, Precision, TimeParts};
use std::alloc::Global;

/// A day in billionths of a second.
const DAY: i128 = 86_400_000_000_000;

/// Where the year 1 begins, in billionths of a second since 1970.
const START_OF_1: i128 = -719_162 * 86_400_000_000_000;

/// Where the year 10000 begins.
const START_OF_10000: i128 = 2_932_897 * 86_400_000_000_000;

/// Puts a moment as a timestamp in UTC with nine digits, or outside the years 1 to 9999, where there
/// are none, its billionths of a second since 1970 as an annotated int.
pub fn put_moment(alloc: Global, out: &mut Text, moment: i128) -> Result<(), OutOfMemory>
    ensures { OnOk result (out.new ≡ out.old ++ moment_text moment) }
{
    if has_timestamp(moment) {
        put_timestamp(alloc, out, utc_time(moment))
    } else {
        out.push_str("moment::")?;
        put_int(alloc, out, moment)
    }
}

fn put_timestamp(alloc: Global, out: &mut Text, time: IonTime) -> Result<(), OutOfMemory>
    ensures { OnOk result (out.new ≡ out.old ++ timestamp_text time) }
{
    put_body(alloc, out, Body::Timestamp(time))
}

/// The timestamp that begins at the moment.
fn utc_time(moment: i128) -> IonTime
    requires { IsTrue (is_in_years (minutes_of moment)) }
    ensures { result ≡ utc_time moment }
{
    time_on(day_number(moment), nanos_of_day(moment))
}

/// Whether the moment is of one of the years 1 to 9999.
fn has_timestamp(moment: i128) -> bool
    ensures { result ≡ is_in_years (minutes_of moment) }
{
    START_OF_1 <= moment && moment < START_OF_10000
}

/// The number of the moment's day.
fn day_number(moment: i128) -> i64
    requires { IsTrue (is_in_years (minutes_of moment)) }
    ensures value { result ≡ day_number moment }
    ensures first { neg_ℤ (pos 719_162) ≤ℤ result }
    ensures last { result ≤ℤ pos 2_932_896 }
{
    moment.div_euclid(DAY) as i64
}

/// How far the moment is behind the beginning of its day.
fn nanos_of_day(moment: i128) -> u64
    ensures value { result ≡ nanos_of_day moment }
    ensures within { result < 86_400_000_000_000 }
{
    moment.rem_euclid(DAY) as u64
}

/// The timestamp on the day of this number, `nanos` nanoseconds after its beginning.
fn time_on(day: i64, nanos: u64) -> IonTime
    requires first { neg_ℤ (pos 719_162) ≤ℤ day }
    requires last { day ≤ℤ pos 2_932_896 }
    requires within { nanos < 86_400_000_000_000 }
    ensures { result ≡ time_on day nanos }
{
    let date = date_of(day);
    let year = year_of(date);
    time_of(time_at(year, date.month, date.day, nanos))
}

/// The parts of a moment of a date, `nanos` nanoseconds after its beginning.
fn time_at(year: u16, month: u8, day: u8, nanos: u64) -> TimeParts
    requires { nanos < 86_400_000_000_000 }
    ensures { result ≡ time_at year month day nanos }
{
    TimeParts {
        precision: Precision::Second,
        year,
        month,
        day,
        hour: (nanos / 3_600_000_000_000) as u8,
        minute: (nanos / 60_000_000_000 % 60) as u8,
        second: (nanos / 1_000_000_000 % 60) as u8,
        digits: 9,
        nanos: (nanos % 1_000_000_000) as u32,
        offset: Some(0),
    }
}
