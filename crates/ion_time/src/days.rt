//! The dates of days, and timestamps of their parts.
ghost use Rattle.std.specs.Prelude.{◌≡◌, ◌≤ℤ◌, pos, neg_ℤ};
ghost use Rattle.jiff_core.specs.Calendar.{days_from_civil};
ghost use Rattle.ion_values.specs.Time.{IsTime};

use ion_values::{IonTime, TimeParts};
use jiff_core::civil::Date;

/// The date of the day of this number, 0 being 1 January 1970.
pub fn date_of(day: i64) -> Date
    requires first { neg_ℤ (pos 719_162) ≤ℤ day }
    requires last { day ≤ℤ pos 2_932_896 }
    ensures value { days_from_civil result.year result.month result.day ≡ day }
    ensures first { pos 1 ≤ℤ result.year }
{
    Date::from_unix_epoch_day(day).unwrap()
}

/// The year of a date from the year 1 on.
pub fn year_of(date: Date) -> u16
    requires { pos 1 ≤ℤ date.year }
    ensures { pos result ≡ date.year }
{
    date.year as u16
}

/// The timestamp of these parts.
pub fn time_of(parts: TimeParts) -> IonTime
    requires { IsTime parts }
    ensures { result ≡ parts }
{
    IonTime::new(parts).unwrap()
}
