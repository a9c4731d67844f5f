//! Timestamps.
ghost use Rattle.std.specs.Prelude.{◌≡◌, ◌++◌, ◌<◌, pos, OnOk};
ghost use Rattle.jiff_core.specs.Calendar.{days_in_month, is_leap_year};
ghost use Rattle.ion_values.specs.Dates.{day_after, day_before};
ghost use Rattle.hash_model.specs.Timestamps.{clock_bytes, day_bytes, fields_to, fraction_bytes, minute_bytes, month_bytes, offset_bytes, second_bytes, timestamp_bytes, utc_clock, utc_date, minutes_from_local_date};
ghost use Rattle.ion_binary.specs.Dates.{date_of};

use super::buffer::Buffer;
use super::numbers::{put_int_field, put_var_int, put_var_uint};
use containers::OutOfMemory;
use ion_values::{IonTime, Precision, TimeParts};

// A day of the calendar.
#[derive(Clone, Copy)]
struct Day {
    year: u32,
    month: u32,
    day: u32,
}

fn is_leap(year: u32) -> bool
    ensures { result ≡ is_leap_year (pos year) }
{
    year % 4 == 0 && (year % 100 != 0 || year % 400 == 0)
}

fn month_length(year: u32, month: u32) -> u32
    ensures { result ≡ days_in_month (pos year) month }
{
    if month == 2 {
        if is_leap(year) { 29 } else { 28 }
    } else if month == 4 || month == 6 || month == 9 || month == 11 {
        30
    } else {
        31
    }
}

fn next_day(date: Day) -> Day
    requires { date.year < 65536 }
    ensures { date_of result ≡ day_after (date_of date) }
{
    let Day { year, month, day } = date;
    if day < month_length(year, month) {
        Day {
            year,
            month,
            day: day + 1,
        }
    } else if month < 12 {
        Day {
            year,
            month: month + 1,
            day: 1,
        }
    } else {
        Day {
            year: year + 1,
            month: 1,
            day: 1,
        }
    }
}

fn day_ahead(date: Day) -> Day
    ensures { date_of result ≡ day_before (date_of date) }
{
    let Day { year, month, day } = date;
    if 1 < day {
        Day {
            year,
            month,
            day: day - 1,
        }
    } else if 1 < month {
        Day {
            year,
            month: month - 1,
            day: month_length(year, month - 1),
        }
    } else {
        Day {
            year: year.saturating_sub(1),
            month: 12,
            day: 31,
        }
    }
}

// The minutes from the beginning of the local date to the moment, as UTC counts them.
fn minutes_of(t: &TimeParts) -> i32
    ensures { result ≡ minutes_from_local_date t.now }
{
    let local = t.hour as i32 * 60 + t.minute as i32;
    let offset = t.offset.unwrap_or(0);
    local - offset as i32
}

fn date_in_utc(t: &TimeParts) -> Day
    ensures { date_of result ≡ utc_date t.now }
{
    let local = Day {
        year: t.year as u32,
        month: t.month as u32,
        day: t.day as u32,
    };
    let minutes = minutes_of(t);
    if minutes < 0 {
        day_ahead(local)
    } else if minutes < 1440 {
        local
    } else {
        next_day(local)
    }
}

fn clock_in_utc(t: &TimeParts) -> u32
    ensures { result ≡ utc_clock t.now }
{
    let minutes = minutes_of(t);
    if minutes < 0 {
        (minutes + 1440).unsigned_abs()
    } else if minutes < 1440 {
        minutes.unsigned_abs()
    } else {
        (minutes - 1440).unsigned_abs()
    }
}

fn put_offset(out: &mut Buffer, offset: Option<i16>) -> Result<(), OutOfMemory>
    ensures { OnOk result (out.new ≡ out.old ++ offset_bytes offset) }
{
    match offset {
        None => put_var_int(out, true, 0),
        Some(minutes) => put_var_int(out, minutes < 0, minutes.unsigned_abs() as u32),
    }
}

// The fraction in units of its last digit.
fn put_fraction(out: &mut Buffer, digits: u8, nanos: u32) -> Result<(), OutOfMemory>
    ensures { OnOk result (out.new ≡ out.old ++ fraction_bytes digits nanos) }
{
    if digits == 0 {
        return Ok(());
    }
    put_var_int(out, true, digits as u32)?;
    let unit = 10_u32.pow(9_u8.saturating_sub(digits) as u32);
    put_int_field(out, false, (nanos / unit) as u128)
}

fn put_clock(out: &mut Buffer, minutes: u32) -> Result<(), OutOfMemory>
    ensures { OnOk result (out.new ≡ out.old ++ clock_bytes minutes) }
{
    put_var_uint(out, (minutes / 60) as u128)?;
    put_var_uint(out, (minutes % 60) as u128)
}

fn put_month(out: &mut Buffer, date: Day) -> Result<(), OutOfMemory>
    ensures { OnOk result (out.new ≡ out.old ++ month_bytes (date_of date)) }
{
    put_var_uint(out, date.year as u128)?;
    put_var_uint(out, date.month as u128)
}

fn put_day(out: &mut Buffer, date: Day) -> Result<(), OutOfMemory>
    ensures { OnOk result (out.new ≡ out.old ++ day_bytes (date_of date)) }
{
    put_month(out, date)?;
    put_var_uint(out, date.day as u128)
}

fn put_minute(out: &mut Buffer, t: &TimeParts, date: Day) -> Result<(), OutOfMemory>
    ensures { OnOk result (out.new ≡ out.old ++ minute_bytes t.now (date_of date)) }
{
    put_day(out, date)?;
    put_clock(out, clock_in_utc(t))
}

fn put_second(out: &mut Buffer, t: &TimeParts, date: Day) -> Result<(), OutOfMemory>
    ensures { OnOk result (out.new ≡ out.old ++ second_bytes t.now (date_of date)) }
{
    put_minute(out, t, date)?;
    put_var_uint(out, t.second as u128)?;
    put_fraction(out, t.digits, t.nanos)
}

fn put_fields(out: &mut Buffer, t: &TimeParts, date: Day) -> Result<(), OutOfMemory>
    ensures { OnOk result (out.new ≡ out.old ++ fields_to t.now.precision t.now (date_of date)) }
{
    match t.precision {
        Precision::Year => put_var_uint(out, date.year as u128),
        Precision::Month => put_month(out, date),
        Precision::Day => put_day(out, date),
        Precision::Minute => put_minute(out, t, date),
        Precision::Second => put_second(out, t, date),
    }
}

fn put_parts(out: &mut Buffer, t: &TimeParts) -> Result<(), OutOfMemory>
    ensures { OnOk result (out.new ≡ out.old ++ timestamp_bytes t.now) }
{
    put_offset(out, t.offset)?;
    put_fields(out, t, date_in_utc(t))
}

/// Appends the offset as a VarInt and then, in UTC, as many fields as the precision has, the fraction as a decimal.
pub fn put_timestamp_fields(out: &mut Buffer, time: &IonTime) -> Result<(), OutOfMemory>
    ensures { OnOk result (out.new ≡ out.old ++ timestamp_bytes time.now) }
{
    put_parts(out, &time.parts())
}
