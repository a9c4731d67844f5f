//! Timestamps.
ghost use Rattle.std.specs.Prelude.{◌≡◌, ◌∷◌, [], fold, OnOk};
ghost use Rattle.ion_model.specs.Timestamp.{clock_text, day_text, digit, first_digits, four_digits, fraction_text, minute_text, month_text, offset_text, second_text, timestamp_text, two_digits};

use super::quoted::put_ascii;
use super::sink::TextSink;
use ion_values::{IonTime, Precision, TimeParts};

// The last digit of the number.
fn put_digit<S: TextSink>(out: &mut S, number: u32) -> Result<(), S::Fault>
    ensures { OnOk result (out.new ≡ fold S.with_byte out.old (digit number ∷ [])) }
{
    put_ascii(out, b'0' + (number % 10) as u8)
}

// The last two digits of the number.
fn put_two<S: TextSink>(out: &mut S, number: u32) -> Result<(), S::Fault>
    ensures { OnOk result (out.new ≡ fold S.with_byte out.old (two_digits number)) }
{
    put_digit(out, number / 10)?;
    put_digit(out, number)
}

// As many of nine digits as are counted.
fn put_first<S: TextSink>(out: &mut S, count: u8, nanos: u32) -> Result<(), S::Fault>
    ensures { OnOk result (out.new ≡ fold S.with_byte out.old (first_digits count nanos)) }
{
    let mut left = count;
    let mut rest = nanos;
    while left > 0 {
        put_digit(out, rest / 100_000_000)?;
        rest = rest % 100_000_000 * 10;
        left -= 1;
    }
    Ok(())
}

fn put_fraction<S: TextSink>(out: &mut S, count: u8, nanos: u32) -> Result<(), S::Fault>
    ensures { OnOk result (out.new ≡ fold S.with_byte out.old (fraction_text count nanos)) }
{
    if count == 0 {
        return Ok(());
    }
    out.push_str(".")?;
    put_first(out, count, nanos)
}

// `hh:mm` of the minutes.
fn put_clock<S: TextSink>(out: &mut S, minutes: u32) -> Result<(), S::Fault>
    ensures { OnOk result (out.new ≡ fold S.with_byte out.old (clock_text minutes)) }
{
    put_two(out, minutes / 60)?;
    out.push_str(":")?;
    put_two(out, minutes % 60)
}

fn put_offset<S: TextSink>(out: &mut S, offset: Option<i16>) -> Result<(), S::Fault>
    ensures { OnOk result (out.new ≡ fold S.with_byte out.old (offset_text offset)) }
{
    match offset {
        None => out.push_str("-00:00"),
        Some(0) => out.push_str("Z"),
        Some(minutes) => {
            out.push_str(if minutes < 0 { "-" } else { "+" })?;
            put_clock(out, minutes.unsigned_abs() as u32)
        }
    }
}

fn put_month<S: TextSink>(out: &mut S, t: &TimeParts) -> Result<(), S::Fault>
    ensures { OnOk result (out.new ≡ fold S.with_byte out.old (month_text t.now)) }
{
    put_year(out, t.year)?;
    out.push_str("-")?;
    put_two(out, t.month as u32)
}

fn put_year<S: TextSink>(out: &mut S, year: u16) -> Result<(), S::Fault>
    ensures { OnOk result (out.new ≡ fold S.with_byte out.old (four_digits year)) }
{
    put_two(out, year as u32 / 100)?;
    put_two(out, year as u32)
}

fn put_day<S: TextSink>(out: &mut S, t: &TimeParts) -> Result<(), S::Fault>
    ensures { OnOk result (out.new ≡ fold S.with_byte out.old (day_text t.now)) }
{
    put_month(out, t)?;
    out.push_str("-")?;
    put_two(out, t.day as u32)
}

fn put_minute<S: TextSink>(out: &mut S, t: &TimeParts) -> Result<(), S::Fault>
    ensures { OnOk result (out.new ≡ fold S.with_byte out.old (minute_text t.now)) }
{
    put_day(out, t)?;
    out.push_str("T")?;
    put_two(out, t.hour as u32)?;
    out.push_str(":")?;
    put_two(out, t.minute as u32)
}

fn put_second<S: TextSink>(out: &mut S, t: &TimeParts) -> Result<(), S::Fault>
    ensures { OnOk result (out.new ≡ fold S.with_byte out.old (second_text t.now)) }
{
    put_minute(out, t)?;
    out.push_str(":")?;
    put_two(out, t.second as u32)?;
    put_fraction(out, t.digits, t.nanos)
}

/// Puts the text of a timestamp, as far as its precision goes.
pub fn put_timestamp<S: TextSink>(out: &mut S, time: &IonTime) -> Result<(), S::Fault>
    ensures { OnOk result (out.new ≡ fold S.with_byte out.old (timestamp_text time.now)) }
{
    let parts = time.parts();
    match parts.precision {
        Precision::Year => {
            put_year(out, parts.year)?;
            out.push_str("T")
        }
        Precision::Month => {
            put_month(out, &parts)?;
            out.push_str("T")
        }
        Precision::Day => put_day(out, &parts),
        Precision::Minute => {
            put_minute(out, &parts)?;
            put_offset(out, parts.offset)
        }
        Precision::Second => {
            put_second(out, &parts)?;
            put_offset(out, parts.offset)
        }
    }
}
