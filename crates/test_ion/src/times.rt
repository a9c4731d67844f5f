//! Timestamps, their parts, and milliseconds.
use containers::Sequence;
use ion_time::{OutOfYears, clamped, from_millis};
use ion_values::{Body, IonTime, OutOfMemory, Precision, Text, TimeParts, Value};
use std::alloc::Global;
use test_rows::{number_in, put_number, put_value, text_in};

fn precision_of(word: &str) -> Precision {
    match word {
        "year" => Precision::Year,
        "month" => Precision::Month,
        "day" => Precision::Day,
        "minute" => Precision::Minute,
        _ => Precision::Second,
    }
}

fn byte_in(value: &Value) -> Option<u8> {
    u8::try_from(number_in(value)?).ok()
}

/// The offset, which no number is where it is unknown.
fn offset_in(value: &Value) -> Option<i16> {
    i16::try_from(number_in(value)?).ok()
}

fn parts_in(parts: &[Value]) -> Option<TimeParts> {
    let [
        precision,
        year,
        month,
        day,
        hour,
        minute,
        second,
        digits,
        nanos,
        offset,
    ] = parts
    else {
        return None;
    };
    Some(TimeParts {
        precision: precision_of(text_in(precision)?),
        year: u16::try_from(number_in(year)?).ok()?,
        month: byte_in(month)?,
        day: byte_in(day)?,
        hour: byte_in(hour)?,
        minute: byte_in(minute)?,
        second: byte_in(second)?,
        digits: byte_in(digits)?,
        nanos: u32::try_from(number_in(nanos)?).ok()?,
        offset: offset_in(offset),
    })
}

/// Puts whether these are the parts of a timestamp.
pub fn put_is_time(parts: &[Value], out: &mut Text) -> Option<()> {
    match IonTime::new(parts_in(parts)?) {
        Ok(_) => out.push_str("yes").ok(),
        Err(_) => out.push_str("no").ok(),
    }
}

fn time_in(value: &Value) -> Option<IonTime> {
    match &value.body {
        Body::Timestamp(time) => Some(*time),
        _ => None,
    }
}

fn is_made_again(time: &IonTime) -> bool {
    match IonTime::new(time.parts()) {
        Ok(again) => again.parts() == time.parts(),
        Err(_) => false,
    }
}

/// Puts the instant of a timestamp, where its parts are those of one.
pub fn put_instant(alloc: Global, given: &Value, out: &mut Text) -> Option<()> {
    let time = time_in(given)?;
    if !is_made_again(&time) {
        return None;
    }
    put_number(alloc, out, time.instant()).ok()
}

fn put_time(alloc: Global, time: IonTime, out: &mut Text) -> Result<(), OutOfMemory> {
    let value = Value {
        annotations: Sequence::new(alloc),
        body: Body::Timestamp(time),
    };
    put_value(alloc, out, &value)
}

/// Puts the timestamp that is nearest to milliseconds, and whether they are outside the years of timestamps.
pub fn put_nearest(alloc: Global, given: &Value, out: &mut Text) -> Option<()> {
    let millis = i64::try_from(number_in(given)?).ok()?;
    let nearest = clamped(millis);
    put_time(alloc, nearest, out).ok()?;
    match from_millis(millis) {
        Ok(time) if time == nearest => Some(()),
        Ok(_) => None,
        Err(OutOfYears) => out.push_str(", outside").ok(),
    }
}
