//! Timestamps.
ghost use Rattle.std.specs.Prelude.{◌≡◌, ◌<◌, ◌≤◌, ◌^◌, drop, length, neg_ℤ, pos, slice_index, take};
ghost use Rattle.std.specs.Char.{is_ascii_digit};
ghost use Rattle.std.specs.List.{prefix_len};
ghost use Rattle.ion_model.specs.Timestamps.{clock_in, day_parts, digit_of, four_at, has_seconds, has_shape, is_dated, is_day, is_fraction, is_offset, minute_parts, moment, month_parts, nanos_of, offset_at, offset_moment, offset_of, second_parts, stands_for, time_in, two_at, year_parts};

use super::digits::is_numeral;
use ion_model::Scalar;
use ion_values::{IonKind, IonTime, Precision, TimeParts};

/// Whether four digits with `T` or `-` behind them stand in front.
pub fn is_dated(run: &[u8]) -> bool
    ensures { result ≡ is_dated run.now }
{
    leading_digits(run) == 4 && matches!(byte_at(run, 4), b'T' | b'-')
}

/// How many digits stand in front.
fn leading_digits(text: &[u8]) -> usize
    ensures { result ≡ prefix_len is_ascii_digit text.now }
{
    text.iter().take_while(|b| b.is_ascii_digit()).count()
}

/// The timestamp that the whole run is, or why it is refused.
#[tactic(auto, unfolding(ion_model::specs::Timestamps::time_in))]
pub fn time_in(run: &[u8]) -> Result<Scalar, IonKind>
    ensures { result ≡ time_in run.now }
{
    if has_shape(run, b"0000T") {
        return moment(year_parts(run));
    }
    if has_shape(run, b"0000-00T") {
        return moment(month_parts(run));
    }
    if is_day(run) {
        return moment(day_parts(run));
    }
    let (clock, offset) = run.split_at(offset_at(run));
    clock_in(clock, offset)
}

/// The timestamp of a run before its offset, which has a clock, and the offset.
fn clock_in(run: &[u8], offset: &[u8]) -> Result<Scalar, IonKind>
    ensures { result ≡ clock_in run.now offset.now }
{
    if !is_offset(offset) {
        return Err(IonKind::BadToken);
    }
    if has_shape(run, b"0000-00-00T00:00") {
        return offset_moment(offset, minute_parts(run, offset));
    }
    if !has_seconds(run) {
        return Err(IonKind::BadToken);
    }
    let digits = from(run, 20);
    if digits.len() > 9 {
        return Err(IonKind::TooWide);
    }
    offset_moment(offset, second_parts(run, digits, offset))
}

/// The timestamp of these parts, each in its range.
fn moment(parts: TimeParts) -> Result<Scalar, IonKind>
    ensures { result ≡ moment parts }
{
    match IonTime::new(parts) {
        Ok(time) => Ok(Scalar::Timestamp(time)),
        Err(_) => Err(IonKind::BadTimestamp),
    }
}

/// The timestamp of these parts, whose offset has minutes from 00 to 59 too.
#[tactic(auto, unfolding(ion_model::specs::Timestamps::offset_moment))]
fn offset_moment(offset: &[u8], parts: TimeParts) -> Result<Scalar, IonKind>
    ensures { result ≡ offset_moment offset.now parts }
{
    if two_at(offset, 4) >= 60 {
        return Err(IonKind::BadTimestamp);
    }
    moment(parts)
}

/// Whether a text has this shape, in which 0 stands for a digit and any other byte for itself.
#[tactic(auto, unfolding(ion_model::specs::Timestamps::has_shape))]
fn has_shape(text: &[u8], shape: &[u8]) -> bool
    ensures { result ≡ has_shape text.now shape.now }
{
    if text.len() != shape.len() {
        return false;
    }
    for (at, s) in shape.iter().enumerate() {
        if !stands_for(text[at], *s) {
            return false;
        }
    }
    true
}

/// Whether a byte of a shape stands for this byte.
fn stands_for(b: u8, s: u8) -> bool
    ensures { result ≡ stands_for b s }
{
    if s == b'0' {
        b.is_ascii_digit()
    } else {
        b == s
    }
}

/// Whether the run is a day, with `T` at will.
fn is_day(run: &[u8]) -> bool
    ensures { result ≡ is_day run.now }
{
    has_shape(run, b"0000-00-00") || has_shape(run, b"0000-00-00T")
}

/// Whether the run is a day and a clock with seconds.
#[tactic(auto, unfolding(ion_model::specs::Timestamps::has_seconds))]
fn has_seconds(run: &[u8]) -> bool
    ensures { result ≡ has_seconds run.now }
{
    has_shape(before(run, 19), b"0000-00-00T00:00:00") && is_fraction(from(run, 19))
}

/// Whether the text is empty, or a point and digits.
fn is_fraction(text: &[u8]) -> bool
    ensures { result ≡ is_fraction text.now }
{
    match text {
        [] => true,
        [point, digits @ ..] => *point == b'.' && is_numeral(digits),
    }
}

/// Whether the text is an offset.
#[tactic(auto, unfolding(ion_model::specs::Timestamps::is_offset))]
fn is_offset(text: &[u8]) -> bool
    ensures { result ≡ is_offset text.now }
{
    has_shape(text, b"Z") || has_shape(text, b"+00:00") || has_shape(text, b"-00:00")
}

/// How many bytes stand before the offset, which is `Z` or has six bytes.
fn offset_at(run: &[u8]) -> usize
    ensures value { result ≡ offset_at run.now }
    ensures within { result ≤ length run.now }
{
    match run {
        [.., b'Z'] => run.len() - 1,
        _ => run.len().saturating_sub(6),
    }
}

/// What stands before a place, or all of a text that ends before.
#[tactic(auto, using(std::proofs::lemmas::List::take_min))]
fn before(text: &[u8], at: usize) -> &[u8]
    ensures { result.now ≡ take at text.now }
{
    &text[..at.min(text.len())]
}

/// What stands from a place on, or nothing of a text that ends before.
#[tactic(auto, using(std::proofs::lemmas::List::drop_min))]
fn from(text: &[u8], at: usize) -> &[u8]
    ensures { result.now ≡ drop at text.now }
{
    &text[at.min(text.len())..]
}

/// The byte at a place, 0 where none stands there.
fn byte_at(text: &[u8], at: usize) -> u8
    ensures { result ≡ slice_index text.now at }
{
    text.get(at).copied().unwrap_or(0)
}

/// The value of a digit, 0 for any other byte.
fn digit_of(b: u8) -> u8
    ensures value { result ≡ digit_of b }
    ensures small { result < 10 }
{
    if b.is_ascii_digit() { b - b'0' } else { 0 }
}

/// The number of two digits.
fn two_at(text: &[u8], at: usize) -> u8
    requires { at < 2 ^ 32 }
    ensures value { result ≡ two_at text.now at }
    ensures small { result < 100 }
{
    digit_of(byte_at(text, at)) * 10 + digit_of(byte_at(text, at + 1))
}

/// The number of four digits.
fn four_at(text: &[u8], at: usize) -> u16
    requires { at < 2 ^ 16 }
    ensures value { result ≡ four_at text.now at }
    ensures small { result < 10_000 }
{
    u16::from(two_at(text, at)) * 100 + u16::from(two_at(text, at + 2))
}

/// The billionths of a second that up to nine digits write.
fn nanos_of(digits: &[u8]) -> u32
    ensures { result ≡ nanos_of digits.now }
{
    let eight = u32::from(four_at(digits, 0)) * 10_000 + u32::from(four_at(digits, 4));
    eight * 10 + u32::from(digit_of(byte_at(digits, 8)))
}

/// The distance from UTC in minutes, None where it is unknown.
fn offset_of(text: &[u8]) -> Option<i16>
    ensures { result ≡ offset_of text.now }
{
    let minutes = u16::from(two_at(text, 1)) * 60 + u16::from(two_at(text, 4));
    if byte_at(text, 0) != b'-' {
        return Some(minutes as i16);
    }
    if minutes == 0 {
        None
    } else {
        Some(negative(minutes))
    }
}

/// The minutes with a minus before them.
fn negative(minutes: u16) -> i16
    requires { minutes < 2 ^ 15 }
    ensures { result ≡ neg_ℤ (pos minutes) }
{
    -(minutes as i16)
}

/// The parts of a year.
fn year_parts(run: &[u8]) -> TimeParts
    ensures { result ≡ year_parts run.now }
{
    TimeParts {
        precision: Precision::Year,
        year: four_at(run, 0),
        month: 1,
        day: 1,
        hour: 0,
        minute: 0,
        second: 0,
        digits: 0,
        nanos: 0,
        offset: None,
    }
}

/// The parts of a month.
fn month_parts(run: &[u8]) -> TimeParts
    ensures { result ≡ month_parts run.now }
{
    TimeParts {
        precision: Precision::Month,
        month: two_at(run, 5),
        ..year_parts(run)
    }
}

/// The parts of a day.
fn day_parts(run: &[u8]) -> TimeParts
    ensures { result ≡ day_parts run.now }
{
    TimeParts {
        precision: Precision::Day,
        day: two_at(run, 8),
        ..month_parts(run)
    }
}

/// The parts of a minute.
#[tactic(auto, unfolding(ion_model::specs::Timestamps::minute_parts))]
fn minute_parts(run: &[u8], offset: &[u8]) -> TimeParts
    ensures { result ≡ minute_parts run.now offset.now }
{
    TimeParts {
        precision: Precision::Minute,
        hour: two_at(run, 11),
        minute: two_at(run, 14),
        offset: offset_of(offset),
        ..day_parts(run)
    }
}

/// The parts of a second, with up to nine digits of a fraction.
#[tactic(auto, unfolding(ion_model::specs::Timestamps::second_parts))]
fn second_parts(run: &[u8], digits: &[u8], offset: &[u8]) -> TimeParts
    requires { length digits.now ≤ 9 }
    ensures { result ≡ second_parts run.now digits.now offset.now }
{
    TimeParts {
        precision: Precision::Second,
        second: two_at(run, 17),
        digits: digits.len() as u8,
        nanos: nanos_of(digits),
        ..minute_parts(run, offset)
    }
}
