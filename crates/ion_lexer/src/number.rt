//! Numbers: ints, decimals and timestamps.
ghost use Rattle.std.specs.Prelude.{◌≡◌, ◌<◌, ◌≤◌, length, IsTrue};
ghost use Rattle.std.specs.List.{position_or_len, list_any};
ghost use Rattle.ion_model.specs.Numbers.{has_prefix, int_in, is_float_mark, is_stop, lex_number, number_in, number_token, unsigned_in, whole};
ghost use Rattle.ion_model.specs.Spans.{span_of};

mod digits;
mod real;
mod timestamp;

use digits::{is_digits, number_of};
use ion_model::{Lexed, Scalar, Token};
use ion_values::IonKind;
use real::plain_in;
use timestamp::{is_dated, time_in};

/// The number in front, and how many bytes follow its first one, in a text that begins with a digit,
/// or with a minus and a digit. It goes to the next of the marks ``{}[](),"'``, to white space or to
/// the end, and is refused where no number is spelled so. It takes no memory.
#[tactic(auto, unfolding(ion_model::specs::Numbers::lex_number))]
pub fn lex_number(bytes: &[u8]) -> Lexed
    ensures value { result ≡ lex_number bytes.now }
    ensures within { span_of result ≤ length bytes.now }
{
    let len = bytes_before_stop(bytes);
    if len == 0 {
        return Lexed::Refused(IonKind::BadToken);
    }
    match number_in(&bytes[..len]) {
        Ok(number) => Lexed::Token(Token::Scalar(number), len - 1),
        Err(why) => Lexed::Refused(why),
    }
}

/// How many bytes stand before the next stop, or the end.
fn bytes_before_stop(bytes: &[u8]) -> usize
    ensures value { result ≡ position_or_len is_stop bytes.now }
    ensures within { result ≤ length bytes.now }
{
    bytes.iter().take_while(|b| !is_stop(**b)).count()
}

/// Whether a number ends before this byte.
pub fn is_stop(b: u8) -> bool
    ensures { result ≡ is_stop b }
{
    matches!(
        b,
        b'{' | b'}' | b'[' | b']' | b'(' | b')' | b',' | b'"' | b'\'' | b' ' | b'\t'..=b'\r'
    )
}

/// The number that the whole run is, or why it is refused.
fn number_in(run: &[u8]) -> Result<Scalar, IonKind>
    ensures { result ≡ number_in run.now }
{
    match run {
        [b'-', text @ ..] => unsigned_in(true, text),
        _ => unsigned_in(false, run),
    }
}

/// The number that a run is behind its minus, where it has one.
fn unsigned_in(minus: bool, text: &[u8]) -> Result<Scalar, IonKind>
    ensures { result ≡ unsigned_in minus text.now }
{
    if has_prefix(b'x', b'X', text) {
        return int_in(16, minus, &text[2..]);
    }
    if has_float_mark(text) {
        return Err(IonKind::FloatRefused);
    }
    if has_prefix(b'b', b'B', text) {
        return int_in(2, minus, &text[2..]);
    }
    if !minus && is_dated(text) {
        return time_in(text);
    }
    plain_in(minus, text)
}

/// Whether a 0 and one of two letters stand in front.
fn has_prefix(small: u8, large: u8, text: &[u8]) -> bool
    requires small_letter { 0 < small }
    requires large_letter { 0 < large }
    ensures value { result ≡ has_prefix small large text.now }
    ensures long { IsTrue result → 2 ≤ length text.now }
{
    match text {
        [b'0', letter, ..] => *letter == small || *letter == large,
        _ => false,
    }
}

/// Whether an `e` stands somewhere.
fn has_float_mark(text: &[u8]) -> bool
    ensures { result ≡ list_any is_float_mark text.now }
{
    text.iter().any(|b| matches!(*b, b'e' | b'E'))
}

/// The int that digits of a base write.
fn int_in(base: u32, minus: bool, text: &[u8]) -> Result<Scalar, IonKind>
    requires low { 2 ≤ base }
    requires high { base ≤ 36 }
    ensures { result ≡ int_in base minus text.now }
{
    if !is_digits(base, text) {
        return Err(IonKind::BadToken);
    }
    whole(number_of(base, minus, text))
}

/// The int, if it is within 128 bits.
pub fn whole(number: Option<i128>) -> Result<Scalar, IonKind>
    ensures { result ≡ whole number }
{
    match number {
        Some(number) => Ok(Scalar::Int(number)),
        None => Err(IonKind::TooWide),
    }
}
