//! Numbers without a sign.
ghost use Rattle.std.specs.Prelude.{◌≡◌, ◌<◌, ◌≤◌, ◌+◌, ◌*◌, ◌^◌, SomeIff, length, slice_index, true};
ghost use Rattle.std.specs.Char.{is_ascii_digit};
ghost use Rattle.std.specs.List.{filter, prefix_len};
ghost use Rattle.std.specs.Str.Parse.{digits_value};
ghost use Rattle.pql_model.specs.Tokens as spec;
ghost use Rattle.pql_lexer.specs.Lexing.{span_of};

use containers::Sequence;
use ion_values::{Body, Decimal, Value};
use pql_model::{Lexed, ParseKind, Token};
use std::alloc::Global;

/// The number in front, in a text that begins with a digit.
pub fn lex_number(alloc: Global, bytes: &[u8]) -> Lexed
    requires some { 0 < length bytes.now }
    requires digit { is_ascii_digit (slice_index bytes.now 0) ≡ true }
    ensures value { result ≡ spec.lex_number bytes.now }
    ensures within { span_of result ≤ length bytes.now }
{
    let whole = whole_len(bytes);
    let (_, rest) = bytes.split_at(whole);
    let places = places_of(rest);
    let len = if places == 0 {
        whole
    } else {
        whole + 1 + places
    };
    number_of(alloc, len, places, bytes)
}

/// How many digits the whole part has: a 0 alone, or digits without a 0 in front.
fn whole_len(bytes: &[u8]) -> usize
    requires some { 0 < length bytes.now }
    requires digit { is_ascii_digit (slice_index bytes.now 0) ≡ true }
    ensures value { result ≡ spec.whole_len bytes.now }
    ensures some { 0 < result }
    ensures within { result ≤ length bytes.now }
{
    match bytes {
        [b'0', ..] => 1,
        _ => digits_len(bytes),
    }
}

/// How many digits stand behind a point.
fn places_of(bytes: &[u8]) -> usize
    ensures value { result ≡ spec.places_of bytes.now }
    ensures within { 0 < result → result + 1 ≤ length bytes.now }
{
    match bytes {
        [b'.', digits @ ..] => digits_len(digits),
        _ => 0,
    }
}

fn digits_len(bytes: &[u8]) -> usize
    ensures value { result ≡ prefix_len is_ascii_digit bytes.now }
    ensures within { result ≤ length bytes.now }
{
    bytes.iter().take_while(|b| b.is_ascii_digit()).count()
}

/// The number that the first `len` bytes are, unless they begin a float.
fn number_of(alloc: Global, len: usize, places: usize, bytes: &[u8]) -> Lexed
    requires some { 0 < len }
    requires within { len ≤ length bytes.now }
    ensures value { result ≡ spec.number_of len places bytes.now }
    ensures within { span_of result ≤ length bytes.now }
{
    let (number, rest) = bytes.split_at(len);
    if begins_float(rest) {
        return Lexed::Refused(ParseKind::FloatRefused);
    }
    match digits_value(number) {
        Some(digits) => number_token(alloc, len - 1, digits, places),
        None => Lexed::Refused(ParseKind::TooWide),
    }
}

/// Whether the mark of a float's exponent stands in front.
fn begins_float(bytes: &[u8]) -> bool
    ensures { result ≡ spec.is_float_mark (slice_index bytes.now 0) }
{
    match bytes.first() {
        Some(first) => *first == b'e' || *first == b'E',
        None => false,
    }
}

/// The number that the digits in the text write, or None from 2^127 on.
fn digits_value(text: &[u8]) -> Option<u128>
    ensures { SomeIff result (digits_value 10 (filter is_ascii_digit text.now) < 2 ^ 127)
        (digits_value 10 (filter is_ascii_digit text.now)) }
{
    let number = magnitude(text)?;
    (number < 1 << 127).then_some(number)
}

/// The number that the digits of the text are, or None from 2^128 on.
fn magnitude(text: &[u8]) -> Option<u128>
    ensures { SomeIff result (digits_value 10 (filter is_ascii_digit text.now) < 2 ^ 128)
        (digits_value 10 (filter is_ascii_digit text.now)) }
{
    let mut number = 0u128;
    'digits: for b in text {
        if b.is_ascii_digit() {
            number = with_digit(number, *b - b'0')?;
        }
    }
    Some(number)
}

fn with_digit(number: u128, digit: u8) -> Option<u128>
    ensures { SomeIff result (number * 10 + digit < 2 ^ 128) (number * 10 + digit) }
{
    number.checked_mul(10)?.checked_add(u128::from(digit))
}

/// The greatest number of places that a decimal has.
const MOST_PLACES: usize = 32_767;

/// These digits with `places` places after the point.
fn number_token(alloc: Global, more: usize, digits: u128, places: usize) -> Lexed
    requires { digits < 2 ^ 127 }
    ensures { result ≡ spec.number_token more digits places }
{
    if places > MOST_PLACES {
        return Lexed::Refused(ParseKind::TooWide);
    }
    Lexed::Token(Token::Value(plain(alloc, number(digits, places))), more)
}

fn number(digits: u128, places: usize) -> Body
    requires digits { digits < 2 ^ 127 }
    requires places { places ≤ 32_767 }
    ensures { result ≡ spec.number digits places }
{
    if places == 0 {
        return Body::Int(digits as i128);
    }
    Body::Decimal(Decimal {
        coefficient: digits as i128,
        exponent: -(places as i32),
        negative_zero: false,
    })
}

/// A value without annotations.
fn plain(alloc: Global, body: Body) -> Value
    ensures { result ≡ spec.plain body }
{
    Value {
        annotations: Sequence::new(alloc),
        body,
    }
}
