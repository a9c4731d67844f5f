//! Ints and decimals in decimal digits.
ghost use Rattle.std.specs.Prelude.{◌≡◌, ◌≤◌, length, IfSome, MatchOption};
ghost use Rattle.std.specs.List.{position_or_len};
ghost use Rattle.std.specs.Str.Parse.{digits_value, starts_with_minus, without_leading_sign};
ghost use Rattle.ion_lexer.specs.Exponents.{IsExponent, IsWide};
ghost use Rattle.ion_model.specs.Numbers.{decimal, digits_in, exponent_of, final_exponent, is_exponent, is_exponent_mark, is_fraction, is_plain, is_point, is_real, is_whole, limited, mantissa_in, plain_in, with_sign};

use super::digits::{is_digits, is_numeral, magnitude, number_of};
use super::whole;
use ion_model::Scalar;
use ion_values::{Decimal, IonKind};

/// The int or the decimal that the text is.
pub fn plain_in(minus: bool, text: &[u8]) -> Result<Scalar, IonKind>
    ensures { result ≡ plain_in minus text.now }
{
    let mark = bytes_before_exponent(text);
    mantissa_in(minus, &text[..mark], &text[mark..])
}

/// How many bytes stand before the mark of an exponent, or the end.
fn bytes_before_exponent(text: &[u8]) -> usize
    ensures value { result ≡ position_or_len is_exponent_mark text.now }
    ensures within { result ≤ length text.now }
{
    text.iter()
        .take_while(|b| !matches!(**b, b'd' | b'D'))
        .count()
}

/// How many bytes stand before the point, or the end.
fn bytes_before_point(text: &[u8]) -> usize
    ensures value { result ≡ position_or_len is_point text.now }
    ensures within { result ≤ length text.now }
{
    text.iter().take_while(|b| **b != b'.').count()
}

/// The int or the decimal of this mantissa and an exponent with its mark, which is empty where none
/// is written.
fn mantissa_in(minus: bool, mantissa: &[u8], exponent: &[u8]) -> Result<Scalar, IonKind>
    ensures { result ≡ mantissa_in minus mantissa.now exponent.now }
{
    let point = bytes_before_point(mantissa);
    let fraction = &mantissa[point..];
    if !is_real(&mantissa[..point], fraction, exponent) {
        return Err(IonKind::BadToken);
    }
    let number = number_of(10, minus, mantissa);
    if fraction.is_empty() && exponent.is_empty() {
        return whole(number);
    }
    decimal(
        minus,
        number,
        final_exponent(exponent, count_digits(fraction)),
    )
}

/// Whether digits, a fraction and an exponent are spelled as those of a number.
fn is_real(digits: &[u8], fraction: &[u8], exponent: &[u8]) -> bool
    ensures { result ≡ is_real digits.now fraction.now exponent.now }
{
    is_whole(digits) && is_fraction(fraction) && is_exponent(exponent)
}

/// Whether the text is digits without a 0 before others.
fn is_whole(text: &[u8]) -> bool
    ensures { result ≡ is_whole text.now }
{
    is_digits(10, text) && is_plain(text)
}

/// Whether there is at least one digit, and no 0 before others.
fn is_plain(digits: &[u8]) -> bool
    ensures { result ≡ is_plain digits.now }
{
    match digits {
        [] => false,
        [_] => true,
        [first, ..] => *first != b'0',
    }
}

/// Whether the text is empty, or a point and digits at will.
fn is_fraction(text: &[u8]) -> bool
    ensures { result ≡ is_fraction text.now }
{
    match text {
        [] | [_] => true,
        [_, digits @ ..] => is_digits(10, digits),
    }
}

/// Whether the text is empty, or a mark and digits with a sign at will.
fn is_exponent(text: &[u8]) -> bool
    ensures { result ≡ is_exponent text.now }
{
    match text {
        [] => true,
        [_, number @ ..] => is_numeral(without_sign(number)),
    }
}

/// The text without a sign in front.
fn without_sign(text: &[u8]) -> &[u8]
    ensures { result.now ≡ without_leading_sign text.now }
{
    match text {
        [b'-' | b'+', rest @ ..] => rest,
        _ => text,
    }
}

/// How many digits the text has.
fn count_digits(text: &[u8]) -> usize
    ensures { result ≡ length (digits_in 10 text.now) }
{
    text.iter().filter(|b| char::from(**b).is_digit(10)).count()
}

/// The exponent less the number of digits behind the point, or None outside the limits.
fn final_exponent(exponent: &[u8], places: usize) -> Option<i32>
    ensures value { result ≡ final_exponent exponent.now places }
    ensures within { IfSome result IsExponent }
{
    let written = exponent_of(exponent)?;
    limited(written.checked_sub(places as i128)?)
}

/// The number behind the mark of an exponent, 0 where none is written, or None outside 128 bits.
fn exponent_of(exponent: &[u8]) -> Option<i128>
    ensures { MatchOption result (IsWide (exponent_of exponent.now)) (λ e. e ≡ exponent_of exponent.now) }
{
    match exponent {
        [] => Some(0),
        [_, number @ ..] => signed_number(number),
    }
}

/// The number of a text of digits with a sign at will, or None outside 128 bits.
fn signed_number(text: &[u8]) -> Option<i128>
    ensures { let number = with_sign (starts_with_minus text.now) (digits_value 10 (digits_in 10 text.now)) in
        MatchOption result (IsWide number) (λ e. e ≡ number) }
{
    with_sign(starts_with_minus(text), magnitude(10, text)?)
}

/// Whether the text begins with a minus.
fn starts_with_minus(text: &[u8]) -> bool
    ensures { result ≡ starts_with_minus text.now }
{
    matches!(text, [b'-', ..])
}

/// The number with a minus before it or not, or None outside 128 bits.
fn with_sign(minus: bool, number: u128) -> Option<i128>
    ensures { MatchOption result (IsWide (with_sign minus number)) (λ e. e ≡ with_sign minus number) }
{
    let number = i128::try_from(number).ok()?;
    Some(if minus { -number } else { number })
}

/// The exponent, if it is within the limits.
fn limited(exponent: i128) -> Option<i32>
    ensures value { result ≡ limited exponent }
    ensures within { IfSome result IsExponent }
{
    if -32_767 <= exponent && exponent <= 32_767 {
        Some(exponent as i32)
    } else {
        None
    }
}

/// The decimal of a coefficient and an exponent within their limits.
fn decimal(minus: bool, coefficient: Option<i128>, exponent: Option<i32>) -> Result<Scalar, IonKind>
    requires { IfSome exponent IsExponent }
    ensures { result ≡ decimal minus coefficient exponent }
{
    let (Some(coefficient), Some(exponent)) = (coefficient, exponent) else {
        return Err(IonKind::TooWide);
    };
    Ok(Scalar::Decimal(Decimal {
        coefficient,
        exponent,
        negative_zero: minus && coefficient == 0,
    }))
}
