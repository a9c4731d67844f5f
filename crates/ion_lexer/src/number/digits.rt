//! Digits of a base, and the numbers that they write.
ghost use Rattle.std.specs.Prelude.{◌≡◌, ◌≤◌, ◌<◌, ◌^◌, ◌+◌, ◌*◌, SomeIff};
ghost use Rattle.std.specs.Char.{is_ascii_digit};
ghost use Rattle.std.specs.List.{list_all};
ghost use Rattle.std.specs.Str.Parse.{digits_value};
ghost use Rattle.ion_model.specs.Numbers.{digits_in, is_digits, number_of, signed};
ghost use Rattle.ion_model.specs.Timestamps.{is_numeral};

/// Whether the text is digits with single underscores between them.
#[tactic(auto, unfolding(ion_model::specs::Numbers::is_spelled))]
pub fn is_digits(base: u32, text: &[u8]) -> bool
    requires low { 2 ≤ base }
    requires high { base ≤ 36 }
    ensures { result ≡ is_digits base text.now }
{
    let mut after = false;
    for b in text {
        if *b == b'_' {
            if !after {
                return false;
            }
            after = false;
        } else {
            if !char::from(*b).is_digit(base) {
                return false;
            }
            after = true;
        }
    }
    after
}

/// Whether the text is one digit or more, and nothing else.
pub fn is_numeral(text: &[u8]) -> bool
    ensures { result ≡ is_numeral text.now }
{
    !text.is_empty() && are_digits(text)
}

/// Whether each byte is a digit.
fn are_digits(text: &[u8]) -> bool
    ensures { result ≡ list_all is_ascii_digit text.now }
{
    text.iter().all(|b| b.is_ascii_digit())
}

/// The number that the digits in the text write, with a minus before them or not, or None outside
/// 128 bits.
pub fn number_of(base: u32, minus: bool, text: &[u8]) -> Option<i128>
    requires low { 2 ≤ base }
    requires high { base ≤ 36 }
    ensures { result ≡ number_of base minus text.now }
{
    signed(minus, magnitude(base, text)?)
}

/// The number that the digits in the text write, or None from 2^128 on.
pub fn magnitude(base: u32, text: &[u8]) -> Option<u128>
    requires low { 2 ≤ base }
    requires high { base ≤ 36 }
    ensures { SomeIff result (digits_value base (digits_in base text.now) < 2 ^ 128)
        (digits_value base (digits_in base text.now)) }
{
    let mut number = 0u128;
    for b in text {
        if let Some(digit) = char::from(*b).to_digit(base) {
            number = with_digit(base, number, digit)?;
        }
    }
    Some(number)
}

/// The number with one digit behind its own, or None from 2^128 on.
fn with_digit(base: u32, number: u128, digit: u32) -> Option<u128>
    ensures { SomeIff result (number * base + digit < 2 ^ 128) (number * base + digit) }
{
    number
        .checked_mul(u128::from(base))?
        .checked_add(u128::from(digit))
}

/// The number with its sign, or None outside 128 bits.
pub fn signed(minus: bool, number: u128) -> Option<i128>
    ensures { result ≡ signed minus number }
{
    if !minus {
        return i128::try_from(number).ok();
    }
    if number == 0 {
        return Some(0);
    }
    let below = i128::try_from(number - 1).ok()?;
    Some(-1 - below)
}
