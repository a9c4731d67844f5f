//! Numbers as decimals, and at another exponent.
ghost use Rattle.std.specs.Prelude.{◌≡◌, ◌≤ℤ◌, ◌^◌, ◌*ℤ◌, pos, SomeIff, FitsSigned};
ghost use Rattle.std.specs.Int.{w128};
ghost use Rattle.std.specs.Ordering.{int_cmp};
ghost use Rattle.ion_order.specs.Compare as spec;
ghost use Rattle.ion_order.specs.Numbers.{brought, fitting};
ghost use Rattle.ion_order.specs.Numbers as numbers_spec;

use ion_values::Decimal;
use std::cmp::Ordering;

/// The greatest power of ten that an i128 holds is 10^38.
const MOST_ZEROS: u32 = 38;

/// An int as the decimal of exponent 0.
pub fn whole(number: i128) -> Decimal
    ensures { result ≡ numbers_spec.whole number }
{
    Decimal {
        coefficient: number,
        exponent: 0,
        negative_zero: false,
    }
}

// The number with `zeros` zeros put at its end, if an i128 holds it.
fn with_zeros(number: i128, zeros: u32) -> Option<i128>
    ensures { SomeIff result (FitsSigned w128 (number *ℤ pos (10 ^ zeros))) (number *ℤ pos (10 ^ zeros)) }
{
    if number == 0 {
        return Some(0);
    }
    if zeros > MOST_ZEROS {
        return None;
    }
    number.checked_mul(10i128.pow(zeros))
}

/// The coefficient that the number has at an exponent that is not above its own, if an i128 holds
/// it.
pub fn brought_to(number: &Decimal, exponent: i32) -> Option<i128>
    requires { exponent ≤ℤ number.now.exponent }
    ensures { result ≡ fitting (brought number.now exponent) }
{
    with_zeros(number.coefficient, number.exponent.abs_diff(exponent))
}

// Compares the first with zeros put at its end. A number that an i128 no longer holds is farther
// from zero than any that it holds.
fn compare_with_zeros(number: i128, zeros: u32, other: i128) -> Ordering
    ensures { result ≡ int_cmp (number *ℤ pos (10 ^ zeros)) other }
{
    match with_zeros(number, zeros) {
        Some(number) => number.cmp(&other),
        None => number.cmp(&0),
    }
}

/// Compares by value.
pub fn compare_numbers(a: &Decimal, b: &Decimal) -> Ordering
    ensures { result ≡ spec.compare_numbers a.now b.now }
{
    let zeros = a.exponent.abs_diff(b.exponent);
    if a.exponent < b.exponent {
        compare_with_zeros(b.coefficient, zeros, a.coefficient).reverse()
    } else {
        compare_with_zeros(a.coefficient, zeros, b.coefficient)
    }
}
