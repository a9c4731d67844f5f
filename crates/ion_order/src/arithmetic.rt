ghost use Rattle.std.specs.Prelude.{◌≡◌};
ghost use Rattle.ion_order.specs.Arithmetic as spec;
ghost use Rattle.ion_order.specs.Arithmetic.{difference_of, product_of, sum_of};

use crate::numbers::brought_to;
use ion_values::Decimal;

const LEAST_EXPONENT: i32 = -32_767;

const GREATEST_EXPONENT: i32 = 32_767;

/// The number, if its exponent is in range. A zero is positive.
pub fn in_range(coefficient: i128, exponent: i32) -> Option<Decimal>
    ensures { result ≡ spec.in_range coefficient exponent }
{
    if exponent < LEAST_EXPONENT || exponent > GREATEST_EXPONENT {
        return None;
    }
    Some(Decimal {
        coefficient,
        exponent,
        negative_zero: false,
    })
}

/// The sum at the lesser of the two exponents. None comes exactly where the sum, or an operand
/// brought to that exponent, has a coefficient outside i128. A zero is positive. It takes no
/// memory.
pub fn add(a: &Decimal, b: &Decimal) -> Option<Decimal>
    ensures { result ≡ sum_of a.now b.now }
{
    let exponent = a.exponent.min(b.exponent);
    let left = brought_to(a, exponent)?;
    let right = brought_to(b, exponent)?;
    let sum = left.checked_add(right)?;
    in_range(sum, exponent)
}

/// The first less the second, at the lesser of the two exponents. None comes exactly where the
/// difference, or an operand brought to that exponent, has a coefficient outside i128; the second
/// is not negated first. A zero is positive. It takes no memory.
pub fn subtract(a: &Decimal, b: &Decimal) -> Option<Decimal>
    ensures { result ≡ difference_of a.now b.now }
{
    let exponent = a.exponent.min(b.exponent);
    let left = brought_to(a, exponent)?;
    let right = brought_to(b, exponent)?;
    let difference = left.checked_sub(right)?;
    in_range(difference, exponent)
}

/// The product, whose exponent is the sum of the two. None comes exactly where its coefficient is
/// outside i128 or its exponent outside -32,767 to 32,767. A zero is positive. It takes no memory.
pub fn multiply(a: &Decimal, b: &Decimal) -> Option<Decimal>
    ensures { result ≡ product_of a.now b.now }
{
    let product = a.coefficient.checked_mul(b.coefficient)?;
    in_range(product, a.exponent + b.exponent)
}
