use std::marker::Model;

/// A decimal number, `coefficient * 10 ^ exponent`. The exponent is within -32,767 and 32,767, and
/// `negative_zero` stands only with the coefficient 0.
#[derive(Clone, Copy, Debug, PartialEq, Eq)]
pub struct Decimal {
    pub coefficient: i128,
    pub exponent: i32,
    pub negative_zero: bool,
}

impl Model for Decimal {
    ghost use Rattle.ion_values.specs.Decimal.{DecimalParts, IsDecimal};

    ghost Value = { DecimalParts };

    ghost view = { λ d. record { coefficient = d.coefficient; exponent = d.exponent; negative_zero = d.negative_zero } };

    ghost invariant = { λ d. IsDecimal d.coefficient d.exponent d.negative_zero };

    ghost inverse = { λ p. record { coefficient = p.coefficient; exponent = p.exponent; negative_zero = p.negative_zero } };
}
