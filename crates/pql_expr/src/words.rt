//! The words and signs that stand with one operand or between two.
ghost use Rattle.std.specs.Prelude.{◌≡◌, IfOk};
ghost use Rattle.std.specs.Option.{option_copied};
ghost use Rattle.pql_expr.specs.Words as spec;
ghost use Rattle.pql_model.specs.Made.{found};
ghost use Rattle.pql_model.specs.declared.scope.Evaluated.TheVariants.{Found};

use crate::arithmetic::minus;
use crate::elements::{is_in, is_in_value, size};
use crate::logic::{negation, truth_in};
use crate::made::{is_missing, is_unknown, truth};
use crate::operators::{is_like, is_like_with, operate, operate_with};
use crate::texts::char_length;
use containers::OutOfMemory;
use ion_values::Value;
use pql_model::{Evaluated, Operator};
use std::alloc::Global;

#[derive(Clone, Copy, Debug, PartialEq, Eq)]
pub enum OneOperand {
    Negate,
    Not,
    IsNull,
    IsMissing,
    Size,
    CharLength,
}

#[derive(Clone, Copy, Debug, PartialEq, Eq)]
pub enum TwoOperands {
    Operator(Operator),
    In,
    Like,
}

pub fn with_one(alloc: Global, word: OneOperand, e: &Evaluated) -> Evaluated
    ensures { result ≡ spec.with_one word e.now }
{
    match word {
        OneOperand::Negate => minus(alloc, e),
        OneOperand::Not => negation(alloc, truth_in(e)),
        OneOperand::IsNull => truth(alloc, is_unknown(e)),
        OneOperand::IsMissing => truth(alloc, is_missing(e)),
        OneOperand::Size => size(alloc, e),
        OneOperand::CharLength => char_length(alloc, e),
    }
}

pub fn with_two(
    alloc: Global,
    word: TwoOperands,
    left: &Evaluated,
    right: &Evaluated,
) -> Result<Evaluated, OutOfMemory>
    ensures { IfOk result (λ e. e ≡ spec.with_two word left.now right.now) }
{
    match word {
        TwoOperands::Operator(op) => operate(alloc, op, left, right),
        TwoOperands::In => Ok(is_in(alloc, left, right)),
        TwoOperands::Like => is_like(alloc, left, right),
    }
}

/// The same with a value on the right side.
pub fn with_value(
    alloc: Global,
    word: TwoOperands,
    left: &Evaluated,
    right: &Value,
) -> Result<Evaluated, OutOfMemory>
    ensures { IfOk result (λ e. e ≡ spec.with_two word left.now (Found right.now)) }
{
    match word {
        TwoOperands::Operator(op) => operate_with(alloc, op, left, right),
        TwoOperands::In => Ok(is_in_value(alloc, left, right)),
        TwoOperands::Like => is_like_with(alloc, left, right),
    }
}

/// The same with MISSING on the right side where there is no value.
pub fn with_lent(
    alloc: Global,
    word: TwoOperands,
    left: &Evaluated,
    right: Option<&Value>,
) -> Result<Evaluated, OutOfMemory>
    ensures { IfOk result (λ e. e ≡ spec.with_two word left.now (found (option_copied right.entry))) }
{
    match right {
        Some(right) => with_value(alloc, word, left, right),
        None => with_two(alloc, word, left, &Evaluated::Missing),
    }
}
