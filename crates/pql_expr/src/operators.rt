//! The operators that stand between two operands, LIKE and BETWEEN.
ghost use Rattle.std.specs.Prelude.{◌≡◌, IfOk, IfSome};
ghost use Rattle.pql_model.specs.Comparisons.{of_both};
ghost use Rattle.pql_model.specs.Lists as lists_spec;
ghost use Rattle.pql_model.specs.Made.{truth as spec_truth};
ghost use Rattle.pql_model.specs.Meaning as spec;
ghost use Rattle.pql_model.specs.declared.scope.Evaluated.{Evaluated};
ghost use Rattle.pql_model.specs.declared.scope.Evaluated.TheVariants.{Found};
ghost use Rattle.pql_model.specs.Texts as texts_spec;

use crate::arithmetic::{difference, product, quotient, remainder, sum};
use crate::comparisons::{are_equal, at_least, at_most, greater, less};
use crate::logic::{conjunction, disjunction, truth_in, truth_of};
use crate::made::{is_null, null, truth};
use crate::texts::{joined, like};
use containers::OutOfMemory;
use ion_values::Value;
use pql_model::{Evaluated, Operator};
use std::alloc::Global;

fn of_values(alloc: Global, op: Operator, v: &Value, w: &Value) -> Result<Evaluated, OutOfMemory>
    ensures { IfOk result (λ e. e ≡ spec.of_values op v.now w.now) }
{
    match op {
        Operator::Or => Ok(disjunction(alloc, truth_of(v), truth_of(w))),
        Operator::And => Ok(conjunction(alloc, truth_of(v), truth_of(w))),
        Operator::Equal => Ok(truth(alloc, are_equal(v, w))),
        Operator::NotEqual => Ok(truth(alloc, !are_equal(v, w))),
        Operator::Less => Ok(less(alloc, v, w)),
        Operator::AtMost => Ok(at_most(alloc, v, w)),
        Operator::Greater => Ok(greater(alloc, v, w)),
        Operator::AtLeast => Ok(at_least(alloc, v, w)),
        Operator::Concat => joined(alloc, v, w),
        Operator::Plus => Ok(sum(alloc, v, w)),
        Operator::Minus => Ok(difference(alloc, v, w)),
        Operator::Times => Ok(product(alloc, v, w)),
        Operator::Divide => Ok(quotient(alloc, v, w)),
        Operator::Remainder => Ok(remainder(alloc, v, w)),
    }
}

// NULL where a side is null.
fn of_found(alloc: Global, op: Operator, v: &Value, w: &Value) -> Result<Evaluated, OutOfMemory>
    ensures { IfOk result (λ e. e ≡ of_both (spec.of_values op) (Found v.now) (Found w.now)) }
{
    if is_null(v) || is_null(w) {
        return Ok(null(alloc));
    }
    of_values(alloc, op, v, w)
}

// MISSING where a side is MISSING, else NULL where one is null.
fn of_known(
    alloc: Global,
    op: Operator,
    left: &Evaluated,
    right: &Evaluated,
) -> Result<Evaluated, OutOfMemory>
    ensures { IfOk result (λ e. e ≡ of_both (spec.of_values op) left.now right.now) }
{
    let (Evaluated::Found(v), Evaluated::Found(w)) = (left, right) else {
        return Ok(Evaluated::Missing);
    };
    of_found(alloc, op, v, w)
}

/// What the operator gives by its left side alone: false in AND, true in OR.
pub fn settled(op: Operator, left: &Evaluated) -> Option<bool>
    ensures { IfSome result (λ holds. (right : Evaluated) → spec.operate op left.now right ≡ spec_truth holds) }
{
    match (op, truth_in(left)) {
        (Operator::And, Some(false)) => Some(false),
        (Operator::Or, Some(true)) => Some(true),
        _ => None,
    }
}

/// What the operator gives for its two sides.
pub fn operate(
    alloc: Global,
    op: Operator,
    left: &Evaluated,
    right: &Evaluated,
) -> Result<Evaluated, OutOfMemory>
    ensures { IfOk result (λ e. e ≡ spec.operate op left.now right.now) }
{
    match op {
        Operator::Or => Ok(disjunction(alloc, truth_in(left), truth_in(right))),
        Operator::And => Ok(conjunction(alloc, truth_in(left), truth_in(right))),
        _ => of_known(alloc, op, left, right),
    }
}

/// The same with a value on the right side.
pub fn operate_with(
    alloc: Global,
    op: Operator,
    left: &Evaluated,
    w: &Value,
) -> Result<Evaluated, OutOfMemory>
    ensures { IfOk result (λ e. e ≡ spec.operate op left.now (Found w.now)) }
{
    match op {
        Operator::Or => Ok(disjunction(alloc, truth_in(left), truth_of(w))),
        Operator::And => Ok(conjunction(alloc, truth_in(left), truth_of(w))),
        _ => match left {
            Evaluated::Missing => Ok(Evaluated::Missing),
            Evaluated::Found(v) => of_found(alloc, op, v, w),
        },
    }
}

/// LIKE with a value on the right side, NULL where a side is null.
pub fn is_like_with(alloc: Global, value: &Evaluated, w: &Value) -> Result<Evaluated, OutOfMemory>
    ensures { IfOk result (λ e. e ≡ of_both texts_spec.like value.now (Found w.now)) }
{
    let Evaluated::Found(v) = value else {
        return Ok(Evaluated::Missing);
    };
    if is_null(v) || is_null(w) {
        return Ok(null(alloc));
    }
    like(alloc, v, w)
}

/// LIKE.
pub fn is_like(
    alloc: Global,
    value: &Evaluated,
    pattern: &Evaluated,
) -> Result<Evaluated, OutOfMemory>
    ensures { IfOk result (λ e. e ≡ of_both texts_spec.like value.now pattern.now) }
{
    let (Evaluated::Found(_), Evaluated::Found(w)) = (value, pattern) else {
        return Ok(Evaluated::Missing);
    };
    is_like_with(alloc, value, w)
}

/// `x BETWEEN low AND high` is `x >= low AND x <= high`.
pub fn between(
    alloc: Global,
    x: &Evaluated,
    low: &Evaluated,
    high: &Evaluated,
) -> Result<Evaluated, OutOfMemory>
    ensures { IfOk result (λ e. e ≡ lists_spec.between x.now low.now high.now) }
{
    let from_low = of_known(alloc, Operator::AtLeast, x, low)?;
    let to_high = of_known(alloc, Operator::AtMost, x, high)?;
    Ok(conjunction(alloc, truth_in(&from_low), truth_in(&to_high)))
}
