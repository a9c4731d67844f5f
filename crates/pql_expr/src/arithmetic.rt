//! Sums, differences, products, quotients and remainders of two values, neither of them null, and a
//! number with the other sign. MISSING comes where a value is no number and where the result is out
//! of range.
ghost use Rattle.std.specs.Prelude.{◌≡◌, ◌+ℤ◌, ◌-ℤ◌, ◌*ℤ◌, int_div, int_rem, pos, ◌≢◌};
ghost use Rattle.ion_order.specs.Numbers.{fitting};
ghost use Rattle.pql_model.specs.Arithmetic as spec;

use crate::made::{answer, is_null, null};
use ion_order::{add, multiply, subtract};
use ion_values::{Body, Decimal, Value};
use pql_model::Evaluated;
use std::alloc::Global;

fn int_of(v: &Value) -> Option<i128>
    ensures { result ≡ spec.int_of v.now }
{
    match &v.body {
        Body::Int(number) => Some(*number),
        _ => None,
    }
}

// A number as a decimal. An int has the exponent 0.
fn decimal_of(v: &Value) -> Option<Decimal>
    ensures { result ≡ spec.decimal_of v.now }
{
    match &v.body {
        Body::Int(number) => Some(Decimal {
            coefficient: *number,
            exponent: 0,
            negative_zero: false,
        }),
        Body::Decimal(number) => Some(*number),
        _ => None,
    }
}

fn some_int(alloc: Global, number: Option<i128>) -> Evaluated
    ensures { result ≡ spec.some_int number }
{
    match number {
        Some(number) => answer(alloc, Body::Int(number)),
        None => Evaluated::Missing,
    }
}

fn some_decimal(alloc: Global, number: Option<Decimal>) -> Evaluated
    ensures { result ≡ spec.decimal_answer number }
{
    match number {
        Some(number) => answer(alloc, Body::Decimal(number)),
        None => Evaluated::Missing,
    }
}

fn int_sum(a: i128, b: i128) -> Option<i128>
    ensures { result ≡ fitting (a +ℤ b) }
{
    a.checked_add(b)
}

fn int_difference(a: i128, b: i128) -> Option<i128>
    ensures { result ≡ fitting (a -ℤ b) }
{
    a.checked_sub(b)
}

fn int_product(a: i128, b: i128) -> Option<i128>
    ensures { result ≡ fitting (a *ℤ b) }
{
    a.checked_mul(b)
}

/// The sum of two ints is an int, that of other numbers a decimal.
pub fn sum(alloc: Global, v: &Value, w: &Value) -> Evaluated
    ensures { result ≡ spec.sum v.now w.now }
{
    if let (Some(a), Some(b)) = (int_of(v), int_of(w)) {
        return some_int(alloc, int_sum(a, b));
    }
    match (decimal_of(v), decimal_of(w)) {
        (Some(a), Some(b)) => some_decimal(alloc, add(&a, &b)),
        _ => Evaluated::Missing,
    }
}

/// The first less the second.
pub fn difference(alloc: Global, v: &Value, w: &Value) -> Evaluated
    ensures { result ≡ spec.difference v.now w.now }
{
    if let (Some(a), Some(b)) = (int_of(v), int_of(w)) {
        return some_int(alloc, int_difference(a, b));
    }
    match (decimal_of(v), decimal_of(w)) {
        (Some(a), Some(b)) => some_decimal(alloc, subtract(&a, &b)),
        _ => Evaluated::Missing,
    }
}

pub fn product(alloc: Global, v: &Value, w: &Value) -> Evaluated
    ensures { result ≡ spec.product v.now w.now }
{
    if let (Some(a), Some(b)) = (int_of(v), int_of(w)) {
        return some_int(alloc, int_product(a, b));
    }
    match (decimal_of(v), decimal_of(w)) {
        (Some(a), Some(b)) => some_decimal(alloc, multiply(&a, &b)),
        _ => Evaluated::Missing,
    }
}

// Truncated towards zero.
fn int_quotient(a: i128, b: i128) -> Option<i128>
    requires { b ≢ pos 0 }
    ensures { result ≡ fitting (int_div a b) }
{
    a.checked_div(b)
}

// It has the dividend's sign. That of the least int by -1 is 0.
fn int_remainder(a: i128, b: i128) -> i128
    requires { b ≢ pos 0 }
    ensures { result ≡ int_rem a b }
{
    if b == -1 { 0 } else { a % b }
}

/// Of ints alone, and MISSING for the divisor 0.
pub fn quotient(alloc: Global, v: &Value, w: &Value) -> Evaluated
    ensures { result ≡ spec.quotient v.now w.now }
{
    match (int_of(v), int_of(w)) {
        (Some(_), Some(0)) => Evaluated::Missing,
        (Some(a), Some(b)) => some_int(alloc, int_quotient(a, b)),
        _ => Evaluated::Missing,
    }
}

/// Of ints alone, and MISSING for the divisor 0.
pub fn remainder(alloc: Global, v: &Value, w: &Value) -> Evaluated
    ensures { result ≡ spec.remainder v.now w.now }
{
    match (int_of(v), int_of(w)) {
        (Some(_), Some(0)) => Evaluated::Missing,
        (Some(a), Some(b)) => some_int(alloc, Some(int_remainder(a, b))),
        _ => Evaluated::Missing,
    }
}

// A zero of the same exponent less the number.
fn decimal_negated(number: &Decimal) -> Option<Decimal>
    ensures { result ≡ spec.decimal_negated number.now }
{
    let zero = Decimal {
        coefficient: 0,
        exponent: number.exponent,
        negative_zero: false,
    };
    subtract(&zero, number)
}

// A number with the other sign and the same exponent. A zero is positive.
fn negated(alloc: Global, v: &Value) -> Evaluated
    ensures { result ≡ spec.negated v.now }
{
    if let Some(number) = int_of(v) {
        return some_int(alloc, int_difference(0, number));
    }
    match decimal_of(v) {
        Some(number) => some_decimal(alloc, decimal_negated(&number)),
        None => Evaluated::Missing,
    }
}

/// Unary minus.
pub fn minus(alloc: Global, e: &Evaluated) -> Evaluated
    ensures { result ≡ spec.minus e.now }
{
    match e {
        Evaluated::Missing => Evaluated::Missing,
        Evaluated::Found(v) if is_null(v) => null(alloc),
        Evaluated::Found(v) => negated(alloc, v),
    }
}
