//! Whether two values, neither of them null, are equal, and how they stand in the order.
ghost use Rattle.std.specs.Prelude.{◌≡◌};
ghost use Rattle.std.specs.Ordering.{is_lt, is_le, is_gt, is_ge};
ghost use Rattle.ion_order.specs.Laws.{is_tie};
ghost use Rattle.pql_model.specs.Comparisons as spec;
ghost use Rattle.pql_model.specs.Comparisons.{in_order};

use crate::made::truth;
use ion_order::compare;
use ion_values::{Body, Value, equivalent};
use pql_model::Evaluated;
use std::alloc::Global;

fn is_container(v: &Value) -> bool
    ensures { result ≡ spec.is_container v.now }
{
    match &v.body {
        Body::List(_) | Body::Sexp(_) | Body::Struct(_) => true,
        _ => false,
    }
}

fn is_tie(v: &Value, w: &Value) -> bool
    ensures { result ≡ is_tie v.now w.now }
{
    match compare(v, w) {
        Some(order) => order.is_eq(),
        None => false,
    }
}

/// Scalars are equal where they compare so, and containers where they are equivalent.
#[tactic(auto, unfolding(pql_model::specs::Comparisons::are_equal))]
pub fn are_equal(v: &Value, w: &Value) -> bool
    ensures { result ≡ spec.are_equal v.now w.now }
{
    is_tie(v, w) || (is_container(v) && is_container(w) && equivalent(v, w))
}

#[tactic(auto, unfolding(pql_model::specs::Comparisons::in_order))]
pub fn less(alloc: Global, v: &Value, w: &Value) -> Evaluated
    ensures { result ≡ in_order is_lt v.now w.now }
{
    match compare(v, w) {
        Some(order) => truth(alloc, order.is_lt()),
        None => Evaluated::Missing,
    }
}

#[tactic(auto, unfolding(pql_model::specs::Comparisons::in_order))]
pub fn at_most(alloc: Global, v: &Value, w: &Value) -> Evaluated
    ensures { result ≡ in_order is_le v.now w.now }
{
    match compare(v, w) {
        Some(order) => truth(alloc, order.is_le()),
        None => Evaluated::Missing,
    }
}

#[tactic(auto, unfolding(pql_model::specs::Comparisons::in_order))]
pub fn greater(alloc: Global, v: &Value, w: &Value) -> Evaluated
    ensures { result ≡ in_order is_gt v.now w.now }
{
    match compare(v, w) {
        Some(order) => truth(alloc, order.is_gt()),
        None => Evaluated::Missing,
    }
}

#[tactic(auto, unfolding(pql_model::specs::Comparisons::in_order))]
pub fn at_least(alloc: Global, v: &Value, w: &Value) -> Evaluated
    ensures { result ≡ in_order is_ge v.now w.now }
{
    match compare(v, w) {
        Some(order) => truth(alloc, order.is_ge()),
        None => Evaluated::Missing,
    }
}
