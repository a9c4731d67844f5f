//! The logic of three values: true, false, and None for all else.
ghost use Rattle.std.specs.Prelude.{◌≡◌};
ghost use Rattle.pql_model.specs.Logic as spec;

use crate::made::{null, truth};
use ion_values::{Body, Value};
use pql_model::Evaluated;
use std::alloc::Global;

pub fn truth_of(v: &Value) -> Option<bool>
    ensures { result ≡ spec.truth_of v.now }
{
    match &v.body {
        Body::Bool(holds) => Some(*holds),
        _ => None,
    }
}

pub fn truth_in(e: &Evaluated) -> Option<bool>
    ensures { result ≡ spec.truth_in e.now }
{
    match e {
        Evaluated::Missing => None,
        Evaluated::Found(v) => truth_of(v),
    }
}

/// False where a side is false, true where both are true, else NULL.
pub fn conjunction(alloc: Global, a: Option<bool>, b: Option<bool>) -> Evaluated
    ensures { result ≡ spec.conjunction a b }
{
    match (a, b) {
        (Some(false), _) | (_, Some(false)) => truth(alloc, false),
        (Some(true), Some(true)) => truth(alloc, true),
        (None, _) | (_, None) => null(alloc),
    }
}

/// True where a side is true, false where both are false, else NULL.
pub fn disjunction(alloc: Global, a: Option<bool>, b: Option<bool>) -> Evaluated
    ensures { result ≡ spec.disjunction a b }
{
    match (a, b) {
        (Some(true), _) | (_, Some(true)) => truth(alloc, true),
        (Some(false), Some(false)) => truth(alloc, false),
        (None, _) | (_, None) => null(alloc),
    }
}

/// Swaps true and false, and is NULL for all else.
pub fn negation(alloc: Global, a: Option<bool>) -> Evaluated
    ensures { result ≡ spec.negation a }
{
    match a {
        Some(holds) => truth(alloc, !holds),
        None => null(alloc),
    }
}
