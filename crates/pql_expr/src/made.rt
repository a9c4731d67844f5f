//! Answers that are made here: values without annotations.
ghost use Rattle.std.specs.Prelude.{◌≡◌};
ghost use Rattle.pql_model.specs.Made as spec;

use containers::Sequence;
use ion_values::{Body, Kind, Value};
use pql_model::Evaluated;
use std::alloc::Global;

/// The value of this body, without annotations.
pub fn answer(alloc: Global, body: Body) -> Evaluated
    ensures { result ≡ spec.answer body }
{
    Evaluated::Found(Value {
        annotations: Sequence::new(alloc),
        body,
    })
}

pub fn truth(alloc: Global, holds: bool) -> Evaluated
    ensures { result ≡ spec.truth holds }
{
    answer(alloc, Body::Bool(holds))
}

pub fn null(alloc: Global) -> Evaluated
    ensures { result ≡ spec.null }
{
    answer(alloc, Body::Null(Kind::Null))
}

/// Every typed null is null.
pub fn is_null(v: &Value) -> bool
    ensures { result ≡ spec.is_null v.now }
{
    match &v.body {
        Body::Null(_) => true,
        _ => false,
    }
}

pub fn is_missing(e: &Evaluated) -> bool
    ensures { result ≡ spec.is_missing e.now }
{
    match e {
        Evaluated::Missing => true,
        Evaluated::Found(_) => false,
    }
}

/// Whether it is null or MISSING.
pub fn is_unknown(e: &Evaluated) -> bool
    ensures { result ≡ spec.is_unknown e.now }
{
    match e {
        Evaluated::Missing => true,
        Evaluated::Found(v) => is_null(v),
    }
}
