//! Values that are made here: without annotations.
ghost use Rattle.std.specs.Prelude.{◌≡◌};
ghost use Rattle.pql_model.specs.Made as spec;

use containers::Sequence;
use ion_values::{Body, Kind, Value};
use pql_model::Evaluated;
use std::alloc::Global;

/// The value of this body, without annotations.
pub fn made(alloc: Global, body: Body) -> Value
    ensures { result ≡ spec.made body }
{
    Value {
        annotations: Sequence::new(alloc),
        body,
    }
}

pub fn null(alloc: Global) -> Evaluated
    ensures { result ≡ spec.null }
{
    Evaluated::Found(made(alloc, Body::Null(Kind::Null)))
}
