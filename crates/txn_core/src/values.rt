//! Values by their kinds, and values without annotations.
ghost use Rattle.std.specs.Prelude.{◌≡◌, []};
ghost use Rattle.ion_values.specs.declared.value.Body.{out-Body};
ghost use Rattle.ledger_model.specs.Values.{is_struct, kind_of};

use containers::Sequence;
use ion_values::{Body, Kind, Value};
use std::alloc::Global;

/// The type of a value.
pub(crate) fn kind_of(body: &Body) -> Kind
    ensures { result ≡ kind_of (out-Body body.now) }
{
    match body {
        Body::Null(_) => Kind::Null,
        Body::Bool(_) => Kind::Bool,
        Body::Int(_) => Kind::Int,
        Body::Decimal(_) => Kind::Decimal,
        Body::Timestamp(_) => Kind::Timestamp,
        Body::Symbol(_) => Kind::Symbol,
        Body::String(_) => Kind::String,
        Body::Clob(_) => Kind::Clob,
        Body::Blob(_) => Kind::Blob,
        Body::List(_) => Kind::List,
        Body::Sexp(_) => Kind::Sexp,
        Body::Struct(_) => Kind::Struct,
    }
}

/// Whether a value is a struct that isn't null.
pub(crate) fn is_struct(body: &Body) -> bool
    ensures { result ≡ is_struct (out-Body body.now) }
{
    matches!(body, Body::Struct(_))
}

/// A value without annotations.
pub(crate) fn plain(alloc: Global, body: Body) -> Value
    ensures annotations { result.annotations ≡ [] }
    ensures body { result.body ≡ body }
{
    Value {
        annotations: Sequence::new(alloc),
        body,
    }
}
