//! What stands at a place while its value is changed. It takes no memory.
ghost use Rattle.std.specs.Prelude.{◌≡◌, []};
ghost use Rattle.ion_values.specs.declared.value.Body.TheVariants as body;
ghost use Rattle.ion_values.specs.declared.value.Kind.TheVariants as kind;
ghost use Rattle.pql_model.specs.Changes.{field};
ghost use Rattle.pql_model.specs.Made.{made};

use containers::{Sequence, Text};
use ion_values::{Body, Field, Kind, Value};
use std::alloc::Global;

/// A null.
pub fn vacant(alloc: Global) -> Value
    ensures { result ≡ made (body.Null kind.Null) }
{
    Value {
        annotations: Sequence::new(alloc),
        body: Body::Null(Kind::Null),
    }
}

/// A null with an empty name.
pub fn vacant_field(alloc: Global) -> Field
    ensures { result ≡ field [] (made (body.Null kind.Null)) }
{
    Field {
        name: Text::new(alloc),
        value: vacant(alloc),
    }
}
