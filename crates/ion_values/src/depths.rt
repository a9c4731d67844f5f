ghost use Rattle.std.specs.Prelude.{◌≡◌, ◌^◌, ◌-◌, map, min};
ghost use Rattle.ion_values.specs.Depth.{depth_of, field_depth, deepest};

use crate::value::{Body, Field, Value};

/// How deep the value nests, 2^32 - 1 where it is more: 0 for a scalar, one more than the deepest
/// member for a container, and 1 for an empty one. It takes no memory.
#[cycle(depth)]
pub fn depth(v: &Value) -> u32
    ensures { result ≡ min (depth_of v.now) (2 ^ 32 - 1) }
{
    match &v.body {
        Body::List(values) => depth_of_values(values.as_slice()).saturating_add(1),
        Body::Sexp(values) => depth_of_values(values.as_slice()).saturating_add(1),
        Body::Struct(fields) => depth_of_fields(fields.as_slice()).saturating_add(1),
        _ => 0,
    }
}

#[cycle(depth)]
fn depth_of_values(values: &[Value]) -> u32
    ensures { result ≡ min (deepest (map depth_of values.now)) (2 ^ 32 - 1) }
{
    let mut deepest = 0;
    for value in values {
        deepest = deepest.max(depth(value));
    }
    deepest
}

#[cycle(depth)]
fn depth_of_fields(fields: &[Field]) -> u32
    ensures { result ≡ min (deepest (map field_depth fields.now)) (2 ^ 32 - 1) }
{
    let mut deepest = 0;
    for field in fields {
        deepest = deepest.max(depth(&field.value));
    }
    deepest
}
