//! Values whose members are changed. Each keeps its annotations, and any other value stays as it is.
ghost use Rattle.std.specs.Prelude.{◌≡◌, slice_set, IfOk};
ghost use Rattle.std.specs.List.{remove};
ghost use Rattle.pql_model.specs.Changes as spec;
ghost use Rattle.pql_model.specs.Made.{seen};

use crate::members::{put, set_element, set_field, without_element, without_field};
use containers::{OutOfMemory, Text};
use ion_values::{Body, Value};
use pql_model::Evaluated;
use std::alloc::Global;

/// A struct with the value at a field.
pub fn with_field(v: Value, name: Text, new: Value) -> Result<Value, OutOfMemory>
    ensures { IfOk result (λ w. w ≡ spec.in_fields (spec.set_field new name) v (seen v)) }
{
    let Value { annotations, body } = v;
    match body {
        Body::Struct(fields) => Ok(Value {
            annotations,
            body: Body::Struct(set_field(fields, name, new)?),
        }),
        body => Ok(Value { annotations, body }),
    }
}

/// A list or sexp with the value at a place.
pub fn with_element(v: Value, place: i128, new: Value) -> Value
    ensures { result ≡ spec.in_elements (spec.at_element (λ n vs. slice_set vs n new) place) v (seen v) }
{
    let Value { annotations, body } = v;
    match body {
        Body::List(values) => Value {
            annotations,
            body: Body::List(set_element(values, place, new)),
        },
        Body::Sexp(values) => Value {
            annotations,
            body: Body::Sexp(set_element(values, place, new)),
        },
        body => Value { annotations, body },
    }
}

/// A struct without the fields of the name.
pub fn less_field(alloc: Global, v: Value, name: &str) -> Result<Value, OutOfMemory>
    ensures { IfOk result (λ w. w ≡ spec.in_fields (spec.without_field name.now) v (seen v)) }
{
    let Value { annotations, body } = v;
    match body {
        Body::Struct(fields) => Ok(Value {
            annotations,
            body: Body::Struct(without_field(alloc, fields, name)?),
        }),
        body => Ok(Value { annotations, body }),
    }
}

/// A list or sexp without the element at a place.
pub fn less_element(v: Value, place: i128) -> Value
    ensures { result ≡ spec.in_elements (spec.at_element (λ n vs. remove vs n) place) v (seen v) }
{
    let Value { annotations, body } = v;
    match body {
        Body::List(values) => Value {
            annotations,
            body: Body::List(without_element(values, place)),
        },
        Body::Sexp(values) => Value {
            annotations,
            body: Body::Sexp(without_element(values, place)),
        },
        body => Value { annotations, body },
    }
}

/// A list with the value at the end, or at the place that AT gives.
pub fn with_put(v: Value, at: Option<Evaluated>, new: Value) -> Result<Value, OutOfMemory>
    ensures { IfOk result (λ w. w ≡ spec.put_in_list new at v) }
{
    let Value { annotations, body } = v;
    match body {
        Body::List(values) => Ok(Value {
            annotations,
            body: Body::List(put(values, at, new)?),
        }),
        body => Ok(Value { annotations, body }),
    }
}
