//! Changes inside members, along a path.
ghost use Rattle.std.specs.Prelude.{◌≡◌, IfOk};
ghost use Rattle.pql_model.specs.Changes as spec;
ghost use Rattle.pql_model.specs.Made.{seen};
ghost use Rattle.pql_change.specs.Edits.{at_end, done};

use crate::edits::{Edit, edited};
use crate::members::{place_below, place_of};
use crate::vacant::{vacant, vacant_field};
use containers::{OutOfMemory, Sequence};
use ion_values::{Body, Field, Fields, Value, Values};
use pql_model::Selector;
use std::alloc::Global;
use std::mem;

/// The value, with the edit done inside the members that the path asks for, one in the other. Where
/// one is not there the value stays as it is.
#[cycle(along)]
pub fn changed(alloc: Global, v: Value, path: &[Selector], edit: Edit) -> Result<Value, OutOfMemory>
    ensures { IfOk result (λ w. w ≡ at_end (done edit) path.now v) }
{
    match path {
        [] => edited(alloc, v, edit),
        [first, rest @ ..] => inside(alloc, v, first, rest, edit),
    }
}

#[cycle(along)]
fn inside(
    alloc: Global,
    v: Value,
    member: &Selector,
    path: &[Selector],
    edit: Edit,
) -> Result<Value, OutOfMemory>
    ensures { IfOk result (λ w. w ≡ spec.inside (at_end (done edit) path.now) member.now v) }
{
    match member {
        Selector::Field(name) => inside_struct(alloc, v, name.as_str(), path, edit),
        Selector::Element(place) => inside_list(alloc, v, *place, path, edit),
        Selector::Nothing => Ok(v),
    }
}

#[cycle(along)]
fn inside_struct(
    alloc: Global,
    v: Value,
    name: &str,
    path: &[Selector],
    edit: Edit,
) -> Result<Value, OutOfMemory>
    ensures { IfOk result
        (λ w. w ≡ spec.in_fields (spec.change_field (at_end (done edit) path.now) name.now) v (seen v)) }
{
    let Value { annotations, body } = v;
    match body {
        Body::Struct(fields) => Ok(Value {
            annotations,
            body: Body::Struct(in_field(alloc, fields, name, path, edit)?),
        }),
        body => Ok(Value { annotations, body }),
    }
}

#[cycle(along)]
fn inside_list(
    alloc: Global,
    v: Value,
    place: i128,
    path: &[Selector],
    edit: Edit,
) -> Result<Value, OutOfMemory>
    ensures { IfOk result
        (λ w. w ≡ spec.in_elements (spec.at_element (spec.change_at (at_end (done edit) path.now)) place) v (seen v)) }
{
    let Value { annotations, body } = v;
    match body {
        Body::List(values) => Ok(Value {
            annotations,
            body: Body::List(in_element(alloc, values, place, path, edit)?),
        }),
        Body::Sexp(values) => Ok(Value {
            annotations,
            body: Body::Sexp(in_element(alloc, values, place, path, edit)?),
        }),
        body => Ok(Value { annotations, body }),
    }
}

#[cycle(along)]
fn in_field(
    alloc: Global,
    fields: Fields,
    name: &str,
    path: &[Selector],
    edit: Edit,
) -> Result<Fields, OutOfMemory>
    ensures { IfOk result (λ all. all ≡ spec.change_field (at_end (done edit) path.now) name.now fields) }
{
    let Some(place) = place_of(name, fields.as_slice()) else {
        return Ok(fields);
    };
    let mut fields = fields.into_vec();
    let Field { name, value } = mem::replace(&mut fields[place], vacant_field(alloc));
    let value = changed(alloc, value, path, edit)?;
    fields[place] = Field { name, value };
    Ok(Sequence::from_vec(fields))
}

#[cycle(along)]
fn in_element(
    alloc: Global,
    values: Values,
    place: i128,
    path: &[Selector],
    edit: Edit,
) -> Result<Values, OutOfMemory>
    ensures { IfOk result (λ all. all ≡ spec.at_element (spec.change_at (at_end (done edit) path.now)) place values) }
{
    let Some(place) = place_below(values.len(), place) else {
        return Ok(values);
    };
    let mut values = values.into_vec();
    let value = mem::replace(&mut values[place], vacant(alloc));
    values[place] = changed(alloc, value, path, edit)?;
    Ok(Sequence::from_vec(values))
}
