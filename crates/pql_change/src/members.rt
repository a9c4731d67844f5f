//! The fields of structs and the elements of lists.
ghost use Rattle.std.specs.Prelude.{◌≡◌, ◌<◌, ◌≤◌, length, slice_set, IfOk, IfSome};
ghost use Rattle.std.specs.List.{insert, remove};
ghost use Rattle.std.specs.Option.{option_map_or};
ghost use Rattle.pql_model.specs.Changes as spec;

use containers::{OutOfMemory, Sequence, Text};
use ion_values::{Body, Field, Fields, Value, Values};
use pql_model::Evaluated;
use std::alloc::Global;

/// The place of the first field of that name.
pub fn place_of(name: &str, fields: &[Field]) -> Option<usize>
    ensures place { result ≡ spec.place_of name.now fields.now }
    ensures within { IfSome result (λ place. place < length fields.now) }
{
    'fields: for (place, field) in fields.iter().enumerate() {
        if field.name.as_str() == name {
            return Some(place);
        }
    }
    None
}

/// The place of an element, where one is there.
pub fn place_below(end: usize, place: i128) -> Option<usize>
    ensures place { result ≡ spec.place_below end place }
    ensures within { IfSome result (λ n. n < end) }
{
    let Ok(place) = usize::try_from(place) else {
        return None;
    };
    if place < end { Some(place) } else { None }
}

fn place_up_to(end: usize, place: i128) -> Option<usize>
    ensures place { result ≡ spec.place_up_to end place }
    ensures within { IfSome result (λ n. n ≤ end) }
{
    let Ok(place) = usize::try_from(place) else {
        return None;
    };
    if place <= end { Some(place) } else { None }
}

/// The place that AT gives, from 0 to the length.
fn place_for(end: usize, at: &Evaluated) -> Option<usize>
    ensures place { result ≡ spec.place_for end at.now }
    ensures within { IfSome result (λ n. n ≤ end) }
{
    let Evaluated::Found(at) = at else {
        return None;
    };
    match &at.body {
        Body::Int(place) => place_up_to(end, *place),
        _ => None,
    }
}

/// The fields with the value at the first field of the name, or at a field more at the end.
pub fn set_field(fields: Fields, name: Text, new: Value) -> Result<Fields, OutOfMemory>
    ensures { IfOk result (λ all. all ≡ spec.set_field new name fields) }
{
    let mut fields = fields;
    match place_of(name.as_str(), fields.as_slice()) {
        Some(place) => {
            fields.set(place, Field { name, value: new });
            Ok(fields)
        }
        None => {
            fields.push(Field { name, value: new })?;
            Ok(fields)
        }
    }
}

/// The elements with the value in place of the one there, where one is.
pub fn set_element(values: Values, place: i128, new: Value) -> Values
    ensures { result ≡ spec.at_element (λ n vs. slice_set vs n new) place values }
{
    let mut values = values;
    match place_below(values.len(), place) {
        Some(place) => {
            values.set(place, new);
            values
        }
        None => values,
    }
}

/// The fields without those of the name.
pub fn without_field(alloc: Global, fields: Fields, name: &str) -> Result<Fields, OutOfMemory>
    ensures { IfOk result (λ kept. kept ≡ spec.without_field name.now fields) }
{
    let mut kept = Sequence::new(alloc);
    'fields: for field in fields.into_vec() {
        if field.name.as_str() != name {
            kept.push(field)?;
        }
    }
    Ok(kept)
}

/// The elements without the one at the place, where one is there.
pub fn without_element(values: Values, place: i128) -> Values
    ensures { result ≡ spec.at_element (λ n vs. remove vs n) place values }
{
    match place_below(values.len(), place) {
        Some(place) => {
            let mut values = values.into_vec();
            values.remove(place);
            Sequence::from_vec(values)
        }
        None => values,
    }
}

fn inserted(values: Values, place: Option<usize>, new: Value) -> Result<Values, OutOfMemory>
    requires { IfSome place (λ n. n ≤ length values) }
    ensures { IfOk result (λ all. all ≡ option_map_or (λ n. insert values n new) place values) }
{
    match place {
        Some(place) => {
            let mut values = values.into_vec();
            values.insert(place, new)?;
            Ok(Sequence::from_vec(values))
        }
        None => Ok(values),
    }
}

/// The elements with the value at the end, or at the place that AT gives.
pub fn put(values: Values, at: Option<Evaluated>, new: Value) -> Result<Values, OutOfMemory>
    ensures { IfOk result (λ all. all ≡ spec.put new at values) }
{
    match at {
        None => {
            let mut values = values;
            values.push(new)?;
            Ok(values)
        }
        Some(at) => {
            let place = place_for(values.len(), &at);
            inserted(values, place, new)
        }
    }
}
