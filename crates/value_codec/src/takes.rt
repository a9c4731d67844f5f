//! What stands in values without annotations, and in fields, handed over.
ghost use Rattle.std.specs.Prelude.{◌≡◌, [], IfOk};
ghost use Rattle.ledger_model.specs.Script.{and_then};
ghost use Rattle.ledger_model.specs.Values.{fields_in, list_in, string_in};
ghost use Rattle.value_codec.specs.ReadParts as spec;

use containers::Sequence;
use ion_values::{Body, Field, Fields, OutOfMemory, Text, Value, Values};
use std::alloc::Global;

/// The fields of an unannotated struct.
pub fn into_fields(v: Value) -> Option<Fields>
    ensures { result ≡ fields_in v }
{
    let Value { annotations, body } = v;
    if !annotations.is_empty() {
        return None;
    }
    match body {
        Body::Struct(fields) => Some(fields),
        _ => None,
    }
}

/// The members of an unannotated list.
pub fn into_list(v: Value) -> Option<Values>
    ensures { result ≡ list_in v }
{
    let Value { annotations, body } = v;
    if !annotations.is_empty() {
        return None;
    }
    match body {
        Body::List(members) => Some(members),
        _ => None,
    }
}

/// The text of an unannotated string.
pub fn into_string(v: Value) -> Option<Text>
    ensures { result ≡ string_in v }
{
    let Value { annotations, body } = v;
    if !annotations.is_empty() {
        return None;
    }
    match body {
        Body::String(text) => Some(text),
        _ => None,
    }
}

/// The value of a field of this name.
pub fn into_named(field: Field, name: &str) -> Option<Value>
    ensures { result ≡ spec.named name.now field }
{
    if field.name.as_str() == name {
        Some(field.value)
    } else {
        None
    }
}

/// The text of the string in a field of this name.
pub fn into_text(field: Field, name: &str) -> Option<Text>
    ensures { result ≡ and_then (spec.named name.now field) string_in }
{
    into_string(into_named(field, name)?)
}

/// The members of the list in a field of this name.
pub fn into_members(field: Field, name: &str) -> Option<Values>
    ensures { result ≡ and_then (spec.named name.now field) list_in }
{
    into_list(into_named(field, name)?)
}

/// An empty list with room for `room` items.
pub fn with_room<T>(alloc: Global, room: usize) -> Result<Sequence<T>, OutOfMemory>
    ensures { IfOk result (λ items. items ≡ []) }
{
    let items = Vec::with_capacity(alloc, room)?;
    Ok(Sequence::from_vec(items))
}
