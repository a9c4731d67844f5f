//! Fields of values, and their keys.
ghost use Rattle.std.specs.Prelude.{◌≡◌, IfOk};
ghost use Rattle.std.specs.Option.{option_copied};
ghost use Rattle.pql_model.specs.Steps as step;
ghost use Rattle.pql_model.specs.Tables as spec;

use ion_order::key;
use ion_values::{Body, Field, Key, OutOfMemory, Value};
use std::alloc::Global;

fn first_field<'a>(name: &str, fields: &'a [Field]) -> Option<&'a Value>
    ensures { option_copied result ≡ step.first_field name.now fields.now }
{
    'fields: for field in fields {
        if field.name.as_str() == name {
            return Some(&field.value);
        }
    }
    None
}

/// The first field of that name, of a struct.
pub fn field_of<'a>(name: &str, value: &'a Value) -> Option<&'a Value>
    ensures { option_copied result ≡ step.field_of name.now value.now }
{
    match &value.body {
        Body::Struct(fields) => first_field(name, fields.as_slice()),
        _ => None,
    }
}

/// The key in the value's first field of that name, where it has one.
pub fn key_in(alloc: Global, name: &str, value: &Value) -> Result<Option<Key>, OutOfMemory>
    ensures { IfOk result (λ found. found ≡ spec.key_in (step.field_of name.now value.now)) }
{
    match field_of(name, value) {
        None => Ok(None),
        Some(field) => key(alloc, field),
    }
}

/// Whether the value has a field of this name with this key.
pub fn has_key(alloc: Global, wanted: &Key, name: &str, value: &Value) -> Result<bool, OutOfMemory>
    ensures { IfOk result (λ has. has ≡ spec.has_key wanted.now (spec.key_in (step.field_of name.now value.now))) }
{
    match key_in(alloc, name, value)? {
        Some(found) => Ok(found == *wanted),
        None => Ok(false),
    }
}
