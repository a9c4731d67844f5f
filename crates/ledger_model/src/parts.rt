//! What stands in a value without annotations.
ghost use Rattle.std.specs.Prelude.{◌≡◌};
ghost use Rattle.std.specs.Option.{option_copied};
ghost use Rattle.ledger_model.specs.Values.{blob_in, fields_in, int_in, list_in, string_in, symbol_in};

use ion_values::{Body, Bytes, Fields, Text, Value, Values};

/// The number of an unannotated int.
pub fn int_in(v: &Value) -> Option<i128>
    ensures { result ≡ int_in v.now }
{
    if !v.annotations.is_empty() {
        return None;
    }
    match &v.body {
        Body::Int(number) => Some(*number),
        _ => None,
    }
}

/// The text of an unannotated symbol.
pub fn symbol_in(v: &Value) -> Option<&Text>
    ensures { option_copied result ≡ symbol_in v.now }
{
    if !v.annotations.is_empty() {
        return None;
    }
    match &v.body {
        Body::Symbol(name) => Some(name),
        _ => None,
    }
}

/// The text of an unannotated string.
pub fn string_in(v: &Value) -> Option<&Text>
    ensures { option_copied result ≡ string_in v.now }
{
    if !v.annotations.is_empty() {
        return None;
    }
    match &v.body {
        Body::String(text) => Some(text),
        _ => None,
    }
}

/// The bytes of an unannotated blob.
pub fn blob_in(v: &Value) -> Option<&Bytes>
    ensures { option_copied result ≡ blob_in v.now }
{
    if !v.annotations.is_empty() {
        return None;
    }
    match &v.body {
        Body::Blob(bytes) => Some(bytes),
        _ => None,
    }
}

/// The members of an unannotated list.
pub fn list_in(v: &Value) -> Option<&Values>
    ensures { option_copied result ≡ list_in v.now }
{
    if !v.annotations.is_empty() {
        return None;
    }
    match &v.body {
        Body::List(members) => Some(members),
        _ => None,
    }
}

/// The fields of an unannotated struct.
pub fn fields_in(v: &Value) -> Option<&Fields>
    ensures { option_copied result ≡ fields_in v.now }
{
    if !v.annotations.is_empty() {
        return None;
    }
    match &v.body {
        Body::Struct(fields) => Some(fields),
        _ => None,
    }
}
