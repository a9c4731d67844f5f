//! Which rows a probe asks for.
ghost use Rattle.std.specs.Prelude.{◌≡◌, ◌==◌, Some, IfOk, IfSome};
ghost use Rattle.std.specs.List.{list_any};
ghost use Rattle.ion_values.specs.declared.value.Key.TheVariants as index;
ghost use Rattle.pql_model.specs.Steps.{field_of};
ghost use Rattle.pql_model.specs.Tables as spec;
ghost use Rattle.ql_types.specs.declared.DocId as spec_id;

use ion_values::{Body, Key, OutOfMemory, Text, Value};
use pql_model::{Probe, field_of, has_key, key_in};
use ql_types::DocId;
use std::alloc::Global;

/// Whether the row of this document with this value meets the probe.
pub(crate) fn meets(
    alloc: Global,
    probe: &Probe,
    id: DocId,
    value: &Value,
) -> Result<bool, OutOfMemory>
    ensures { IfOk result (λ met. met ≡ spec.meets probe.now (record { id = id; value = value.now })) }
{
    match probe {
        Probe::All => Ok(true),
        Probe::Id(wanted) => Ok(id.raw == wanted.raw),
        Probe::Key { field, key } => has_key(alloc, key, field.as_str(), value),
        Probe::Ids { ids } => Ok(is_one_of(ids.as_slice(), id)),
        Probe::Keys { field, keys } => has_one(alloc, keys.as_slice(), field.as_str(), value),
    }
}

/// Whether the document is one of these.
fn is_one_of(ids: &[DocId], id: DocId) -> bool
    ensures { result ≡ list_any (λ (other : spec_id.DocId). id.raw == other.raw) ids.now }
{
    'ids: for other in ids {
        if id.raw == other.raw {
            return true;
        }
    }
    false
}

/// Whether the value has a field of this name with one of the keys. It takes memory only if the field is no text.
fn has_one(alloc: Global, keys: &[Key], name: &str, value: &Value) -> Result<bool, OutOfMemory>
    ensures { IfOk result (λ has. has ≡ spec.has_one keys.now (spec.key_in (field_of name.now value.now))) }
{
    if let Some(text) = text_in(name, value) {
        return Ok(has_text(keys, text));
    }
    match key_in(alloc, name, value)? {
        Some(found) => Ok(is_found(keys, &found)),
        None => Ok(false),
    }
}

/// The text in the value's first field of that name, if it is one.
fn text_in<'a>(name: &str, value: &'a Value) -> Option<&'a Text>
    ensures { IfSome result (λ text.
        spec.key_in (field_of name.now value.now) ≡ Some (index.Text text.now)) }
{
    match &field_of(name, value)?.body {
        Body::Symbol(text) | Body::String(text) => Some(text),
        _ => None,
    }
}

/// Whether one of the keys is this text.
fn has_text(keys: &[Key], text: &Text) -> bool
    ensures { result ≡ spec.has_one keys.now (Some (index.Text text.now)) }
{
    'keys: for key in keys {
        if is_text(key, text) {
            return true;
        }
    }
    false
}

fn is_text(key: &Key, text: &Text) -> bool
    ensures { result ≡ spec.is_same_key (index.Text text.now) key.now }
{
    match key {
        Key::Text(own) => text.as_str() == own.as_str(),
        _ => false,
    }
}

fn is_found(keys: &[Key], found: &Key) -> bool
    ensures { result ≡ list_any (λ k. spec.is_same_key found.now k) keys.now }
{
    'keys: for key in keys {
        if *found == *key {
            return true;
        }
    }
    false
}
