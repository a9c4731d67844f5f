//! The fields of a transaction.
ghost use Rattle.std.specs.Prelude.{◌≡◌, Err};
ghost use Rattle.std.specs.Option.{ok_or};
ghost use Rattle.std.specs.List.{list_any};
ghost use Rattle.ledger_model.specs.ReadScript.{abort_in, abort_said, digest_in, digest_said, is_known, is_unknown, named, retries_in, retries_of, retries_said, statements_said};
ghost use Rattle.script_form.specs.Answers.{GivesKind};

use super::jobs::JobFault;
use super::statements::statements_in;
use ion_values::{Field, Fields, Value};
use ledger_model::{Asked, ScriptKind, blob_in, int_in, symbol_in, value_named};
use ql_types::Hash32;
use std::alloc::Global;

fn is_known(name: &str) -> bool
    ensures { result ≡ is_known name.now }
{
    name == "statements" || name == "retries" || name == "digest" || name == "end"
}

fn is_unknown(field: &Field) -> bool
    ensures { result ≡ is_unknown field.now }
{
    !is_known(field.name.as_str())
}

/// Whether a field has a name that no field of a transaction has.
pub fn has_unknown(fields: &[Field]) -> bool
    ensures { result ≡ list_any is_unknown fields.now }
{
    fields.iter().any(|field| is_unknown(field))
}

/// The value of the first field of that name, handed over.
fn into_named(name: &str, fields: Fields) -> Option<Value>
    ensures { result ≡ named name.now fields }
{
    'fields: for field in fields.into_vec() {
        if field.name.as_str() == name {
            return Some(field.value);
        }
    }
    None
}

/// The statements, which may not be left out.
pub fn statements_said(alloc: Global, fields: Fields) -> Result<Asked, JobFault>
    ensures { GivesKind result (statements_said fields) }
{
    let Some(value) = into_named("statements", fields) else {
        return Err(JobFault::Kind(ScriptKind::MissingField));
    };
    match statements_in(alloc, value)? {
        Some(asked) => Ok(asked),
        None => Err(JobFault::Kind(ScriptKind::NotAStatement)),
    }
}

fn retries_of(number: i128) -> Option<u32>
    ensures { result ≡ retries_of number }
{
    if 0 <= number && number <= 100 {
        Some(number as u32)
    } else {
        None
    }
}

fn retries_in(value: &Value) -> Option<u32>
    ensures { result ≡ retries_in value.now }
{
    retries_of(int_in(value)?)
}

/// How often a transaction is tried again, 4 times where nothing is said.
pub fn retries_said(fields: &[Field]) -> Result<u32, JobFault>
    ensures { GivesKind result (retries_said fields.now) }
{
    let Some(value) = value_named("retries", fields) else {
        return Ok(4);
    };
    match retries_in(value) {
        Some(retries) => Ok(retries),
        None => Err(JobFault::Kind(ScriptKind::BadRetries)),
    }
}

fn digest_in(value: &Value) -> Option<Option<Hash32>>
    ensures { result ≡ digest_in value.now }
{
    let bytes = blob_in(value)?;
    match <[u8; 32]>::try_from(bytes.as_slice()) {
        Ok(bytes) => Some(Some(Hash32 { bytes })),
        Err(_) => None,
    }
}

/// The digest that is sent in place of the computed one.
pub fn digest_said(fields: &[Field]) -> Result<Option<Hash32>, JobFault>
    ensures { GivesKind result (digest_said fields.now) }
{
    let Some(value) = value_named("digest", fields) else {
        return Ok(None);
    };
    match digest_in(value) {
        Some(digest) => Ok(digest),
        None => Err(JobFault::Kind(ScriptKind::BadDigest)),
    }
}

fn abort_in(value: &Value) -> Option<bool>
    ensures { result ≡ abort_in value.now }
{
    match symbol_in(value)?.as_str() {
        "commit" => Some(false),
        "abort" => Some(true),
        _ => None,
    }
}

/// Whether the transaction is aborted.
pub fn abort_said(fields: &[Field]) -> Result<bool, JobFault>
    ensures { GivesKind result (abort_said fields.now) }
{
    let Some(value) = value_named("end", fields) else {
        return Ok(false);
    };
    match abort_in(value) {
        Some(abort) => Ok(abort),
        None => Err(JobFault::Kind(ScriptKind::BadEnd)),
    }
}
