//! Values with all that is in them.
ghost use Rattle.std.specs.Prelude.{◌≡◌, ◌++◌, map, IfOk, OnOk};
ghost use Rattle.std.specs.List.{flat_map};
ghost use Rattle.sha2.specs.Sha256.{sha256};
ghost use Rattle.hash_model.specs.Serialize.{annotated, field_digest, field_hash, hash_of, joined, serialize, serialize_body, struct_bytes, struct_hash, symbol_bytes};

use super::fields::{ordered, put_hashes};
use super::scalars::{
    BEGIN, END, put_decimal, put_int, put_null, put_scalar, put_symbol, put_time,
};
use containers::{Bytes, OutOfMemory};
use ion_binary::Buffer;
use ion_values::{Body, Field, Names, Value};
use ql_types::Hash32;
use sha2::{Digest, Sha256};
use std::alloc::Global;

/// The value's serialization as the Ion Hash specification has it.
pub fn serialize(alloc: Global, v: &Value) -> Result<Bytes, OutOfMemory>
    ensures { IfOk result (λ bytes. bytes ≡ serialize v.now) }
{
    let mut out = Buffer::new(alloc)?;
    put_value(alloc, &mut out, v)?;
    Ok(out.into_bytes())
}

/// The value's hash: SHA-256 of its serialization.
#[tactic(auto, unfolding(hash_model::specs::Serialize::hash_of))]
pub fn hash(alloc: Global, v: &Value) -> Result<Hash32, OutOfMemory>
    ensures { IfOk result (λ hash. hash ≡ hash_of v.now) }
{
    let bytes = serialize(alloc, v)?;
    Ok(Hash32 {
        bytes: Sha256::digest(bytes.as_slice()),
    })
}

/// The hash of a field: of its name as a symbol, and of its value.
pub fn field_hash(alloc: Global, field: &Field) -> Result<[u8; 32], OutOfMemory>
    ensures { IfOk result (λ hash. hash ≡ field_hash field.now) }
{
    let mut out = Buffer::new(alloc)?;
    let hash = hash_field(alloc, &mut out, field)?;
    Ok(hash)
}

/// The serialization of a struct without annotations, from the hashes of its fields.
pub fn struct_form(alloc: Global, hashes: Vec<[u8; 32]>) -> Result<Bytes, OutOfMemory>
    ensures { IfOk result (λ form. form ≡ struct_bytes hashes.items) }
{
    let mut out = Buffer::new(alloc)?;
    put_struct(&mut out, hashes)?;
    Ok(out.into_bytes())
}

/// The hash of a struct without annotations, from the hashes of its fields.
#[tactic(auto, unfolding(hash_model::specs::Serialize::struct_hash))]
pub fn struct_hash(alloc: Global, hashes: Vec<[u8; 32]>) -> Result<Hash32, OutOfMemory>
    ensures { IfOk result (λ hash. hash ≡ struct_hash hashes.items) }
{
    let form = struct_form(alloc, hashes)?;
    Ok(Hash32 {
        bytes: Sha256::digest(form.as_slice()),
    })
}

/// Puts a struct whose fields have these hashes.
fn put_struct(out: &mut Buffer, hashes: Vec<[u8; 32]>) -> Result<(), OutOfMemory>
    ensures { OnOk result (out.new ≡ out.old ++ struct_bytes hashes.items) }
{
    let hashes = ordered(hashes)?;
    out.push(BEGIN)?;
    out.push(0xD0)?;
    put_hashes(out, &hashes)?;
    out.push(END)
}

#[cycle(serialize)]
fn put_value(alloc: Global, out: &mut Buffer, value: &Value) -> Result<(), OutOfMemory>
    ensures { OnOk result (out.new ≡ out.old ++ serialize value.now) }
{
    if value.annotations.is_empty() {
        return put_body(alloc, out, &value.body);
    }
    out.push(BEGIN)?;
    out.push(0xE0)?;
    put_annotations(out, &value.annotations)?;
    put_body(alloc, out, &value.body)?;
    out.push(END)
}

fn put_annotations(out: &mut Buffer, names: &Names) -> Result<(), OutOfMemory>
    ensures { OnOk result (out.new ≡ out.old ++ flat_map symbol_bytes names.now) }
{
    for name in names.as_slice() {
        put_symbol(out, name.as_str())?;
    }
    Ok(())
}

#[cycle(serialize)]
fn put_body(alloc: Global, out: &mut Buffer, body: &Body) -> Result<(), OutOfMemory>
    ensures { OnOk result (out.new ≡ out.old ++ serialize_body body.now) }
{
    match body {
        Body::Null(kind) => put_null(out, *kind),
        Body::Bool(truth) => put_scalar(out, if *truth { 0x11 } else { 0x10 }, &[]),
        Body::Int(number) => put_int(alloc, out, *number),
        Body::Decimal(number) => put_decimal(alloc, out, number),
        Body::Timestamp(time) => put_time(alloc, out, time),
        Body::Symbol(text) => put_symbol(out, text.as_str()),
        Body::String(text) => put_scalar(out, 0x80, text.as_str().as_bytes()),
        Body::Clob(bytes) => put_scalar(out, 0x90, bytes.as_slice()),
        Body::Blob(bytes) => put_scalar(out, 0xA0, bytes.as_slice()),
        Body::List(values) => {
            out.push(BEGIN)?;
            out.push(0xB0)?;
            put_values(alloc, out, values.as_slice())?;
            out.push(END)
        }
        Body::Sexp(values) => {
            out.push(BEGIN)?;
            out.push(0xC0)?;
            put_values(alloc, out, values.as_slice())?;
            out.push(END)
        }
        Body::Struct(fields) => {
            let hashes = hashes_of(alloc, out, fields.as_slice())?;
            put_struct(out, hashes)
        }
    }
}

#[cycle(serialize)]
fn put_values(alloc: Global, out: &mut Buffer, values: &[Value]) -> Result<(), OutOfMemory>
    ensures { OnOk result (out.new ≡ out.old ++ joined (map serialize values.now)) }
{
    for value in values {
        put_value(alloc, out, value)?;
    }
    Ok(())
}

// The hash of a field, whose bytes stand behind the others only until it is made.
#[cycle(serialize)]
#[tactic(auto, unfolding(hash_model::specs::Serialize::field_digest))]
fn hash_field(alloc: Global, out: &mut Buffer, field: &Field) -> Result<[u8; 32], OutOfMemory>
    ensures hash { IfOk result (λ hash. hash ≡ field_hash field.now) }
    ensures kept { IfOk result (λ hash. out.new ≡ out.old) }
{
    let start = out.len();
    put_symbol(out, field.name.as_str())?;
    put_value(alloc, out, &field.value)?;
    let hash = Sha256::digest(out.tail(start));
    out.truncate(start);
    Ok(hash)
}

#[cycle(serialize)]
fn hashes_of(
    alloc: Global,
    out: &mut Buffer,
    fields: &[Field],
) -> Result<Vec<[u8; 32]>, OutOfMemory>
    ensures hashes { IfOk result (λ hashes. hashes.items ≡ map field_hash fields.now) }
    ensures kept { IfOk result (λ hashes. out.new ≡ out.old) }
{
    let mut hashes = Vec::with_capacity(alloc, fields.len())?;
    for field in fields {
        hashes.push(hash_field(alloc, out, field)?)?;
    }
    Ok(hashes)
}
