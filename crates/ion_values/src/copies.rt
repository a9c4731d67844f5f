ghost use Rattle.std.specs.Prelude.{◌≡◌, IfOk};

use crate::value::{Body, Field, Fields, Names, Value, Values};
use containers::{Bytes, OutOfMemory, Sequence};
use std::alloc::Global;

/// A value that equals the given one, the order of fields included.
#[cycle(copy)]
pub fn copy(alloc: Global, v: &Value) -> Result<Value, OutOfMemory>
    ensures { IfOk result (λ new. new ≡ v.now) }
{
    Ok(Value {
        annotations: copy_names(alloc, &v.annotations)?,
        body: copy_body(alloc, &v.body)?,
    })
}

#[cycle(copy)]
fn copy_body(alloc: Global, body: &Body) -> Result<Body, OutOfMemory>
    ensures { IfOk result (λ new. new ≡ body.now) }
{
    match body {
        Body::Null(kind) => Ok(Body::Null(*kind)),
        Body::Bool(truth) => Ok(Body::Bool(*truth)),
        Body::Int(number) => Ok(Body::Int(*number)),
        Body::Decimal(number) => Ok(Body::Decimal(*number)),
        Body::Timestamp(time) => Ok(Body::Timestamp(*time)),
        Body::Symbol(text) => Ok(Body::Symbol(text.copy(alloc)?)),
        Body::String(text) => Ok(Body::String(text.copy(alloc)?)),
        Body::Clob(bytes) => Ok(Body::Clob(copy_bytes(alloc, bytes)?)),
        Body::Blob(bytes) => Ok(Body::Blob(copy_bytes(alloc, bytes)?)),
        Body::List(values) => Ok(Body::List(copy_values(alloc, values.as_slice())?)),
        Body::Sexp(values) => Ok(Body::Sexp(copy_values(alloc, values.as_slice())?)),
        Body::Struct(fields) => Ok(Body::Struct(copy_fields(alloc, fields.as_slice())?)),
    }
}

/// Values that equal the given ones, in order.
#[cycle(copy)]
pub fn copy_values(alloc: Global, values: &[Value]) -> Result<Values, OutOfMemory>
    ensures { IfOk result (λ new. new ≡ values.now) }
{
    let mut new = Vec::with_capacity(alloc, values.len())?;
    for value in values {
        new.push(copy(alloc, value)?)?;
    }
    Ok(Sequence::from_vec(new))
}

#[cycle(copy)]
fn copy_fields(alloc: Global, fields: &[Field]) -> Result<Fields, OutOfMemory>
    ensures { IfOk result (λ new. new ≡ fields.now) }
{
    let mut new = Vec::with_capacity(alloc, fields.len())?;
    for field in fields {
        new.push(Field {
            name: field.name.copy(alloc)?,
            value: copy(alloc, &field.value)?,
        })?;
    }
    Ok(Sequence::from_vec(new))
}

fn copy_names(alloc: Global, names: &Names) -> Result<Names, OutOfMemory>
    ensures { IfOk result (λ new. new ≡ names.now) }
{
    let mut new = Vec::with_capacity(alloc, names.len())?;
    for name in names.as_slice() {
        new.push(name.copy(alloc)?)?;
    }
    Ok(Sequence::from_vec(new))
}

fn copy_bytes(alloc: Global, bytes: &Bytes) -> Result<Bytes, OutOfMemory>
    ensures { IfOk result (λ new. new ≡ bytes.now) }
{
    Sequence::from_slice(alloc, bytes.as_slice())
}
