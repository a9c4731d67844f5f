//! Values with all that is in them.
ghost use Rattle.std.specs.Prelude.{◌≡◌, ◌<◌, fold, map, IfOk, IsTrue, OnOk, ◌↔◌};
ghost use Rattle.std.specs.List.{flat_map};
ghost use Rattle.ion_model.specs.Write.{annotation_text, body_text, field_text, joined, parted, value_text};

use super::comparison::Comparison;
use super::output::Output;
use super::quoted::{put_ascii, put_clob, put_string, put_symbol};
use super::scalars::{put_blob, put_bool, put_decimal, put_int, put_null};
use super::sink::TextSink;
use super::timestamps::put_timestamp;
use containers::{OutOfMemory, Text};
use ion_values::{Body, Field, Names, Value};
use std::alloc::Global;

/// The value's text, in the one spelling that values have when they are written.
#[tactic(auto, using(crate::proofs::Compared::appended))]
pub fn write(alloc: Global, v: &Value) -> Result<Text, OutOfMemory>
    ensures { IfOk result (λ text. text ≡ value_text v.now) }
{
    let mut out = Output::new(alloc)?;
    put_value(&mut out, v)?;
    Ok(out.into_text())
}

/// Whether the text is the one that is written of the value. It takes no memory.
pub fn is_text_of(value: &Value, text: &[u8]) -> bool
    ensures { IsTrue result ↔ (text.now ≡ value_text value.now) }
{
    let mut rest = Comparison::new(text);
    match put_value(&mut rest, value) {
        Ok(()) => rest.is_at_end(),
        Err(never) => match never {},
    }
}

#[cycle(write)]
fn put_value<S: TextSink>(out: &mut S, value: &Value) -> Result<(), S::Fault>
    ensures { OnOk result (out.new ≡ fold S.with_byte out.old (value_text value.now)) }
{
    put_annotations(out, &value.annotations)?;
    put_body(out, &value.body)
}

fn put_annotations<S: TextSink>(out: &mut S, names: &Names) -> Result<(), S::Fault>
    ensures { OnOk result (out.new ≡ fold S.with_byte out.old (flat_map annotation_text names.now)) }
{
    for name in names.as_slice() {
        put_symbol(out, name.as_str())?;
        out.push_str("::")?;
    }
    Ok(())
}

#[cycle(write)]
fn put_body<S: TextSink>(out: &mut S, body: &Body) -> Result<(), S::Fault>
    ensures { OnOk result (out.new ≡ fold S.with_byte out.old (body_text body.now)) }
{
    match body {
        Body::Null(kind) => put_null(out, *kind),
        Body::Bool(truth) => put_bool(out, *truth),
        Body::Int(number) => put_int(out, *number),
        Body::Decimal(number) => put_decimal(out, number),
        Body::Timestamp(time) => put_timestamp(out, time),
        Body::Symbol(text) => put_symbol(out, text.as_str()),
        Body::String(text) => put_string(out, text.as_str()),
        Body::Clob(bytes) => put_clob(out, bytes.as_slice()),
        Body::Blob(bytes) => put_blob(out, bytes.as_slice()),
        Body::List(values) => {
            put_ascii(out, b'[')?;
            put_values(out, b',', values.as_slice())?;
            put_ascii(out, b']')
        }
        Body::Sexp(values) => {
            put_ascii(out, b'(')?;
            put_values(out, b' ', values.as_slice())?;
            put_ascii(out, b')')
        }
        Body::Struct(fields) => {
            put_ascii(out, b'{')?;
            put_fields(out, fields.as_slice())?;
            put_ascii(out, b'}')
        }
    }
}

#[cycle(write)]
fn put_values<S: TextSink>(out: &mut S, separator: u8, values: &[Value]) -> Result<(), S::Fault>
    requires { separator < 128 }
    ensures { OnOk result (out.new ≡ fold S.with_byte out.old (parted separator (map value_text values.now))) }
{
    let [first, more @ ..] = values else {
        return Ok(());
    };
    put_value(out, first)?;
    for value in more {
        put_ascii(out, separator)?;
        put_value(out, value)?;
    }
    Ok(())
}

#[cycle(write)]
fn put_field<S: TextSink>(out: &mut S, field: &Field) -> Result<(), S::Fault>
    ensures { OnOk result (out.new ≡ fold S.with_byte out.old (field_text field.now)) }
{
    put_symbol(out, field.name.as_str())?;
    put_ascii(out, b':')?;
    put_value(out, &field.value)
}

#[cycle(write)]
fn put_fields<S: TextSink>(out: &mut S, fields: &[Field]) -> Result<(), S::Fault>
    ensures { OnOk result (out.new ≡ fold S.with_byte out.old (joined (map field_text fields.now))) }
{
    let [first, more @ ..] = fields else {
        return Ok(());
    };
    put_field(out, first)?;
    for field in more {
        put_ascii(out, b',')?;
        put_field(out, field)?;
    }
    Ok(())
}
