//! Values in binary. A representation is appended first, and the descriptor of its type and length is then moved in
//! front of it.
ghost use Rattle.std.specs.Prelude.{ℕ, List, ◌≡◌, ◌≤◌, ◌<◌, ◌++◌, map, length, unsigned_abs, if◌then◌else◌, OnOk};
ghost use Rattle.hash_model.specs.Numbers.{is_below_zero, magnitude, var_uint};
ghost use Rattle.hash_model.specs.Serialize.{decimal_bytes, joined};
ghost use Rattle.hash_model.specs.Timestamps.{timestamp_bytes};
ghost use Rattle.ion_binary_out.specs.BinaryText.{body_bytes, descriptor, field_bytes, ids_of, symbol_id, typed, value_bytes};

use super::symbols::Symbols;
use containers::OutOfMemory;
use ion_binary::{
    Buffer, put_decimal_fields, put_magnitude, put_timestamp_fields, put_var_uint,
    qualifier_of_null,
};
use ion_values::{Body, Decimal, Field, IonTime, Names, Value};

// Types, which stand in the upper half of a descriptor.
const POSITIVE_INT: u8 = 2;

const NEGATIVE_INT: u8 = 3;

const DECIMAL: u8 = 5;

const TIMESTAMP: u8 = 6;

const SYMBOL: u8 = 7;

pub const STRING: u8 = 8;

const CLOB: u8 = 9;

const BLOB: u8 = 10;

pub const LIST: u8 = 11;

const SEXP: u8 = 12;

pub const STRUCT: u8 = 13;

pub const ANNOTATED: u8 = 14;

// The least length that doesn't fit into a descriptor and stands after it.
const LONG: usize = 14;

fn put_descriptor(out: &mut Buffer, ion_type: u8, len: usize) -> Result<(), OutOfMemory>
    requires { ion_type < 15 }
    ensures { OnOk result (out.new ≡ out.old ++ descriptor ion_type len) }
{
    if len < LONG {
        return out.push(16 * ion_type + len as u8);
    }
    out.push(16 * ion_type + LONG as u8)?;
    put_var_uint(out, len as u128)
}

/// Makes the bytes from `start` on a value of this type, with them as its representation.
#[tactic(auto, unfolding(crate::specs::BinaryText::typed))]
pub fn close(out: &mut Buffer, ion_type: u8, start: usize) -> Result<(), OutOfMemory>
    requires kind { ion_type < 15 }
    requires within { start ≤ length out.old }
    ensures { OnOk result
        ((front bytes : List ℕ) → out.old ≡ front ++ bytes → length front ≡ start
        → out.new ≡ front ++ typed ion_type bytes) }
{
    let end = out.len();
    put_descriptor(out, ion_type, end - start)?;
    let count = out.len() - end;
    out.move_last(start, count);
    Ok(())
}

/// Appends a value of this type and representation.
#[tactic(auto, unfolding(crate::specs::BinaryText::typed))]
pub fn put_typed(out: &mut Buffer, ion_type: u8, bytes: &[u8]) -> Result<(), OutOfMemory>
    requires { ion_type < 15 }
    ensures { OnOk result (out.new ≡ out.old ++ typed ion_type bytes.now) }
{
    put_descriptor(out, ion_type, bytes.len())?;
    out.extend(bytes)
}

fn put_int(out: &mut Buffer, number: i128) -> Result<(), OutOfMemory>
    ensures { OnOk result
        (out.new ≡ out.old ++ typed (if is_below_zero number then 3 else 2) (magnitude (unsigned_abs number))) }
{
    let start = out.len();
    put_magnitude(out, number.unsigned_abs())?;
    let ion_type = if number < 0 {
        NEGATIVE_INT
    } else {
        POSITIVE_INT
    };
    close(out, ion_type, start)?;
    Ok(())
}

fn put_decimal(out: &mut Buffer, number: &Decimal) -> Result<(), OutOfMemory>
    ensures { OnOk result (out.new ≡ out.old ++ typed 5 (decimal_bytes number.now)) }
{
    let start = out.len();
    put_decimal_fields(out, number)?;
    close(out, DECIMAL, start)?;
    Ok(())
}

fn put_timestamp(out: &mut Buffer, time: &IonTime) -> Result<(), OutOfMemory>
    ensures { OnOk result (out.new ≡ out.old ++ typed 6 (timestamp_bytes time.now)) }
{
    let start = out.len();
    put_timestamp_fields(out, time)?;
    close(out, TIMESTAMP, start)?;
    Ok(())
}

fn put_symbol(out: &mut Buffer, id: u128) -> Result<(), OutOfMemory>
    ensures { OnOk result (out.new ≡ out.old ++ typed 7 (magnitude id)) }
{
    let start = out.len();
    put_magnitude(out, id)?;
    close(out, SYMBOL, start)?;
    Ok(())
}

fn put_ids(out: &mut Buffer, symbols: &Symbols, names: &Names) -> Result<(), OutOfMemory>
    ensures { OnOk result (out.new ≡ out.old ++ ids_of symbols.now names.now) }
{
    for name in names.as_slice() {
        put_var_uint(out, symbols.id(name.as_str()))?;
    }
    Ok(())
}

// Appends the length of the ids, and the ids.
fn put_annotations(out: &mut Buffer, symbols: &Symbols, names: &Names) -> Result<(), OutOfMemory>
    ensures { OnOk result
        (out.new ≡ out.old ++ (var_uint (length (ids_of symbols.now names.now)) ++ ids_of symbols.now names.now)) }
{
    let start = out.len();
    put_ids(out, symbols, names)?;
    let end = out.len();
    put_var_uint(out, (end - start) as u128)?;
    let count = out.len() - end;
    out.move_last(start, count);
    Ok(())
}

/// Appends a value.
#[cycle(binary)]
pub fn put_value(out: &mut Buffer, symbols: &Symbols, value: &Value) -> Result<(), OutOfMemory>
    ensures { OnOk result (out.new ≡ out.old ++ value_bytes symbols.now value.now) }
{
    if value.annotations.is_empty() {
        return put_body(out, symbols, &value.body);
    }
    let start = out.len();
    put_annotations(out, symbols, &value.annotations)?;
    put_body(out, symbols, &value.body)?;
    close(out, ANNOTATED, start)?;
    Ok(())
}

#[cycle(binary)]
fn put_body(out: &mut Buffer, symbols: &Symbols, body: &Body) -> Result<(), OutOfMemory>
    ensures { OnOk result (out.new ≡ out.old ++ body_bytes symbols.now body.now) }
{
    match body {
        Body::Null(kind) => out.push(qualifier_of_null(*kind)),
        Body::Bool(truth) => out.push(if *truth { 0x11 } else { 0x10 }),
        Body::Int(number) => put_int(out, *number),
        Body::Decimal(number) => put_decimal(out, number),
        Body::Timestamp(time) => put_timestamp(out, time),
        Body::Symbol(text) => put_symbol(out, symbols.id(text.as_str())),
        Body::String(text) => put_typed(out, STRING, text.as_str().as_bytes()),
        Body::Clob(bytes) => put_typed(out, CLOB, bytes.as_slice()),
        Body::Blob(bytes) => put_typed(out, BLOB, bytes.as_slice()),
        Body::List(values) => put_list(out, symbols, LIST, values.as_slice()),
        Body::Sexp(values) => put_list(out, symbols, SEXP, values.as_slice()),
        Body::Struct(fields) => put_struct(out, symbols, fields.as_slice()),
    }
}

#[cycle(binary)]
fn put_list(
    out: &mut Buffer,
    symbols: &Symbols,
    ion_type: u8,
    values: &[Value],
) -> Result<(), OutOfMemory>
    requires { ion_type < 15 }
    ensures { OnOk result (out.new ≡ out.old ++ typed ion_type (joined (map (value_bytes symbols.now) values.now))) }
{
    let start = out.len();
    put_values(out, symbols, values)?;
    close(out, ion_type, start)?;
    Ok(())
}

/// Appends values, one after the other.
#[cycle(binary)]
pub fn put_values(out: &mut Buffer, symbols: &Symbols, values: &[Value]) -> Result<(), OutOfMemory>
    ensures { OnOk result (out.new ≡ out.old ++ joined (map (value_bytes symbols.now) values.now)) }
{
    for value in values {
        put_value(out, symbols, value)?;
    }
    Ok(())
}

#[cycle(binary)]
fn put_struct(out: &mut Buffer, symbols: &Symbols, fields: &[Field]) -> Result<(), OutOfMemory>
    ensures { OnOk result (out.new ≡ out.old ++ typed 13 (joined (map (field_bytes symbols.now) fields.now))) }
{
    let start = out.len();
    put_fields(out, symbols, fields)?;
    close(out, STRUCT, start)?;
    Ok(())
}

#[cycle(binary)]
fn put_fields(out: &mut Buffer, symbols: &Symbols, fields: &[Field]) -> Result<(), OutOfMemory>
    ensures { OnOk result (out.new ≡ out.old ++ joined (map (field_bytes symbols.now) fields.now)) }
{
    for field in fields {
        put_var_uint(out, symbols.id(field.name.as_str()))?;
        put_value(out, symbols, &field.value)?;
    }
    Ok(())
}
