//! The texts in values in the order of first occurrence: annotations before their value, a field's name before its
//! value.
ghost use Rattle.std.specs.Prelude.{◌≡◌, fold, IfOk, OnOk};
ghost use Rattle.std.specs.List.{flat_map};
ghost use Rattle.ion_binary_out.specs.BinaryText.{symbols_of, texts_in, texts_in_body, texts_in_field, with_symbol};

use super::symbols::Symbols;
use containers::OutOfMemory;
use ion_values::{Body, Field, Names, Value};
use std::alloc::Global;

/// The system's symbols, and after them each other text in the values at its first occurrence.
pub fn symbols_of(alloc: Global, values: &[Value]) -> Result<Symbols, OutOfMemory>
    ensures { IfOk result (λ symbols. symbols ≡ symbols_of values.now) }
{
    let mut symbols = Symbols::new(alloc)?;
    add_values(alloc, &mut symbols, values)?;
    Ok(symbols)
}

fn add_names(alloc: Global, symbols: &mut Symbols, names: &Names) -> Result<(), OutOfMemory>
    ensures { OnOk result (symbols.new ≡ fold with_symbol symbols.old names.now) }
{
    for name in names.as_slice() {
        symbols.add(alloc, name.as_str())?;
    }
    Ok(())
}

/// Appends each text in the value that isn't one of the symbols.
#[cycle(occurrences)]
pub fn add_value(alloc: Global, symbols: &mut Symbols, value: &Value) -> Result<(), OutOfMemory>
    ensures { OnOk result (symbols.new ≡ fold with_symbol symbols.old (texts_in value.now)) }
{
    add_names(alloc, symbols, &value.annotations)?;
    add_body(alloc, symbols, &value.body)
}

#[cycle(occurrences)]
fn add_body(alloc: Global, symbols: &mut Symbols, body: &Body) -> Result<(), OutOfMemory>
    ensures { OnOk result (symbols.new ≡ fold with_symbol symbols.old (texts_in_body body.now)) }
{
    match body {
        Body::Symbol(text) => symbols.add(alloc, text.as_str()),
        Body::List(values) => add_values(alloc, symbols, values.as_slice()),
        Body::Sexp(values) => add_values(alloc, symbols, values.as_slice()),
        Body::Struct(fields) => add_fields(alloc, symbols, fields.as_slice()),
        _ => Ok(()),
    }
}

#[cycle(occurrences)]
fn add_values(alloc: Global, symbols: &mut Symbols, values: &[Value]) -> Result<(), OutOfMemory>
    ensures { OnOk result (symbols.new ≡ fold with_symbol symbols.old (flat_map texts_in values.now)) }
{
    for value in values {
        add_value(alloc, symbols, value)?;
    }
    Ok(())
}

#[cycle(occurrences)]
fn add_fields(alloc: Global, symbols: &mut Symbols, fields: &[Field]) -> Result<(), OutOfMemory>
    ensures { OnOk result (symbols.new ≡ fold with_symbol symbols.old (flat_map texts_in_field fields.now)) }
{
    for field in fields {
        symbols.add(alloc, field.name.as_str())?;
        add_value(alloc, symbols, &field.value)?;
    }
    Ok(())
}
