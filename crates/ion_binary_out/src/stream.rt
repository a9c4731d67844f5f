//! Streams of values in binary.
ghost use Rattle.std.specs.Prelude.{◌≡◌, ◌++◌, map, drop, string_bytes, IsTrue, IfOk, OnOk};
ghost use Rattle.std.specs.List.{flat_map, list_all};
ghost use Rattle.ion_binary_out.specs.BinaryText.{Denotes, binary_text, is_top, table_bytes, table_of, table_or_nothing, typed, version_marker};

use super::occurrences::symbols_of;
use super::symbols::{SYSTEM, Symbols};
use super::values::{ANNOTATED, LIST, STRING, STRUCT, close, put_typed, put_values};
use containers::{Bytes, OutOfMemory};
use ion_binary::{Buffer, put_var_uint};
use ion_values::{Body, Value, Values, values_are_within};
use std::alloc::Global;

// The id of `$ion_symbol_table`, the annotation of a table.
const SYMBOL_TABLE: u128 = 3;

// The id of `symbols`, the name of its field.
const SYMBOLS: u128 = 7;

// Appends the texts as strings.
fn put_texts(out: &mut Buffer, texts: &[String]) -> Result<(), OutOfMemory>
    ensures { OnOk result (out.new ≡ out.old ++ flat_map (λ text. typed 8 (string_bytes text)) texts.now) }
{
    for text in texts {
        put_typed(out, STRING, text.as_bytes())?;
    }
    Ok(())
}

// Appends the symbol table of these texts.
fn put_table(out: &mut Buffer, texts: &[String]) -> Result<(), OutOfMemory>
    ensures { OnOk result (out.new ≡ out.old ++ table_bytes (map string_bytes texts.now)) }
{
    let table = out.len();
    put_var_uint(out, 1)?;
    put_var_uint(out, SYMBOL_TABLE)?;
    let symbols = out.len();
    put_var_uint(out, SYMBOLS)?;
    let list = out.len();
    put_texts(out, texts)?;
    close(out, LIST, list)?;
    close(out, STRUCT, symbols)?;
    close(out, ANNOTATED, table)?;
    Ok(())
}

// Appends the table of the local symbols, if there are any.
fn put_local(out: &mut Buffer, symbols: &Symbols) -> Result<(), OutOfMemory>
    ensures { OnOk result (out.new ≡ out.old ++ table_or_nothing (table_of (drop 9 symbols.now))) }
{
    let texts = symbols.as_slice();
    if texts.len() <= SYSTEM {
        return Ok(());
    }
    put_table(out, &texts[SYSTEM..])
}

/// The version marker, and the table of the local symbols, if there are any.
pub fn begin(alloc: Global, symbols: &Symbols) -> Result<Buffer, OutOfMemory>
    ensures { IfOk result (λ out. out ≡ version_marker ++ table_or_nothing (table_of (drop 9 symbols.now))) }
{
    let mut out = Buffer::new(alloc)?;
    out.extend(&[0xE0, 0x01, 0x00, 0xEA])?;
    put_local(&mut out, symbols)?;
    Ok(out)
}

fn is_top(value: &Value) -> bool
    ensures { result ≡ is_top value.now }
{
    value.annotations.is_empty() && !matches!(value.body, Body::Symbol(_))
}

/// Whether each value may stand in a stream: it has no annotations of its own and is no symbol.
pub fn are_top(values: &[Value]) -> bool
    ensures { result ≡ list_all is_top values.now }
{
    values.iter().all(is_top)
}

/// The values in the binary encoding of Ion 1.0, each in its shortest form. In front of them stands a symbol table that
/// lists each text that isn't a system symbol, in the order of first occurrence: annotations before their value, a
/// field's name before its value. If there is no such text, there is no table.
pub fn write_binary(alloc: Global, values: &Values) -> Result<Bytes, OutOfMemory>
    requires { IsTrue (list_all is_top values.now) }
    ensures denotes { IfOk result (λ bytes. Denotes bytes values.now) }
    ensures table { IfOk result (λ bytes. bytes ≡ binary_text values.now) }
{
    values_are_within(values.as_slice());
    let bytes = write_stream(alloc, values)?;
    Ok(bytes)
}

#[tactic(auto, unfolding(crate::specs::BinaryText::binary_text))]
fn write_stream(alloc: Global, values: &Values) -> Result<Bytes, OutOfMemory>
    ensures { IfOk result (λ bytes. bytes ≡ binary_text values.now) }
{
    let symbols = symbols_of(alloc, values.as_slice())?;
    let mut out = begin(alloc, &symbols)?;
    put_values(&mut out, &symbols, values.as_slice())?;
    Ok(out.into_bytes())
}
