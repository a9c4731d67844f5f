//! Streams of values that are made one at a time, so that no more than one of them is held.
ghost use Rattle.std.specs.Prelude.{◌≡◌, ◌<◌, ◌++◌, List, fold, map, length, slice_get, Some, IsTrue, IfOk, OnOk};
ghost use Rattle.std.specs.List.{list_all};
ghost use Rattle.hash_model.specs.Serialize.{joined};
ghost use Rattle.ion_values.specs.Within.{all_true, within};
ghost use Rattle.ion_values.specs.declared.value.Value.{Value};
ghost use Rattle.ion_binary_out.specs.BinaryText.{Denotes, binary_text, is_top, symbols_of, texts_in, value_bytes, with_symbol};

use super::occurrences::add_value;
use super::stream::begin;
use super::symbols::Symbols;
use super::values::put_value;
use containers::{Bytes, OutOfMemory};
use ion_binary::Buffer;
use ion_values::{Value, is_within};
use std::alloc::Global;

/// Values that are made one at a time, as often as they are asked for.
pub trait ValueSource {
    /// The values, in order.
    ghost values: { Self → List Value };

    /// How many values there are.
    fn count(&self) -> usize
        ensures { result ≡ length (values self.now) };

    /// Makes the value with this index.
    fn value_at(&self, alloc: Global, at: usize) -> Result<Value, OutOfMemory>
        requires { at < length (values self.now) }
        ensures { IfOk result (λ value. slice_get (values self.now) at ≡ Some value) };
}

/// Appends each text in the value that isn't one of the symbols, and drops the value.
fn add_made(alloc: Global, symbols: &mut Symbols, value: Value) -> Result<(), OutOfMemory>
    ensures { OnOk result (symbols.new ≡ fold with_symbol symbols.old (texts_in value)) }
{
    add_value(alloc, symbols, &value)
}

/// The system's symbols, and after them each other text in the values at its first occurrence.
fn symbols_of<V: ValueSource>(alloc: Global, source: &V) -> Result<Symbols, OutOfMemory>
    ensures { IfOk result (λ symbols. symbols ≡ symbols_of (V.values source.now)) }
{
    let mut symbols = Symbols::new(alloc)?;
    let mut at = 0;
    'each: while at < source.count() {
        let value = source.value_at(alloc, at)?;
        add_made(alloc, &mut symbols, value)?;
        at += 1;
    }
    Ok(symbols)
}

/// Appends the value, and drops it.
fn put_made(out: &mut Buffer, symbols: &Symbols, value: Value) -> Result<(), OutOfMemory>
    ensures put { OnOk result (out.new ≡ out.old ++ value_bytes symbols.now value) }
    ensures within { IsTrue (within value) }
{
    is_within(&value);
    put_value(out, symbols, &value)
}

/// Appends the values, one after the other.
fn put_each<V: ValueSource>(
    alloc: Global,
    out: &mut Buffer,
    symbols: &Symbols,
    source: &V,
) -> Result<(), OutOfMemory>
    ensures put { OnOk result
        (out.new ≡ out.old ++ joined (map (value_bytes symbols.now) (V.values source.now))) }
    ensures within { OnOk result (IsTrue (all_true (map within (V.values source.now)))) }
{
    let mut at = 0;
    'each: while at < source.count() {
        let value = source.value_at(alloc, at)?;
        put_made(out, symbols, value)?;
        at += 1;
    }
    Ok(())
}

/// The values of the source in the binary encoding of Ion 1.0, as `write_binary` writes them. Each value is made
/// twice: for the symbol table, and to be written.
pub fn write_each<V: ValueSource>(alloc: Global, source: &V) -> Result<Bytes, OutOfMemory>
    requires { IsTrue (list_all is_top (V.values source.now)) }
    ensures denotes { IfOk result (λ bytes. Denotes bytes (V.values source.now)) }
    ensures table { IfOk result (λ bytes. bytes ≡ binary_text (V.values source.now)) }
{
    let symbols = symbols_of(alloc, source)?;
    let mut out = begin(alloc, &symbols)?;
    put_each(alloc, &mut out, &symbols, source)?;
    Ok(out.into_bytes())
}
