//! The parts of which the values of blocks and revisions are made.
ghost use Rattle.std.specs.Prelude.{◌≡◌, [], ◌∷◌, ◌++◌, IfOk, OnOk};
ghost use Rattle.ledger_model.specs.Values.{plain, field};
ghost use Rattle.ledger_model.specs.Journal.{number, string, id_value, moment, structure, list, hash_value, address_value};

use containers::Sequence;
use ion_values::{Body, Field, Fields, IonTime, OutOfMemory, Text, Value, Values};
use pql_model::id_text;
use ql_types::{BlockAddress, Hash32};
use std::alloc::Global;

/// A value without annotations.
pub fn plain(alloc: Global, body: Body) -> Value
    ensures { result ≡ plain body }
{
    Value {
        annotations: Sequence::new(alloc),
        body,
    }
}

/// A number as an int.
pub fn number(alloc: Global, n: u64) -> Value
    ensures { result ≡ number n }
{
    plain(alloc, Body::Int(i128::from(n)))
}

/// A text as a string.
pub fn string(alloc: Global, text: &Text) -> Result<Value, OutOfMemory>
    ensures { IfOk result (λ v. v ≡ string text.now) }
{
    Ok(plain(alloc, Body::String(text.copy(alloc)?)))
}

/// An id is a string of its text.
pub fn id_value(alloc: Global, raw: u128) -> Result<Value, OutOfMemory>
    ensures { IfOk result (λ v. v ≡ id_value raw) }
{
    Ok(plain(alloc, Body::String(id_text(alloc, raw)?)))
}

/// A time as a timestamp.
pub fn moment(alloc: Global, time: &IonTime) -> Value
    ensures { result ≡ moment time.now }
{
    plain(alloc, Body::Timestamp(*time))
}

/// A struct of these fields.
pub fn structure(alloc: Global, fields: Fields) -> Value
    ensures { result ≡ structure fields }
{
    plain(alloc, Body::Struct(fields))
}

/// Puts a field behind the others.
pub fn put(alloc: Global, fields: &mut Fields, name: &str, value: Value) -> Result<(), OutOfMemory>
    ensures { OnOk result (fields.new ≡ fields.old ++ field name.now value ∷ []) }
{
    let name = Text::from_text(alloc, name)?;
    fields.push(Field { name, value })
}

/// A list of these values.
pub fn list(alloc: Global, values: Values) -> Value
    ensures { result ≡ list values }
{
    plain(alloc, Body::List(values))
}

/// A hash is a blob of its bytes.
pub fn hash_value(alloc: Global, hash: &Hash32) -> Result<Value, OutOfMemory>
    ensures { IfOk result (λ v. v ≡ hash_value hash.now) }
{
    let bytes = Sequence::from_slice(alloc, &hash.bytes)?;
    Ok(plain(alloc, Body::Blob(bytes)))
}

/// The address of a block.
pub fn address_value(alloc: Global, address: &BlockAddress) -> Result<Value, OutOfMemory>
    ensures { IfOk result (λ v. v ≡ address_value address.now) }
{
    let mut fields = Sequence::new(alloc);
    put(
        alloc,
        &mut fields,
        "strandId",
        id_value(alloc, address.strand.raw)?,
    )?;
    put(
        alloc,
        &mut fields,
        "sequenceNo",
        number(alloc, address.sequence),
    )?;
    Ok(structure(alloc, fields))
}
