//! The values that statements answer.
ghost use Rattle.std.specs.Prelude.{◌≡◌, IfOk};
ghost use Rattle.ledger_model.specs.Values.{named_id};

use crate::values::plain;
use containers::Sequence;
use ion_values::{Body, Field, OutOfMemory, Text, Value};
use pql_model::id_text;
use std::alloc::Global;

/// A struct whose one field has an id as its value.
pub(crate) fn named_id(alloc: Global, name: &str, raw: u128) -> Result<Value, OutOfMemory>
    ensures { IfOk result (λ row. row ≡ named_id name.now raw) }
{
    let mut fields = Sequence::new(alloc);
    fields.push(Field {
        name: Text::from_text(alloc, name)?,
        value: plain(alloc, Body::String(id_text(alloc, raw)?)),
    })?;
    Ok(plain(alloc, Body::Struct(fields)))
}
