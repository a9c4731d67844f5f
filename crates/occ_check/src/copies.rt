//! Items as values of their own.
ghost use Rattle.std.specs.Prelude.{◌≡◌, IfOk};

use containers::Sequence;
use ion_values::{Key, OutOfMemory};
use ledger_model::Item;
use std::alloc::Global;

/// An item that equals the given one.
pub(crate) fn copy_item(alloc: Global, item: &Item) -> Result<Item, OutOfMemory>
    ensures { IfOk result (λ new. new ≡ item.now) }
{
    match item {
        Item::TableName { name } => Ok(Item::TableName {
            name: name.copy(alloc)?,
        }),
        Item::TableList => Ok(Item::TableList),
        Item::Table { table } => Ok(Item::Table { table: *table }),
        Item::Doc { table, id } => Ok(Item::Doc {
            table: *table,
            id: *id,
        }),
        Item::IndexValue { table, field, key } => Ok(Item::IndexValue {
            table: *table,
            field: field.copy(alloc)?,
            key: copy_key(alloc, key)?,
        }),
    }
}

fn copy_key(alloc: Global, key: &Key) -> Result<Key, OutOfMemory>
    ensures { IfOk result (λ new. new ≡ key.now) }
{
    match key {
        Key::Bool(value) => Ok(Key::Bool(*value)),
        Key::Number {
            coefficient,
            exponent,
        } => Ok(Key::Number {
            coefficient: *coefficient,
            exponent: *exponent,
        }),
        Key::Text(text) => Ok(Key::Text(text.copy(alloc)?)),
        Key::Moment(moment) => Ok(Key::Moment(*moment)),
        Key::Clob(bytes) => Ok(Key::Clob(Sequence::from_slice(alloc, bytes.as_slice())?)),
        Key::Blob(bytes) => Ok(Key::Blob(Sequence::from_slice(alloc, bytes.as_slice())?)),
    }
}
