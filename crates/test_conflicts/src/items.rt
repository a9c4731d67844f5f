//! Items of footprints as rows spell them.
use containers::Sequence;
use ion_order::key;
use ion_values::{Field, OutOfMemory, Text, Value};
use ledger_model::Item;
use ql_types::{DocId, TableId, id_read};
use script_form::put_item;
use std::alloc::Global;
use test_rows::{fields_in, named, put_separator, text_in};

fn text(alloc: Global, item: &[Field], name: &str) -> Option<Text> {
    Text::from_text(alloc, text_in(named(item, name)?)?).ok()
}

/// The number of an id.
fn id(item: &[Field], name: &str) -> Option<u128> {
    id_read(text_in(named(item, name)?)?.as_bytes()).ok()
}

fn table(item: &[Field]) -> Option<TableId> {
    Some(TableId {
        raw: id(item, "table")?,
    })
}

fn index_value(alloc: Global, item: &[Field]) -> Option<Item> {
    let table = table(item)?;
    let key = key(alloc, named(item, "value")?).ok()??;
    let field = text(alloc, item, "field")?;
    Some(Item::IndexValue { table, field, key })
}

fn item(alloc: Global, item: &[Field]) -> Option<Item> {
    match text_of_kind(item)? {
        "table_name" => Some(Item::TableName {
            name: text(alloc, item, "name")?,
        }),
        "table_list" => Some(Item::TableList),
        "table" => Some(Item::Table {
            table: table(item)?,
        }),
        "doc" => Some(Item::Doc {
            table: table(item)?,
            id: DocId {
                raw: id(item, "id")?,
            },
        }),
        "index_value" => index_value(alloc, item),
        _ => None,
    }
}

fn text_of_kind(item: &[Field]) -> Option<&str> {
    text_in(named(item, "kind")?)
}

/// The items that values spell.
pub fn items(alloc: Global, values: &[Value]) -> Option<Sequence<Item>> {
    let mut items = Sequence::new(alloc);
    for value in values {
        items.push(item(alloc, fields_in(value)?)?).ok()?;
    }
    Some(items)
}

/// Puts an item between braces.
pub fn put_braced(alloc: Global, item: &Item, out: &mut Text) -> Result<(), OutOfMemory> {
    out.push_str("{")?;
    put_item(alloc, out, item)?;
    out.push_str("}")
}

/// Puts items as a list.
pub fn put_list(alloc: Global, items: &[Item], out: &mut Text) -> Result<(), OutOfMemory> {
    out.push_str("[")?;
    for (at, item) in items.iter().enumerate() {
        put_separator(out, at, ",")?;
        put_braced(alloc, item, out)?;
    }
    out.push_str("]")
}
