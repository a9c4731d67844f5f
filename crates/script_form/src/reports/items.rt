//! What a transaction read and a block touched, and the keys of values.
ghost use Rattle.std.specs.Prelude.{◌≡◌, ◌++◌, OnOk};
ghost use Rattle.ledger_model.specs.ItemText.{doc_text, index_value_text, item_text, key_text, number_text, table_text};

use super::moments::put_moment;
use super::pieces::{put_blob, put_bool, put_clob, put_identified, put_int, put_named, put_string};
use containers::{OutOfMemory, Text};
use ion_values::Key;
use ledger_model::Item;
use ql_types::{DocId, TableId};
use std::alloc::Global;

/// Puts the kind and the fields of an item.
pub fn put_item(alloc: Global, out: &mut Text, item: &Item) -> Result<(), OutOfMemory>
    ensures { OnOk result (out.new ≡ out.old ++ item_text item.now) }
{
    match item {
        Item::TableName { name } => put_named(alloc, out, "kind:table_name,name:", name),
        Item::TableList => out.push_str("kind:table_list"),
        Item::Table { table } => put_table(out, *table),
        Item::Doc { table, id } => put_doc(out, *table, *id),
        Item::IndexValue { table, field, key } => put_index_value(alloc, out, *table, field, key),
    }
}

fn put_table(out: &mut Text, table: TableId) -> Result<(), OutOfMemory>
    ensures { OnOk result (out.new ≡ out.old ++ table_text table) }
{
    put_identified(out, "kind:table,table:", table.raw)
}

fn put_doc(out: &mut Text, table: TableId, id: DocId) -> Result<(), OutOfMemory>
    ensures { OnOk result (out.new ≡ out.old ++ doc_text table id) }
{
    put_identified(out, "kind:doc,table:", table.raw)?;
    put_identified(out, ",id:", id.raw)?;
    Ok(())
}

fn put_index_value(
    alloc: Global,
    out: &mut Text,
    table: TableId,
    field: &Text,
    key: &Key,
) -> Result<(), OutOfMemory>
    ensures { OnOk result (out.new ≡ out.old ++ index_value_text table field.now key.now) }
{
    put_identified(out, "kind:index_value,table:", table.raw)?;
    put_named(alloc, out, ",field:", field)?;
    out.push_str(",value:")?;
    put_key(alloc, out, key)?;
    Ok(())
}

fn put_key(alloc: Global, out: &mut Text, key: &Key) -> Result<(), OutOfMemory>
    ensures { OnOk result (out.new ≡ out.old ++ key_text key.now) }
{
    match key {
        Key::Bool(truth) => put_bool(out, *truth),
        Key::Number {
            coefficient,
            exponent,
        } => put_decimal(alloc, out, *coefficient, *exponent),
        Key::Text(text) => put_string(alloc, out, text),
        Key::Moment(moment) => put_moment(alloc, out, *moment),
        Key::Clob(bytes) => put_clob(alloc, out, bytes.as_slice()),
        Key::Blob(bytes) => put_blob(alloc, out, bytes.as_slice()),
    }
}

/// Puts a number as a decimal, whose exponent may be outside the limits of decimals.
fn put_decimal(
    alloc: Global,
    out: &mut Text,
    coefficient: i128,
    exponent: i32,
) -> Result<(), OutOfMemory>
    ensures { OnOk result (out.new ≡ out.old ++ number_text coefficient exponent) }
{
    put_int(alloc, out, coefficient)?;
    out.push_str("d")?;
    put_int(alloc, out, exponent as i128)
}
