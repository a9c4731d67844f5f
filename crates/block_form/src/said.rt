//! What a transaction said and did, as a value.
ghost use Rattle.std.specs.Prelude.{◌≡◌, map, IfOk};
ghost use Rattle.ledger_model.specs.Journal.{list, place_value, said_value, told_field, change_value, redact_value, schema_value, document_value, document_values, info_fields, info_value};

use crate::told::told_field;
use containers::Sequence;
use ion_values::{Field, Fields, OutOfMemory, Text, Value, Values, copy_values};
use ledger_model::{Info, Revision, Said, Schema};
use ql_types::{BlockAddress, DocId, Place, TableId};
use std::alloc::Global;
use value_codec::parts::{address_value, id_value, list, number, put, string, structure};

fn place_value(alloc: Global, place: &Place) -> Result<Value, OutOfMemory>
    ensures { IfOk result (λ v. v ≡ place_value place.now) }
{
    let mut fields = Sequence::new(alloc);
    put(
        alloc,
        &mut fields,
        "session",
        number(alloc, u64::from(place.session)),
    )?;
    put(
        alloc,
        &mut fields,
        "transaction",
        number(alloc, u64::from(place.transaction)),
    )?;
    Ok(structure(alloc, fields))
}

fn copied_list(alloc: Global, values: &Values) -> Result<Value, OutOfMemory>
    ensures { IfOk result (λ v. v ≡ list values.now) }
{
    Ok(list(alloc, copy_values(alloc, values.as_slice())?))
}

fn said_value(alloc: Global, said: &Said) -> Result<Value, OutOfMemory>
    ensures { IfOk result (λ v. v ≡ said_value said.now) }
{
    let mut fields = Sequence::new(alloc);
    put(alloc, &mut fields, "statement", string(alloc, &said.text)?)?;
    put(
        alloc,
        &mut fields,
        "parameters",
        copied_list(alloc, &said.params)?,
    )?;
    put(
        alloc,
        &mut fields,
        "answer",
        copied_list(alloc, &said.answer.rows)?,
    )?;
    Ok(structure(alloc, fields))
}

pub(crate) fn said_values(alloc: Global, said: &[Said]) -> Result<Values, OutOfMemory>
    ensures { IfOk result (λ values. values ≡ map said_value said.now) }
{
    let mut values = Sequence::new(alloc);
    for one in said {
        values.push(said_value(alloc, one)?)?;
    }
    Ok(values)
}

/// A change of this kind, to a table by this name.
fn change_value(
    alloc: Global,
    change: &str,
    name: &Text,
    table: TableId,
) -> Result<Value, OutOfMemory>
    ensures { IfOk result (λ v. v ≡ change_value change.now name.now table) }
{
    let mut fields = Sequence::new(alloc);
    put(alloc, &mut fields, change, string(alloc, name)?)?;
    put(alloc, &mut fields, "tableId", id_value(alloc, table.raw)?)?;
    Ok(structure(alloc, fields))
}

/// The redaction of the revision of a document in the block at this address.
fn redact_value(
    alloc: Global,
    address: &BlockAddress,
    table: TableId,
    document: DocId,
) -> Result<Value, OutOfMemory>
    ensures { IfOk result (λ v. v ≡ redact_value address.now table document) }
{
    let mut fields = Sequence::new(alloc);
    put(alloc, &mut fields, "redact", address_value(alloc, address)?)?;
    put(alloc, &mut fields, "tableId", id_value(alloc, table.raw)?)?;
    put(
        alloc,
        &mut fields,
        "documentId",
        id_value(alloc, document.raw)?,
    )?;
    Ok(structure(alloc, fields))
}

fn schema_value(alloc: Global, schema: &Schema) -> Result<Value, OutOfMemory>
    ensures { IfOk result (λ v. v ≡ schema_value schema.now) }
{
    match schema {
        Schema::Create { name, table } => change_value(alloc, "create", name, *table),
        Schema::Index { field, table } => change_value(alloc, "index", field, *table),
        Schema::Drop { name, table } => change_value(alloc, "drop", name, *table),
        Schema::Redact {
            address,
            table,
            document,
        } => redact_value(alloc, address, *table, *document),
    }
}

fn schema_values(alloc: Global, schema: &[Schema]) -> Result<Values, OutOfMemory>
    ensures { IfOk result (λ values. values ≡ map schema_value schema.now) }
{
    let mut values = Sequence::new(alloc);
    for change in schema {
        values.push(schema_value(alloc, change)?)?;
    }
    Ok(values)
}

/// The document of a revision, and its table.
fn document_value(alloc: Global, table: &TableId, revision: &Revision) -> Result<Value, OutOfMemory>
    ensures { IfOk result (λ v. v ≡ document_value table.now revision.now) }
{
    let mut fields = Sequence::new(alloc);
    put(
        alloc,
        &mut fields,
        "documentId",
        id_value(alloc, revision.metadata.id.raw)?,
    )?;
    put(alloc, &mut fields, "tableId", id_value(alloc, table.raw)?)?;
    Ok(structure(alloc, fields))
}

fn document_values(
    alloc: Global,
    tables: &[TableId],
    revisions: &[Revision],
) -> Result<Values, OutOfMemory>
    ensures { IfOk result (λ values. values ≡ document_values tables.now revisions.now) }
{
    let mut values = Sequence::new(alloc);
    let shorter = tables.len().min(revisions.len());
    'documents: for at in 0..shorter {
        values.push(document_value(alloc, &tables[at], &revisions[at])?)?;
    }
    Ok(values)
}

/// The fields of what a transaction said and did. `told` is the field of its statements.
pub(crate) fn info_fields(
    alloc: Global,
    info: &Info,
    told: Field,
    revisions: &[Revision],
) -> Result<Fields, OutOfMemory>
    requires { told ≡ told_field info.now.said }
    ensures { IfOk result (λ fields. fields ≡ info_fields info.now revisions.now) }
{
    let schema = schema_values(alloc, info.schema.as_slice())?;
    let documents = document_values(alloc, info.tables.as_slice(), revisions)?;
    let mut fields = Sequence::new(alloc);
    put(
        alloc,
        &mut fields,
        "place",
        place_value(alloc, &info.place)?,
    )?;
    fields.push(told)?;
    put(alloc, &mut fields, "schema", list(alloc, schema))?;
    put(alloc, &mut fields, "documents", list(alloc, documents))?;
    Ok(fields)
}

/// What a transaction said and did, as a value.
pub fn info_value(alloc: Global, info: &Info, revisions: &[Revision]) -> Result<Value, OutOfMemory>
    ensures { IfOk result (λ v. v ≡ info_value info.now revisions.now) }
{
    let told = told_field(alloc, &info.said)?;
    let fields = info_fields(alloc, info, told, revisions)?;
    Ok(structure(alloc, fields))
}
